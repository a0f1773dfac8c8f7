//! A session with a controller: each call is made, and what it told is printed.
#![tactic(auto)]

mod alike;
mod lines;
mod printing;
mod showing;

pub use alike::{counting, reporting};
pub use lines::answer_line;
pub use printing::{command, park, sample, set, step};
pub use showing::show;
