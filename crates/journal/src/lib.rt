//! A list of calls, made on a new controller, and what each of them told.
#![tactic(auto)]

mod calls;
mod making;
mod running;

pub use calls::{Call, Outcome};
pub use running::run;
