//! The report of a received block: a line for each of its texts, and how many there are.
#![tactic(auto)]

mod block;
mod shown;
mod tally;
mod teller;

pub use block::report;
pub use teller::{Teller, Told};
