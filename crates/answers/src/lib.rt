//! What is written into an answer block: numbers on a line, and the first-error record.
#![tactic(auto)]

mod figures;
mod line;
mod record;

pub use figures::{Question, write_figures};
pub use record::ErrorRecord;
