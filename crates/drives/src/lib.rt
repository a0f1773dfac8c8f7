//! Three drives: counting, reporting, and ratio over any other.
#![tactic(auto)]

pub mod banked;
pub mod counting;
pub mod ratio;
pub mod reporting;
pub mod up_to;
