//! What one text asks for, or its refusal.
#![tactic(auto)]

mod bench;
mod fields;
mod mount;
mod operands;
mod reading;
pub mod request;
mod setting;
mod tail;

pub use reading::{LONGEST, read, read_setting};
