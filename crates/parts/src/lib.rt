//! What entries act on, and what each call makes of it, one axis after the other.
#![tactic(auto)]

mod machine;
mod post;
mod rows;

pub use machine::Machine;
