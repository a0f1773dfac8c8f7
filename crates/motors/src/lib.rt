//! A motor for each axis, all moving by one rule for one axis.
#![tactic(auto)]

pub mod bank;
pub mod motor;
pub mod ranged;
pub mod rule;
