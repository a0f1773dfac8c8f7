//! What a drive is: the axes, the range of their numbers, the health of each, and the trait that a controller is written over.
#![tactic(auto)]

pub mod axis;
pub mod health;
pub mod motion;
pub mod range;
