//! The queue of one axis: the codes and entries that wait in it, and the ring that holds them.
#![tactic(auto)]

pub mod axis;
pub mod entry;
pub mod history;
mod ring;
#[cfg(test)]
mod tests;
