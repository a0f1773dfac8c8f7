//! Steps of the drives by example, and a drive that never begins.
#![tactic(auto)]

pub mod locked;
#[cfg(test)]
mod tests;
