//! Runs the worked examples of `explain`, for each of its three readings.
#![tactic(auto)]

#[cfg(test)]
mod tests;
