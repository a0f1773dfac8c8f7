//! Runs the tables of the rule book for what one text asks for.
#![tactic(auto)]

#[cfg(test)]
mod tests;
