//! Runs of the whole program, over a shelf and a sink in memory, and reports against figures from outside. This crate has tests
//! alone.
#![tactic(auto)]

#[cfg(test)]
mod tests;
