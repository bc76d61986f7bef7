//! Phases of loops that are passed in each way, against the exponential. This crate has tests alone.
#![tactic(auto)]

#[cfg(test)]
mod tests;
