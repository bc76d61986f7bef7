//! What is counted of loops before any figure is computed, against values worked out apart. This crate has tests alone.
#![tactic(auto)]

#[cfg(test)]
mod tests;
