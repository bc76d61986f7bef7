//! Sizes of loops, and the records that are told of their phases, against figures from outside. This crate has tests alone.
#![tactic(auto)]

#[cfg(test)]
mod tests;
