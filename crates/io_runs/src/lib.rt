//! Shelves and sinks that fail and stall where it is planned, real files, and writers that take little or fail. This crate
//! has tests alone.
#![tactic(auto)]

#[cfg(test)]
mod tests;
