//! Texts that are read and written, line by line. This crate has tests alone.
#![tactic(auto)]

#[cfg(test)]
mod tests;
