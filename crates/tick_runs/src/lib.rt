//! The numbers of ticks and beats, against numbers worked out apart. This crate has tests alone.
#![tactic(auto)]

#[cfg(test)]
mod tests;
