//! Roundings, weights, matrices, ladders, ticks of chains, tests of an hour, and one beat.

/// One, in units of 2^-48.
const ONE: u64 = 1 << 48;

mod beats;
mod blocks;
mod chains;
mod entries;
mod hours;
mod lines;
mod places;
mod powers;
mod roundings;
mod weights;
