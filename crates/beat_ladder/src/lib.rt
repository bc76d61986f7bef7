//! A ladder of blocks of beats: 1, 2, 4, .. 4,096 beats of a vector, each by one weighed sum of its ticks.
//!
//! A beat of a vector is a polynomial of its tick, with the weights of `series_weights` as its numbers. So 2^e beats are one
//! too: its numbers are that polynomial squared e times, each number rounded down. They stay below the exact ones at every
//! order from 16 on, and take about 1.1 to 1.5 ticks a beat in place of 16.
//!
//! - [`Ladder::new`] makes the numbers of 1, 2, 4, .. beats, once. It makes no product with a number of a vector, and counts none.
//! - A [`Rung`] of it has the numbers that weigh the end, and their tails, which weigh what is dwelt on the way.
//! - [`BlockRoom::pass`] passes the beats of a rung, with any [`Tick`].
//!
//! How much the numbers lack is computed and not proved: a rung that lacks too much is left out, and the one before it
//! serves twice.
#![tactic(auto)]

mod block;
mod ladder;
mod room;
mod rung;
mod square;
mod sums;
mod tick;

pub use ladder::Ladder;
pub use room::BlockRoom;
pub use rung::Rung;
pub use tick::Tick;
