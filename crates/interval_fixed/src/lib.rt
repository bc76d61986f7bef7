//! Fixed point numbers in units of 2^-48 with directed rounding.
//!
//! - [`ratio_down`] and [`ratio_up`] round a ratio of at most 1 down and up.
//! - [`Dot`] is an exact sum of products that are counted, and is rounded once, at the end.
//! - [`Interval`] holds an unknown number between two of these, and is printed as a [`sil_model::Decimal18`].
//!
//! Each call is plain arithmetic on one `u128`. None takes memory, and none refuses.
#![tactic(auto)]

mod dot;
mod interval;
mod ratio;

pub use dot::Dot;
pub use interval::Interval;
pub use ratio::{ONE, ratio_down, ratio_up};
