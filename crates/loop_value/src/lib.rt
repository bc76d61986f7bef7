//! The figures of a loop, and how large its computation is.
#![tactic(auto)]

mod ends;
mod evaluating;
mod measuring;
mod mission;
mod preparing;
mod sides;
mod telling;

pub use evaluating::value;
pub use measuring::{ValueFault, measure};
