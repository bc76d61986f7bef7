//! One beat of a vector: a weighed sum of the vectors before and after its ticks.
//!
//! A beat is so short that about one event happens in it. [`Workspace::beat`] replaces a vector by lower bounds of what it
//! is after the beat, and adds lower bounds of its mean during the beat to a dwell. It takes no memory: [`Workspace::new`]
//! takes it once for a size.
//!
//! Nothing is lost that the weights do not lack, but for one tick in the mean, and less than one unit at each state.
#![tactic(auto)]

mod sums;
mod workspace;

pub use workspace::Workspace;
