//! A phase: what its beats go by.

use product_chain::Chain;
use series_weights::Weights;

/// A phase of so many hours in so many beats: the chain that is timed for it, and the weights of its beats.
#[derive(Clone, Copy)]
pub struct Phase<'a> {
    /// The chain of a tick.
    pub chain: &'a Chain,
    /// The weights of a beat.
    pub weights: &'a Weights,
    /// The hours of the phase, which are those of the chain.
    pub hours: u64,
    /// The beats of the phase, which are those of the chain.
    pub beats: u64,
}
