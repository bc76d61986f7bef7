//! What is computed of one phase.

use sil_model::Decimal18;

/// A phase of a mission, from one test hour to the next, and the chance that the loop is down.
#[derive(Clone, Copy, Debug, PartialEq, Eq)]
pub struct PhaseRecord {
    /// Which phase of the mission it is, counted from 1.
    pub index: u32,
    /// The hour of the mission at which it starts.
    pub start: u64,
    /// How many hours it lasts.
    pub hours: u64,
    /// The mean over the phase of the chance that the loop is down.
    pub mean: Decimal18,
    /// The chance that the loop is down after the last beat of the phase, before the tests.
    pub at_end: Decimal18,
}
