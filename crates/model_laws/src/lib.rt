//! Laws of the definitions, for contracts and proofs alone: no code runs here.
//!
//! - `proofs/Series`: the sum of the series' tails.
//! - `proofs/Operators`: iterates of linear operators; the uniformised step is linear and keeps constants.
//! - `proofs/Beats`: so do a beat and its mean; coefficients below the terms of the series stay below a beat.
//! - `proofs/Weighing`: a vector of whole numbers pushed forward through ticks and beats weighs at most what it weighed
//!   before, by the values asked backwards.
//! - `proofs/Pays`: what a vector pays in a beat, in any mode.
//! - `proofs/Totals`: the complement law. `proofs/Rates`: the uniformised rate law.
//! - `proofs/Shares`: the share of the repair crews.
#![tactic(auto)]

ghost use Rattle.model_laws.specs.Laws.{ComplementLaw, UniformisedRateLaw, ShareLaw, LinearBeats};

/// Over every schedule of short beats, the time down and the time up come to the hours that count.
pub fn complement_law()
    ensures { ComplementLaw }
{}

/// A phase with as many beats as the definition asks has short steps.
pub fn uniformised_rate_law()
    ensures { UniformisedRateLaw }
{}

/// A channel is repaired at a rate that goes by how many channels of its subsystem are in repair, and its share of the
/// crews is above 0 and at most 1.
pub fn share_law()
    ensures { ShareLaw }
{}

/// The uniformised step and its beats are linear.
pub fn linear_beats()
    ensures { LinearBeats }
{}
