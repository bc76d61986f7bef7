//! The beats of a phase, each subsystem of the loop for itself.
//!
//! Between tests the subsystems of a loop do not hang on each other: m beats of the loop are m beats of each subsystem, one
//! subsystem after another. The beats of a subsystem are a small matrix, and so are twice as many. [`run_phase_separately`]
//! passes a phase so, where each subsystem has at most 64 count vectors. It is worth its while where a phase has many beats.
//!
//! A loop's beat is cut off at an order; the beats of its subsystems come to more ticks than that together. What is beyond the
//! order is a small part of what is there sixteen beats later, so that each number is lowered by that part.
//!
//! - `along`: a vector passed along the subsystems. `visit`: the sum of the vectors at the start of each beat, by doublings.
//! - `lower`: what is beyond the order. `means`: the mean beat of a phase. `phase`: what a vector passes and dwells in it.
//! - `subsystems`: the subsystems of a loop. `room`: the public type. `extent`: how large the subsystems are, and what they cost.
//!
//! Only [`SeparateRoom::new`] takes memory.
#![tactic(auto)]

mod along;
mod extent;
mod lower;
mod means;
mod phase;
mod room;
mod subsystems;
mod visit;

ghost use Rattle.std.specs.Prelude.{◌≡◌, ℕ, ◌+◌, ◌*◌, ◌^◌, ◌<◌, ◌≤◌, length, All};
ghost use Rattle.sil_model.specs.Sizes.{states_of};
ghost use Rattle.vector_laws.specs.Vectors.{IsMass};
ghost use Rattle.phase_run.specs.Runs.{RunsPhase};
ghost use Rattle.phase_separate.specs.Losses.{LoseLittle};
ghost use Rattle.phase_separate.specs.Products.{separate_products};

pub use extent::Extent;
use phase_run::{Phase, settle};
pub use room::SeparateRoom;
use sil_model::Steps;
use std::sync::ledger::Ledger;
use uniformise::Workspace;

/// Runs the beats of a phase, each subsystem for itself: `v` becomes lower bounds of the vector at its end, `mean` lower bounds
/// of its mean over the phase, and `dwell_hours` grows by lower bounds of hours times that mean. All are in units of 2^-48.
pub fn run_phase_separately<L: Ledger>(
    room: &mut SeparateRoom,
    work: &mut Workspace,
    phase: &Phase<'_>,
    v: &mut [u64],
    mean: &mut [u128],
    dwell_hours: &mut [u128],
    steps: &mut Steps<L>,
)
    requires beats { phase.now.beats ≡ phase.now.chain.now.beats }
    requires hours { phase.now.hours ≡ phase.now.chain.now.hours }
    requires same { room.old ≡ phase.now.chain.now.of }
    requires work { work.old ≡ states_of phase.now.chain.now.of.subsystems }
    requires v { length v.old ≡ states_of phase.now.chain.now.of.subsystems }
    requires mean { length mean.old ≡ states_of phase.now.chain.now.of.subsystems }
    requires dwell { length dwell_hours.old ≡ states_of phase.now.chain.now.of.subsystems }
    requires mass { IsMass v.old }
    requires room { All (λ x. x + phase.now.hours * 2 ^ 48 ≤ 350_400 * 2 ^ 48) dwell_hours.old }
    requires little { LoseLittle phase.now.chain.now.of.subsystems phase.now.beats }
    ensures room { room.new ≡ room.old }
    ensures work { work.new ≡ work.old }
    ensures runs { RunsPhase phase.now.chain.now.of.subsystems phase.now.weights.now phase.now.hours phase.now.beats v.old v.new mean.new dwell_hours.old dwell_hours.new }
    // For every number of binary digits that the beats have room in.
    ensures steps { (digits : ℕ) → phase.now.beats < 2 ^ digits → steps.new ≤ steps.old + separate_products phase.now.chain.now.of.subsystems digits }
{
    prove!(phase.beats == phase.chain.beats());
    prove!(phase.weights.order() >= 16);
    room.pass_beats(work, phase, v, mean, steps);
    settle(mean, phase.beats, phase.hours, dwell_hours);
}
