//! The beats of a phase all at once, by the powers of its beat, for loops of at most 64 states.
//!
//! [`run_phase_powered`] pushes a vector through a phase by two matrices: that of the phase's end and that of the dwell in it.
//! [`Powers`] makes them from the vectors after one beat, and keeps them for the phases of the same length. It is worth its
//! while where a phase has many beats: it makes some `4 * states^3` products for each binary digit of these.
//!
//! - `rows`: the matrices of one beat. `matrices`: those of a phase, and which phase that is. `powers`: the public type.
//!
//! Only [`Powers::new`] takes memory.
#![tactic(auto)]

mod kept;
mod matrices;
mod powers;
mod rows;

ghost use Rattle.std.specs.Prelude.{◌≡◌, ℕ, Some, ◌+◌, ◌*◌, ◌^◌, ◌<◌, ◌≤◌, length, All};
ghost use Rattle.sil_model.specs.Sizes.{states_of};
ghost use Rattle.vector_laws.specs.Vectors.{IsMass};
ghost use Rattle.phase_run.specs.Runs.{RunsPhase};
ghost use Rattle.phase_powers.specs.Kept.{IsOfNoOther};
ghost use Rattle.phase_powers.specs.Products.{powered_products};

use phase_run::{Phase, settle};
pub use powers::Powers;
use sil_model::Steps;
use std::sync::ledger::Ledger;
use uniformise::Workspace;

/// Runs the beats of a phase by the powers of its beat: `v` becomes lower bounds of the vector at its end, `mean` lower bounds
/// of its mean over the phase, and `dwell_hours` grows by lower bounds of hours times that mean. All are in units of 2^-48. The
/// powers serve one loop alone.
pub fn run_phase_powered<L: Ledger>(
    powers: &mut Powers,
    work: &mut Workspace,
    phase: &Phase<'_>,
    v: &mut [u64],
    mean: &mut [u128],
    dwell_hours: &mut [u128],
    steps: &mut Steps<L>,
)
    requires beats { phase.now.beats ≡ phase.now.chain.now.beats }
    requires hours { phase.now.hours ≡ phase.now.chain.now.hours }
    requires size { powers.old.size ≡ states_of phase.now.chain.now.of.subsystems }
    requires same { IsOfNoOther powers.old.of phase.now.chain.now.of }
    requires work { work.old ≡ states_of phase.now.chain.now.of.subsystems }
    requires v { length v.old ≡ states_of phase.now.chain.now.of.subsystems }
    requires mean { length mean.old ≡ states_of phase.now.chain.now.of.subsystems }
    requires dwell { length dwell_hours.old ≡ states_of phase.now.chain.now.of.subsystems }
    requires mass { IsMass v.old }
    requires room { All (λ x. x + phase.now.hours * 2 ^ 48 ≤ 350_400 * 2 ^ 48) dwell_hours.old }
    ensures powers { powers.new ≡ record { size = powers.old.size; of = Some phase.now.chain.now.of } }
    ensures work { work.new ≡ work.old }
    ensures runs { RunsPhase phase.now.chain.now.of.subsystems phase.now.weights.now phase.now.hours phase.now.beats v.old v.new mean.new dwell_hours.old dwell_hours.new }
    // For every number of binary digits that the beats have room in.
    ensures steps { (digits : ℕ) → phase.now.beats < 2 ^ digits → steps.new ≤ steps.old + powered_products phase.now.chain.now.of.subsystems phase.now.weights.now digits }
{
    prove!(phase.beats == phase.chain.beats());
    powers.pass_beats(work, phase, v, mean, steps);
    settle(mean, phase.beats, phase.hours, dwell_hours);
}
