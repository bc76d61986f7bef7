//! The beats of a phase by a ladder, over places that hold mass.

ghost use Rattle.std.specs.Prelude.{◌≡◌, ◌+◌, ◌*◌, ◌^◌, ◌≤◌, length, All};
ghost use Rattle.sil_model.specs.Sizes.{states_of};
ghost use Rattle.vector_laws.specs.Vectors.{IsMass};
ghost use Rattle.uniformise.specs.Beat.{beat_products};
ghost use Rattle.phase_run.specs.Runs.{RunsPhase};

use crate::phase::Phase;
use crate::places::LadderRoom;
use crate::{pass_beats, settle};
use sil_model::Steps;
use std::sync::ledger::Ledger;
use uniformise::Workspace;

/// Runs the beats of a phase by the rungs of a ladder, over places that come to hold enough or all that the vector reaches;
/// where the ladder has no rung, one by one. `v` becomes lower bounds of the vector at its end, `mean` lower bounds of its mean
/// over the phase, and `dwell_hours` grows by lower bounds of hours times that mean. All are in units of 2^-48.
pub fn run_phase_by_ladder<L: Ledger>(
    room: &mut LadderRoom,
    work: &mut Workspace,
    phase: &Phase<'_>,
    v: &mut [u64],
    mean: &mut [u128],
    dwell_hours: &mut [u128],
    steps: &mut Steps<L>,
)
    requires beats { phase.now.beats ≡ phase.now.chain.now.beats }
    requires hours { phase.now.hours ≡ phase.now.chain.now.hours }
    requires places { room.old ≡ phase.now.chain.now.of }
    requires work { work.old ≡ states_of phase.now.chain.now.of.subsystems }
    requires v { length v.old ≡ states_of phase.now.chain.now.of.subsystems }
    requires mean { length mean.old ≡ states_of phase.now.chain.now.of.subsystems }
    requires dwell { length dwell_hours.old ≡ states_of phase.now.chain.now.of.subsystems }
    requires mass { IsMass v.old }
    requires room { All (λ x. x + phase.now.hours * 2 ^ 48 ≤ 350_400 * 2 ^ 48) dwell_hours.old }
    ensures places { room.new ≡ room.old }
    ensures work { work.new ≡ work.old }
    ensures runs { RunsPhase phase.now.chain.now.of.subsystems phase.now.weights.now phase.now.hours phase.now.beats v.old v.new mean.new dwell_hours.old dwell_hours.new }
    ensures steps { steps.new ≤ steps.old + phase.now.beats * beat_products phase.now.chain.now.of.subsystems phase.now.weights.now }
{
    prove!(phase.beats == phase.chain.beats());
    prove!(phase.weights.order() >= 16);
    mean.fill(0);
    let left = room.pass_blocks(phase.chain, phase.beats, v, mean, steps);
    pass_beats(work, phase.chain, phase.weights, left, v, mean, steps);
    settle(mean, phase.beats, phase.hours, dwell_hours);
}
