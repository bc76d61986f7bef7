//! A phase by each way. The chain is timed for it.

ghost use Rattle.std.specs.Prelude.{◌≡◌, ℕ, ◌+◌, ◌*◌, ◌^◌, ◌<◌, ◌≤◌, length, All};
ghost use Rattle.sil_model.specs.Calendar.{beats_of};
ghost use Rattle.sil_model.specs.Sizes.{states_of};
ghost use Rattle.vector_laws.specs.Vectors.{IsMass};
ghost use Rattle.phase_way.specs.Choice.{MayPass};
ghost use Rattle.phase_way.specs.Passed.{IsPassed};
ghost use Rattle.phase_way.specs.Rooms.{AreRooms};
ghost use Rattle.phase_way.specs.Ways.{products_by};
ghost use Rattle.phase_way.specs.declared.choice.Way.TheVariants.{Blocks, Powers, Subsystems};

use crate::rooms::Rooms;
use phase_powers::run_phase_powered;
use phase_run::{Phase, run_phase_by_ladder};
use phase_separate::run_phase_separately;
use sil_model::Steps;
use std::sync::ledger::Ledger;

/// A phase in blocks of beats.
pub fn pass_in_blocks<L: Ledger>(
    m: &mut Rooms,
    v: &mut [u64],
    mean: &mut [u128],
    dwell: &mut [u128],
    steps: &mut Steps<L>,
)
    requires rooms { AreRooms m.old }
    requires v { length v.old ≡ states_of m.old.space.subsystems }
    requires mean { length mean.old ≡ states_of m.old.space.subsystems }
    requires dwell { length dwell.old ≡ states_of m.old.space.subsystems }
    requires mass { IsMass v.old }
    requires room { All (λ x. x + m.old.hours * 2 ^ 48 ≤ 350_400 * 2 ^ 48) dwell.old }
    ensures rooms { AreRooms m.new }
    ensures space { m.new.space ≡ m.old.space }
    ensures weights { m.new.weights ≡ m.old.weights }
    ensures passed { IsPassed m.old.space.subsystems m.old.weights m.old.hours v.old mean.new v.new dwell.old dwell.new }
    ensures steps { (digits : ℕ) → beats_of m.old.space.subsystems m.old.hours < 2 ^ digits
        → steps.new ≤ steps.old + products_by m.old.space.subsystems m.old.weights (beats_of m.old.space.subsystems m.old.hours) digits Blocks }
{
    let phase = Phase {
        chain: &m.chain,
        weights: &m.weights,
        hours: m.hours,
        beats: m.chain.beats(),
    };
    run_phase_by_ladder(&mut m.ladder, &mut m.work, &phase, v, mean, dwell, steps);
}

/// A phase by the powers of its beat.
pub fn pass_by_powers<L: Ledger>(
    m: &mut Rooms,
    v: &mut [u64],
    mean: &mut [u128],
    dwell: &mut [u128],
    steps: &mut Steps<L>,
)
    requires rooms { AreRooms m.old }
    requires may { MayPass m.old.choice (beats_of m.old.space.subsystems m.old.hours) Powers }
    requires v { length v.old ≡ states_of m.old.space.subsystems }
    requires mean { length mean.old ≡ states_of m.old.space.subsystems }
    requires dwell { length dwell.old ≡ states_of m.old.space.subsystems }
    requires mass { IsMass v.old }
    requires room { All (λ x. x + m.old.hours * 2 ^ 48 ≤ 350_400 * 2 ^ 48) dwell.old }
    ensures rooms { AreRooms m.new }
    ensures space { m.new.space ≡ m.old.space }
    ensures weights { m.new.weights ≡ m.old.weights }
    ensures passed { IsPassed m.old.space.subsystems m.old.weights m.old.hours v.old mean.new v.new dwell.old dwell.new }
    ensures steps { (digits : ℕ) → beats_of m.old.space.subsystems m.old.hours < 2 ^ digits
        → steps.new ≤ steps.old + products_by m.old.space.subsystems m.old.weights (beats_of m.old.space.subsystems m.old.hours) digits Powers }
{
    let phase = Phase {
        chain: &m.chain,
        weights: &m.weights,
        hours: m.hours,
        beats: m.chain.beats(),
    };
    match &mut m.powers {
        Some(powers) => run_phase_powered(powers, &mut m.work, &phase, v, mean, dwell, steps),
        None => unreachable!(),
    }
}

/// A phase by each subsystem for itself.
pub fn pass_by_subsystems<L: Ledger>(
    m: &mut Rooms,
    v: &mut [u64],
    mean: &mut [u128],
    dwell: &mut [u128],
    steps: &mut Steps<L>,
)
    requires rooms { AreRooms m.old }
    requires may { MayPass m.old.choice (beats_of m.old.space.subsystems m.old.hours) Subsystems }
    requires v { length v.old ≡ states_of m.old.space.subsystems }
    requires mean { length mean.old ≡ states_of m.old.space.subsystems }
    requires dwell { length dwell.old ≡ states_of m.old.space.subsystems }
    requires mass { IsMass v.old }
    requires room { All (λ x. x + m.old.hours * 2 ^ 48 ≤ 350_400 * 2 ^ 48) dwell.old }
    ensures rooms { AreRooms m.new }
    ensures space { m.new.space ≡ m.old.space }
    ensures weights { m.new.weights ≡ m.old.weights }
    ensures passed { IsPassed m.old.space.subsystems m.old.weights m.old.hours v.old mean.new v.new dwell.old dwell.new }
    ensures steps { (digits : ℕ) → beats_of m.old.space.subsystems m.old.hours < 2 ^ digits
        → steps.new ≤ steps.old + products_by m.old.space.subsystems m.old.weights (beats_of m.old.space.subsystems m.old.hours) digits Subsystems }
{
    let phase = Phase {
        chain: &m.chain,
        weights: &m.weights,
        hours: m.hours,
        beats: m.chain.beats(),
    };
    match &mut m.subsystems {
        Some(subsystems) => run_phase_separately(
            subsystems,
            &mut m.work,
            &phase,
            v,
            mean,
            dwell,
            steps,
        ),
        None => unreachable!(),
    }
}
