//! Many beats at once, by the rungs of a ladder.

ghost use Rattle.std.specs.Prelude.{◌≡◌, ℕ, ◌+◌, ◌-◌, ◌*◌, ◌^◌, ◌<◌, ◌≤◌, length, slice_index};
ghost use Rattle.vector_laws.specs.Vectors.{IsMass};
ghost use Rattle.beat_ladder.specs.Losses.{IsStep};
ghost use Rattle.beat_ladder.specs.Rungs.{IsUsable};
ghost use Rattle.phase_run.specs.Passes.{PassesBy, beat_loss_in_blocks, beat_products_in_blocks};

use beat_ladder::{BlockRoom, Ladder, Rung, Tick};
use sil_model::Steps;
use std::sync::ledger::Ledger;

/// Passes the beats of a rung so many times.
fn pass_rung<T: Tick, L: Ledger>(
    room: &mut BlockRoom,
    tick: &T,
    rung: &Rung,
    times: u64,
    v: &mut [u64],
    dwell: &mut [u128],
    steps: &mut Steps<L>,
)
    requires usable { IsUsable rung.now }
    requires size { T.size tick.now ≤ room.old }
    requires v { length v.old ≡ T.size tick.now }
    requires dwell { length dwell.old ≡ T.size tick.now }
    requires mass { IsMass v.old }
    requires room { (k : ℕ) → k < length dwell.old → slice_index dwell.old k + times * 2 ^ rung.now.exponent * 2 ^ 48 ≤ 1_000_000 * 2 ^ 48 }
    ensures size { room.new ≡ room.old }
    ensures passes { PassesBy (IsStep (T.step tick.now)) 16 (beat_loss_in_blocks (T.loss tick.now) (T.size tick.now)) (times * 2 ^ rung.now.exponent) v.old v.new dwell.old dwell.new }
    ensures steps { steps.new ≤ steps.old + times * 2 ^ rung.now.exponent * beat_products_in_blocks (T.products tick.now) (T.size tick.now) }
{
    for _ in 0..times {
        room.pass(tick, rung, v, dwell, steps);
    }
}

/// Passes beats by the rungs of a ladder, the greatest first, and answers how many are left: none, if it has a rung.
pub fn pass_blocks<T: Tick, L: Ledger>(
    ladder: &Ladder,
    room: &mut BlockRoom,
    tick: &T,
    beats: u64,
    v: &mut [u64],
    dwell: &mut [u128],
    steps: &mut Steps<L>,
) -> u64
    requires size { T.size tick.now ≤ room.old }
    requires v { length v.old ≡ T.size tick.now }
    requires dwell { length dwell.old ≡ T.size tick.now }
    requires mass { IsMass v.old }
    requires room { (k : ℕ) → k < length dwell.old → slice_index dwell.old k + beats * 2 ^ 48 ≤ 1_000_000 * 2 ^ 48 }
    ensures size { room.new ≡ room.old }
    ensures left { result ≤ beats }
    ensures all { 0 < ladder.now → result ≡ 0 }
    ensures passes { PassesBy (IsStep (T.step tick.now)) 16 (beat_loss_in_blocks (T.loss tick.now) (T.size tick.now)) (beats - result) v.old v.new dwell.old dwell.new }
    ensures steps { steps.new ≤ steps.old + (beats - result) * beat_products_in_blocks (T.products tick.now) (T.size tick.now) }
{
    let mut left = beats;
    for exponent in (1..ladder.rungs()).rev() {
        let rung = ladder.rung(exponent);
        let beats_of_rung = u64::from(rung.beats());
        pass_rung(room, tick, rung, left / beats_of_rung, v, dwell, steps);
        left %= beats_of_rung;
    }
    if ladder.rungs() == 0 {
        return left;
    }
    let beat = ladder.rung(0);
    pass_rung(room, tick, beat, left, v, dwell, steps);
    0
}
