//! The phases of a loop, passed one after another.

ghost use Rattle.std.specs.Prelude.{◌≡◌, ℕ, ◌+◌, ◌*◌, ◌^◌, ◌<◌, ◌≤◌, length, All, IfOk};
ghost use Rattle.sil_model.specs.Calendar.{beats_of, phases_of};
ghost use Rattle.sil_model.specs.LoopValue.{IsWithin};
ghost use Rattle.sil_model.specs.Sizes.{states_of, all_beats_of, most_beats};
ghost use Rattle.vector_laws.specs.Vectors.{IsMass};
ghost use Rattle.uniformise.specs.Beat.{beat_products};
ghost use Rattle.phase_powers.specs.Products.{powered_products};
ghost use Rattle.phase_way.specs.Passed.{IsPassed};
ghost use Rattle.phase_way.specs.Ways.{most_powered_states};

use crate::choice::{Way, digits_of};
use crate::passing::{pass_by_powers, pass_by_subsystems, pass_in_blocks};
use crate::rooms::Rooms;
use lumping::Space;
use sil_model::{Loop, Steps};
use std::alloc::{AllocError, Global};
use std::marker::Model;
use std::sync::ledger::Ledger;
use test_calendar::{Plan, beats_of};

/// What passes the phases of a loop: the rooms of all ways that they may go. Contracts see the loop, and the order of the series.
#[derive(Drop)]
pub struct PhaseRooms {
    rooms: Rooms,
}

impl Model for PhaseRooms {
    ghost use Rattle.phase_way.specs.Rooms.{RoomsValue, AreRooms};

    ghost Value = { RoomsValue };

    ghost view = { λ r. record { of = r.rooms.space; order = r.rooms.weights } };

    ghost invariant = { λ r. AreRooms r.rooms };
}

impl PhaseRooms {
    /// The rooms of a loop whose count vectors and plan these are. All memory is taken here.
    pub fn new(
        alloc: Global,
        l: &Loop,
        space: Space,
        plan: &Plan,
        order: u8,
    ) -> Result<PhaseRooms, AllocError>
        requires plan { plan.now.phases ≡ phases_of l.now }
        requires space { space ≡ l.now }
        requires few { all_beats_of l.now ≤ most_beats }
        requires least { 16 ≤ order }
        requires greatest { order ≤ 40 }
        ensures { IfOk result (λ r. r ≡ record { of = l.now; order = order }) }
    {
        let rooms = Rooms::new(alloc, l, space, plan, order)?;
        Ok(PhaseRooms { rooms })
    }

    /// Passes a phase of so many hours: `v` goes to its end, `mean` becomes its mean over the phase, and `dwell` grows by the
    /// hours times that mean. All are in units of 2^-48, and no more than what is expected.
    pub fn pass<L: Ledger>(
        &mut self,
        l: &Loop,
        hours: u64,
        v: &mut [u64],
        mean: &mut [u128],
        dwell: &mut [u128],
        steps: &mut Steps<L>,
    )
        requires same { self.old.of ≡ l.now }
        requires hours { IsWithin 1 350_400 hours }
        requires few { beats_of l.now.subsystems hours ≤ most_beats }
        requires v { length v.old ≡ states_of l.now.subsystems }
        requires mean { length mean.old ≡ states_of l.now.subsystems }
        requires dwell { length dwell.old ≡ states_of l.now.subsystems }
        requires mass { IsMass v.old }
        requires room { All (λ x. x + hours * 2 ^ 48 ≤ 350_400 * 2 ^ 48) dwell.old }
        ensures same { self.new ≡ self.old }
        ensures passed { IsPassed l.now.subsystems self.old.order hours v.old mean.new v.new dwell.old dwell.new }
        ensures steps { steps.new ≤ steps.old + beats_of l.now.subsystems hours * beat_products l.now.subsystems self.old.order }
        ensures powered { states_of l.now.subsystems ≤ most_powered_states → (digits : ℕ) → beats_of l.now.subsystems hours < 2 ^ digits
            → steps.new ≤ steps.old + powered_products l.now.subsystems self.old.order digits }
    {
        let beats = beats_of(l, hours);
        self.rooms.retime(l, hours, beats);
        match self.rooms.choice.way(beats, digits_of(beats)) {
            Way::Subsystems => pass_by_subsystems(&mut self.rooms, v, mean, dwell, steps),
            Way::Powers => pass_by_powers(&mut self.rooms, v, mean, dwell, steps),
            Way::Blocks => pass_in_blocks(&mut self.rooms, v, mean, dwell, steps),
        }
    }
}
