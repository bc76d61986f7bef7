//! The rooms of the ways to pass a phase.

ghost use Rattle.std.specs.Prelude.{◌≡◌, ◌≤◌, IfOk};
ghost use Rattle.sil_model.specs.Calendar.{beats_of, phases_of};
ghost use Rattle.sil_model.specs.LoopValue.{IsWithin};
ghost use Rattle.sil_model.specs.Sizes.{all_beats_of, most_beats};
ghost use Rattle.product_chain.specs.Kept.{IsTimed};
ghost use Rattle.phase_way.specs.Choice.{IsChoice};
ghost use Rattle.phase_way.specs.Rooms.{AreRooms, HavePowers, HaveSubsystems};

use crate::choice::Choice;
use beat_ladder::Ladder;
use lumping::Space;
use phase_powers::Powers;
use phase_run::LadderRoom;
use phase_separate::SeparateRoom;
use product_chain::Chain;
use series_weights::Weights;
use sil_model::Loop;
use std::alloc::{AllocError, Global};
use test_calendar::{Plan, beats_of};
use uniformise::Workspace;

/// What passes the phases of a loop, with the rooms of all ways that it may go.
#[derive(Drop)]
pub struct Rooms {
    /// The count vectors of the loop.
    pub space: Space,
    /// Which way a phase goes.
    pub choice: Choice,
    /// The chain of one tick, timed for a phase of `hours`.
    pub chain: Chain,
    /// The hours of the phase that the chain is timed for.
    pub hours: u64,
    /// The weights of a beat.
    pub weights: Weights,
    /// Room for a beat.
    pub work: Workspace,
    /// Blocks of many beats, and room for them over the places that hold mass.
    pub ladder: LadderRoom,
    /// The powers of a beat, where there are few states.
    pub powers: Option<Powers>,
    /// The beats of each subsystem for itself, where there are several and each has few count vectors.
    pub subsystems: Option<SeparateRoom>,
}

impl Rooms {
    /// The rooms of a loop, timed for the first phase of its plan.
    pub fn new(
        alloc: Global,
        l: &Loop,
        space: Space,
        plan: &Plan,
        order: u8,
    ) -> Result<Rooms, AllocError>
        requires plan { plan.now.phases ≡ phases_of l.now }
        requires space { space ≡ l.now }
        requires few { all_beats_of l.now ≤ most_beats }
        requires least { 16 ≤ order }
        requires greatest { order ≤ 40 }
        ensures rooms { IfOk result (λ r. AreRooms r) }
        ensures of { IfOk result (λ r. r.space ≡ l.now) }
        ensures order { IfOk result (λ r. r.weights ≡ order) }
    {
        let states = space.size();
        let hours = plan.hours(0);
        let beats = beats_of(l, hours);
        let choice = Choice::of(l, states, order);
        let chain = Chain::new(alloc, l, &space, hours, beats)?;
        let work = Workspace::new(alloc, states)?;
        let ladder = Ladder::new(alloc, choice.beats_of_ladder(l, plan))?;
        let ladder = LadderRoom::new(alloc, l, &chain, states, ladder)?;
        let powers = powers_of(alloc, &choice, states)?;
        let subsystems = subsystems_of(alloc, l, &choice, states, hours, beats)?;
        Ok(Rooms {
            space,
            choice,
            chain,
            hours,
            weights: Weights::new(order),
            work,
            ladder,
            powers,
            subsystems,
        })
    }

    /// Times the chain for a phase of so many hours, if it is not timed so already.
    pub fn retime(&mut self, l: &Loop, hours: u64, beats: u64)
        requires rooms { AreRooms self.old }
        requires same { l.now ≡ self.old.space }
        requires hours { IsWithin 1 350_400 hours }
        requires beats { beats ≡ beats_of l.now.subsystems hours }
        requires few { beats ≤ most_beats }
        ensures rooms { AreRooms self.new }
        ensures space { self.new.space ≡ self.old.space }
        ensures weights { self.new.weights ≡ self.old.weights }
        ensures hours { self.new.hours ≡ hours }
    {
        if hours != self.hours {
            self.chain.retime(l, &self.space, hours, beats);
            self.hours = hours;
        }
    }
}

/// Room for powers, where a phase may pass by them.
fn powers_of(alloc: Global, choice: &Choice, states: usize) -> Result<Option<Powers>, AllocError>
    requires choice { IsChoice choice.now }
    requires states { states ≡ choice.now.states }
    requires some { 1 ≤ states }
    ensures { IfOk result (HavePowers choice.now) }
{
    if !choice.allows_powers() {
        return Ok(None);
    }
    let powers = Powers::new(alloc, states)?;
    Ok(Some(powers))
}

/// Room for the subsystems, where a phase may pass by each for itself; timed for a phase of so many hours in so many beats.
fn subsystems_of(
    alloc: Global,
    l: &Loop,
    choice: &Choice,
    states: usize,
    hours: u64,
    beats: u64,
) -> Result<Option<SeparateRoom>, AllocError>
    requires choice { IsChoice choice.now }
    requires of { choice.now.of.value ≡ l.now }
    requires states { states ≡ choice.now.states }
    requires timed { IsTimed l.now.subsystems hours beats }
    ensures { IfOk result (HaveSubsystems choice.now.of.value choice.now.extent) }
{
    if choice.extent.is_none() {
        return Ok(None);
    }
    let room = SeparateRoom::new(alloc, l, states, hours, beats)?;
    Ok(Some(room))
}
