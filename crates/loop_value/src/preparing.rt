//! What the computation of a loop needs, all of it made before the first beat.

ghost use Rattle.std.specs.Prelude.{◌≡◌, ◌≤◌, ◌<◌, ◌^◌, replicate, slice_set, IfOk};
ghost use Rattle.sil_model.specs.Sizes.{all_beats_of, most_beats, states_of, most_states};
ghost use Rattle.loop_value.specs.Mission.{IsPlanOf, IsReady, StandsAt};

use crate::mission::Passages;
use common_cause::events;
use entry_rates::{entry_rates, up_states};
use interval_fixed::ONE;
use lumping::{Space, SpaceFault};
use phase_way::PhaseRooms;
use sil_model::Loop;
use std::alloc::{AllocError, Global};
use test_calendar::Plan;
use test_matrix::Tests;

/// All that the computation of a loop needs, and where its mission stands. Vectors have a number for each count vector, in units of 2^-48.
#[derive(Drop)]
pub struct Prepared {
    /// What passes the phases of the loop.
    pub rooms: PhaseRooms,
    /// The tests of an hour.
    pub tests: Tests,
    /// Whether the loop is up, for each count vector.
    pub up: Vec<bool>,
    /// The rate at which it goes down, in 10^-18 per hour, for each count vector.
    pub rates: Vec<u64>,
    /// What is at each count vector.
    pub v: Vec<u64>,
    /// The mean over a phase.
    pub mean: Vec<u128>,
    /// The hours so far times the mean over them.
    pub dwell: Vec<u128>,
    /// What has passed at the tests so far from up to down.
    pub passages: Passages,
}

/// Makes all that the computation of a loop needs.
pub fn prepare(alloc: Global, l: &Loop, plan: &Plan, order: u8) -> Result<Prepared, AllocError>
    requires plan { IsPlanOf l.now plan.now }
    requires few_states { states_of l.now.subsystems ≤ most_states }
    requires few_beats { all_beats_of l.now ≤ most_beats }
    requires least { 16 ≤ order }
    requires greatest { order ≤ 40 }
    ensures ready { IfOk result (IsReady l.now) }
    ensures order { IfOk result (λ p. p.rooms.order ≡ order) }
    ensures start { IfOk result (StandsAt l.now order 0) }
{
    let space = space_of(alloc, l)?;
    let size = space.size();
    let list = events(alloc, l)?;
    let up = up_states(alloc, l, &space)?;
    let rates = entry_rates(alloc, l, &space, list.as_slice())?;
    let v = start_vector(alloc, size)?;
    let mean = zeros(alloc, size)?;
    let dwell = zeros(alloc, size)?;
    let tests = Tests::new(alloc, l, &space)?;
    let rooms = PhaseRooms::new(alloc, l, space, plan, order)?;
    Ok(Prepared {
        rooms,
        tests,
        up,
        rates,
        v,
        mean,
        dwell,
        passages: Passages { least: 0, most: 0 },
    })
}

/// The count vectors of a loop that has few.
fn space_of(alloc: Global, l: &Loop) -> Result<Space, AllocError>
    requires { states_of l.now.subsystems ≤ most_states }
    ensures { IfOk result (λ s. s ≡ l.now) }
{
    match Space::new(alloc, l) {
        Ok(space) => Ok(space),
        Err(SpaceFault::Memory(fault)) => Err(fault),
        Err(SpaceFault::Limit(_)) => unreachable!(),
    }
}

/// So many zeros.
fn zeros(alloc: Global, size: usize) -> Result<Vec<u128>, AllocError>
    ensures { IfOk result (λ v. v.items ≡ replicate size 0) }
{
    vec![in alloc; 0u128; size]
}

/// The vector at the start: all of it is at the number 0, where every channel works.
fn start_vector(alloc: Global, size: usize) -> Result<Vec<u64>, AllocError>
    requires { 0 < size }
    ensures { IfOk result (λ v. v.items ≡ slice_set (replicate size 0) 0 (2 ^ 48)) }
{
    let mut v = vec![in alloc; 0u64; size]?;
    v[0] = ONE as u64;
    Ok(v)
}
