//! The phases of a mission.

ghost use Rattle.std.specs.Prelude.{◌≡◌, ℕ, ◌+◌, ◌<◌, ◌≤◌, [], length, map, IfOk, slice_index_or};
ghost use Rattle.sil_model.specs.LoopValue.{IsWithin};
ghost use Rattle.sil_model.specs.Calendar.{Phase, phases_of, test_hours_of, tests_at};
ghost use Rattle.test_calendar.specs.GroupTests.{group_tests_at, spread_over};

use crate::groups::{GroupTest, group_plans};
use crate::hours::{Stop, tests_by_hour};
use sil_model::Loop;
use std::alloc::{AllocError, Global};
use std::marker::Model;

/// The phases that the test hours of a loop cut its mission into, and the group tests after each but the last.
#[derive(Drop)]
pub struct Plan {
    mission: u32,
    stops: Vec<Stop>,
    tests: Vec<GroupTest>,
}

impl Model for Plan {
    ghost use Rattle.test_calendar.specs.PlanParts.{PlanValue, plan_value, IsPlan};

    ghost Value = { PlanValue };

    ghost view = { λ p. plan_value p.mission p.stops.items p.tests.items };

    ghost invariant = { λ p. IsPlan p.mission p.stops.items p.tests.items };
}

impl Plan {
    /// The plan of a loop with so many tests of channels.
    pub(crate) fn laid_out(alloc: Global, l: &Loop, count: usize) -> Result<Plan, AllocError>
        ensures phases { IfOk result (λ p. p.phases ≡ phases_of l.now) }
        ensures tests { IfOk result (λ p. p.tests ≡ map (group_tests_at l.now) (test_hours_of l.now)) }
        ensures channels { IfOk result (λ p. map (spread_over l.now.subsystems) p.tests ≡ map (tests_at l.now) (test_hours_of l.now)) }
    {
        let plans = group_plans(alloc, l)?;
        let mission = l.mission();
        let (stops, tests) = tests_by_hour(alloc, &plans, mission, count)?;
        Ok(Plan {
            mission,
            stops,
            tests,
        })
    }

    /// How many phases there are, from 1 to 350,400: one more than there are test hours.
    pub fn phases(&self) -> usize
        ensures phases { result ≡ length self.now.phases }
        ensures some { 1 ≤ result }
        ensures few { result ≤ 350_400 }
        ensures tests { result ≡ length self.now.tests + 1 }
    {
        self.stops.len() + 1
    }

    /// The hour at which the phase of this number begins.
    pub fn start(&self, i: usize) -> u64
        requires { i < length self.now.phases }
        ensures { (d : Phase) → result ≡ (slice_index_or self.now.phases i d).start }
    {
        if i == 0 {
            0
        } else {
            u64::from(self.stops[i - 1].hour)
        }
    }

    /// How many hours the phase of this number lasts, from 1 to 350,400.
    pub fn hours(&self, i: usize) -> u64
        requires { i < length self.now.phases }
        ensures hours { (d : Phase) → result ≡ (slice_index_or self.now.phases i d).hours }
        ensures some { 1 ≤ result }
        ensures few { result ≤ 350_400 }
    {
        self.end(i) - self.start(i)
    }

    /// The hour at which the phase of this number ends.
    fn end(&self, i: usize) -> u64
        requires { i < length self.now.phases }
        ensures end { (d : Phase) → result ≡ (slice_index_or self.now.phases i d).start + (slice_index_or self.now.phases i d).hours }
        ensures hours { (d : Phase) → IsWithin 1 350_400 (slice_index_or self.now.phases i d).hours }
    {
        match self.stops.get(i) {
            Some(stop) => u64::from(stop.hour),
            None => u64::from(self.mission),
        }
    }

    /// The group tests at the hour that ends the phase of this number, in order of groups. There are none after the last
    /// phase.
    pub fn tests_after(&self, i: usize) -> &[GroupTest]
        requires { i < length self.now.phases }
        ensures tests { result.now ≡ slice_index_or self.now.tests i [] }
        ensures last { i + 1 ≡ length self.now.phases → result.now ≡ [] }
    {
        match self.stops.get(i) {
            Some(stop) => &self.tests[stop.from..stop.to],
            None => &[],
        }
    }
}
