//! When each group is tested.

ghost use Rattle.std.specs.Prelude.{◌≡◌, ℕ, ◌+◌, ◌*◌, ◌<◌, ◌≤◌, ◌++◌, length, true, false, IfOk};
ghost use Rattle.sil_model.specs.LoopValue.{IsSubsystemInRange, IsPlanInRange, groups_by_test};
ghost use Rattle.test_calendar.specs.Plans.{repeats_at, test_by, repeats_of, repeats_from, repeats_by_test};

use sil_model::{Loop, Subsystem, TestPlan};
use std::alloc::{AllocError, Global};
use std::marker::Model;

/// A proof test of all channels of a group.
#[derive(Clone, Copy, Debug, PartialEq, Eq)]
pub struct GroupTest {
    /// The number of the group, in order of subsystems and of channels.
    pub group: u8,
    /// Whether the test is full, and so finds every failure.
    pub full: bool,
}

/// When the channels of a group are tested, whatever the length of the mission.
#[derive(Drop)]
pub struct GroupPlan {
    group: u8,
    first: u32,
    every: u32,
    full_each: u32,
}

impl Model for GroupPlan {
    ghost use Rattle.test_calendar.specs.Repeats.{Repeats, IsRepeating};

    ghost Value = { Repeats };

    ghost view = { λ p. record { group = p.group; first = p.first; every = p.every; full_each = p.full_each } };

    ghost invariant = { λ p. IsRepeating (record { group = p.group; first = p.first; every = p.every; full_each = p.full_each }) };
}

impl GroupPlan {
    /// The first hour from `from` on at which the group is tested.
    pub fn next_test(&self, from: u32) -> u32
        requires { from ≤ 350_400 }
        ensures from { from ≤ result }
        ensures tested { repeats_at result self.now ≡ true }
        ensures none { (k : ℕ) → from ≤ k → k < result → repeats_at k self.now ≡ false }
    {
        if from <= self.first {
            self.first
        } else {
            self.first + (from - self.first).div_ceil(self.every) * self.every
        }
    }

    /// The test of the group at an hour, if there is one.
    pub fn test_at(&self, hour: u32) -> Option<GroupTest>
        requires { hour ≤ 350_400 }
        ensures { result ≡ test_by hour self.now }
    {
        let first = self.first;
        if hour < first || (hour - first) % self.every != 0 {
            return None;
        }
        Some(GroupTest {
            group: self.group,
            full: ((hour - first) / self.every + 1) % self.full_each == 0,
        })
    }
}

/// When the groups of a loop are tested, in their order. A group without tests is left out.
pub fn group_plans(alloc: Global, l: &Loop) -> Result<Vec<GroupPlan>, AllocError>
    ensures { IfOk result (λ plans. plans.items ≡ repeats_from 0 0 l.now.subsystems) }
{
    let mut plans = Vec::with_capacity(alloc, l.groups())?;
    let mut group = 0;
    for i in 0..l.len() {
        group = add_plans(&mut plans, l.subsystem(i), group)?;
    }
    Ok(plans)
}

/// Adds when the groups of a subsystem are tested, of which the first has the number `group`, and answers the number that
/// comes after them.
fn add_plans(plans: &mut Vec<GroupPlan>, u: &Subsystem, group: u8) -> Result<u8, AllocError>
    requires in_range { IsSubsystemInRange u.now }
    requires group { group ≤ 40 }
    ensures plans { (i : ℕ) → IfOk result (λ _. plans.new.items ≡ plans.old.items ++ repeats_by_test u.now.test group (groups_by_test i u.now.vote.n u.now.test)) }
    ensures next { (i : ℕ) → IfOk result (λ next. next ≡ group + length (groups_by_test i u.now.vote.n u.now.test)) }
{
    let Some(plan) = u.test else {
        return Ok(group + 1);
    };
    let count = u.groups() as u8;
    for channel in 0..count {
        plans.push(group_plan(&plan, channel, group + channel))?;
    }
    Ok(group + count)
}

/// When a group is tested that begins with this channel of its subsystem.
fn group_plan(plan: &TestPlan, channel: u8, group: u8) -> GroupPlan
    requires in_range { IsPlanInRange plan.now }
    requires channel { channel < 8 }
    ensures { (size : ℕ) (subsystem : ℕ) → result ≡ repeats_of plan.now group (record { subsystem = subsystem; first_channel = channel; size = size }) }
{
    GroupPlan {
        group,
        first: plan.first + u32::from(channel) * plan.stagger,
        every: plan.every,
        full_each: plan.full_each,
    }
}
