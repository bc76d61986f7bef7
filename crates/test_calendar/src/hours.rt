//! The hours at which some group is tested, and the tests of each.

ghost use Rattle.std.specs.Prelude.{◌≡◌, ℕ, ◌+◌, ◌<◌, ◌≤◌, ◌++◌, true, false, IfOk, OnOk, OnErr, filter, map, All};
ghost use Rattle.sil_model.specs.Calendar.{upto};
ghost use Rattle.test_calendar.specs.Plans.{has_tests, tests_by};
ghost use Rattle.test_calendar.specs.PlanParts.{tests_of_stop, IsInside};
ghost use Rattle.test_calendar.specs.declared.hours.Stop.{Stop};

use crate::groups::{GroupPlan, GroupTest};
use std::alloc::{AllocError, Global};

/// A test hour, and the range of its tests among all group tests.
#[derive(Clone, Copy, Debug)]
pub struct Stop {
    pub hour: u32,
    pub from: usize,
    pub to: usize,
}

/// The first hour from `from` on at which some group is tested, and the end of the mission if there is none before it.
#[tactic(auto, unfolding(crate::specs::Plans::has_tests))]
fn next_hour(plans: &[GroupPlan], from: u32, mission: u32) -> u32
    requires within { from ≤ mission }
    requires mission { mission ≤ 350_400 }
    ensures from { from ≤ result }
    ensures mission { result ≤ mission }
    ensures none { (k : ℕ) → from ≤ k → k < result → has_tests plans.now k ≡ false }
    ensures some { result < mission → has_tests plans.now result ≡ true }
{
    let mut least = mission;
    for plan in plans {
        least = least.min(plan.next_test(from));
    }
    least
}

/// Adds the group tests of an hour.
#[tactic(auto, unfolding(crate::specs::Plans::tests_by))]
fn add_tests(tests: &mut Vec<GroupTest>, plans: &[GroupPlan], hour: u32) -> Result<(), AllocError>
    requires { hour ≤ 350_400 }
    ensures { OnOk result (tests.new.items ≡ tests.old.items ++ tests_by plans.now hour) }
{
    for plan in plans {
        if let Some(test) = plan.test_at(hour) {
            tests.push(test)?;
        }
    }
    Ok(())
}

/// All group tests of a mission, in order of hours and of groups, and adds each test hour to `stops`. `room` is how many
/// of each to take memory for at first.
pub fn tests_by_hour(
    alloc: Global,
    plans: &[GroupPlan],
    mission: u32,
    room: usize,
) -> Result<(Vec<Stop>, Vec<GroupTest>), AllocError>
    requires { mission ≤ 350_400 }
    ensures hours { IfOk result (λ r. map (λ (s : Stop). s.hour) r.0.items ≡ filter (has_tests plans.now) (upto 0 mission)) }
    ensures tests { IfOk result (λ r. map (tests_of_stop r.1.items) r.0.items ≡ map (tests_by plans.now) (filter (has_tests plans.now) (upto 0 mission))) }
    ensures inside { IfOk result (λ r. All (IsInside r.1.items) r.0.items) }
{
    let mut stops = Vec::with_capacity(alloc, room)?;
    let mut tests = Vec::with_capacity(alloc, room)?;
    let mut hour = next_hour(plans, 0, mission);
    while hour < mission {
        let from = tests.len();
        add_tests(&mut tests, plans, hour)?;
        stops.push(Stop {
            hour,
            from,
            to: tests.len(),
        })?;
        hour = next_hour(plans, hour + 1, mission);
    }
    Ok((stops, tests))
}
