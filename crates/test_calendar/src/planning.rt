//! Making the plan of a loop, within its limit.

ghost use Rattle.std.specs.Prelude.{◌≡◌, ◌<◌, ◌≤◌, ◌↔◌, map, IfOk, OnOk};
ghost use Rattle.sil_model.specs.Calendar.{phases_of, test_hours_of, tests_at};
ghost use Rattle.sil_model.specs.Sizes.{channel_tests_of, most_tests};
ghost use Rattle.sil_model.specs.declared.answers.LimitFault.{LimitFault};
ghost use Rattle.sil_model.specs.declared.answers.LimitFault.TheVariants.{TooManyTests};
ghost use Rattle.test_calendar.specs.GroupTests.{group_tests_at, spread_over};

use crate::{Plan, channel_tests};
use sil_model::{LimitFault, Loop, MOST_TESTS};
use std::alloc::{AllocError, Global};
use thiserror::Error;

/// Why a loop has no plan.
#[derive(Debug, Drop, Error)]
pub enum PlanFault {
    /// It has too many tests.
    #[error("too many tests")]
    Limit(LimitFault),
    /// No memory for the plan.
    #[error(transparent)]
    Memory(AllocError),
}

/// The phases of a loop, and the group tests between them. A loop with more tests of channels than
/// [`MOST_TESTS`] is refused before any hour is looked at.
pub fn plan(alloc: Global, l: &Loop) -> Result<Plan, PlanFault>
    ensures phases { IfOk result (λ p. p.phases ≡ phases_of l.now) }
    ensures tests { IfOk result (λ p. p.tests ≡ map (group_tests_at l.now) (test_hours_of l.now)) }
    // as tests of channels, these are the tests of each test hour and no others
    ensures channels { IfOk result (λ p. map (spread_over l.now.subsystems) p.tests ≡ map (tests_at l.now) (test_hours_of l.now)) }

    ensures few { OnOk result (channel_tests_of l.now ≤ most_tests) }
    ensures too_many { (result ≡ Err (PlanFault.Limit (TooManyTests (channel_tests_of l.now)))) ↔ (most_tests < channel_tests_of l.now) }
    ensures no_other_limit { (fault : LimitFault) → result ≡ Err (PlanFault.Limit fault) → fault ≡ TooManyTests (channel_tests_of l.now) }
{
    let count = channel_tests(l);
    if count > MOST_TESTS {
        return Err(PlanFault::Limit(LimitFault::TooManyTests(count)));
    }
    Plan::laid_out(alloc, l, count as usize).map_err(PlanFault::Memory)
}
