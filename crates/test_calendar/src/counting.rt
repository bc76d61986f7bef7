//! The number of tests.

ghost use Rattle.std.specs.Prelude.{◌≡◌, ◌+◌, ◌*◌, ◌<◌, ◌≤◌};
ghost use Rattle.sil_model.specs.LoopValue.{IsSubsystemInRange, IsPlanInRange};
ghost use Rattle.sil_model.specs.Sizes.{channel_tests_of};
ghost use Rattle.test_calendar.specs.Counts.{channel_count, channels_count};

use sil_model::{Loop, Subsystem, TestPlan};

/// How many tests of channels there are within the mission, each channel at each hour counted as one.
///
/// It counts by the test plans, and walks through no hours.
pub fn channel_tests(l: &Loop) -> u64
    ensures tests { result ≡ channel_tests_of l.now }
    ensures bounded { result ≤ 48 * 350_400 }
{
    let mission = l.mission();
    let mut count = 0;
    for i in 0..l.len() {
        count += subsystem_tests(l.subsystem(i), mission);
    }
    count
}

/// How many tests the channels of a subsystem have before the mission ends.
fn subsystem_tests(u: &Subsystem, mission: u32) -> u64
    requires in_range { IsSubsystemInRange u.now }
    requires mission { mission ≤ 350_400 }
    ensures tests { result ≡ channels_count mission u.now.test 0 u.now.vote.n }
    ensures bounded { result ≤ 8 * 350_400 }
{
    let Some(plan) = u.test else {
        return 0;
    };
    let mut count = 0;
    for channel in 0..u.vote.n {
        count += u64::from(tests_of_channel(&plan, channel, mission));
    }
    count
}

/// How many tests one channel of a subsystem has before the mission ends.
fn tests_of_channel(plan: &TestPlan, channel: u8, mission: u32) -> u32
    requires in_range { IsPlanInRange plan.now }
    requires channel { channel < 8 }
    requires mission { mission ≤ 350_400 }
    ensures tests { result ≡ channel_count mission plan.now channel }
    ensures bounded { result ≤ 350_400 }
{
    let first = plan.first + u32::from(channel) * plan.stagger;
    mission.saturating_sub(first).div_ceil(plan.every)
}
