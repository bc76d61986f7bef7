//! The calendars of small loops, worked by hand.

use sample_loops::{ONE_CHANNEL, Sample, sample_loop};
use sil_model::{ChannelFigures, LimitFault, TestPlan, Vote};
use std::test::Fail;
use test_calendar::{GroupTest, PlanFault, beats_of, channel_tests, plan};

/// Channels of which one suffices, tested from an hour on each so many hours, each so many hours after the one before it, and
/// fully at each test of a number.
const fn tested(n: u8, first: u32, every: u32, stagger: u32, full_each: u32) -> Sample {
    Sample {
        vote: Vote { m: 1, n },
        test: Some(TestPlan {
            first,
            every,
            stagger,
            full_each,
        }),
        ..ONE_CHANNEL
    }
}

/// Two channels of which one suffices, without tests.
const UNTESTED_PAIR: Sample = Sample {
    vote: Vote { m: 1, n: 2 },
    ..ONE_CHANNEL
};

/// Missions with how many channels are tested in them, the phases, and the hour at which the last one begins; at the end a
/// mission with one test too many.
#[test]
fn test_hours_cut_the_mission(rt: HostRuntime) -> Result<(), Fail> {
    let alloc = rt.alloc();
    let rows: [(Sample, u32, u64, usize, u64); 9] = [
        (UNTESTED_PAIR, 8760, 0, 1, 0),
        (tested(1, 8760, 8760, 0, 1), 26_280, 2, 3, 17_520),
        // two channels, tested half a year apart
        (tested(2, 8760, 8760, 4380, 1), 26_280, 4, 5, 21_900),
        // a test at the end of the mission is none
        (tested(1, 8760, 8760, 0, 1), 8760, 0, 1, 0),
        (tested(1, 8760, 8760, 0, 1), 8761, 1, 2, 8760),
        // channels that are tested together are counted one by one
        (tested(3, 8760, 8760, 0, 1), 26_280, 6, 3, 17_520),
        (tested(6, 10, 100, 10, 1), 100, 6, 7, 60),
        // channels that are staggered by a whole interval meet at the same hours
        (tested(2, 10, 10, 10, 1), 40, 5, 4, 30),
        (tested(1, 1, 1, 0, 1), 4097, 4096, 4097, 4096),
    ];
    for (sample, mission, tests, phases, last_start) in rows {
        let l = sample_loop(alloc, mission, &[sample])?.ok_or("out of range")?;
        assert_eq!(rt; channel_tests(&l), tests);
        let plan = plan(alloc, &l)?;
        assert_eq!(rt; plan.phases(), phases);
        let last = plan.phases() - 1;
        assert_eq!(rt; plan.start(last), last_start);
        assert_eq!(rt; plan.hours(last), u64::from(mission).abs_diff(last_start));
        assert_eq!(rt; plan.tests_after(last).len(), 0);
    }
    let l = sample_loop(alloc, 4098, &[tested(1, 1, 1, 0, 1)])?.ok_or("out of range")?;
    assert!(rt;
        matches!(
            plan(alloc, &l),
            Err(PlanFault::Limit(LimitFault::TooManyTests(4097)))
        )
    );
    Ok(())
}

#[test]
fn each_third_test_is_full(rt: HostRuntime) -> Result<(), Fail> {
    let l = sample_loop(rt.alloc(), 50, &[tested(3, 10, 10, 0, 3)])?.ok_or("out of range")?;
    let plan = plan(rt.alloc(), &l)?;
    assert_eq!(rt; plan.phases(), 5);
    for (i, full) in [false, false, true, false].into_iter().enumerate() {
        assert!(rt; i < plan.phases());
        assert_eq!(rt;
            plan.tests_after(i),
            [GroupTest { group: 0, full }].as_slice()
        );
    }
    Ok(())
}

#[test]
fn beats_are_rounded_up(rt: HostRuntime) -> Result<(), Fail> {
    let still = Sample {
        figures: ChannelFigures {
            du: 0,
            ..ONE_CHANNEL.figures
        },
        ..ONE_CHANNEL
    };
    for (sample, hours, beats) in [
        (ONE_CHANNEL, 8760, 1096),
        (still, 8760, 1095),
        (still, 1, 1),
    ] {
        let l = sample_loop(rt.alloc(), 8760, &[sample])?.ok_or("out of range")?;
        assert!(rt; 1 <= hours && hours <= 350_400);
        assert_eq!(rt; beats_of(&l, hours), beats);
    }
    Ok(())
}
