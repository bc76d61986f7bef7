//! The events of loops, worked by hand.

use common_cause::{LumpEvent, Rate, events};
use sample_loops::{ONE_CHANNEL, Sample, YEARLY, sample_loop};
use sil_model::{Chan, ChannelFigures, InRepair, TestPlan, Vote};
use std::alloc::Global;
use std::test::Fail;

/// A channel that is repaired within a day, by its rates.
const fn daily(m: u8, n: u8, du: u64, dd: u64) -> Sample {
    Sample {
        vote: Vote { m, n },
        figures: ChannelFigures {
            du,
            dd,
            repair: 24,
            ..ONE_CHANNEL.figures
        },
        ..ONE_CHANNEL
    }
}

/// The four events of a group, by the rates at which a channel fails and the hours of a repair.
const fn alone(subsystem: u8, group: u8, fails: [u128; 3], repair: u32) -> [LumpEvent; 4] {
    let event = LumpEvent {
        subsystem,
        group,
        whole: false,
        from: Chan::Work,
        to: Chan::Hidden,
        rate: Rate::Fails(fails[0]),
    };
    [
        event,
        LumpEvent {
            to: Chan::Deep,
            rate: Rate::Fails(fails[1]),
            ..event
        },
        LumpEvent {
            to: Chan::Repair,
            rate: Rate::Fails(fails[2]),
            ..event
        },
        LumpEvent {
            from: Chan::Repair,
            to: Chan::Work,
            rate: Rate::Repairs(repair),
            ..event
        },
    ]
}

/// The three common cause events of a subsystem, by their rates.
const fn together(subsystem: u8, group: u8, fails: [u128; 3]) -> [LumpEvent; 3] {
    let event = LumpEvent {
        subsystem,
        group,
        whole: true,
        from: Chan::Work,
        to: Chan::Hidden,
        rate: Rate::Fails(fails[0]),
    };
    [
        event,
        LumpEvent {
            to: Chan::Deep,
            rate: Rate::Fails(fails[1]),
            ..event
        },
        LumpEvent {
            to: Chan::Repair,
            rate: Rate::Fails(fails[2]),
            ..event
        },
    ]
}

/// Sensors with every feature but tests.
const fn sensors_with_every_feature() -> Sample {
    Sample {
        vote: Vote { m: 2, n: 3 },
        figures: ChannelFigures {
            du: 500_000,
            dd: 2_000_000,
            beta: 50,
            beta_d: 20,
            coverage: 900,
            restart_fault: 1000,
            repair: 24,
        },
        in_repair: InRepair::Tripped,
        test: None,
    }
}

/// Valves whose failures are all common causes, tested half a year apart.
const fn staggered_valves() -> Sample {
    Sample {
        vote: Vote { m: 1, n: 2 },
        figures: ChannelFigures {
            du: 2_000_000,
            beta: 1000,
            repair: 12,
            ..ONE_CHANNEL.figures
        },
        test: Some(TestPlan {
            stagger: 4380,
            full_each: 3,
            ..YEARLY
        }),
        ..ONE_CHANNEL
    }
}

/// Whether these are the events of the loop of some subsystems.
fn are_events(alloc: Global, samples: &[Sample], expected: &[LumpEvent]) -> Result<bool, Fail> {
    let l = sample_loop(alloc, 8760, samples)?.ok_or("out of range")?;
    let events = events(alloc, &l)?;
    Ok(events.as_slice() == expected)
}

#[test]
fn events_by_subsystems_and_groups(rt: HostRuntime) -> Result<(), Fail> {
    let none = [0, 0, 0];
    let mut one = Vec::new(rt.alloc());
    one.extend_from_slice(&alone(0, 0, [1_000_000_000_000, 0, 0], 8))?;
    one.extend_from_slice(&together(0, 0, none))?;
    assert!(&rt; are_events(rt.alloc(), &[ONE_CHANNEL], one.as_slice())?);

    // three subsystems of one group
    let samples = [
        daily(2, 3, 500_000, 2_000_000),
        daily(1, 1, 100_000, 900_000),
        daily(1, 2, 2_000_000, 0),
    ];
    let fails = [
        [500_000_000_000, 0, 2_000_000_000_000],
        [100_000_000_000, 0, 900_000_000_000],
        [2_000_000_000_000, 0, 0],
    ];
    let mut three = Vec::new(rt.alloc());
    for i in 0..3u8 {
        three.extend_from_slice(&alone(i, i, fails[usize::from(i)], 24))?;
        three.extend_from_slice(&together(i, i, none))?;
    }
    assert_eq!(&rt; three.len(), 21);
    assert!(&rt; are_events(rt.alloc(), &samples, three.as_slice())?);

    // a staggered subsystem after one with every feature
    let sensors = [427_500_000_000, 47_500_000_000, 1_960_000_000_000];
    let common = [22_500_000_000, 2_500_000_000, 40_000_000_000];
    let mut five = Vec::new(rt.alloc());
    five.extend_from_slice(&alone(0, 0, sensors, 24))?;
    five.extend_from_slice(&together(0, 0, common))?;
    // every failure of a valve is a common cause, and each valve is a group of its own
    five.extend_from_slice(&alone(1, 1, none, 12))?;
    five.extend_from_slice(&alone(1, 2, none, 12))?;
    five.extend_from_slice(&together(1, 1, [2_000_000_000_000, 0, 0]))?;
    let samples = [sensors_with_every_feature(), staggered_valves()];
    assert!(&rt; are_events(rt.alloc(), &samples, five.as_slice())?);
    Ok(())
}
