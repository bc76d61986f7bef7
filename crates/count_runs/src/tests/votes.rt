//! The votes of two out of three sensors, one logic solver and one out of two valves.

use lumping::Space;
use sample_loops::{ONE_CHANNEL, Sample, sample_loop};
use sil_model::{CHANNEL_STATES, InRepair, Vote};
use std::alloc::Global;
use std::process::Abort;
use std::test::Fail;
use voting::is_up;

/// How many of the 800 count vectors are up, where these rows are what they say.
fn count_up(
    rt: &impl Abort,
    alloc: Global,
    in_repair: InRepair,
    rows: &[([u8; 12], bool)],
) -> Result<usize, Fail> {
    let sensors = Sample {
        vote: Vote { m: 2, n: 3 },
        in_repair,
        ..ONE_CHANNEL
    };
    let valves = Sample {
        vote: Vote { m: 1, n: 2 },
        ..ONE_CHANNEL
    };
    let samples = [sensors, ONE_CHANNEL, valves];
    let l = sample_loop(alloc, 26_280, &samples)?.ok_or("out of range")?;
    let Ok(space) = Space::new(alloc, &l) else {
        return Err("no space".into());
    };
    let mut counts = [0u8; 12];
    assert_eq!(rt; space.size(), 800);
    assert_eq!(rt; CHANNEL_STATES * l.groups(), counts.len());
    let mut up = 0;
    for i in 0..space.size() {
        space.counts_at(i, &mut counts);
        let result = is_up(&l, &counts);
        for (row, expected) in rows {
            assert!(rt; counts != *row || result == *expected);
        }
        if result {
            up += 1;
        }
    }
    Ok(up)
}

#[test]
fn enough_channels_of_each_subsystem(rt: HostRuntime) -> Result<(), Fail> {
    let rows = [
        ([2, 1, 0, 0, 1, 0, 0, 0, 0, 1, 0, 1], false),
        ([2, 1, 0, 0, 1, 0, 0, 0, 1, 0, 0, 1], true),
        ([1, 0, 0, 2, 1, 0, 0, 0, 2, 0, 0, 0], false),
    ];
    let up = count_up(&rt, rt.alloc(), InRepair::Lost, &rows)?;
    // 4 ways of three sensors with two that work, 1 of the logic solver, 4 of two valves with one that works
    assert_eq!(&rt; up, 4 * 4);
    let tripped = [([1, 0, 0, 2, 1, 0, 0, 0, 2, 0, 0, 0], true)];
    let up = count_up(&rt, rt.alloc(), InRepair::Tripped, &tripped)?;
    assert_eq!(&rt; up, 10 * 4);
    Ok(())
}
