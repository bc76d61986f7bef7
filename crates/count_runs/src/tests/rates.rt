//! Rates of loops, worked out apart: a script asks each full state of a count vector for the events that lead down.

use common_cause::events;
use entry_rates::{entry_rates, failure_rate, up_states};
use lumping::Space;
use sample_loops::{ONE_CHANNEL, Sample, YEARLY, sample_loop};
use sil_model::{ChannelFigures, InRepair, TestPlan, Vote};
use std::alloc::Global;
use std::process::Abort;
use std::test::Fail;

/// Channels without tests, by their rates, their shares of common causes and their coverage.
fn channels(m: u8, n: u8, rates: [u64; 2], shares: [u16; 2], coverage: u16) -> Sample {
    Sample {
        vote: Vote { m, n },
        figures: ChannelFigures {
            du: rates[0],
            dd: rates[1],
            beta: shares[0],
            beta_d: shares[1],
            coverage,
            ..ONE_CHANNEL.figures
        },
        ..ONE_CHANNEL
    }
}

/// The same, where a channel in repair is tripped.
fn tripped(sample: Sample) -> Sample {
    Sample {
        in_repair: InRepair::Tripped,
        ..sample
    }
}

/// The same, where the tests of the channels follow one another.
fn staggered(sample: Sample) -> Sample {
    Sample {
        test: Some(TestPlan {
            stagger: 4380,
            ..YEARLY
        }),
        ..sample
    }
}

/// A loop, the rate of all its failures, how many of its count vectors are up, the sum of all their rates, and some of
/// these by their numbers.
type Case<'a> = (&'a [Sample], u128, usize, u64, &'a [(usize, u64)]);

fn check(rt: &impl Abort, alloc: Global, case: Case) -> Result<(), Fail> {
    let (samples, all_failures, up_count, sum, rows) = case;
    let l = sample_loop(alloc, 26_280, samples)?.ok_or("out of range")?;
    let Ok(space) = Space::new(alloc, &l) else {
        return Err("no space".into());
    };
    let events = events(alloc, &l)?;
    let up = up_states(alloc, &l, &space)?;
    let rates = entry_rates(alloc, &l, &space, events.as_slice())?;
    let mut found = 0u64;
    for rate in &rates {
        found = found.wrapping_add(*rate);
    }
    assert_eq!(rt; failure_rate(&l), all_failures);
    assert_eq!(rt; up.iter().filter(|is_up| **is_up).count(), up_count);
    assert_eq!(rt; found, sum);
    for (i, expected) in rows {
        assert_eq!(rt; rates.get(*i).copied(), Some(*expected));
    }
    Ok(())
}

#[test]
fn rates_of_failures_that_lead_down(rt: HostRuntime) -> Result<(), Fail> {
    let one = channels(1, 1, [1_000_000, 200_000], [0, 0], 900);
    let pair = channels(1, 2, [2_000_000, 3_000_000], [100, 40], 800);
    let sensors = channels(2, 3, [500_000, 2_000_000], [50, 20], 900);
    let logic = channels(1, 1, [70_000, 3_000_000], [0, 0], 1000);
    let valves = channels(1, 2, [2_000_000, 0], [100, 0], 700);
    let cases: [Case; 4] = [
        (
            &[one],
            1_200_000_000_000,
            1,
            1_200_000_000_000,
            &[(0, 1_200_000_000_000), (3, 0)],
        ),
        // Where both work a common cause alone takes the pair down, and where one works any failure.
        (
            &[pair],
            9_680_000_000_000,
            4,
            15_320_000_000_000,
            &[(0, 320_000_000_000), (1, 5_000_000_000_000), (4, 0)],
        ),
        // A channel in repair is tripped, so a detected failure takes nothing down.
        (
            &[tripped(pair)],
            9_680_000_000_000,
            7,
            4_200_000_000_000,
            &[(0, 200_000_000_000), (1, 2_000_000_000_000), (3, 0)],
        ),
        (
            &[tripped(sensors), logic, staggered(valves)],
            14_240_000_000_000,
            70,
            357_900_000_000_000,
            &[
                (0, 3_295_000_000_000),
                (1, 4_245_000_000_000),
                (4, 0),
                (80, 5_095_000_000_000),
                (81, 6_045_000_000_000),
                (1279, 0),
            ],
        ),
    ];
    for case in cases {
        check(&rt, rt.alloc(), case)?;
    }
    Ok(())
}
