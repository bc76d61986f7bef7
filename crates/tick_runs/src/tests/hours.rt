//! Tests of one hour. The chances that are expected were worked out apart, in exact fractions, and rounded down once.

ghost use Rattle.std.specs.Prelude.{◌≡◌, ◌<◌};
ghost use Rattle.test_matrix.specs.HourTests.{Exist};

use super::ONE;
use super::entries::is_mass;
use lumping::{Space, state_count};
use sample_loops::{ONE_CHANNEL, Sample, sample_loop};
use sil_model::{ChannelFigures, InRepair, Loop, Steps, TestPlan, Vote};
use std::alloc::Global;
use std::marker::Brand;
use std::process::Abort;
use std::sync::ledger::{Blank, Ledger};
use std::test::Fail;
use test_calendar::{GroupTest, plan};
use test_matrix::Tests;

/// The loop of channels that fail at tests alone, at the hours 50 and 150, each second one full.
fn tested(
    alloc: Global,
    vote: Vote,
    stagger: u32,
    restart_fault: u32,
    in_repair: InRepair,
) -> Result<Loop, Fail> {
    let sample = Sample {
        vote,
        figures: ChannelFigures {
            du: 0,
            restart_fault,
            ..ONE_CHANNEL.figures
        },
        in_repair,
        test: Some(TestPlan {
            first: 50,
            every: 100,
            stagger,
            full_each: 2,
        }),
    };
    Ok(sample_loop(alloc, 200, &[sample])?.ok_or("out of range")?)
}

/// Applies the tests that follow a phase to a vector of a loop, and answers the ends of what has passed.
fn apply_after<L: Ledger>(
    rt: &impl Abort,
    alloc: Global,
    l: &Loop,
    phase: usize,
    v: &mut [u64],
    steps: &mut Steps<L>,
) -> Result<(u128, u128), Fail> {
    let plan = plan(alloc, l)?;
    assert!(rt; phase < plan.phases());
    apply(rt, alloc, l, plan.tests_after(phase), v, steps)
}

/// Applies tests to a vector of a loop, and answers the ends of what has passed.
fn apply<L: Ledger>(
    rt: &impl Abort,
    alloc: Global,
    l: &Loop,
    hour: &[GroupTest],
    v: &mut [u64],
    steps: &mut Steps<L>,
) -> Result<(u128, u128), Fail>
    requires { Exist l.now.subsystems hour.now }
{
    assert!(rt; v.len() as u128 == state_count(l));
    assert!(rt; is_mass(v));
    let Ok(space) = Space::new(alloc, l) else {
        return Err("no space".into());
    };
    let mut tests = Tests::new(alloc, l, &space)?;
    let passed = tests.apply(hour, v, steps);
    Ok((passed.lo, passed.hi))
}

/// Whether each number is no more than what is expected at its place, 0 where nothing is said, and no less by more than so
/// much.
fn is_just_below(v: &[u64], expected: &[(usize, u64)], lack: u64) -> bool {
    for j in 0..v.len() {
        let mut most = 0;
        for &(place, x) in expected {
            if place == j {
                most = x;
            }
        }
        if v[j] > most || most - v[j] > lack {
            return false;
        }
    }
    true
}

fn one_channel<L: Ledger>(
    rt: &impl Abort,
    alloc: Global,
    steps: &mut Steps<L>,
) -> Result<(), Fail> {
    let l = tested(alloc, Vote { m: 1, n: 1 }, 0, 20_000, InRepair::Lost)?;
    // a partial test at the first hour, a full one at the second, and none after the last phase
    let cases = [
        (
            1,
            [ONE, 0, 0, 0],
            [275_845_477_176_442, 5_629_499_534_213, 0, 0],
            (5_629_499_534_213, 5_629_499_534_214),
        ),
        (0, [0, 0, ONE, 0], [0, 0, ONE, 0], (0, 0)),
        (1, [0, 0, ONE, 0], [0, 0, 0, ONE], (0, 0)),
        (1, [0, 0, 0, ONE], [0, 0, 0, ONE], (0, 0)),
        (2, [5, 6, 7, 8], [5, 6, 7, 8], (0, u128::from(ONE) - 26)),
    ];
    for (phase, before, after, passed) in cases {
        let mut v = before;
        assert_eq!(rt; apply_after(rt, alloc, &l, phase, &mut v, steps)?, passed);
        assert_eq!(rt; v, after);
    }
    Ok(())
}

fn eight_channels_fail_each_by_itself<L: Ledger>(
    rt: &impl Abort,
    alloc: Global,
    steps: &mut Steps<L>,
) -> Result<(), Fail> {
    let l = tested(alloc, Vote { m: 4, n: 8 }, 0, 20_000, InRepair::Lost)?;
    let mut v = [0; 165];
    v[0] = ONE;
    let (lo, hi) = apply_after(rt, alloc, &l, 0, &mut v, steps)?;
    // by the binomial distribution: the places are those of 0 to 8 channels in Hidden
    let expected = [
        (0, 239_468_501_967_495),
        (1, 39_096_898_280_407),
        (4, 2_792_635_591_457),
        (10, 113_985_126_181),
        (20, 2_907_783_831),
        (35, 47_474_021),
        (56, 484_428),
        (84, 2_824),
        (120, 7),
    ];
    assert!(rt; is_just_below(&v, &expected, 44));
    // five failures and more
    assert!(rt; lo <= 47_961_282 && 47_961_282 < hi && hi <= 47_961_282 + 45);
    Ok(())
}

fn two_groups_in_one_hour<L: Ledger>(
    rt: &impl Abort,
    alloc: Global,
    steps: &mut Steps<L>,
) -> Result<(), Fail> {
    let l = tested(alloc, Vote { m: 1, n: 2 }, 100, 100_000, InRepair::Tripped)?;
    // At the hour 150 the first channel is tested in full and the second in part. From each state to each other one, and
    // what passes: from the fourth one on the loop is down between the two tests, but not after them.
    let both_work = [
        (0, 227_994_731_135_631),
        (1, 25_332_747_903_959),
        (4, 25_332_747_903_959),
        (5, 2_814_749_767_106),
    ];
    let second_works = [(3, 253_327_479_039_590), (7, 28_147_497_671_065)];
    let second_found = [(12, 253_327_479_039_590), (13, 28_147_497_671_065)];
    let second_deep = [(8, 253_327_479_039_590), (9, 28_147_497_671_065)];
    let both_found = [(15, ONE)];
    let first_found = [(11, ONE)];
    let cases = [
        (0, &both_work[..], 2_814_749_767_106),
        (1, &second_works[..], 0),
        (2, &second_works[..], 0),
        (3, &second_works[..], 0),
        (4, &second_found[..], 0),
        (5, &both_found[..], 0),
        (6, &both_found[..], 0),
        (7, &both_found[..], 0),
        (8, &second_deep[..], 28_147_497_671_065),
        (9, &first_found[..], 0),
        (10, &first_found[..], 0),
        (11, &first_found[..], 0),
        (12, &second_found[..], 0),
        (13, &both_found[..], 0),
        (14, &both_found[..], 0),
        (15, &both_found[..], 0),
    ];
    for (from, expected, passed) in cases {
        let mut v = [0; 16];
        assert!(rt; from < v.len());
        v[from] = ONE;
        let (lo, hi) = apply_after(rt, alloc, &l, 1, &mut v, steps)?;
        assert!(rt; is_just_below(&v, expected, 3), "from {from}");
        assert!(rt;
            lo <= passed && passed <= hi && hi <= passed + 5,
            "from {from}"
        );
    }
    Ok(())
}

fn run_all<L: Ledger>(rt: &impl Abort, alloc: Global, blank: Blank) -> Result<(), Fail>
    requires name { blank.name ≡ L.name }
    requires parts { blank.parts ≡ L.parts }
    requires some { 0 < blank.parts }
{
    let mut steps = Steps::<L>::open(blank);
    one_channel(rt, alloc, &mut steps)?;
    eight_channels_fail_each_by_itself(rt, alloc, &mut steps)?;
    two_groups_in_one_hour(rt, alloc, &mut steps)
}

#[test]
fn tests_of_an_hour(rt: HostRuntime) -> Result<(), Fail> {
    run_all::<Brand>(&rt, rt.alloc(), Blank::new(1))
}
