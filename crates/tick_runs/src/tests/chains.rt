//! Ticks of small chains and of chains at the limits, against chances that were worked out apart in exact fractions.

ghost use Rattle.std.specs.Prelude.{◌≡◌, ◌<◌};

use super::ONE;
use interval_fixed::{ratio_down, ratio_up};
use lumping::Space;
use product_chain::Chain;
use sample_loops::{ONE_CHANNEL, Sample, YEARLY, sample_loop};
use sil_model::{ChannelFigures, Steps, TestPlan, Vote};
use std::alloc::Global;
use std::marker::Brand;
use std::process::Abort;
use std::sync::ledger::{Blank, Ledger};
use std::test::Fail;
use test_calendar::beats_of;

/// Channels of which one suffices.
const fn channels(n: u8) -> Sample {
    Sample {
        vote: Vote { m: 1, n },
        ..ONE_CHANNEL
    }
}

/// The same, tested ten hours after one another.
fn staggered(n: u8) -> Sample {
    Sample {
        test: Some(TestPlan {
            stagger: 10,
            ..YEARLY
        }),
        ..channels(n)
    }
}

/// A tick of a chain of so many hours and beats: the numbers of `from` by their places, and some of those after it.
fn tick_once<L: Ledger>(
    rt: &impl Abort,
    alloc: Global,
    samples: &[Sample],
    time: (u64, u64),
    from: &[(usize, u64)],
    after: &[(usize, u64)],
    steps: &mut Steps<L>,
) -> Result<(), Fail> {
    let l = sample_loop(alloc, 350_400, samples)?.ok_or("out of range")?;
    let Ok(space) = Space::new(alloc, &l) else {
        return Err("no space".into());
    };
    let (hours, beats) = time;
    assert!(rt; 1 <= hours && hours <= 350_400 && beats <= 1_000_000);
    assert!(rt; beats_of(&l, hours) <= beats);
    let chain = Chain::new(alloc, &l, &space, hours, beats)?;
    let mut vector = vec![in alloc; 0u64; space.size()]?;
    let mut left = ONE;
    for (i, mass) in from {
        assert!(rt; *i < vector.len());
        assert!(rt; *mass <= left);
        left -= *mass;
        vector[*i] += *mass;
    }
    let mut next = vec![in alloc; 0u64; space.size()]?;
    chain.tick(vector.as_slice(), next.as_mut_slice(), steps);
    for (j, mass) in after {
        assert!(rt; *j < next.len());
        assert_eq!(rt; next[*j], *mass);
    }
    Ok(())
}

fn one_channel_in_1096_beats<L: Ledger>(
    rt: &impl Abort,
    alloc: Global,
    steps: &mut Steps<L>,
) -> Result<(), Fail> {
    let l = sample_loop(alloc, 8760, &[ONE_CHANNEL])?.ok_or("out of range")?;
    let Ok(space) = Space::new(alloc, &l) else {
        return Err("no space".into());
    };
    assert_eq!(rt; space.size(), 4);
    assert!(rt; beats_of(&l, 8760) <= 1096);
    assert!(rt; beats_of(&l, 1) <= 1);
    let mut chain = Chain::new(alloc, &l, &space, 8760, 1096)?;
    let start = [ONE, 0, 0, 0];
    let mut to = [0; 4];
    chain.tick(&start, &mut to, steps);
    let down = ratio_down(8760, 1_096_000_000) as u64;
    let up = ratio_up(8760, 1_096_000_000) as u64;
    assert_eq!(rt; to, [ONE - up, down, 0, 0]);
    chain.tick(&[0, 0, 0, ONE], &mut to, steps);
    assert_eq!(rt; to, [281_218_156_476_430, 0, 0, 256_820_234_225]);
    chain.retime(&l, &space, 1, 1);
    chain.tick(&start, &mut to, steps);
    assert_eq!(rt; to, [281_474_695_235_679, 281_474_976, 0, 0]);
    Ok(())
}

fn two_staggered_channels_with_a_common_cause<L: Ledger>(
    rt: &impl Abort,
    alloc: Global,
    steps: &mut Steps<L>,
) -> Result<(), Fail> {
    let pair = Sample {
        figures: ChannelFigures {
            du: 2_000_000,
            dd: 3_000_000,
            beta: 100,
            beta_d: 50,
            coverage: 900,
            repair: 24,
            ..ONE_CHANNEL.figures
        },
        ..staggered(2)
    };
    let from = [
        (0, 1_234_567_890_123),
        (1, 2_469_135_780_246),
        (2, 3_703_703_670_369),
        (3, 4_938_271_560_492),
        (4, 6_172_839_450_615),
        (5, 7_407_407_340_738),
        (6, 8_641_975_230_861),
        (7, 9_876_543_120_984),
        (8, 11_111_111_011_107),
        (9, 12_345_678_901_230),
        (10, 13_580_246_791_353),
        (11, 14_814_814_681_476),
        (12, 16_049_382_571_599),
        (13, 17_283_950_461_722),
        (14, 18_518_518_351_845),
        (15, 133_326_829_895_896),
    ];
    let after = [
        (0, 6_341_494_153_623),
        (1, 6_674_836_640_500),
        (2, 8_209_769_618_948),
        (3, 36_179_363_772_725),
        (4, 8_575_963_043_142),
        (5, 7_407_499_482_959),
        (6, 8_642_021_374_070),
        (7, 7_473_411_020_802),
        (8, 14_715_726_103_602),
        (9, 12_345_798_585_179),
        (10, 13_580_264_239_254),
        (11, 11_210_076_876_882),
        (12, 44_586_446_660_021),
        (13, 13_078_401_153_071),
        (14, 14_012_429_187_463),
        (15, 68_441_474_798_407),
    ];
    tick_once(rt, alloc, &[pair], (8760, 1500), &from, &after, steps)
}

fn chains_at_the_limits<L: Ledger>(
    rt: &impl Abort,
    alloc: Global,
    steps: &mut Steps<L>,
) -> Result<(), Fail> {
    let still = Sample {
        figures: ChannelFigures {
            du: 0,
            ..ONE_CHANNEL.figures
        },
        ..channels(2)
    };
    let eight = Sample {
        figures: ChannelFigures {
            du: 1_000_000_000,
            beta: 1000,
            ..ONE_CHANNEL.figures
        },
        ..channels(8)
    };
    let cases: [(Sample, (u64, u64), &[(usize, u64)]); 4] = [
        // nothing happens where all work and none fails
        (still, (350_400, 1_000_000), &[(0, ONE)]),
        // eight channels fail together, in the least number of beats
        (
            eight,
            (1, 2),
            &[(0, 281_334_239_222_300), (120, 140_737_488_355)],
        ),
        // 4,096 states: six channels, each a group of its own, in a long phase and in a short one
        (
            staggered(6),
            (8760, 1_000_000),
            &[
                (0, 281_474_961_916_330),
                (1, 2_465_720),
                (4, 2_465_720),
                (1024, 2_465_720),
                (5, 0),
            ],
        ),
        (
            staggered(6),
            (1, 1_000_000),
            &[(0, 281_474_976_708_964), (1, 281), (1024, 281)],
        ),
    ];
    for (sample, time, after) in cases {
        tick_once(rt, alloc, &[sample], time, &[(0, ONE)], after, steps)?;
    }
    Ok(())
}

fn run_all<L: Ledger>(rt: &impl Abort, alloc: Global, blank: Blank) -> Result<(), Fail>
    requires name { blank.name ≡ L.name }
    requires parts { blank.parts ≡ L.parts }
    requires some { 0 < blank.parts }
{
    let mut steps = Steps::<L>::open(blank);
    one_channel_in_1096_beats(rt, alloc, &mut steps)?;
    two_staggered_channels_with_a_common_cause(rt, alloc, &mut steps)?;
    chains_at_the_limits(rt, alloc, &mut steps)
}

#[test]
fn ticks_of_chains(rt: HostRuntime) -> Result<(), Fail> {
    run_all::<Brand>(&rt, rt.alloc(), Blank::new(1))
}
