//! A phase of one channel that is never tested, and one of four channels that are all in repair, against the exponential.

ghost use Rattle.std.specs.Prelude.{◌≡◌, ◌<◌};

use super::years::assert_year;
use beat_ladder::Ladder;
use lumping::Space;
use phase_run::{LadderRoom, Phase, run_phase_by_ladder};
use product_chain::Chain;
use sample_loops::{ONE_CHANNEL, Sample, sample_loop};
use series_weights::Weights;
use sil_model::{ChannelFigures, Steps, Vote};
use std::alloc::Global;
use std::marker::Brand;
use std::process::Abort;
use std::sync::ledger::{Blank, Ledger};
use std::test::Fail;
use test_calendar::beats_of;
use uniformise::Workspace;

/// A channel over a year, beat by beat: the ladder has no rungs.
fn one_year<L: Ledger>(rt: &impl Abort, alloc: Global, steps: &mut Steps<L>) -> Result<(), Fail> {
    let l = sample_loop(alloc, 8760, &[ONE_CHANNEL])?.ok_or("out of range")?;
    let Ok(space) = Space::new(alloc, &l) else {
        return Err("no space".into());
    };
    assert_eq!(rt; space.size(), 4);
    assert!(rt; beats_of(&l, 8760) <= 1096);
    let chain = Chain::new(alloc, &l, &space, 8760, 1096)?;
    let weights = Weights::new(28);
    let ladder = Ladder::new(alloc, 0)?;
    let mut room = LadderRoom::new(alloc, &l, &chain, 4, ladder)?;
    let mut work = Workspace::new(alloc, 4)?;
    let mut v = [1 << 48, 0, 0, 0];
    let mut mean = [7; 4];
    let mut hours = [1; 4];
    let phase = Phase {
        chain: &chain,
        weights: &weights,
        hours: 8760,
        beats: 1096,
    };
    run_phase_by_ladder(
        &mut room, &mut work, &phase, &mut v, &mut mean, &mut hours, steps,
    );
    assert_year(rt, &v, &mean, &hours);
    Ok(())
}

/// A pair of channels of which one suffices, repaired within a day.
const fn pair(du: u64, dd: u64) -> Sample {
    Sample {
        vote: Vote { m: 1, n: 2 },
        figures: ChannelFigures {
            du,
            dd,
            repair: 24,
            ..ONE_CHANNEL.figures
        },
        ..ONE_CHANNEL
    }
}

/// Two pairs of channels, all of them in repair at first, over 2,000 hours.
///
/// The estimate goes over repairs last, so that it does not see how many of these channels fail again: what is lost over the
/// chosen places is too much, and the beats pass again. The exact numbers are those of a channel's exponential, squared.
fn all_in_repair<L: Ledger>(
    rt: &impl Abort,
    alloc: Global,
    steps: &mut Steps<L>,
) -> Result<(), Fail> {
    let pairs = [pair(500_000_000, 100_000), pair(1_000, 1_000)];
    let l = sample_loop(alloc, 2000, &pairs)?.ok_or("out of range")?;
    let Ok(space) = Space::new(alloc, &l) else {
        return Err("no space".into());
    };
    assert_eq!(rt; space.size(), 100);
    assert!(rt; beats_of(&l, 2000) <= 336);
    let chain = Chain::new(alloc, &l, &space, 2000, 336)?;
    let weights = Weights::new(28);
    let ladder = Ladder::new(alloc, 336)?;
    let mut room = LadderRoom::new(alloc, &l, &chain, 100, ladder)?;
    let mut work = Workspace::new(alloc, 100)?;
    let mut v = [0; 100];
    v[99] = 1 << 48;
    let mut mean = [0; 100];
    let mut hours = [0; 100];
    let phase = Phase {
        chain: &chain,
        weights: &weights,
        hours: 2000,
        beats: 336,
    };
    run_phase_by_ladder(
        &mut room, &mut work, &phase, &mut v, &mut mean, &mut hours, steps,
    );
    let exact: [(usize, u64); 3] = [
        (0, 39_024_302_590_266),
        (1, 131_563_425_533_455),
        (4, 110_885_613_510_068),
    ];
    // 336 beats of 1,121 units each
    let loss = 376_656;
    for (k, end) in exact {
        assert!(rt; v[k] <= end && end - v[k] <= loss, "end of {k}");
    }
    Ok(())
}

fn run_all<L: Ledger>(rt: &impl Abort, alloc: Global, blank: Blank) -> Result<(), Fail>
    requires name { blank.name ≡ L.name }
    requires parts { blank.parts ≡ L.parts }
    requires some { 0 < blank.parts }
{
    let mut steps = Steps::<L>::open(blank);
    one_year(rt, alloc, &mut steps)?;
    all_in_repair(rt, alloc, &mut steps)
}

#[test]
fn phases_by_ladders(rt: HostRuntime) -> Result<(), Fail> {
    run_all::<Brand>(&rt, rt.alloc(), Blank::new(1))
}
