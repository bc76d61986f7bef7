//! One beat of one channel, against exact fractions.

ghost use Rattle.std.specs.Prelude.{◌≡◌, ◌<◌};

use lumping::Space;
use product_chain::Chain;
use sample_loops::{ONE_CHANNEL, sample_loop};
use series_weights::Weights;
use sil_model::Steps;
use std::alloc::Global;
use std::marker::Brand;
use std::process::Abort;
use std::sync::ledger::{Blank, Ledger};
use std::test::Fail;
use test_calendar::beats_of;
use uniformise::Workspace;

/// A channel that fails once in a million hours and is repaired within 8 hours; half of it works, half is in repair.
///
/// The exact numbers are those of a beat by the series up to any order from 28 on, rounded down.
fn one_beat<L: Ledger>(rt: &impl Abort, alloc: Global, blank: Blank) -> Result<(), Fail>
    requires name { blank.name ≡ L.name }
    requires parts { blank.parts ≡ L.parts }
    requires some { 0 < blank.parts }
{
    let mut steps = Steps::<L>::open(blank);
    let l = sample_loop(alloc, 8760, &[ONE_CHANNEL])?.ok_or("out of range")?;
    let Ok(space) = Space::new(alloc, &l) else {
        return Err("no space".into());
    };
    assert_eq!(rt; space.size(), 4);
    assert!(rt; beats_of(&l, 8760) <= 1096);
    let chain = Chain::new(alloc, &l, &space, 8760, 1096)?;
    let weights = Weights::new(28);
    let mut work = Workspace::new(alloc, 4)?;
    let mut v = [1 << 47, 0, 0, 1 << 47];
    let mut dwell = [0; 4];
    work.beat(&chain, &weights, &mut v, &mut dwell, &mut steps);
    let exact: [(u64, u128); 4] = [
        (229_651_748_729_926, 192_477_265_333_236),
        (1_538_413_179, 710_946_913),
        (0, 0),
        (51_821_689_567_550, 88_997_000_430_505),
    ];
    for k in 0..4 {
        let (end, mean) = exact[k];
        assert!(rt; v[k] <= end && end - v[k] <= 31, "end of {k}");
        assert!(rt; dwell[k] <= mean && mean - dwell[k] <= 815, "mean of {k}");
    }
    Ok(())
}

#[test]
fn one_beat_of_one_channel(rt: HostRuntime) -> Result<(), Fail> {
    one_beat::<Brand>(&rt, rt.alloc(), Blank::new(1))
}
