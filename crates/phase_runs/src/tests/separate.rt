//! A phase of two channels that are never tested, against the exponential.

ghost use Rattle.std.specs.Prelude.{◌≡◌, ◌<◌, ◌≤◌};
ghost use Rattle.sil_model.specs.Sizes.{states_of};
ghost use Rattle.phase_separate.specs.Losses.{LoseLittle};

use lumping::Space;
use phase_run::Phase;
use phase_separate::{Extent, SeparateRoom, run_phase_separately};
use product_chain::Chain;
use sample_loops::{ONE_CHANNEL, sample_loop};
use series_weights::Weights;
use sil_model::Steps;
use std::alloc::Global;
use std::marker::Brand;
use std::process::Abort;
use std::sync::ledger::{Blank, Ledger};
use std::test::Fail;
use test_calendar::beats_of;
use uniformise::Workspace;

/// How many beats the year has.
const BEATS: u64 = 2_200;

/// What they may lose, 260 units each.
const LOSS: u64 = 572_000;

/// A phase of a year, against the exact numbers, rounded down: with `e = exp(-x)` for x = 0.00876, both channels work with the
/// chance e * e, one alone with e * (1 - e), none with the rest; and what these come to on average over the year.
fn pass_year<L: Ledger>(
    rt: &impl Abort,
    room: &mut SeparateRoom,
    work: &mut Workspace,
    phase: &Phase<'_>,
    steps: &mut Steps<L>,
)
    requires beats { phase.now.beats ≡ phase.now.chain.now.beats }
    requires hours { phase.now.hours ≡ phase.now.chain.now.hours }
    requires year { phase.now.hours ≤ 8760 }
    requires states { states_of phase.now.chain.now.of.subsystems ≡ 16 }
    requires room { room.old ≡ phase.now.chain.now.of }
    requires work { work.old ≡ 16 }
    requires little { LoseLittle phase.now.chain.now.of.subsystems phase.now.beats }
    ensures room { room.new ≡ room.old }
    ensures work { work.new ≡ 16 }
{
    let mut v = [0; 16];
    v[0] = 1 << 48;
    let mut mean = [7; 16];
    let mut hours = [1; 16];
    run_phase_separately(room, work, phase, &mut v, &mut mean, &mut hours, steps);
    let loss = u128::from(LOSS);
    let exact: [(usize, u64, u128, u128); 4] = [
        (
            0,
            276_586_483_363_515,
            279_023_592_873_311,
            2_444_246_673_570_208_515,
        ),
        (
            1,
            2_433_540_941_600,
            1_222_115_521_610,
            10_705_731_969_310_274,
        ),
        (
            4,
            2_433_540_941_600,
            1_222_115_521_610,
            10_705_731_969_310_274,
        ),
        (5, 21_411_463_938, 7_152_794_123, 62_658_476_517_495),
    ];
    for k in 0..4 {
        let (place, end, middle, dwelt) = exact[k];
        assert!(rt; v[place] <= end && end - v[place] <= LOSS, "end of {place}");
        assert!(rt;
            mean[place] <= middle && middle - mean[place] <= loss + 16,
            "mean of {place}"
        );
        let added = hours[place].saturating_sub(1);
        assert!(rt;
            added <= dwelt && dwelt - added <= 8760 * loss + 16,
            "hours of {place}"
        );
    }
    assert_eq!(rt;
        (v[2], v[3], v[8], v[15], mean[6], hours[12]),
        (0, 0, 0, 0, 0, 1)
    );
}

/// Two channels, each of which fails once in a million hours, over a year that both begin working: by matrices that are made, and
/// by those that are kept.
fn one_year<L: Ledger>(rt: &impl Abort, alloc: Global, blank: Blank) -> Result<(), Fail>
    requires name { blank.name ≡ L.name }
    requires parts { blank.parts ≡ L.parts }
    requires some { 0 < blank.parts }
{
    let mut steps = Steps::<L>::open(blank);
    let l = sample_loop(alloc, 8760, &[ONE_CHANNEL, ONE_CHANNEL])?.ok_or("out of range")?;
    let Ok(space) = Space::new(alloc, &l) else {
        return Err("no space".into());
    };
    assert_eq!(rt; space.size(), 16);
    assert!(rt; beats_of(&l, 8760) <= BEATS);
    let chain = Chain::new(alloc, &l, &space, 8760, BEATS)?;
    let weights = Weights::new(28);
    let mut work = Workspace::new(alloc, 16)?;
    let Some(extent) = Extent::of(&l, 16) else {
        return Err("too many states".into());
    };
    assert!(rt; extent.lose_little(BEATS), "much is lost");
    // of 12 binary digits: 2 * (4 * (4 * (16 * 8 + 33)) + 4 * 64) to begin, and so on, worked out by hand
    assert_eq!(rt; extent.products(12), 5_664 + 24 * (128 + 128) + 384 + 4_368);
    let mut room = SeparateRoom::new(alloc, &l, 16, 8760, BEATS)?;
    let phase = Phase {
        chain: &chain,
        weights: &weights,
        hours: 8760,
        beats: BEATS,
    };
    pass_year(rt, &mut room, &mut work, &phase, &mut steps);
    pass_year(rt, &mut room, &mut work, &phase, &mut steps);
    Ok(())
}

#[test]
fn one_year_of_two_channels(rt: HostRuntime) -> Result<(), Fail> {
    one_year::<Brand>(&rt, rt.alloc(), Blank::new(1))
}
