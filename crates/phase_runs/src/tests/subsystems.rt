//! The beats of a subsystem that is never tested, against the exponential.

ghost use Rattle.std.specs.Prelude.{◌≡◌, ◌<◌};
ghost use Rattle.product_chain.specs.Kept.{IsTimed};

use dense_power::Dense;
use interval_fixed::ONE;
use lumping::Space;
use sample_loops::{ONE_CHANNEL, Sample, sample_loop};
use series_weights::Weights;
use sil_model::{ChannelFigures, Steps};
use std::alloc::Global;
use std::marker::Brand;
use std::process::Abort;
use std::sync::ledger::{Blank, Ledger};
use std::test::Fail;
use subsystem_power::{SubsystemPower, subsystem_alone};
use test_calendar::beats_of;

/// What each beat may lose.
const LOSS: u128 = 40;

/// Whether an entry is no more than the exact number, rounded down, and lacks no more than it may.
fn is_near(entry: u128, exact: u128, loss: u128) -> bool {
    entry <= exact && exact - entry <= loss
}

/// The matrix of so many beats, against the exact chances that the channel works and has failed after them.
fn check_beats(rt: &impl Abort, m: &Dense, beats: u8, works: u128, failed: u128) {
    let loss = u128::from(beats) * LOSS;
    assert_eq!(rt; m.size(), 4);
    assert!(rt; is_near(m.at(0, 0), works, loss), "works after {beats}");
    assert!(rt; is_near(m.at(0, 1), failed, loss), "failed after {beats}");
    assert!(rt; is_near(m.at(1, 1), ONE, loss), "stays failed for {beats}");
    assert_eq!(rt;
        (m.at(0, 2), m.at(0, 3), m.at(1, 0), m.at(1, 2)),
        (0, 0, 0, 0)
    );
}

/// One beat, three by a doubling and a beat more, and sixteen; the same begun again; and beats of half the hours. The exact
/// numbers are exp(-x) and 1 - exp(-x) for x = n * 8760 / 1096 / 10^6, in units of 2^-48.
fn run_phases<L: Ledger>(
    rt: &impl Abort,
    power: &mut SubsystemPower,
    weights: &Weights,
    steps: &mut Steps<L>,
)
    requires order { weights.now ≡ 16 }
    requires year { IsTimed power.old.chain.of.subsystems 8760 1096 }
    requires half { IsTimed power.old.chain.of.subsystems 4380 1096 }
{
    for _ in 0..2u8 {
        power.begin(weights, 8760, 1096, steps);
        check_beats(rt, power.power(), 1, 281_472_726_974_394, 2_249_736_261);
        power.double(steps);
        power.add_beat(steps);
        check_beats(rt, power.power(), 3, 281_468_227_555_816, 6_749_154_839);
        check_beats(rt, power.sixteen(), 16, 281_438_983_088_166, 35_993_622_489);
    }
    power.begin(weights, 4380, 1096, steps);
    check_beats(rt, power.power(), 1, 281_473_851_840_277, 1_124_870_378);
}

/// The second subsystem of a loop, which fails once in a million hours.
fn run_second<L: Ledger>(rt: &impl Abort, alloc: Global, blank: Blank) -> Result<(), Fail>
    requires name { blank.name ≡ L.name }
    requires parts { blank.parts ≡ L.parts }
    requires some { 0 < blank.parts }
{
    let mut steps = Steps::<L>::open(blank);
    let first = Sample {
        figures: ChannelFigures {
            du: 5_000_000,
            ..ONE_CHANNEL.figures
        },
        ..ONE_CHANNEL
    };
    let samples = [first, ONE_CHANNEL];
    let Some(l) = sample_loop(alloc, 8760, &samples)? else {
        return Err("out of range".into());
    };
    assert_eq!(rt; l.len(), 2);
    let second = subsystem_alone(alloc, &l, 1)?;
    let Ok(space) = Space::new(alloc, &second) else {
        return Err("no space".into());
    };
    assert!(rt; space.size() <= 64);
    assert!(rt; beats_of(&second, 8760) <= 1096);
    assert!(rt; beats_of(&second, 4380) <= 1096);
    let weights = Weights::new(16);
    let mut power = SubsystemPower::new(alloc, &l, 1, 8760, 1096)?;
    assert_eq!(rt; power.size(), 4);
    run_phases(rt, &mut power, &weights, &mut steps);
    Ok(())
}

#[test]
fn second_subsystem_over_a_year(rt: HostRuntime) -> Result<(), Fail> {
    run_second::<Brand>(&rt, rt.alloc(), Blank::new(1))
}
