//! A phase of one channel that is never tested, against the exponential, and the greatest size.

ghost use Rattle.std.specs.Prelude.{◌≡◌, ◌<◌, ◌≤◌, Some};
ghost use Rattle.sil_model.specs.Sizes.{states_of};
ghost use Rattle.phase_powers.specs.Kept.{IsOfNoOther};

use super::years::assert_year;
use lumping::Space;
use phase_powers::{Powers, run_phase_powered};
use phase_run::Phase;
use product_chain::Chain;
use sample_loops::{ONE_CHANNEL, sample_loop};
use series_weights::Weights;
use sil_model::Steps;
use std::alloc::{AllocError, Global};
use std::marker::Brand;
use std::process::Abort;
use std::sync::ledger::{Blank, Ledger};
use std::test::Fail;
use test_calendar::beats_of;
use uniformise::Workspace;

/// A phase of a year in 1096 beats, against the exact numbers.
fn pass_year<L: Ledger>(
    rt: &impl Abort,
    powers: &mut Powers,
    work: &mut Workspace,
    phase: &Phase<'_>,
    steps: &mut Steps<L>,
)
    requires beats { phase.now.beats ≡ phase.now.chain.now.beats }
    requires hours { phase.now.hours ≡ phase.now.chain.now.hours }
    requires year { phase.now.hours ≤ 8760 }
    requires states { states_of phase.now.chain.now.of.subsystems ≡ 4 }
    requires size { powers.old.size ≡ 4 }
    requires same { IsOfNoOther powers.old.of phase.now.chain.now.of }
    requires work { work.old ≡ 4 }
    ensures powers { powers.new ≡ record { size = 4; of = Some phase.now.chain.now.of } }
    ensures work { work.new ≡ 4 }
{
    let mut v = [1 << 48, 0, 0, 0];
    let mut mean = [7; 4];
    let mut hours = [1; 4];
    run_phase_powered(powers, work, phase, &mut v, &mut mean, &mut hours, steps);
    assert_year(rt, &v, &mean, &hours);
}

/// A channel that fails once in a million hours, over a year that it begins working: by powers that are made, and by those
/// that are kept.
fn one_year<L: Ledger>(rt: &impl Abort, alloc: Global, blank: Blank) -> Result<(), Fail>
    requires name { blank.name ≡ L.name }
    requires parts { blank.parts ≡ L.parts }
    requires some { 0 < blank.parts }
{
    let mut steps = Steps::<L>::open(blank);
    let l = sample_loop(alloc, 8760, &[ONE_CHANNEL])?.ok_or("out of range")?;
    let Ok(space) = Space::new(alloc, &l) else {
        return Err("no space".into());
    };
    assert_eq!(rt; space.size(), 4);
    assert!(rt; beats_of(&l, 8760) <= 1096);
    let chain = Chain::new(alloc, &l, &space, 8760, 1096)?;
    let weights = Weights::new(28);
    let mut work = Workspace::new(alloc, 4)?;
    let mut powers = Powers::new(alloc, 4)?;
    let phase = Phase {
        chain: &chain,
        weights: &weights,
        hours: 8760,
        beats: 1096,
    };
    pass_year(rt, &mut powers, &mut work, &phase, &mut steps);
    pass_year(rt, &mut powers, &mut work, &phase, &mut steps);
    Ok(())
}

#[test]
fn one_year_of_one_channel(rt: HostRuntime) -> Result<(), Fail> {
    one_year::<Brand>(&rt, rt.alloc(), Blank::new(1))
}

#[test]
fn powers_of_the_greatest_size(rt: HostRuntime) -> Result<(), AllocError> {
    let _ = Powers::new(rt.alloc(), 64)?;
    Ok(())
}
