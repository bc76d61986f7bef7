//! Places that were counted apart, and ticks over them against ticks over all count vectors.

ghost use Rattle.std.specs.Prelude.{◌≡◌, ◌<◌, ◌≤◌, ◌^◌, length, sum, vec_len, IfOk};
ghost use Rattle.sil_model.specs.Sizes.{states_of};
ghost use Rattle.place_chain.specs.PlaceChain.{IsWithin};

use super::ONE;
use lumping::Space;
use place_chain::PlaceChain;
use product_chain::Chain;
use sample_loops::{ONE_CHANNEL, Sample, sample_loop};
use sil_model::{ChannelFigures, Loop, Steps, Vote};
use std::alloc::Global;
use std::marker::Brand;
use std::process::Abort;
use std::sync::ledger::{Blank, Ledger};
use std::test::Fail;
use test_calendar::beats_of;

/// Channels whose faults tests find whole.
const fn channels(n: u8, du: u64, dd: u64) -> Sample {
    Sample {
        vote: Vote { m: 1, n },
        figures: ChannelFigures {
            du,
            dd,
            repair: 24,
            ..ONE_CHANNEL.figures
        },
        ..ONE_CHANNEL
    }
}

/// All mass at one of 800 count vectors.
fn all_at(alloc: Global, start: usize) -> Result<Vec<u64>, Fail>
    requires { start < 800 }
    ensures size { IfOk result (λ v. vec_len v ≡ 800) }
    ensures mass { IfOk result (λ v. sum v.items ≤ 2 ^ 48) }
{
    let mut v = vec![in alloc; 0u64; 800]?;
    v[start] = ONE;
    Ok(v)
}

/// A tick over the places leaves the same as one over all count vectors.
fn tick_both<L: Ledger>(
    rt: &impl Abort,
    alloc: Global,
    chain: &Chain,
    reached: &PlaceChain,
    v: &mut Vec<u64>,
    steps: &mut Steps<L>,
) -> Result<(), Fail>
    requires chain { reached.now.chain ≡ chain.now }
    requires size { vec_len v.old ≡ states_of chain.now.of.subsystems }
    requires mass { sum v.old.items ≤ 2 ^ 48 }
    requires within { IsWithin reached.now.places v.old.items }
    ensures size { vec_len v.new ≡ vec_len v.old }
    ensures mass { sum v.new.items ≤ 2 ^ 48 }
    ensures within { IsWithin reached.now.places v.new.items }
{
    let mut from = vec![in alloc; 0u64; reached.size()]?;
    let mut to = vec![in alloc; 0u64; reached.size()]?;
    let mut next = vec![in alloc; 0u64; v.len()]?;
    reached.gather(v, &mut from);
    reached.tick(&from, &mut to, steps);
    chain.tick(v, &mut next, steps);
    reached.scatter(&to, v);
    assert!(rt; *v == next);
    Ok(())
}

/// How many places come to hold more than `least` in 3,750 ticks.
#[derive(Clone, Copy)]
struct Choice {
    least: u64,
    places: usize,
}

/// So many places come to hold more than that in 3,750 ticks, and a tick over these leaves nowhere more than one over all
/// count vectors.
fn tick_over_chosen<L: Ledger>(
    rt: &impl Abort,
    alloc: Global,
    l: &Loop,
    chain: &Chain,
    v: &[u64],
    choice: Choice,
    steps: &mut Steps<L>,
) -> Result<(), Fail>
    requires chain { l.now ≡ chain.now.of }
    requires size { length v.now ≡ states_of chain.now.of.subsystems }
    requires mass { sum v.now ≤ 2 ^ 48 }
{
    let mut chosen = PlaceChain::new(alloc, l, chain)?;
    chosen.choose(chain, v, 3750, choice.least, steps);
    assert_eq!(rt; chosen.size(), choice.places);
    let mut from = vec![in alloc; 0u64; chosen.size()]?;
    let mut to = vec![in alloc; 0u64; chosen.size()]?;
    let mut after = vec![in alloc; 0u64; v.len()]?;
    let mut next = vec![in alloc; 0u64; v.len()]?;
    chosen.gather(v, &mut from);
    chosen.tick(&from, &mut to, steps);
    chosen.scatter(&to, &mut after);
    chain.tick(v, &mut next, steps);
    for k in 0..v.len() {
        assert!(rt; after[k] <= next[k], "at {k}");
    }
    Ok(())
}

/// Three subsystems of 20, 4 and 10 count vectors, so 800 in all, and as many places from one of them; and choices among
/// those.
fn ticks<L: Ledger>(
    rt: &impl Abort,
    alloc: Global,
    start: usize,
    places: usize,
    choices: [Choice; 3],
    steps: &mut Steps<L>,
) -> Result<(), Fail>
    requires { start < 800 }
{
    let samples = [
        channels(3, 500_000, 2_000_000),
        channels(1, 100_000, 900_000),
        channels(2, 2_000_000, 0),
    ];
    let l = sample_loop(alloc, 26_280, &samples)?.ok_or("out of range")?;
    let Ok(space) = Space::new(alloc, &l) else {
        return Err("no space".into());
    };
    assert_eq!(rt; space.size(), 800);
    assert!(rt; beats_of(&l, 8760) <= 3000);
    let chain = Chain::new(alloc, &l, &space, 8760, 3000)?;
    let mut v = all_at(alloc, start)?;
    let mut reached = PlaceChain::new(alloc, &l, &chain)?;
    reached.reach(&chain, &v);
    assert_eq!(rt; reached.size(), places);
    for choice in choices {
        tick_over_chosen(rt, alloc, &l, &chain, &v, choice, steps)?;
    }
    for _ in 0..5 {
        tick_both(rt, alloc, &chain, &reached, &mut v, steps)?;
    }
    Ok(())
}

/// How many places come to hold more than nothing, than 6,000 units and than 10^9 units.
fn choices(places: [usize; 3]) -> [Choice; 3] {
    let [more_than_nothing, heavier, heaviest] = places;
    [
        Choice {
            least: 0,
            places: more_than_nothing,
        },
        Choice {
            least: 6000,
            places: heavier,
        },
        Choice {
            least: 1_000_000_000,
            places: heaviest,
        },
    ]
}

fn run_all<L: Ledger>(rt: &impl Abort, alloc: Global, blank: Blank) -> Result<(), Fail>
    requires name { blank.name ≡ L.name }
    requires parts { blank.parts ≡ L.parts }
    requires some { 0 < blank.parts }
{
    let mut steps = Steps::<L>::open(blank);
    // Ten count vectors of three channels have none in Deep, three of one channel, six of two. Where all valves work, none gets
    // into repair before a test: three of theirs are left.
    ticks(rt, alloc, 0, 10 * 3 * 3, choices([85, 73, 27]), &mut steps)?;
    // The last count vector of the valves has both in repair, as after a test.
    ticks(
        rt,
        alloc,
        720,
        10 * 3 * 6,
        choices([112, 78, 31]),
        &mut steps,
    )
}

#[test]
fn places_of_three_subsystems(rt: HostRuntime) -> Result<(), Fail> {
    run_all::<Brand>(&rt, rt.alloc(), Blank::new(1))
}
