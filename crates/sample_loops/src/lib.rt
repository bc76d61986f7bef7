//! Loops for the tests of other crates, made from the figures of their subsystems.
//!
//! The subsystems get the names `a`, `bb`, `ccc` and so on, so that a test names what it is about alone.
#![tactic(auto)]

ghost use Rattle.std.specs.Prelude.{◌≡◌, ◌+◌, ◌<◌, ◌↔◌, length, map, IfOk, IfSome, IsTrue};
ghost use Rattle.sil_model.specs.LoopValue.{IsName, IsVoteInRange, IsFiguresInRange, IsPlanInRange, IsSubsystemInRange};
ghost use Rattle.sample_loops.specs.Samples.{IsSampleInRange, sample_of};

use sil_model::{ChannelFigures, InRepair, Loop, Subsystem, TestPlan, Text, Vote};
use std::alloc::{AllocError, Global};

/// A subsystem without its name.
#[derive(Clone, Copy, Debug, PartialEq, Eq)]
pub struct Sample {
    /// Its MooN voting.
    pub vote: Vote,
    /// The figures of each of its channels.
    pub figures: ChannelFigures,
    /// How its channels vote while they are being repaired.
    pub in_repair: InRepair,
    /// Its proof tests, if it has any.
    pub test: Option<TestPlan>,
}

/// One channel that fails once in a million hours, is repaired within 8 hours, and is never tested.
pub const ONE_CHANNEL: Sample = Sample {
    vote: Vote { m: 1, n: 1 },
    figures: ChannelFigures {
        du: 1_000_000,
        dd: 0,
        beta: 0,
        beta_d: 0,
        coverage: 1000,
        restart_fault: 0,
        repair: 8,
    },
    in_repair: InRepair::Lost,
    test: None,
};

/// A full test of all channels each year.
pub const YEARLY: TestPlan = TestPlan {
    first: 8760,
    every: 8760,
    stagger: 0,
    full_each: 1,
};

/// The loop of up to six subsystems, over a mission in hours, or `None` where a value is out of its range.
pub fn sample_loop(
    alloc: Global,
    mission: u32,
    samples: &[Sample],
) -> Result<Option<Loop>, AllocError>
    ensures mission { IfOk result (λ found. IfSome found (λ l. l.mission ≡ mission)) }
    ensures subsystems { IfOk result (λ found. IfSome found (λ l. map sample_of l.subsystems ≡ samples.now)) }
{
    if mission < 1 || mission > 350_400 || samples.is_empty() || samples.len() > 6 {
        return Ok(None);
    }
    let mut subsystems = Vec::new(alloc);
    for (i, sample) in samples.iter().enumerate() {
        if !is_in_range(sample) {
            return Ok(None);
        }
        subsystems.push(subsystem(alloc, name(i), sample)?)?;
    }
    Ok(Some(Loop::new(mission, 28, subsystems)))
}

/// Whether all values of a subsystem are in their ranges.
fn is_in_range(sample: &Sample) -> bool
    ensures { IsTrue result → IsSampleInRange sample.now }
{
    let others_in_range = is_vote_in_range(sample.vote) && are_figures_in_range(sample.figures);
    match sample.test {
        Some(plan) => others_in_range && is_plan_in_range(plan),
        None => others_in_range,
    }
}

/// Whether there are so many channels.
fn is_vote_in_range(vote: Vote) -> bool
    ensures { IsTrue result ↔ IsVoteInRange vote }
{
    1 <= vote.m && vote.m <= vote.n && vote.n <= 8
}

/// Whether all figures of a channel are in their ranges.
fn are_figures_in_range(figures: ChannelFigures) -> bool
    ensures { IsTrue result ↔ IsFiguresInRange figures }
{
    figures.du <= 1_000_000_000
        && figures.dd <= 1_000_000_000
        && figures.beta <= 1000
        && figures.beta_d <= 1000
        && figures.coverage <= 1000
        && figures.restart_fault <= 1_000_000
        && 1 <= figures.repair
        && figures.repair <= 8760
}

/// Whether all values of a plan are in their ranges.
fn is_plan_in_range(plan: TestPlan) -> bool
    ensures { IsTrue result ↔ IsPlanInRange plan }
{
    1 <= plan.first
        && plan.first <= 350_400
        && 1 <= plan.every
        && plan.every <= 350_400
        && plan.stagger <= 350_400
        && 1 <= plan.full_each
        && plan.full_each <= 1000
}

/// The subsystem of a sample, by a name.
fn subsystem(alloc: Global, name: &str, sample: &Sample) -> Result<Subsystem, AllocError>
    requires name { IsName name.now }
    requires in_range { IsSampleInRange sample.now }
    ensures named { IfOk result (λ u. u.name ≡ name.now) }
    ensures sampled { IfOk result (λ u. sample_of u ≡ sample.now) }
    ensures in_range { IfOk result (λ u. IsSubsystemInRange u) }
{
    Ok(Subsystem {
        name: Text::from_str(alloc, name)?,
        vote: sample.vote,
        figures: sample.figures,
        in_repair: sample.in_repair,
        test: sample.test,
    })
}

/// The name of the subsystem of a number, longer than those before it.
fn name(i: usize) -> &'static str
    requires { i < 6 }
    ensures size { length result.now ≡ i + 1 }
    ensures name { IsName result.now }
{
    match i {
        0 => "a",
        1 => "bb",
        2 => "ccc",
        3 => "dddd",
        4 => "eeeee",
        _ => "ffffff",
    }
}
