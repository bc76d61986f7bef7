//! The subsystems of a loop, each for itself.

ghost use Rattle.std.specs.Prelude.{◌≡◌, ◌+◌, ◌≤◌, [], ◌∷◌, map, sum_by, IfOk};
ghost use Rattle.product_chain.specs.Kept.{IsTimed};
ghost use Rattle.subsystem_power.specs.Powers.{alone_of, begin_products};
ghost use Rattle.phase_separate.specs.Subsystems.{HaveFewStates, loops_of, powers_at};

use product_chain::Chain;
use series_weights::Weights;
use sil_model::{Loop, Steps};
use std::alloc::{AllocError, Global};
use std::sync::ledger::Ledger;
use subsystem_power::SubsystemPower;

/// The subsystems of a loop that is timed for a phase of so many hours in so many beats.
pub fn subsystems_of(
    alloc: Global,
    l: &Loop,
    hours: u64,
    beats: u64,
) -> Result<Vec<SubsystemPower>, AllocError>
    requires few { HaveFewStates l.now.subsystems }
    requires timed { IsTimed l.now.subsystems hours beats }
    ensures { IfOk result (λ ps. loops_of ps.items ≡ map (alone_of l.now) l.now.subsystems) }
{
    let mut subsystems = Vec::with_capacity(alloc, l.len())?;
    for i in 0..l.len() {
        subsystems.push(SubsystemPower::new(alloc, l, i, hours, beats)?)?;
    }
    Ok(subsystems)
}

/// Begins a phase in each subsystem.
pub fn begin<L: Ledger>(
    chain: &Chain,
    subsystems: &mut [SubsystemPower],
    weights: &Weights,
    hours: u64,
    beats: u64,
    steps: &mut Steps<L>,
)
    requires subsystems { loops_of subsystems.old ≡ map (alone_of chain.now.of) chain.now.of.subsystems }
    requires order { weights.now ≡ 16 }
    requires hours { hours ≡ chain.now.hours }
    requires beats { beats ≡ chain.now.beats }
    requires timed { IsTimed chain.now.of.subsystems hours beats }
    ensures subsystems { subsystems.new ≡ powers_at chain.now 1 }
    ensures steps { steps.new ≤ steps.old + sum_by (λ u. begin_products (u ∷ [])) chain.now.of.subsystems }
{
    let _ = chain;
    for i in 0..subsystems.len() {
        subsystems[i].begin(weights, hours, beats, steps);
    }
}
