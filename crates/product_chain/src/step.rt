//! The steps from one count vector to others.

ghost use Rattle.std.specs.Prelude.{◌≡◌, ◌+◌, ◌<◌, ◌≤◌, ◌^◌, [], length, IfOk, All};
ghost use Rattle.sil_model.specs.LoopValue.{IsValid, groups_of};
ghost use Rattle.sil_model.specs.Sizes.{states_of};
ghost use Rattle.sil_model.specs.Counts.{counts_numbered};
ghost use Rattle.common_cause.specs.LumpEvents.{lump_events_of};
ghost use Rattle.product_chain.specs.Steps.{joined, joined_at, upper, lower, steps_from};

use common_cause::{LumpEvent, Rate, Share, share_at};
use lumping::Space;
use sil_model::Loop;
use std::alloc::AllocError;

/// What leads from one count vector to another: `num / den` per hour.
#[derive(Clone, Copy, Debug, PartialEq, Eq)]
pub struct Step {
    /// The number of the count vector that is left.
    pub source: usize,
    /// The number of the one that is reached.
    pub target: usize,
    /// How often, as a quotient per hour.
    pub num: u128,
    /// The divisor.
    pub den: u128,
}

/// Adds the steps of a count vector, those of one target together. `after` is room for the counts after an event.
pub fn push_steps(
    steps: &mut Vec<Step>,
    l: &Loop,
    space: &Space,
    events: &[LumpEvent],
    source: usize,
    counts: &[u8],
    after: &mut [u8],
) -> Result<(), AllocError>
    requires valid { IsValid l.now }
    requires space { space.now ≡ l.now }
    requires events { events.now ≡ lump_events_of l.now.subsystems }
    requires source { source < states_of l.now.subsystems }
    requires counts { counts.now ≡ counts_numbered (groups_of l.now.subsystems) source }
    requires after { length after.old ≡ length counts.now }
    requires empty { steps.old.items ≡ [] }
    ensures { IfOk result (λ _. steps.new.items ≡ steps_from l.now.subsystems source) }
{
    for event in events {
        let times = event.times(l, counts);
        if times > 0 {
            after.copy_from_slice(counts);
            event.happen(l, after);
            let share = share_at(l, usize::from(event.subsystem), counts);
            let (units, den) = quotient_of(event.rate, share);
            let step = Step {
                source,
                target: space.rank(after),
                num: u128::from(times) * units,
                den,
            };
            add_step(steps, step)?;
        }
    }
    Ok(())
}

/// A rate as a quotient per hour, where each channel in repair has a share of the crews.
fn quotient_of(rate: Rate, share: Share) -> (u128, u128)
    ensures num { result.0 ≡ upper share rate }
    ensures den { result.1 ≡ lower share rate }
{
    match rate {
        Rate::Fails(units) => (units, 1_000_000_000_000_000_000),
        Rate::Repairs(hours) => (
            u128::from(share.num),
            u128::from(hours) * u128::from(share.den),
        ),
    }
}

/// Adds a step to the first one with its target and its divisor, or else at the end.
fn add_step(steps: &mut Vec<Step>, step: Step) -> Result<(), AllocError>
    requires { All (λ s. s.num + step.num < 2 ^ 128) steps.old.items }
    ensures { IfOk result (λ _. steps.new.items ≡ joined steps.old.items step) }
{
    let i = joining(steps.as_slice(), step);
    if i < steps.len() {
        steps[i].num += step.num;
    } else {
        steps.push(step)?;
    }
    Ok(())
}

/// The place of the first step with the target and the divisor of this one, or the number of steps.
fn joining(steps: &[Step], step: Step) -> usize
    ensures within { result ≤ length steps.now }
    ensures joined { joined steps.now step ≡ joined_at steps.now result step }
{
    for i in 0..steps.len() {
        if steps[i].target == step.target && steps[i].den == step.den {
            return i;
        }
    }
    steps.len()
}
