//! The room for a beat, and the beat.

ghost use Rattle.std.specs.Prelude.{◌≡◌, ℕ, ◌+◌, ◌*◌, ◌^◌, ◌<◌, ◌≤◌, length, sum, slice_index, vec_len, All, IfOk};
ghost use Rattle.sil_fraction.specs.Fraction.{◌+ℚ◌, ◌≤ℚ◌};
ghost use Rattle.sil_model.specs.Series.{Values};
ghost use Rattle.sil_model.specs.Sizes.{states_of};
ghost use Rattle.vector_laws.specs.Vectors.{weigh, IsMass};
ghost use Rattle.lumped_laws.specs.ValueLists.{beat_list, mean_list};
ghost use Rattle.sil_model.specs.WeightTable.{weight_of, mean_weight_of};
ghost use Rattle.vector_laws.specs.Block.{IsTick, IsGathered};
ghost use Rattle.uniformise.specs.Beat.{hours_of_beat, IsStep, tick_loss, vector_loss, dwell_loss, tick_products, beat_products};

use crate::sums::{add_products, add_rounded_down, round_down};
use product_chain::Chain;
use series_weights::Weights;
use sil_model::Steps;
use std::alloc::{AllocError, Global};
use std::marker::Model;
use std::mem;
use std::sync::ledger::Ledger;

/// Room for the beats of vectors of one size. Contracts see it as the size.
#[derive(Drop)]
pub struct Workspace {
    now: Vec<u64>,
    next: Vec<u64>,
    ends: Vec<u128>,
    stays: Vec<u128>,
}

impl Model for Workspace {
    ghost use Rattle.std.specs.Prelude.{ℕ, vec_len};
    ghost use Rattle.uniformise.specs.Rooms.{HaveOneLength};

    ghost Value = { ℕ };

    ghost view = { λ w. vec_len w.now };

    ghost invariant = { HaveOneLength };
}

impl Workspace {
    /// Room for vectors of this size.
    pub fn new(alloc: Global, size: usize) -> Result<Workspace, AllocError>
        ensures { IfOk result (λ w. w ≡ size) }
    {
        let now = vec![in alloc; 0u64; size]?;
        let next = vec![in alloc; 0u64; size]?;
        let ends = vec![in alloc; 0u128; size]?;
        let stays = vec![in alloc; 0u128; size]?;
        Ok(Workspace {
            now,
            next,
            ends,
            stays,
        })
    }

    /// One beat of a chain: `v` becomes lower bounds of the vector after it, and `dwell` grows by lower bounds of its mean
    /// during the beat. All are in units of 2^-48.
    ///
    /// A beat is the sum over k of the weight of k steps times the vector after k ticks, as uniformisation has it.
    pub fn beat<L: Ledger>(
        &mut self,
        chain: &Chain,
        weights: &Weights,
        v: &mut [u64],
        dwell: &mut [u128],
        steps: &mut Steps<L>,
    )
        requires size { self.old ≡ states_of chain.now.of.subsystems }
        requires v { length v.old ≡ states_of chain.now.of.subsystems }
        requires dwell { length dwell.old ≡ states_of chain.now.of.subsystems }
        requires mass { IsMass v.old }
        requires room { All (λ x. x ≤ 999_999 * 2 ^ 48) dwell.old }
        ensures size { self.new ≡ self.old }

        // by every value list, at every order from that of the weights on
        ensures encloses { (N : ℕ) → weights.now ≤ N → (f : Values ℕ) → weigh v.new f ≤ℚ weigh v.old (beat_list chain.now.of.subsystems N (hours_of_beat chain.now) f) }
        ensures dwells { (N : ℕ) → weights.now ≤ N → (f : Values ℕ) → weigh dwell.new f ≤ℚ weigh dwell.old f +ℚ weigh v.old (mean_list chain.now.of.subsystems N (hours_of_beat chain.now) f) }

        ensures kept { sum v.new ≤ sum v.old }
        ensures lack { sum v.old ≤ sum v.new + vector_loss chain.now.of.subsystems weights.now }
        ensures grows { (k : ℕ) → k < length dwell.old → (slice_index dwell.old k ≤ slice_index dwell.new k) × (slice_index dwell.new k ≤ slice_index dwell.old k + 2 ^ 48) }
        ensures dwell_kept { sum dwell.new ≤ sum dwell.old + sum v.old }
        ensures dwell_lack { sum dwell.old + sum v.old ≤ sum dwell.new + dwell_loss chain.now.of.subsystems weights.now }

        ensures steps { steps.new ≤ steps.old + beat_products chain.now.of.subsystems weights.now }
    {
        self.now.copy_from_slice(v);
        gather(
            chain,
            weights,
            &mut self.now,
            &mut self.next,
            &mut self.ends,
            &mut self.stays,
            steps,
        );
        round_down(&self.ends, v);
        add_rounded_down(&self.stays, dwell);
    }
}

/// Sums the vectors before the ticks of a beat and after the last, each times its weight, and each times that of the mean.
///
/// It makes no tick after the last weight that is not 0, and no product with a weight of 0.
fn gather<L: Ledger>(
    chain: &Chain,
    weights: &Weights,
    now: &mut Vec<u64>,
    next: &mut Vec<u64>,
    ends: &mut [u128],
    stays: &mut [u128],
    steps: &mut Steps<L>,
)
    requires now { vec_len now.old ≡ states_of chain.now.of.subsystems }
    requires next { vec_len next.old ≡ states_of chain.now.of.subsystems }
    requires ends { length ends.old ≡ states_of chain.now.of.subsystems }
    requires stays { length stays.old ≡ states_of chain.now.of.subsystems }
    requires mass { IsMass now.old.items }
    ensures order { (16 ≤ weights.now) × (weights.now ≤ 40) }
    ensures now { vec_len now.new ≡ vec_len now.old }
    ensures next { vec_len next.new ≡ vec_len next.old }
    ensures ends { IsGathered (IsStep chain.now) (tick_loss chain.now.of.subsystems) now.old.items ends.new weight_of (weights.now + 1) }
    ensures stays { IsGathered (IsStep chain.now) (tick_loss chain.now.of.subsystems) now.old.items stays.new (mean_weight_of weights.now) (weights.now + 1) }
    ensures steps { steps.new ≤ steps.old + beat_products chain.now.of.subsystems weights.now }
{
    ends.fill(0);
    stays.fill(0);
    let last = weights.terms() - 1;
    for k in 0..last {
        add_products(ends, weights.w(k) as u64, now, steps);
        add_products(stays, weights.y(k) as u64, now, steps);
        step(chain, now, next, steps);
    }
    add_products(ends, weights.w(last) as u64, now, steps);
}

/// One tick in place; `next` is room for it.
#[tactic(auto, unfolding(sil_model::specs::Budget::lumped_events_of))]
fn step<L: Ledger>(chain: &Chain, now: &mut Vec<u64>, next: &mut Vec<u64>, steps: &mut Steps<L>)
    requires now { vec_len now.old ≡ states_of chain.now.of.subsystems }
    requires next { vec_len next.old ≡ states_of chain.now.of.subsystems }
    requires mass { IsMass now.old.items }
    ensures now { vec_len now.new ≡ vec_len now.old }
    ensures next { vec_len next.new ≡ vec_len next.old }
    ensures weighed { IsTick (IsStep chain.now) now.old.items now.new.items }
    ensures kept { sum now.new.items ≤ sum now.old.items }
    ensures lack { sum now.old.items ≤ sum now.new.items + tick_loss chain.now.of.subsystems }
    ensures steps { steps.new ≤ steps.old + tick_products chain.now.of.subsystems }
{
    chain.tick(now, next, steps);
    mem::swap(now, next);
}
