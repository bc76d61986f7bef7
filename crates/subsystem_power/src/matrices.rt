//! The matrices of one beat and of sixteen, and the beats of two matrices one after the other.

ghost use Rattle.std.specs.Prelude.{◌≡◌, ℕ, ◌+◌, ◌*◌, ◌^◌, ◌<◌, length};
ghost use Rattle.std.specs.Prelude.{◌≤◌};
ghost use Rattle.sil_model.specs.Sizes.{states_of};
ghost use Rattle.product_chain.specs.Kept.{ChainValue};
ghost use Rattle.uniformise.specs.Beat.{beat_products};
ghost use Rattle.vector_laws.specs.Rows.{EachRowAtMost};
ghost use Rattle.subsystem_power.specs.Rooms.{IsRow, IsSparePower};

use dense_power::Dense;
use interval_fixed::ONE;
use product_chain::Chain;
use series_weights::Weights;
use sil_model::Steps;
use std::mem::swap;
use std::sync::ledger::Ledger;
use uniformise::Workspace;

/// Makes `beat` the matrix of one beat: row i is what becomes of the whole at state i. `end` and `dwell` are room for rows.
pub fn make_beat<L: Ledger>(
    beat: &mut Dense,
    end: &mut [u64],
    dwell: &mut [u128],
    work: &mut Workspace,
    chain: &Chain,
    weights: &Weights,
    steps: &mut Steps<L>,
)
    requires beat { beat.old.size ≡ states_of chain.now.of.subsystems }
    requires end { length end.old ≡ states_of chain.now.of.subsystems }
    requires dwell { length dwell.old ≡ states_of chain.now.of.subsystems }
    requires work { work.old ≡ states_of chain.now.of.subsystems }
    ensures power { IsSparePower chain.now weights.now 1 beat.new }
    ensures work { work.new ≡ work.old }
    ensures steps { steps.new ≤ steps.old + states_of chain.now.of.subsystems * beat_products chain.now.of.subsystems weights.now }
{
    for i in 0..end.len() {
        beat_from(i, end, dwell, work, chain, weights, steps);
        beat.set_row(i, end);
    }
}

/// Makes `end` the vector after one beat of the whole at state i. `dwell` is room for what it dwells.
fn beat_from<L: Ledger>(
    i: usize,
    end: &mut [u64],
    dwell: &mut [u128],
    work: &mut Workspace,
    chain: &Chain,
    weights: &Weights,
    steps: &mut Steps<L>,
)
    requires i { i < states_of chain.now.of.subsystems }
    requires end { length end.old ≡ states_of chain.now.of.subsystems }
    requires dwell { length dwell.old ≡ states_of chain.now.of.subsystems }
    requires work { work.old ≡ states_of chain.now.of.subsystems }
    ensures row { IsRow chain.now weights.now i end.new }
    ensures work { work.new ≡ work.old }
    ensures steps { steps.new ≤ steps.old + beat_products chain.now.of.subsystems weights.now }
{
    end.fill(0);
    end[i] = ONE as u64;
    dwell.fill(0);
    work.beat(chain, weights, end, dwell, steps);
}

/// Makes `sixteen` the matrix of sixteen beats of that of one, by four doublings. `product` is room for a product.
pub fn make_sixteen<L: Ledger>(
    beat: &Dense,
    sixteen: &mut Dense,
    product: &mut Dense,
    steps: &mut Steps<L>,
)
    requires rows { EachRowAtMost beat.now (2 ^ 48) }
    requires sixteen { sixteen.old.size ≡ beat.now.size }
    requires product { product.old.size ≡ beat.now.size }
    ensures power { (c : ChainValue) → IsSparePower c 16 1 beat.now → IsSparePower c 16 16 sixteen.new }
    ensures sixteen { sixteen.new.size ≡ beat.now.size }
    ensures product { product.new.size ≡ beat.now.size }
    ensures steps { steps.new ≡ steps.old + 4 * beat.now.size ^ 3 }
{
    sixteen.copy_from(beat);
    for _ in 0..4u8 {
        follow(sixteen, sixteen, product, steps);
        swap(sixteen, product);
    }
}

/// Makes `both` the matrix of the beats of a first and then those of a second.
pub fn follow<L: Ledger>(first: &Dense, second: &Dense, both: &mut Dense, steps: &mut Steps<L>)
    requires second_size { second.now.size ≡ first.now.size }
    requires size { both.old.size ≡ first.now.size }
    requires first_rows { EachRowAtMost first.now (2 ^ 48) }
    requires second_rows { EachRowAtMost second.now (2 ^ 48) }
    ensures power { (c : ChainValue) (m n : ℕ) → 0 < n → IsSparePower c 16 m first.now → IsSparePower c 16 n second.now → IsSparePower c 16 (m + n) both.new }
    ensures rows { EachRowAtMost both.new (2 ^ 48) }
    ensures size { both.new.size ≡ first.now.size }
    ensures steps { steps.new ≡ steps.old + first.now.size ^ 3 }
{
    both.mul_down(first, second, steps);
}
