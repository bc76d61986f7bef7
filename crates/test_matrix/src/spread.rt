//! The tests of one group, on a vector.

ghost use Rattle.std.specs.Prelude.{◌≡◌, ℕ, suc, ◌+◌, ◌*◌, ◌/◌, ◌^◌, ◌<◌, ◌≤◌, length, slice_index, slice_index_or, slice_set, EachIndex, sum};
ghost use Rattle.sil_fraction.specs.Fraction.{Fraction, ◌+ℚ◌, ◌*ℚ◌, ◌≤ℚ◌, whole};
ghost use Rattle.sil_fraction.specs.Sum.{total_below, sum_below};
ghost use Rattle.sil_model.specs.Series.{Values};
ghost use Rattle.sil_model.specs.Sizes.{most_states};
ghost use Rattle.interval_fixed.specs.DotValue.{DotValue};
ghost use Rattle.test_matrix.specs.Rows.{row_at, IsBelow, IsWithinOne, LacksAtMost};
ghost use Rattle.vector_laws.specs.Laws.{AreFloors};
ghost use Rattle.vector_laws.specs.Vectors.{weigh};
ghost use Rattle.test_matrix.specs.Spread.{ArePlaces, IsFit, walk, sums_of, spread_sum, spread_mass, group_list};

use interval_fixed::Dot;
use sil_model::Steps;
use std::sync::ledger::Ledger;

/// One group's tests: `v` becomes lower bounds after them, by way of `sums`.
pub fn test_group<L: Ledger>(
    rows: &[[u128; 9]; 9],
    works: &[usize],
    settled: &[usize],
    failed: &[usize],
    v: &mut [u64],
    sums: &mut [Dot],
    steps: &mut Steps<L>,
)
    requires tables { IsFit (length v.old) works.now settled.now failed.now }
    requires sums { length sums.old ≡ length v.old }
    requires few { length v.old ≤ most_states }
    requires rows { IsWithinOne rows.now }
    requires mass { sum v.old ≤ 2 ^ 48 }
    ensures encloses { (r : Fraction) → IsBelow rows.now r
        → (f : Values ℕ) → weigh v.new f ≤ℚ weigh v.old (group_list r works.now settled.now failed.now f) }
    ensures loses { (lack : ℕ) → LacksAtMost lack rows.now
        → 2 ^ 48 * sum v.old ≤ 2 ^ 48 * sum v.new + lack * sum v.old + length v.old * 2 ^ 48 }
    ensures kept { sum v.new ≤ sum v.old }
    ensures count { steps.new ≤ steps.old + 9 * length v.old }
{
    clear(sums);
    spread_all(rows, works, settled, failed, v, sums, steps);
    round_down(sums, v);
}

/// Sums of no product.
fn clear(sums: &mut [Dot])
    ensures { (j : ℕ) (d : DotValue) → j < length sums.old → slice_index_or sums.new j d ≡ record { sum = 0; number = 0 } }
{
    for j in 0..sums.len() {
        sums[j] = Dot::new();
    }
}

/// Adds to `sums` what every number of `v` becomes in the tests of a group.
fn spread_all<L: Ledger>(
    rows: &[[u128; 9]; 9],
    works: &[usize],
    settled: &[usize],
    failed: &[usize],
    v: &[u64],
    sums: &mut [Dot],
    steps: &mut Steps<L>,
)
    requires tables { IsFit (length v.now) works.now settled.now failed.now }
    requires sums { length sums.old ≡ length v.now }
    requires few { length v.now ≤ most_states }
    requires rows { IsWithinOne rows.now }
    requires mass { sum v.now ≤ 2 ^ 48 }
    requires empty { (j : ℕ) (d : DotValue) → j < length sums.old → slice_index_or sums.old j d ≡ record { sum = 0; number = 0 } }
    ensures spread { (f : Values ℕ) → weigh (sums_of sums.new) f ≡ spread_sum rows.now works.now (length v.now) settled.now failed.now v.now f }
    ensures mass { sum (sums_of sums.new) ≡ spread_mass rows.now works.now (length v.now) v.now }
    ensures count { steps.new ≤ steps.old + 9 * length v.now }
{
    for i in 0..v.len() {
        let row = &rows[works[i]];
        add_spread(row, works[i], failed, settled[i], v[i], sums, steps);
    }
}

/// Adds to `sums` what the number `x` at a place becomes where so many channels work: one product for each number of them
/// that fail, and none where nothing is there.
fn add_spread<L: Ledger>(
    row: &[u128; 9],
    works: usize,
    failed: &[usize],
    place: usize,
    x: u64,
    sums: &mut [Dot],
    steps: &mut Steps<L>,
)
    requires works { works < 9 }
    requires failed { ArePlaces (length sums.old) failed.now }
    requires place { place < length sums.old }
    requires first { x ≤ 2 ^ 48 }
    requires second { (k : ℕ) → k < suc works → slice_index row.now k ≤ 2 ^ 48 }
    requires number { (j : ℕ) (d : DotValue) → j < length sums.old → (slice_index_or sums.old j d).number + 9 ≤ 65_536 }
    ensures spread { (f : Values ℕ) → weigh (sums_of sums.new) f
        ≡ weigh (sums_of sums.old) f +ℚ whole x *ℚ total_below (suc works) (λ k. whole (slice_index row.now k) *ℚ f (walk failed.now k place)) }
    ensures mass { sum (sums_of sums.new) ≡ sum (sums_of sums.old) + x * sum_below (suc works) (λ k. slice_index row.now k) }
    ensures number { (j : ℕ) (d : DotValue) → j < length sums.old
        → (slice_index_or sums.new j d).number
        ≤ (slice_index_or sums.old j d).number + suc works }
    ensures count { steps.new ≤ steps.old + suc works }
{
    if x == 0 {
        return;
    }
    let mut at = place;
    for k in 0..works + 1 {
        add_at(sums, at, x, row[k], steps);
        at = failed[at];
    }
}

/// Adds a product to the sum at a place.
fn add_at<L: Ledger>(sums: &mut [Dot], at: usize, a: u64, b: u128, steps: &mut Steps<L>)
    requires place { at < length sums.old }
    requires first { a ≤ 2 ^ 48 }
    requires second { b ≤ 2 ^ 48 }
    requires number { (d : DotValue) → (slice_index_or sums.old at d).number < 65_536 }
    ensures value { (d : DotValue) → sums.new
        ≡ slice_set sums.old at (record { sum = (slice_index_or sums.old at d).sum + a * b; number = (slice_index_or sums.old at d).number + 1 }) }
    ensures count { steps.new ≡ steps.old + 1 }
{
    sums[at].add_product(u128::from(a), b, steps);
}

/// The sums in whole units.
fn round_down(sums: &[Dot], v: &mut [u64])
    requires room { length sums.now ≡ length v.old }
    requires small { sum (sums_of sums.now) ≤ 2 ^ 96 }
    ensures { AreFloors (2 ^ 48) (sums_of sums.now) v.new }
{
    for j in 0..v.len() {
        v[j] = sums[j].down() as u64;
    }
}
