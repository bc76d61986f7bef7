//! Sums of vectors, each times its weight, and their floors in whole units of 2^-48.

ghost use Rattle.std.specs.Prelude.{◌≡◌, ℕ, ◌+◌, ◌*◌, ◌/◌, ◌<◌, ◌≤◌, ◌^◌, length, slice_index, sum, All};
ghost use Rattle.vector_laws.specs.Laws.{AreFloors, IsSumWith};

use sil_model::Steps;
use std::sync::ledger::Ledger;

/// Adds a multiple of a vector to the sums.
pub fn add_products<L: Ledger>(sums: &mut [u128], weight: u64, vector: &[u64], steps: &mut Steps<L>)
    requires size { length sums.old ≡ length vector.now }
    requires mass { sum vector.now ≤ 2 ^ 48 }
    requires room { sum sums.old + weight * sum vector.now < 2 ^ 128 }
    ensures added { IsSumWith weight sums.old vector.now sums.new }
    ensures steps { steps.new ≡ steps.old + length vector.now }
{
    for k in 0..vector.len() {
        sums[k] += u128::from(weight) * u128::from(vector[k]);
        steps.count_one();
    }
}

/// The sums in whole units, rounded down.
pub fn round_down(sums: &[u128], to: &mut [u64])
    requires size { length to.old ≡ length sums.now }
    requires small { (k : ℕ) → k < length sums.now → slice_index sums.now k ≤ 2 ^ 96 }
    ensures { AreFloors (2 ^ 48) sums.now to.new }
{
    for k in 0..sums.len() {
        to[k] = (sums[k] >> 48) as u64;
    }
}

/// Adds the sums in whole units, each rounded down.
pub fn add_rounded_down(sums: &[u128], to: &mut [u128])
    requires size { length to.old ≡ length sums.now }
    requires room { All (λ x. x < 2 ^ 127) to.old }
    ensures size { length to.new ≡ length to.old }
    ensures added { (k : ℕ) → k < length sums.now → slice_index to.new k ≡ slice_index to.old k + slice_index sums.now k / 2 ^ 48 }
{
    for k in 0..sums.len() {
        to[k] += sums[k] >> 48;
    }
}
