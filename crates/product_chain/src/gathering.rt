//! What a vector gives to columns.

ghost use Rattle.std.specs.Prelude.{◌≡◌, ℕ, ◌+◌, ◌/◌, ◌<◌, ◌≤◌, ◌^◌, length, slice_index, sum, All};
ghost use Rattle.sil_model.specs.Sizes.{most_states};
ghost use Rattle.product_chain.specs.Columns.{AreWeighted, part, given};

use crate::column::{Columns, Entry};
use interval_fixed::Dot;
use sil_model::Steps;
use std::sync::ledger::Ledger;

/// Sets each number of `to` to what `from` gives to its column, rounded down: one multiplication for each entry.
pub fn gather<L: Ledger>(columns: Columns<'_>, from: &[u64], to: &mut [u64], steps: &mut Steps<L>)
    requires columns { AreWeighted (length to.old) (length from.now) columns.starts.now columns.entries.now }
    requires mass { sum from.now ≤ 2 ^ 48 }
    ensures floors { (j : ℕ) → j < length to.new → slice_index to.new j ≡ given (λ i. slice_index from.now i) (part columns.entry.starts.now columns.entry.entries.now j) / 2 ^ 48 }
    ensures steps { steps.new ≡ steps.old + length columns.entry.entries.now }
{
    for j in 0..to.len() {
        let column = &columns.entries[columns.starts[j]..columns.starts[j + 1]];
        to[j] = gathered(column, from, steps);
    }
}

/// What a vector gives to one column, rounded down.
///
/// Most columns have few entries: those of each such length have code of their own, without a loop.
fn gathered<L: Ledger>(column: &[Entry], from: &[u64], steps: &mut Steps<L>) -> u64
    requires few { length column.now ≤ most_states + 1 }
    requires sources { All (λ e. e.source < length from.now) column.now }
    requires weights { All (λ e. e.weight ≤ 2 ^ 48) column.now }
    requires mass { sum from.now ≤ 2 ^ 48 }
    ensures floor { result ≡ given (λ i. slice_index from.now i) column.now / 2 ^ 48 }
    ensures steps { steps.new ≡ steps.old + length column.now }
{
    match column.len() {
        2 => given_down(&column[..2], from, steps),
        3 => given_down(&column[..3], from, steps),
        4 => given_down(&column[..4], from, steps),
        5 => given_down(&column[..5], from, steps),
        6 => given_down(&column[..6], from, steps),
        7 => given_down(&column[..7], from, steps),
        8 => given_down(&column[..8], from, steps),
        _ => given_down(column, from, steps),
    }
}

/// The sum of the entries, each times the number of its source, rounded down.
fn given_down<L: Ledger>(column: &[Entry], from: &[u64], steps: &mut Steps<L>) -> u64
    requires few { length column.now ≤ most_states + 1 }
    requires sources { All (λ e. e.source < length from.now) column.now }
    requires weights { All (λ e. e.weight ≤ 2 ^ 48) column.now }
    requires mass { sum from.now ≤ 2 ^ 48 }
    ensures floor { result ≡ given (λ i. slice_index from.now i) column.now / 2 ^ 48 }
    ensures steps { steps.new ≡ steps.old + length column.now }
{
    let mut sum = Dot::new();
    for entry in column {
        let number = from[entry.source as usize];
        sum.add_product(u128::from(entry.weight), u128::from(number), steps);
    }
    sum.down() as u64
}
