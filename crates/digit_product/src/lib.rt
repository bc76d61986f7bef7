//! A matrix along one digit of the numbers of a vector.
//!
//! The count vectors of a loop are numbered with a digit for each subsystem, that of the first one being the least. What a
//! subsystem does for itself changes its digit alone: [`along_down`] brings a matrix of a subsystem to bear on a vector of
//! the loop. Lines whose numbers are all 0 and entries that are 0 make no products. Nothing here takes memory.
#![tactic(auto)]

mod column;
mod lines;

ghost use Rattle.std.specs.Prelude.{◌≡◌, ℕ, ◌+◌, ◌*◌, ◌/◌, ◌^◌, ◌<◌, ◌≤◌, ◌≢◌, length, sum, slice_index, All};
ghost use Rattle.sil_model.specs.Sizes.{most_states};
ghost use Rattle.vector_laws.specs.Matrix.{EachEntryAtMost};
ghost use Rattle.separate_laws.specs.Digits.{IsAlongDown};
ghost use Rattle.digit_product.specs.Columns.{weighed_from};

use column::Column;
use dense_power::Dense;
use lines::Lines;
use sil_model::Steps;
use std::sync::ledger::Ledger;

/// Makes `out` what a matrix brings of a vector along the digit of this stride: each number is rounded down once.
///
/// The matrix is in units of 2^-48, and its entries are at most 1. The vector has so many blocks, each of `stride * size`
/// numbers. It has no more numbers than a loop has states, and they come to 2^63 at most.
pub fn along_down<L: Ledger>(
    matrix: &Dense,
    stride: usize,
    blocks: usize,
    v: &[u64],
    out: &mut [u64],
    steps: &mut Steps<L>,
)
    requires some { 0 < stride }
    requires v { length v.now ≡ stride * matrix.now.size * blocks }
    requires few { length v.now ≤ most_states }
    requires out { length out.old ≡ length v.now }
    requires mass { sum v.now ≤ 2 ^ 63 }
    requires small { EachEntryAtMost matrix.now (2 ^ 48) }
    ensures floors { IsAlongDown stride matrix.now v.now out.new }
    ensures steps { steps.new ≤ steps.old + matrix.now.size * length v.now }
{
    if v.is_empty() {
        return;
    }
    let lines = Lines::of(v, stride, matrix.size(), blocks);
    out.fill(0);
    for digit in 0..matrix.size() {
        let column = Column::of(matrix, digit, stride);
        fill_digit(&column, lines.starts(), digit * stride, v, out, steps);
    }
}

/// Sets the number of each line at the distance `shift` from its start, and leaves all others.
fn fill_digit<L: Ledger>(
    column: &Column,
    starts: &[u16],
    shift: usize,
    v: &[u64],
    out: &mut [u64],
    steps: &mut Steps<L>,
)
    requires shift { All (λ f. f + shift < length out.old) starts.now }
    requires within { All (λ f. All (λ e. f + e.offset < length v.now) column.now) starts.now }
    requires small { (first : ℕ) → weighed_from v.now first column.now < 2 ^ 112 }
    ensures size { length out.new ≡ length out.old }
    ensures filled { All (λ f. slice_index out.new (f + shift) ≡ weighed_from v.now f column.now / 2 ^ 48) starts.now }
    ensures others { (j : ℕ) → All (λ f. f + shift ≢ j) starts.now → slice_index out.new j ≡ slice_index out.old j }
    ensures steps { steps.new ≡ steps.old + length starts.now * length column.now }
{
    for start in starts {
        let start = *start as usize;
        out[start + shift] = column.product_down(v, start, steps);
    }
}
