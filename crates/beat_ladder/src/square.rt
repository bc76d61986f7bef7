//! The square of a polynomial in units of 2^-48, each number rounded down.

ghost use Rattle.std.specs.Prelude.{◌≡◌, ℕ, ◌+◌, ◌*◌, ◌/◌, ◌^◌, ◌<◌, ◌≤◌, length, sum, slice_index, vec_len, IfOk};
ghost use Rattle.beat_ladder.specs.Powers.{square_at, at_place};

use std::alloc::{AllocError, Global};

/// The number at k of the square. Of two equal products, one is made, and twice its value taken.
fn square_number(numbers: &[u64], k: usize) -> u64
    requires few { length numbers.now ≤ 65_536 }
    requires mass { sum numbers.now ≤ 2 ^ 48 }
    requires place { k + 2 ≤ 2 * length numbers.now }
    ensures { result ≡ square_at (at_place numbers.now) k / 2 ^ 48 }
{
    let first = (k + 1).saturating_sub(numbers.len());
    let half = k.div_ceil(2);
    let mut sum = 0u128;
    for i in first..half {
        sum += u128::from(numbers[i]) * u128::from(2 * numbers[k - i]);
    }
    if k % 2 == 0 {
        let middle = u128::from(numbers[half]);
        sum += middle * middle;
    }
    (sum >> 48) as u64
}

/// All numbers of the square.
pub fn square(alloc: Global, numbers: &[u64]) -> Result<Vec<u64>, AllocError>
    requires some { 0 < length numbers.now }
    requires few { length numbers.now ≤ 65_536 }
    requires mass { sum numbers.now ≤ 2 ^ 48 }
    ensures len { IfOk result (λ v. vec_len v + 1 ≡ 2 * length numbers.now) }
    ensures numbers { IfOk result (λ v. (k : ℕ) → k < vec_len v → slice_index v.items k ≡ square_at (at_place numbers.now) k / 2 ^ 48) }
{
    let last = 2 * numbers.len() - 1;
    let mut list = Vec::with_capacity(alloc, last)?;
    for k in 0..last {
        list.push(square_number(numbers, k))?;
    }
    Ok(list)
}

/// The place of the first number that is not 0; 0 where each is.
pub fn first_place(numbers: &[u64]) -> usize
    ensures before { (k : ℕ) → k < result → slice_index numbers.now k ≡ 0 }
    ensures first { 0 < result → slice_index numbers.now result ≡ 0 → ⊥ }
    ensures within { result ≤ length numbers.now }
{
    for (k, number) in numbers.iter().enumerate() {
        if *number != 0 {
            return k;
        }
    }
    0
}

/// The place after the last number that is not 0; the length where each is.
pub fn end_place(numbers: &[u64]) -> usize
    ensures after { (k : ℕ) → result ≤ k → slice_index numbers.now k ≡ 0 }
    ensures within { result ≤ length numbers.now }
    ensures some { 0 < length numbers.now → 0 < result }
{
    for k in (0..numbers.len()).rev() {
        if numbers[k] != 0 {
            return k + 1;
        }
    }
    numbers.len()
}
