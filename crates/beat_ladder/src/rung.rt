//! The numbers of 2^e beats.

ghost use Rattle.std.specs.Prelude.{◌≡◌, ℕ, ◌+◌, ◌*◌, ◌/◌, ◌^◌, ◌<◌, ◌≤◌, ◌↔◌, length, sum, slice_index, vec_len, IfOk, IsTrue};
ghost use Rattle.beat_ladder.specs.Powers.{HoldsPower, HoldTails, IsClose};

use crate::square::{end_place, first_place, square};
use series_weights::Weights;
use std::alloc::{AllocError, Global};

const ONE: u64 = 1 << 48;

/// What the numbers may lack for each beat, and their tails for each pair of beats, in units of 2^-48.
const MOST_MISSING: u64 = 200;

/// The numbers of 2^exponent beats, in units of 2^-48: a rung of a ladder.
///
/// At the end of the beats, the vector after k ticks weighs `numbers[k - low]`, and none before `low`. In what is dwelt
/// during them, it weighs the sum of the numbers above k: `tails[k - low]`, and `flat` before `low`.
#[derive(Drop)]
pub struct Rung {
    pub exponent: u8,
    pub low: usize,
    pub flat: u64,
    pub numbers: Vec<u64>,
    pub tails: Vec<u64>,
    ghost few: { exponent ≤ 12 },
    ghost held: { HoldsPower exponent low numbers.items },
    ghost flat_is: { flat ≡ sum numbers.items },
    ghost tailed: { HoldTails numbers.items tails.items },
}

/// The sum of all numbers.
fn total(numbers: &[u64]) -> u64
    requires { sum numbers.now < 2 ^ 64 }
    ensures { result ≡ sum numbers.now }
{
    numbers.iter().sum()
}

/// For each number, the sum of those above it.
fn tails_of(alloc: Global, numbers: &[u64]) -> Result<Vec<u64>, AllocError>
    requires mass { sum numbers.now ≤ 2 ^ 48 }
    ensures { IfOk result (λ v. HoldTails numbers.now v.items) }
{
    let mut tails = vec![in alloc; 0u64; numbers.len()]?;
    let mut above = 0;
    for k in (0..numbers.len()).rev() {
        tails[k] = above;
        above += numbers[k];
    }
    Ok(tails)
}

/// The weights of one beat.
fn weights(alloc: Global) -> Result<Vec<u64>, AllocError>
    ensures { IfOk result (λ v. HoldsPower 0 0 v.items) }
{
    let weights = Weights::new(16);
    let mut numbers = Vec::with_capacity(alloc, 17)?;
    for k in 0..17u8 {
        numbers.push(weights.w(k) as u64)?;
    }
    Ok(numbers)
}

impl Rung {
    /// A rung of these numbers.
    fn new(alloc: Global, exponent: u8, low: usize, numbers: Vec<u64>) -> Result<Rung, AllocError>
        requires few { exponent ≤ 12 }
        requires held { HoldsPower exponent low numbers.items }
        ensures { IfOk result (λ r. r.exponent ≡ exponent) }
    {
        let tails = tails_of(alloc, &numbers)?;
        let flat = total(&numbers);
        Ok(Rung {
            exponent,
            low,
            flat,
            numbers,
            tails,
        })
    }

    /// The rung of one beat.
    pub fn one_beat(alloc: Global) -> Result<Rung, AllocError>
        ensures { IfOk result (λ r. r.exponent ≡ 0) }
    {
        let numbers = weights(alloc)?;
        Rung::new(alloc, 0, 0, numbers)
    }

    /// The rung of twice as many beats: the square of the numbers, without the zeros at both ends.
    pub fn doubled(&self, alloc: Global) -> Result<Rung, AllocError>
        requires { self.now.exponent < 12 }
        ensures { IfOk result (λ r. r.exponent ≡ self.now.exponent + 1) }
    {
        let square = square(alloc, &self.numbers)?;
        let first = first_place(&square);
        let end = end_place(&square);
        let numbers = Vec::from_slice(alloc, &square[first..end])?;
        Rung::new(alloc, self.exponent + 1, 2 * self.low + first, numbers)
    }

    /// How many beats they are.
    pub fn beats(&self) -> u32
        ensures value { result ≡ 2 ^ self.now.exponent }
        ensures some { 0 < result }
        ensures small { result ≤ 4096 }
    {
        1 << self.exponent
    }

    /// What the numbers lack of 1.
    pub fn missing(&self) -> u64
        ensures { result + sum self.now.numbers.items ≡ 2 ^ 48 }
    {
        ONE - self.flat
    }

    /// What their tails lack of the number of beats.
    pub fn dwell_missing(&self) -> u64
        ensures { result + (self.now.low * sum self.now.numbers.items + sum self.now.tails.items) ≡ 2 ^ self.now.exponent * 2 ^ 48 }
    {
        let dwell = self.low as u64 * self.flat + total(&self.tails);
        u64::from(self.beats()) * ONE - dwell
    }

    /// Whether the numbers lack so little that the rung may be used.
    pub fn is_close(&self) -> bool
        ensures { IsTrue result ↔ IsClose self.now.exponent self.now.low self.now.numbers.items self.now.tails.items }
    {
        let beats = u64::from(self.beats());
        self.missing() <= MOST_MISSING * beats
            && self.dwell_missing() <= MOST_MISSING * beats * beats
    }
}
