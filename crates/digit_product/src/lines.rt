//! The lines of a vector: numbers that differ in one digit alone.

ghost use Rattle.std.specs.Prelude.{◌≡◌, ℕ, ◌+◌, ◌*◌, ◌<◌, ◌≤◌, ◌++◌, [], ◌∷◌, length, slice_index, IsTrue};
ghost use Rattle.sil_model.specs.Sizes.{most_states};
ghost use Rattle.digit_product.specs.Lines.{AreLines};

use sil_model::MOST_STATES;
use std::marker::Model;

/// The greatest size of a vector.
const MOST: usize = MOST_STATES as usize;

/// The lines that have a number other than 0, each by the place of its number with digit 0. Contracts see them as these places.
#[derive(Drop)]
pub struct Lines {
    starts: [u16; MOST],
    len: usize,
}

impl Model for Lines {
    ghost use Rattle.std.specs.Prelude.{List, ℕ, ◌≤◌, take};
    ghost use Rattle.sil_model.specs.Sizes.{most_states};

    ghost Value = { List ℕ };

    ghost view = { λ l. take l.len l.starts };

    ghost invariant = { λ l. l.len ≤ most_states };
}

impl Lines {
    /// No line.
    fn new() -> Lines
        ensures { result ≡ [] }
    {
        Lines {
            starts: [0; MOST],
            len: 0,
        }
    }

    /// Adds a line.
    fn push(&mut self, start: usize)
        requires room { length self.old < most_states }
        requires start { start < most_states }
        ensures { self.new ≡ self.old ++ start ∷ [] }
    {
        self.starts[self.len] = start as u16;
        self.len += 1;
    }

    /// The lines of a vector of so many blocks along the digit of this stride and size.
    pub fn of(v: &[u64], stride: usize, size: usize, blocks: usize) -> Lines
        requires some { 0 < stride }
        requires more { 0 < size }
        requires v { length v.now ≡ stride * size * blocks }
        requires few { length v.now ≤ most_states }
        ensures { AreLines stride size (blocks * stride) v.now result }
    {
        let mut lines = Lines::new();
        for block in 0..blocks {
            lines.add_block(v, stride, size, block);
        }
        lines
    }

    /// Adds the lines of one block.
    fn add_block(&mut self, v: &[u64], stride: usize, size: usize, block: usize)
        requires some { 0 < stride }
        requires more { 0 < size }
        requires block { block * size * stride + size * stride ≤ length v.now }
        requires few { length v.now ≤ most_states }
        requires before { AreLines stride size (block * stride) v.now self.old }
        ensures { AreLines stride size ((block + 1) * stride) v.now self.new }
    {
        let start = block * size * stride;
        for low in 0..stride {
            if !is_zero_line(v, start + low, stride, size) {
                self.push(start + low);
            }
        }
    }

    /// Where the lines begin.
    pub fn starts(&self) -> &[u16]
        ensures { result.now ≡ self.now }
    {
        &self.starts[..self.len]
    }
}

/// Whether each number of a line is 0.
fn is_zero_line(v: &[u64], start: usize, stride: usize, size: usize) -> bool
    requires { start + size * stride < length v.now + stride }
    ensures { IsTrue result → (digit : ℕ) → digit < size → slice_index v.now (start + digit * stride) ≡ 0 }
{
    for digit in 0..size {
        if v[start + digit * stride] > 0 {
            return false;
        }
    }
    true
}
