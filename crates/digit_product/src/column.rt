//! A column of a matrix, without its zeros.

ghost use Rattle.std.specs.Prelude.{◌≡◌, ℕ, ◌+◌, ◌*◌, ◌/◌, ◌^◌, ◌<◌, ◌≤◌, ◌++◌, [], ◌∷◌, length, All};
ghost use Rattle.vector_laws.specs.Matrix.{EachEntryAtMost};
ghost use Rattle.digit_product.specs.Columns.{AreEntries, weighed_from};

use dense_power::{Dense, MOST_ROWS};
use sil_model::Steps;
use std::marker::Model;
use std::sync::ledger::Ledger;

/// An entry of a column that is not 0.
#[derive(Clone, Copy)]
pub struct Entry {
    /// How far from the number with digit 0 the number with this entry's row as its digit is.
    offset: usize,
    /// In units of 2^-48.
    weight: u64,
}

/// The entries of a column that are not 0. Contracts see it as their list.
#[derive(Drop)]
pub struct Column {
    entries: [Entry; MOST_ROWS],
    len: usize,
}

impl Model for Column {
    ghost use Rattle.std.specs.Prelude.{List, ◌≤◌, take};
    ghost use Rattle.dense_power.specs.declared.dense.TheConstants.{MOST_ROWS};
    ghost use Rattle.digit_product.specs.declared.column.Entry.{Entry};

    ghost Value = { List Entry };

    ghost view = { λ c. take c.len c.entries };

    ghost invariant = { λ c. c.len ≤ MOST_ROWS };
}

impl Column {
    /// A column without entries.
    fn new() -> Column
        ensures { result ≡ [] }
    {
        Column {
            entries: [Entry {
                offset: 0,
                weight: 0,
            }; MOST_ROWS],
            len: 0,
        }
    }

    /// Adds an entry.
    fn push(&mut self, entry: Entry)
        requires { length self.old < MOST_ROWS }
        ensures { self.new ≡ self.old ++ entry ∷ [] }
    {
        self.entries[self.len] = entry;
        self.len += 1;
    }

    /// Column j of a matrix, for digits of this stride.
    pub fn of(matrix: &Dense, j: usize, stride: usize) -> Column
        requires j { j < matrix.now.size }
        requires width { matrix.now.size * stride < 2 ^ 64 }
        requires small { EachEntryAtMost matrix.now (2 ^ 48) }
        ensures { AreEntries matrix.now stride j matrix.now.size result }
    {
        let mut column = Column::new();
        for row in 0..matrix.size() {
            let weight = matrix.at(row, j) as u64;
            if weight > 0 {
                column.push(Entry {
                    offset: row * stride,
                    weight,
                });
            }
        }
        column
    }

    /// The sum of the products of this column and the numbers of `v` from the place `first` on, rounded down.
    pub fn product_down<L: Ledger>(&self, v: &[u64], first: usize, steps: &mut Steps<L>) -> u64
        requires within { All (λ e. first + e.offset < length v.now) self.now }
        requires small { weighed_from v.now first self.now < 2 ^ 112 }
        ensures floor { result ≡ weighed_from v.now first self.now / 2 ^ 48 }
        ensures steps { steps.new ≡ steps.old + length self.now }
    {
        let mut total = 0u128;
        for entry in &self.entries[..self.len] {
            total += u128::from(v[first + entry.offset]) * u128::from(entry.weight);
            steps.count_one();
        }
        (total >> 48) as u64
    }
}
