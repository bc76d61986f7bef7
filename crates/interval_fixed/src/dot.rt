//! Exact sums of products.

ghost use Rattle.std.specs.Prelude.{◌≡◌, ◌+◌, ◌*◌, ◌/◌, ◌^◌, ◌<◌, ◌≤◌};
ghost use Rattle.sil_model.specs.Calendar.{ceiling};

use crate::ONE;
use sil_model::Steps;
use std::marker::Model;
use std::sync::ledger::Ledger;

/// An exact sum of up to 65,536 products, each of a number in units of 2^-48, at most 1, and another number.
///
/// Contracts see it as its sum and the number of its products.
#[derive(Drop)]
pub struct Dot {
    total: u128,
    products: u32,
}

impl Model for Dot {
    ghost use Rattle.interval_fixed.specs.DotValue.{DotValue, IsSmall};

    ghost Value = { DotValue };

    ghost view = { λ d. record { sum = d.total; number = d.products } };

    ghost invariant = { λ d. IsSmall d.total d.products };
}

impl Dot {
    /// The sum of no product.
    pub fn new() -> Dot
        ensures sum { result.sum ≡ 0 }
        ensures number { result.number ≡ 0 }
    {
        Dot {
            total: 0,
            products: 0,
        }
    }

    /// Adds the product of `a`, in units of 2^-48 and at most 1, and `b`, and counts it.
    ///
    /// The first 1,024 numbers `b` are at most 2^68, the later ones at most 2^60.
    pub fn add_product<L: Ledger>(&mut self, a: u128, b: u128, steps: &mut Steps<L>)
        requires factor { a ≤ 2 ^ 48 }
        requires room { self.old.number < 65_536 }
        requires early { self.old.number < 1024 → b ≤ 2 ^ 68 }
        requires late { 1024 ≤ self.old.number → b ≤ 2 ^ 60 }
        ensures sum { self.new.sum ≡ self.old.sum + a * b }
        ensures number { self.new.number ≡ self.old.number + 1 }
        ensures steps { steps.new ≡ steps.old + 1 }
    {
        // A factor of 64 bits makes this one multiplication of the machine.
        self.total += (a as u64) as u128 * b;
        self.products += 1;
        steps.count_one();
    }

    /// The sum divided by 2^48, rounded down.
    pub fn down(&self) -> u128
        ensures floor { result ≡ self.now.sum / 2 ^ 48 }
        ensures small { result < 2 ^ 79 }
    {
        self.total / ONE
    }

    /// The sum divided by 2^48, rounded up.
    pub fn up(&self) -> u128
        ensures ceiling { result ≡ ceiling self.now.sum (2 ^ 48) }
        ensures small { result ≤ 2 ^ 79 }
    {
        self.total.div_ceil(ONE)
    }
}
