//! Intervals that hold a number.

ghost use Rattle.std.specs.Prelude.{◌≡◌, ◌+◌, ◌-◌, ◌*◌, ◌/◌, ◌^◌, ◌<◌, ◌≤◌};
ghost use Rattle.sil_model.specs.Calendar.{ceiling};

use crate::ONE;
use sil_model::Decimal18;

/// The number 1, in units of 10^-18.
const DECIMAL_ONE: u128 = 1_000_000_000_000_000_000;

/// A closed interval in units of 2^-48, with `lo <= hi`.
#[derive(Clone, Copy, Debug, PartialEq, Eq)]
pub struct Interval {
    /// The lower end, in units of 2^-48.
    pub lo: u128,
    /// The upper end, in units of 2^-48.
    pub hi: u128,
    ghost ordered: { lo ≤ hi },
}

impl Interval {
    /// The interval of a part of 1, of which at least `part_lo` is in the part and at least `complement_lo` outside it.
    pub fn from_parts(part_lo: u128, complement_lo: u128) -> Interval
        requires { part_lo + complement_lo ≤ 2 ^ 48 }
        ensures lo { result.lo ≡ part_lo }
        ensures hi { result.hi ≡ 2 ^ 48 - complement_lo }
    {
        Interval {
            lo: part_lo,
            hi: ONE - complement_lo,
        }
    }

    /// The interval of a sum of two numbers, one in each interval.
    // The operator of Rust could not ask for room.
    #[allow(clippy::should_implement_trait)]
    pub fn add(self, other: Interval) -> Interval
        requires room { self.hi + other.hi < 2 ^ 128 }
        ensures lo { result.lo ≡ self.lo + other.lo }
        ensures hi { result.hi ≡ self.hi + other.hi }
    {
        Interval {
            lo: self.lo + other.lo,
            hi: self.hi + other.hi,
        }
    }

    /// The interval times `n / d`, rounded outward: the lower end down and the upper end up.
    pub fn scale(self, n: u32, d: u32) -> Interval
        requires some { 0 < d }
        requires at_most_one { self.hi ≤ 2 ^ 48 }
        ensures lo { result.lo ≡ self.lo * n / d }
        ensures hi { result.hi ≡ ceiling (self.hi * n) d }
    {
        Interval {
            lo: self.lo * u128::from(n) / u128::from(d),
            hi: (self.hi * u128::from(n)).div_ceil(u128::from(d)),
        }
    }

    /// The interval in units of 10^-18, rounded outward: the lower end down and the upper end up.
    pub fn to_decimal18(self) -> Decimal18
        requires { self.hi ≤ 2 ^ 48 }
        ensures lo { result.lo ≡ self.lo * 10 ^ 18 / 2 ^ 48 }
        ensures hi { result.hi ≡ ceiling (self.hi * 10 ^ 18) (2 ^ 48) }
        ensures at_most_one { result.hi ≤ 10 ^ 18 }
    {
        Decimal18 {
            lo: self.lo * DECIMAL_ONE / ONE,
            hi: (self.hi * DECIMAL_ONE).div_ceil(ONE),
        }
    }
}
