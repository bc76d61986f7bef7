//! How much of a vector is where the loop is down, and how much where it is up.

ghost use Rattle.std.specs.Prelude.{◌≡◌, ◌+◌, ◌^◌, ◌≤◌, length, sum, if◌then◌else◌};
ghost use Rattle.mission_laws.specs.Missions.{pfd_lower, pfd_upper};
ghost use Rattle.loop_value.specs.Ends.{sum_down, sum_up};

use interval_fixed::Interval;
use sil_model::Decimal18;

/// The two sides of a vector, in units of 2^-48.
#[derive(Clone, Copy, Debug, PartialEq, Eq)]
pub struct Sides {
    /// How much is where the loop is down.
    pub down: u128,
    /// How much is where it is up.
    pub up: u128,
    ghost at_most_one: { down + up ≤ 2 ^ 48 },
}

impl Sides {
    /// The sides of no place.
    fn none() -> Sides
        ensures down { result.down ≡ 0 }
        ensures up { result.up ≡ 0 }
    {
        Sides { down: 0, up: 0 }
    }

    /// One place more, of which the loop is up or not.
    fn with(self, is_up: bool, mass: u128) -> Sides
        requires { self.down + self.up + mass ≤ 2 ^ 48 }
        ensures down { result.down ≡ self.down + (if is_up then 0 else mass) }
        ensures up { result.up ≡ self.up + (if is_up then mass else 0) }
    {
        if is_up {
            Sides {
                down: self.down,
                up: self.up + mass,
            }
        } else {
            Sides {
                down: self.down + mass,
                up: self.up,
            }
        }
    }

    /// The chance that the loop is down: what the vector lacks may be there too.
    pub fn chance_down(self) -> Decimal18
        ensures lo { result.lo ≡ pfd_lower self.down }
        ensures hi { result.hi ≡ pfd_upper self.up }
    {
        Interval::from_parts(self.down, self.up).to_decimal18()
    }
}

/// The sides of means.
pub fn sides_of_means(means: &[u128], up: &[bool]) -> Sides
    requires length { length up.now ≡ length means.now }
    requires mass { sum means.now ≤ 2 ^ 48 }
    ensures down { result.down ≡ sum_down up.now means.now }
    ensures up { result.up ≡ sum_up up.now means.now }
{
    let mut sides = Sides::none();
    for i in 0..means.len() {
        sides = sides.with(up[i], means[i]);
    }
    sides
}

/// The sides of a mission's vector.
pub fn sides_of_vector(v: &[u64], up: &[bool]) -> Sides
    requires length { length up.now ≡ length v.now }
    requires mass { sum v.now ≤ 2 ^ 48 }
    ensures down { result.down ≡ sum_down up.now v.now }
    ensures up { result.up ≡ sum_up up.now v.now }
{
    let mut sides = Sides::none();
    for i in 0..v.len() {
        sides = sides.with(up[i], u128::from(v[i]));
    }
    sides
}
