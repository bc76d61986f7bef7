//! What a tick is.

ghost use Rattle.std.specs.Prelude.{◌≡◌, ℕ, ◌+◌, ◌^◌, ◌≤◌, length, sum};
ghost use Rattle.sil_fraction.specs.Fraction.{◌≤ℚ◌};
ghost use Rattle.sil_model.specs.Series.{Values};
ghost use Rattle.vector_laws.specs.Vectors.{weigh, IsMass};

use sil_model::Steps;
use std::sync::ledger::Ledger;

/// One tick of the vectors of a size, in units of 2^-48: no more than a linear step of values leaves of them.
///
/// A block of beats needs to know nothing else of what its ticks are.
pub trait Tick {
    // how many numbers a vector has
    ghost size: { Self → ℕ };

    // the step of values: what is expected one tick later, from each place
    ghost step: { Self → Values ℕ → Values ℕ };

    // what one tick loses, at most
    ghost loss: { Self → ℕ };

    // how many products one tick makes, at most
    ghost products: { Self → ℕ };

    /// The vector after a tick.
    fn tick<L: Ledger>(&self, from: &[u64], to: &mut [u64], steps: &mut Steps<L>)
        requires from { length from.now ≡ size self.now }
        requires to { length to.old ≡ size self.now }
        requires mass { IsMass from.now }
        ensures encloses { (f : Values ℕ) → weigh to.new f ≤ℚ weigh from.now (step self.now f) }
        ensures kept { sum to.new ≤ sum from.now }
        ensures lack { sum from.now ≤ sum to.new + loss self.now }
        ensures steps { steps.new ≤ steps.old + products self.now };
}
