//! A number of beats, for proofs alone.

ghost use Rattle.std.specs.Prelude.{◌≡◌, ℕ, ◌+◌};
ghost use Rattle.std.specs.Borrow.{ftrue};

use std::marker::Model;

/// A number that only proofs read. It has no bytes, and its functions do nothing at run time.
#[derive(Drop)]
pub struct Count {
    pub ghost number: { ℕ },
}

impl Model for Count {
    ghost also_owns = { λ _. ftrue };
}

impl Count {
    /// No beat.
    pub fn none() -> Count
        ensures { result.number ≡ 0 }
    {
        Count {}
    }

    /// One beat.
    pub fn one() -> Count
        ensures { result.number ≡ 1 }
    {
        Count {}
    }

    /// The beats of both.
    pub fn and(&self, other: &Count) -> Count
        ensures { result.number ≡ self.now.number + other.now.number }
    {
        Count {}
    }
}
