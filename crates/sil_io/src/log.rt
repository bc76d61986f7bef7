//! Bytes that only proofs read.
ghost use Rattle.std.specs.Prelude.{◌≡◌, ℕ, List, [], ◌∷◌, ◌++◌};
ghost use Rattle.std.specs.Borrow.{ftrue};

use std::marker::Model;

/// A list of pieces of bytes, for proofs alone. It has no bytes at run time, and its methods do nothing there.
#[derive(Drop)]
pub struct Log {
    pub ghost value: { List (List ℕ) },
}

impl Model for Log {
    ghost also_owns = { λ _. ftrue };
}

impl Log {
    /// The empty log.
    pub fn new() -> Log
        ensures { result.value ≡ [] }
    {
        Log {}
    }

    /// Puts a piece at the end.
    pub fn push(&mut self, _piece: &[u8])
        ensures { self.new.value ≡ self.old.value ++ _piece.now ∷ [] }
    {}
}
