//! Exact fractions of whole numbers without bound, for contracts and proofs alone.
//!
//! `specs/` defines them: a fraction is two whole numbers with the lower one above 0, up to cross multiplication, so that
//! equal values are equal fractions. `proofs/Laws` and `proofs/Sums` have the laws that the crates above cite. No code
//! runs here. The functions below have no body: their contracts make the check prove the laws.
#![tactic(auto)]

ghost use Rattle.sil_fraction.specs.Laws.{OrderLaws, RingLaws, WholeLaws, FiniteSumLaws};

/// The order of fractions is total, and sums and products keep it.
pub fn order_laws()
    ensures { OrderLaws }
{}

/// Sums and products commute, associate and distribute; differences and inverses undo them.
pub fn ring_laws()
    ensures { RingLaws }
{}

/// Whole numbers and their quotients as fractions.
pub fn whole_laws()
    ensures { WholeLaws }
{}

/// Finite sums: of sums, scaled, split, exchanged and compared term by term.
pub fn finite_sum_laws()
    ensures { FiniteSumLaws }
{}
