//! Laws of the exponential series of steps that commute, for contracts and proofs alone: no code runs here.
//!
//! By the binomial theorem (`proofs/Binomial`) the terms of degree k of both series together are the term of degree k of
//! the series of the sum. So cut-off series lie below each other, coefficient by coefficient.
#![tactic(auto)]

ghost use Rattle.std.specs.Prelude.{ℕ};
ghost use Rattle.sil_model.specs.Series.{Values};
ghost use Rattle.model_laws.specs.Polynomial.{IsLinear};
ghost use Rattle.exponential_laws.specs.Exponential.{Commute};
ghost use Rattle.exponential_laws.specs.Laws.{ExponentialLaw};

/// The series of two linear steps that commute, one after the other, and the series of their sum.
pub fn exponential_law()
    ensures { (X Y : Values ℕ → Values ℕ) → IsLinear X → IsLinear Y → Commute X Y → ExponentialLaw X Y }
{}
