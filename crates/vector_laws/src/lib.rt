//! Laws of vectors and matrices of whole numbers in units of 2^-48, for contracts and proofs alone: no code runs here.
//!
//! A value list gives a value to the number of each count vector, and a vector weighs it by its own numbers.
//!
//! - `specs/Vectors`: what a vector weighs, and what it lacks of 1.
//! - `proofs/Masses`: the sum of a vector's numbers, by its places.
//! - `proofs/Weighing`: what vectors weigh by sums, multiples and constants, term by term, and one number changed.
//! - `proofs/Floors`: vectors that are rounded down.
//! - `specs/Matrix`, `Rows`: square matrices, and their rows as vectors. `proofs/RowVectors`: a row by its entries.
//!
//! Some numbers in units of 2^-48 stay below m beats, for every linear step of values: those of one beat do, and so do
//! those of many beats at once. Then the sum of a vector's ticks, each times its number, stays below the vector after m
//! beats, and loses little.
//!
//! - `specs/Block`: the vector after some ticks, after some beats, and what was dwelt on the way.
//! - `proofs/Moments`: the sum, the mean and the pairs of the numbers of ticks in such numbers.
//! - `proofs/Ticks`: tick by tick. `proofs/Blocks`: m beats at once. `proofs/Phases`: beats after beats.
#![tactic(auto)]

ghost use Rattle.std.specs.Prelude.{◌≡◌, ℕ, ◌<◌, List};
ghost use Rattle.sil_model.specs.Series.{Values};
ghost use Rattle.vector_laws.specs.Block.{StayBelow};
ghost use Rattle.vector_laws.specs.BlockLaws.{BlockLaw};
ghost use Rattle.vector_laws.specs.Laws.{AreFloors, FloorLaws, WeighLaws};

/// What a vector weighs grows with its numbers and with the values, and sums and multiples of either keep it.
pub fn weigh_laws()
    ensures { (v : List ℕ) → WeighLaws v }
{}

/// A vector of numbers that were each divided and rounded down.
pub fn floor_laws()
    ensures { (P : ℕ) (sums out : List ℕ) → 0 < P → AreFloors P sums out → FloorLaws P sums out }
{}

/// What the ticks of a vector bring of m beats of a step T, by numbers that stay below them, and what is lost.
pub fn block_law()
    ensures { (T : Values ℕ → Values ℕ) (loss order m n : ℕ) (numbers : ℕ → ℕ) (v : List ℕ) → StayBelow order numbers m → BlockLaw (λ S. S ≡ T) loss order m n numbers v }
{}
