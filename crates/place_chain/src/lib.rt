//! A part of a chain: the ticks of a phase over the count vectors that ever hold mass alone, or enough of it to count.
//!
//! From many count vectors most others are never reached: where every fault is found by a test, none lies deep. Others are
//! reached by so little that leaving it out costs next to nothing. So before a phase some places are chosen once, and the
//! chain is made a smaller one over these alone. The vector is gathered onto them, ticks there, and is scattered at the end;
//! elsewhere it holds nothing.
//!
//! - `closure`: the places that are reached, round by round, until a round finds no more. They are closed, so that a tick
//!   over them loses no more than one over all.
//! - `estimate`: the places that come to hold enough. What the others would have held is lost, and how much that is shows
//!   at the end of the phase, by what the vector lacks.
//! - `compact`: the places, their ranks, and the columns over the ranks.
//! - [`PlaceChain`] keeps all of it, and its room for every phase of a loop.
#![tactic(auto)]

ghost use Rattle.std.specs.Prelude.{ℕ, List};
ghost use Rattle.place_chain.specs.PlaceChain.{PlaceChainValue, AreInOrder};
ghost use Rattle.place_chain.specs.Phases.{PlacesLaw, AreTaken, ScatteredLaw};

mod chain;
mod closure;
mod compact;
mod estimate;

pub use chain::PlaceChain;

/// The step of the ticks over the places is linear, and many beats of it are no greater than those of all values. So what
/// is known of some beats of a vector over the places is known, once it is scattered, of the beats of the whole vector.
pub fn places_law()
    ensures law { (r : PlaceChainValue) → AreInOrder r.chain.of.subsystems r.places → PlacesLaw r }
    ensures scattered { (r : PlaceChainValue) → AreInOrder r.chain.of.subsystems r.places → (order m : ℕ) (before small : List ℕ) → AreTaken r before small → ScatteredLaw r order m before small }
{}
