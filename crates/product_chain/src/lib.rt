//! The chain between the count vectors of a loop: what a vector of them becomes in one tick.
//!
//! A tick is one step of the uniformised chain (Jensen's method): at most one event happens in it. [`Chain`] keeps the
//! columns of the matrix of a tick, without the entries that are 0: from which count vectors each one is reached, and with
//! what weight. A phase of other beats is another tick of the same moves, so that a chain is retimed in its place.
//!
//! - `step`, `moves`: what leads from each count vector to others, and its rate, whatever the length of a tick.
//! - `column`: the chances of a tick, rounded, and the columns.
//! - `specs/Weights`: the weights as definitions have them, which the clause of a tick names.
#![tactic(auto)]

ghost use Rattle.std.specs.Prelude.{ℕ, ◌<◌};
ghost use Rattle.sil_model.specs.LoopValue.{LoopValue, IsValid};
ghost use Rattle.sil_model.specs.Sizes.{states_of};
ghost use Rattle.product_chain.specs.Kept.{IsTimed};
ghost use Rattle.product_chain.specs.Weights.{IsRow};

mod chain;
mod column;
mod gathering;
mod moves;
mod step;

pub use chain::Chain;
pub use column::{Columns, Entry};
pub use gathering::gather;

/// The weights of a tick: none is above its exact chance, and those from one count vector come to at most 1 and lack at
/// most one unit for each event.
pub fn row_law()
    ensures { (l : LoopValue) (hours beats i : ℕ) → IsValid l → IsTimed l.subsystems hours beats → i < states_of l.subsystems → IsRow l.subsystems hours beats i }
{}
