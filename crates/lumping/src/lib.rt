//! The count vectors of a loop: how many channels of each group are in each state.
//!
//! Channels of one group are alike, so that a state of the loop is lumped to the counts of each group: those in Work,
//! Hidden, Deep and Repair. [`Space`] numbers the count vectors of a loop from 0 on, by arithmetic alone: it keeps no
//! table. Within a group first come the counts with the fewest channels out of Work, then those with the fewest in Deep
//! or Repair, then those with the fewest in Repair; over the groups the numbers are digits, that of the first group being
//! the least. So the state in which every channel works has the number 0.
//!
//! The laws of the numbering stand in `count_laws` (`proofs/Numbering`); `proofs/Moves` says which count vectors a moved
//! channel leads to.
#![tactic(auto)]

ghost use Rattle.std.specs.Prelude.{List};
ghost use Rattle.sil_model.specs.declared.parts.Group.{Group};
ghost use Rattle.lumping.specs.Laws.{MovingLaw, NumberingLaws};

mod group;
mod space;

pub use space::{Space, SpaceFault, state_count};

/// Count vectors and the numbers below the number of states are each other's inverse, whatever the groups.
pub fn numbering_laws()
    ensures { (gs : List Group) → NumberingLaws gs }
{}

/// Channels of one group that change their state together lead from a count vector to a count vector.
pub fn moving_law()
    ensures { MovingLaw }
{}
