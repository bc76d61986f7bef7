//! The same counts law, for contracts and proofs alone: no code runs here.
//!
//! Full states with the same counts are lumped into one state. The model is lumpable (Kemeny and Snell): from such states
//! the same is expected, since two neighbouring channels of one group may be exchanged and nothing changes.
//!
//! - `proofs/Exchange`: the exchange, and what it leaves as it was.
//! - `proofs/Pairs`: which channels are neighbours in a group; the loop is up as before.
//! - `proofs/Carried`, `Flows`: steps, beats and means.
//! - `proofs/Tests`: the tests of an hour. Two channels that are tested alike may be tested in either order, since a test
//!   of one asks and changes that one alone.
//! - `proofs/Pays`: what the items of a schedule pay.
//! - `proofs/Reorder`, `SameCounts`: exchanges lead to every full state with the same counts.
//!
//! Of count vectors themselves: `proofs/Closed`, `Lists`, `Numbering` say that count vectors and their numbers are each
//! other's inverse. `specs/GroupChannels` has the channels of each group in the calendar of tests.
#![tactic(auto)]

ghost use Rattle.sil_model.specs.LoopValue.{LoopValue};
ghost use Rattle.count_laws.specs.Laws.{SameCountsLaw};

/// From full states with the same counts, every rest of a schedule pays the same.
pub fn same_counts_law()
    ensures { (l : LoopValue) → SameCountsLaw l }
{}
