//! The proof tests of an hour, on a vector of what is at each count vector of a loop.
//!
//! [`Tests::new`] makes the tables once: for each group the weights with which its channels fail at a test, and the
//! numbers of the count vectors that its tests lead to. [`Tests::apply`] then takes no memory. It splits the vector into
//! the part at which the loop is up and the part at which it is down, takes both through the tests group by group, and
//! tells how much has passed from up to down.
//!
//! - `proofs/Rows`: the weights against the chances.
//! - `proofs/Vectors`, `Dots`, `Apply`: sums of products, and their floors.
//! - `proofs/Hour`, `Halves`, `Lists`: the two parts of an hour, the passages, and what is lost.
//! - `proofs/Parts`, `Filled`, `Leads`, `Channels`, `Agree`: the tables of a loop against the tests of its channels.
//! - `proofs/Bounds`: the two together, as the clauses of [`Tests::apply`] have it.
#![tactic(auto)]

ghost use Rattle.sil_model.specs.LoopValue.{LoopValue};
ghost use Rattle.test_matrix.specs.HourTests.{HourLaw};

mod places;
mod spread;
mod tables;
mod weights;
mod whole;

pub use tables::Tests;
pub use whole::Passed;

/// The group tests that a plan has after a phase are of groups that exist, and stand for the tests of channels at the hour
/// at which the next phase begins.
pub fn hour_law()
    ensures { (l : LoopValue) → HourLaw l }
{}
