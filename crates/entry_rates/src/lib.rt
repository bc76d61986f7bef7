//! Which count vectors are up, the rate at which an up loop goes down from each of them, and the greatest that this rate
//! can be.
//!
//! Rates are whole numbers of 10^-18 per hour: each is a sum of the rates of failures, those of single channels once for
//! each channel that may fail so, those of common causes once. A repair never takes a loop down. `specs/Greatest` has the
//! law of the greatest rate.
#![tactic(auto)]

ghost use Rattle.sil_model.specs.LoopValue.{LoopValue};
ghost use Rattle.entry_rates.specs.Greatest.{EntryLaw};

mod rates;

pub use rates::{entry_rates, failure_rate, up_states};

/// From no state is a loop entered down at a greater rate than that of all failures together.
pub fn entry_law()
    ensures { (l : LoopValue) → EntryLaw l }
{}
