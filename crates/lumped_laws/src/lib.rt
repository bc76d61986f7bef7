//! The bridge between full states and the numbers of count vectors, for contracts and proofs alone: no code runs here.
//!
//! The definitions ask from one full state; a program keeps a value for each count vector, a value list. What is expected
//! of a function of the counts is the same either way:
//!
//! - `proofs/GroupCounts`, `LaidOut`, `Lengths`, `States`: a full state, its count vector and its number.
//! - `proofs/GroupChannels`: the channels of each group in the calendar of tests.
//! - `proofs/Steady`: values that no exchange of two neighbours in a group changes.
//! - `proofs/Ticks`, `TestHours`: steps, beats, means and the tests of an hour.
//! - `proofs/LinearLists`: ticks, beats and tests of value lists as linear operators.
//! - `proofs/Pays`, `Phases`, `Figures`: what a schedule pays, phase by phase, and the figures of a loop.
#![tactic(auto)]

ghost use Rattle.std.specs.Prelude.{ℕ, List};
ghost use Rattle.sil_fraction.specs.Fraction.{Fraction};
ghost use Rattle.sil_model.specs.LoopValue.{LoopValue};
ghost use Rattle.sil_model.specs.declared.parts.Subsystem.{Subsystem};
ghost use Rattle.lumped_laws.specs.FigureLaws.{FigureLaw};
ghost use Rattle.lumped_laws.specs.GroupLaws.{GroupLaw};
ghost use Rattle.lumped_laws.specs.LinearLists.{LinearLaw};
ghost use Rattle.lumped_laws.specs.Listed.{CarryLaw, TestLaw};
ghost use Rattle.lumped_laws.specs.PayLaws.{PayLaw, PhaseLaw};
ghost use Rattle.lumped_laws.specs.StateLaws.{StateLaw};

/// The groups of a loop stand one behind the other, and the calendar of tests has the channels of each under its number.
pub fn group_law()
    ensures { (us : List Subsystem) → GroupLaw us }
{}

/// Full states and count vectors of a loop: each has the other's counts, and events and tests lead to no other states.
pub fn state_law()
    ensures { (us : List Subsystem) → StateLaw us }
{}

/// What a step, a beat, its mean and many beats bring of a function of the counts, its value list says.
pub fn carry_law()
    ensures { (us : List Subsystem) (h : Fraction) → CarryLaw us h }
{}

/// So it does of the tests of an hour, and of a passage at them.
pub fn test_law()
    ensures { TestLaw }
{}

/// Ticks, beats and tests of value lists are linear, and keep constants where steps are short and chances at most 1.
pub fn linear_law()
    ensures { (us : List Subsystem) → LinearLaw us }
{}

/// What is left of a schedule pays from a full state what its value lists say at the number of the state.
pub fn pay_law()
    ensures { (l : LoopValue) → PayLaw l }
{}

/// The beats of a phase pay what its value lists say: what comes after them, and its hours times the mean payoff.
pub fn phase_law()
    ensures { (us : List Subsystem) (t : ℕ) → PhaseLaw us t }
{}

/// The figures of a loop are what its schedules pay by value lists at the number 0.
pub fn figure_law()
    ensures { (l : LoopValue) → FigureLaw l }
{}
