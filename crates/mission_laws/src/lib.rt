//! What a mission counts, what a vector that is pushed through it has paid so far, and what the vector tells of one phase,
//! for contracts and proofs alone: no code runs here.
//!
//! - `specs/Arrived`: what is expected of values at the start of a phase, and a vector that is below it.
//! - `proofs/Arrived`: a vector stays below it from phase to phase.
//! - `proofs/PhasePays`: the mean of a phase and the chance at its end, as what is expected at its start.
//! - `proofs/PhaseFigures`: both lie between the ends that the vectors of the phase give, and these are within the budget.
#![tactic(auto)]

ghost use Rattle.std.specs.Prelude.{ℕ, List};
ghost use Rattle.sil_model.specs.LoopValue.{LoopValue, IsValid};
ghost use Rattle.mission_laws.specs.PhaseLaws.{ArrivalLaw, PhaseFigureLaw};

/// At the start of a mission a vector is below what is expected there, and it stays so over a phase and the tests after it.
pub fn arrival_law()
    ensures { (l : LoopValue) → ArrivalLaw l }
{}

/// The mean of a phase, and the chance at its end, lie between the ends that the vectors over it and at its end give.
pub fn phase_figure_law()
    ensures { (l : LoopValue) → IsValid l → PhaseFigureLaw l }
{}
