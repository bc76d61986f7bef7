//! Laws of subsystems that go each for itself, for contracts and proofs alone: no code runs here.
//!
//! The number of a count vector has a digit for each subsystem. A step of one subsystem changes its digit and asks for
//! nothing else (`specs/Digits`).
//!
//! Where a step changes what several steps that commute change together, m beats of it are m beats of each of these, one
//! after another, but for what more than N ticks of all in one beat may bring: less than 2^-46 of what is there
//! (`specs/Separate`).
//!
//! The subsystems of a loop do not hang on each other between tests: every event is of one subsystem, its rate is known
//! from the channels of that subsystem alone, and it moves no others. So what a tick of the loop changes is what the ticks
//! of the subsystems change, each along its digit (`specs/Subsystems`).
#![tactic(auto)]

ghost use Rattle.std.specs.Prelude.{◌≡◌, ℕ, ◌*◌, ◌<◌, ◌≤◌, List, length, All};
ghost use Rattle.sil_fraction.specs.Fraction.{Fraction};
ghost use Rattle.sil_model.specs.LoopValue.{IsSubsystemInRange};
ghost use Rattle.sil_model.specs.Series.{Values};
ghost use Rattle.sil_model.specs.Sizes.{states_of};
ghost use Rattle.sil_model.specs.declared.parts.Subsystem.{Subsystem};
ghost use Rattle.model_laws.specs.Hours.{IsShort};
ghost use Rattle.model_laws.specs.Polynomial.{IsLinear};
ghost use Rattle.vector_laws.specs.Matrix.{Matrix};
ghost use Rattle.lumped_laws.specs.LinearLists.{AsksBelow, KeepsConstants};
ghost use Rattle.lumped_laws.specs.ValueLists.{tick_list};
ghost use Rattle.separate_laws.specs.DigitLaws.{DigitLaw, MatrixLaw, StaysBelow};
ghost use Rattle.separate_laws.specs.Digits.{IsAlongDown};
ghost use Rattle.separate_laws.specs.Laws.{SeparateLaw};
ghost use Rattle.separate_laws.specs.Separate.{AreSeparate};
ghost use Rattle.separate_laws.specs.Subsystems.{steps_of_subsystems};

/// A linear step along a digit: it is linear, its beats are those of the step, and it commutes with steps of other digits.
pub fn digit_law()
    ensures { (stride base : ℕ) (T : Values ℕ → Values ℕ) → 0 < stride → 0 < base → IsLinear T → AsksBelow base T → DigitLaw stride base T }
{}

/// A matrix along a digit of a vector, rounded down, weighs no more than the step that the matrix stays below.
pub fn matrix_law()
    ensures { (stride more : ℕ) (m : Matrix) (v out : List ℕ) → 0 < stride → 0 < m.size → length v ≡ stride * m.size * more
        → IsAlongDown stride m v out → MatrixLaw stride m v out }
{}

/// Beats of steps that commute, one step after another, against the beats of a step that changes all that they change.
pub fn separate_law()
    ensures { (n : ℕ) (T : Values ℕ → Values ℕ) (Ps : List (Values ℕ → Values ℕ)) → IsLinear T → KeepsConstants T → StaysBelow n T
        → AreSeparate n T Ps → SeparateLaw n T Ps }
{}

/// Ticks of the subsystems of a loop are separate steps of the loop, where ticks of the loop are short.
pub fn independence_law()
    ensures { (us : List Subsystem) (h : Fraction) → length us ≤ 6 → All IsSubsystemInRange us → IsShort us h
        → AreSeparate (states_of us) (tick_list us h) (steps_of_subsystems us h) }
{}
