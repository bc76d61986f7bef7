//! The powers of a beat.

ghost use Rattle.std.specs.Prelude.{◌≡◌, ℕ, Some, None, ◌+◌, ◌*◌, ◌^◌, ◌<◌, ◌≤◌, length, replicate, IfOk};
ghost use Rattle.sil_model.specs.Sizes.{states_of};
ghost use Rattle.sil_model.specs.Budget.{beat_loss_of};
ghost use Rattle.vector_laws.specs.Vectors.{IsMass};
ghost use Rattle.phase_run.specs.Passes.{Passes};
ghost use Rattle.phase_powers.specs.Kept.{IsOfNoOther};
ghost use Rattle.phase_powers.specs.Products.{powered_products};

use crate::matrices::{Matrices, pass};
use phase_run::Phase;
use sil_model::Steps;
use std::alloc::{AllocError, Global};
use std::marker::Model;
use std::sync::ledger::Ledger;
use uniformise::Workspace;

/// Room for the powers of the beats of a loop of so many states, and those of the phase that ran last. Contracts see the
/// size, and the loop that the powers are of, if there are any yet.
#[derive(Drop)]
pub struct Powers {
    matrices: Matrices,
}

impl Model for Powers {
    ghost use Rattle.std.specs.Prelude.{vec_len};
    ghost use Rattle.phase_powers.specs.Kept.{PowersValue, loop_of};
    ghost use Rattle.phase_powers.specs.Rooms.{AreMatrices};

    ghost Value = { PowersValue };

    ghost view = { λ p. record { size = vec_len p.matrices.row; of = loop_of p.matrices.kept } };

    ghost invariant = { λ p. AreMatrices p.matrices };
}

impl Powers {
    /// Room for the powers of a loop of so many states. It is refused only where the program is out of memory.
    pub fn new(alloc: Global, size: usize) -> Result<Powers, AllocError>
        requires some { 1 ≤ size }
        requires few { size ≤ 64 }
        ensures { IfOk result (λ p. p ≡ record { size = size; of = None }) }
    {
        Ok(Powers {
            matrices: Matrices::new(alloc, size)?,
        })
    }

    /// Passes all beats of a phase: `dwell` becomes what the vector dwells in them.
    pub(crate) fn pass_beats<L: Ledger>(
        &mut self,
        work: &mut Workspace,
        phase: &Phase<'_>,
        v: &mut [u64],
        dwell: &mut [u128],
        steps: &mut Steps<L>,
    )
        requires size { self.old.size ≡ states_of phase.now.chain.now.of.subsystems }
        requires same { IsOfNoOther self.old.of phase.now.chain.now.of }
        requires beats { phase.now.beats ≡ phase.now.chain.now.beats }
        requires hours { phase.now.hours ≡ phase.now.chain.now.hours }
        requires work { work.old ≡ states_of phase.now.chain.now.of.subsystems }
        requires v { length v.old ≡ states_of phase.now.chain.now.of.subsystems }
        requires dwell { length dwell.old ≡ states_of phase.now.chain.now.of.subsystems }
        requires mass { IsMass v.old }
        ensures powers { self.new ≡ record { size = self.old.size; of = Some phase.now.chain.now.of } }
        ensures work { work.new ≡ work.old }
        ensures passes { Passes phase.now.chain.now phase.now.weights.now (beat_loss_of phase.now.chain.now.of.subsystems phase.now.weights.now) phase.now.beats v.old v.new (replicate (states_of phase.now.chain.now.of.subsystems) 0) dwell.new }
        ensures steps { (digits : ℕ) → phase.now.beats < 2 ^ digits → steps.new ≤ steps.old + powered_products phase.now.chain.now.of.subsystems phase.now.weights.now digits }
    {
        prove!(phase.beats == phase.chain.beats());
        prove!(phase.weights.order() >= 16);
        self.matrices.make_ready(work, phase, dwell, steps);
        pass(
            &self.matrices.end,
            &self.matrices.dwell,
            self.matrices.row.as_mut_slice(),
            v,
            dwell,
            steps,
        );
    }
}
