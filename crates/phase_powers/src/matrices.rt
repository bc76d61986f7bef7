//! The matrices of a phase, and a vector times these.

ghost use Rattle.std.specs.Prelude.{◌≡◌, ℕ, Some, None, ◌+◌, ◌*◌, ◌^◌, ◌<◌, ◌≤◌, length, vec_len, IfOk, IsTrue};
ghost use Rattle.sil_model.specs.Sizes.{states_of};
ghost use Rattle.uniformise.specs.Beat.{beat_products};
ghost use Rattle.vector_laws.specs.Vectors.{IsMass};
ghost use Rattle.vector_laws.specs.Matrix.{EachEntryAtMost, IsRowProductDown};
ghost use Rattle.phase_powers.specs.Kept.{IsOfNoOther, IsOfPhase, loop_of};
ghost use Rattle.phase_powers.specs.Products.{making_products};
ghost use Rattle.phase_powers.specs.Rooms.{AreMatrices};

use crate::kept::KeptPhase;
use crate::rows::make_beat_pair;
use dense_power::{Dense, power_pair};
use phase_run::Phase;
use sil_model::Steps;
use std::alloc::{AllocError, Global};
use std::sync::ledger::Ledger;
use uniformise::Workspace;

/// The matrices of a phase, with the room that they are made in.
#[derive(Drop)]
pub struct Matrices {
    /// Of which phase they are, once they are made.
    pub kept: Option<KeptPhase>,
    /// What becomes of the whole at each state by the end.
    pub end: Dense,
    /// What is dwelt from each state on, in beats.
    pub dwell: Dense,
    /// Room for powers.
    pub scratch: Vec<Dense>,
    /// Room for a row.
    pub row: Vec<u64>,
}

impl Matrices {
    /// Matrices of no phase yet.
    pub fn new(alloc: Global, size: usize) -> Result<Matrices, AllocError>
        requires some { 1 ≤ size }
        requires few { size ≤ 64 }
        ensures sound { IfOk result AreMatrices }
        ensures size { IfOk result (λ m. vec_len m.row ≡ size) }
        ensures none { IfOk result (λ m. m.kept ≡ None) }
    {
        let end = Dense::new(alloc, size)?;
        let dwell = Dense::new(alloc, size)?;
        let mut scratch = Vec::with_capacity(alloc, 4)?;
        for _ in 0..4u8 {
            scratch.push(Dense::new(alloc, size)?)?;
        }
        let row = vec![in alloc; 0u64; size]?;
        Ok(Matrices {
            kept: None,
            end,
            dwell,
            scratch,
            row,
        })
    }

    /// Makes them those of a phase, unless they are these already. `room` is room for a row.
    pub fn make_ready<L: Ledger>(
        &mut self,
        work: &mut Workspace,
        phase: &Phase<'_>,
        room: &mut [u128],
        steps: &mut Steps<L>,
    )
        requires sound { AreMatrices self.old }
        requires size { vec_len self.old.row ≡ states_of phase.now.chain.now.of.subsystems }
        requires same { IsOfNoOther (loop_of self.old.kept) phase.now.chain.now.of }
        requires beats { phase.now.beats ≡ phase.now.chain.now.beats }
        requires hours { phase.now.hours ≡ phase.now.chain.now.hours }
        requires work { work.old ≡ states_of phase.now.chain.now.of.subsystems }
        requires room { length room.old ≡ states_of phase.now.chain.now.of.subsystems }
        ensures sound { AreMatrices self.new }
        ensures size { vec_len self.new.row ≡ vec_len self.old.row }
        ensures kept { self.new.kept ≡ Some (record { chain = phase.now.chain.now; order = phase.now.weights.now }) }
        ensures work { work.new ≡ work.old }
        ensures steps { (digits : ℕ) → phase.now.beats < 2 ^ digits → steps.new ≤ steps.old + making_products phase.now.chain.now.of.subsystems phase.now.weights.now digits }
    {
        if !self.are_of(phase.hours, phase.beats, phase.weights.order()) {
            self.make(work, phase, room, steps);
        }
    }

    /// Whether they are of a phase of these hours and beats, by this order.
    fn are_of(&self, hours: u64, beats: u64, order: u8) -> bool
        ensures { IsTrue result → IsOfPhase hours beats order self.now.kept }
    {
        match &self.kept {
            Some(kept) => kept.has(hours, beats, order),
            None => false,
        }
    }

    /// Makes them those of a phase.
    fn make<L: Ledger>(
        &mut self,
        work: &mut Workspace,
        phase: &Phase<'_>,
        room: &mut [u128],
        steps: &mut Steps<L>,
    )
        requires sound { AreMatrices self.old }
        requires size { vec_len self.old.row ≡ states_of phase.now.chain.now.of.subsystems }
        requires beats { phase.now.beats ≡ phase.now.chain.now.beats }
        requires hours { phase.now.hours ≡ phase.now.chain.now.hours }
        requires work { work.old ≡ states_of phase.now.chain.now.of.subsystems }
        requires room { length room.old ≡ states_of phase.now.chain.now.of.subsystems }
        ensures sound { AreMatrices self.new }
        ensures size { vec_len self.new.row ≡ vec_len self.old.row }
        ensures kept { self.new.kept ≡ Some (record { chain = phase.now.chain.now; order = phase.now.weights.now }) }
        ensures work { work.new ≡ work.old }
        ensures steps { (digits : ℕ) → phase.now.beats < 2 ^ digits → steps.new ≤ steps.old + making_products phase.now.chain.now.of.subsystems phase.now.weights.now digits }
    {
        prove!(phase.beats == phase.chain.beats());
        make_beat_pair(
            &mut self.end,
            &mut self.dwell,
            self.row.as_mut_slice(),
            room,
            work,
            phase,
            steps,
        );
        power_pair(
            &mut self.end,
            &mut self.dwell,
            self.scratch.as_mut_slice(),
            phase.beats,
            steps,
        );
        self.kept = Some(KeptPhase::of(phase));
    }
}

/// Makes `v` its product with an end matrix, and `dwelt` that with a dwell sum. `row` is room for it.
pub fn pass<L: Ledger>(
    end: &Dense,
    dwell: &Dense,
    row: &mut [u64],
    v: &mut [u64],
    dwelt: &mut [u128],
    steps: &mut Steps<L>,
)
    requires dwell_size { dwell.now.size ≡ end.now.size }
    requires row { length row.old ≡ end.now.size }
    requires v { length v.old ≡ end.now.size }
    requires dwelt { length dwelt.old ≡ end.now.size }
    requires mass { IsMass v.old }
    requires end_small { EachEntryAtMost end.now (2 ^ 48) }
    requires dwell_small { EachEntryAtMost dwell.now (2 ^ 68) }
    ensures ends { IsRowProductDown v.old end.now v.new }
    ensures dwells { IsRowProductDown v.old dwell.now dwelt.new }
    ensures steps { steps.new ≡ steps.old + 2 * end.now.size ^ 2 }
{
    dwell_of(dwell, v, dwelt, steps);
    end_of(end, v, row, steps);
    v.copy_from_slice(row);
}

/// Makes `to` the product of a vector and an end matrix.
fn end_of<L: Ledger>(end: &Dense, v: &[u64], to: &mut [u64], steps: &mut Steps<L>)
    requires v { length v.now ≡ end.now.size }
    requires to { length to.old ≡ end.now.size }
    requires mass { IsMass v.now }
    requires small { EachEntryAtMost end.now (2 ^ 48) }
    ensures product { IsRowProductDown v.now end.now to.new }
    ensures steps { steps.new ≡ steps.old + end.now.size ^ 2 }
{
    for j in 0..end.size() {
        to[j] = end.row_product_down(v, j, steps) as u64;
    }
}

/// Makes `to` the product of a vector and a dwell sum.
fn dwell_of<L: Ledger>(dwell: &Dense, v: &[u64], to: &mut [u128], steps: &mut Steps<L>)
    requires v { length v.now ≡ dwell.now.size }
    requires to { length to.old ≡ dwell.now.size }
    requires mass { IsMass v.now }
    requires small { EachEntryAtMost dwell.now (2 ^ 68) }
    ensures product { IsRowProductDown v.now dwell.now to.new }
    ensures steps { steps.new ≡ steps.old + dwell.now.size ^ 2 }
{
    for j in 0..dwell.size() {
        to[j] = dwell.row_product_down(v, j, steps);
    }
}
