//! The matrices of the beats of a subsystem.

ghost use Rattle.std.specs.Prelude.{◌≡◌, ◌+◌, ◌^◌, ◌<◌, ◌≤◌, length, replicate, slice_index_or, IfOk, IsTrue};
ghost use Rattle.sil_model.specs.Sizes.{states_of, most_states};
ghost use Rattle.sil_model.specs.declared.parts.Subsystem.{Subsystem};
ghost use Rattle.vector_laws.specs.Matrix.{most_rows};
ghost use Rattle.product_chain.specs.Kept.{IsTimed};
ghost use Rattle.subsystem_power.specs.Powers.{alone_of, IsPowerOf, begin_products};

use crate::alone::alone;
use crate::count::Count;
use crate::matrices::{follow, make_beat, make_sixteen};
use dense_power::Dense;
use lumping::{Space, SpaceFault};
use product_chain::Chain;
use series_weights::Weights;
use sil_model::{Loop, Steps};
use std::alloc::{AllocError, Global};
use std::marker::Model;
use std::mem::swap;
use std::sync::ledger::Ledger;
use uniformise::Workspace;

/// The beats of one subsystem, as a loop for itself. Contracts see its chain, and of how many beats the power is; that is 0
/// until a phase is begun.
#[derive(Drop)]
pub struct SubsystemPower {
    alone: Loop,
    space: Space,
    chain: Chain,
    work: Workspace,
    end: Vec<u64>,
    dwell: Vec<u128>,
    beat: Dense,
    sixteen: Dense,
    power: Dense,
    product: Dense,
    // The hours of the chain.
    hours: u64,
    // Whether the matrices are made.
    begun: bool,
    // Of how many beats the power is.
    count: Count,
}

impl Model for SubsystemPower {
    ghost use Rattle.subsystem_power.specs.Powers.{PowerValue};

    ghost Value = { PowerValue };

    ghost use Rattle.subsystem_power.specs.Rooms.{HasParts};

    ghost view = { λ p. record { chain = p.chain; power = p.count.number } };

    ghost invariant = { HasParts };
}

impl SubsystemPower {
    /// The beats of the subsystem `i` of a loop, for a phase of so many hours in so many beats.
    pub fn new(
        alloc: Global,
        l: &Loop,
        i: usize,
        hours: u64,
        beats: u64,
    ) -> Result<SubsystemPower, AllocError>
        requires i { i < length l.now.subsystems }
        requires few { (d : Subsystem) → states_of (alone_of l.now (slice_index_or l.now.subsystems i d)).subsystems ≤ most_rows }
        requires timed { (d : Subsystem) → IsTimed (alone_of l.now (slice_index_or l.now.subsystems i d)).subsystems hours beats }
        ensures { (d : Subsystem) → IfOk result (λ p. p ≡ record { chain = record { of = alone_of l.now (slice_index_or l.now.subsystems i d); hours = hours; beats = beats }; power = 0 }) }
    {
        let alone = alone(alloc, l, i)?;
        let space = space_of(alloc, &alone)?;
        let size = space.size();
        let chain = Chain::new(alloc, &alone, &space, hours, beats)?;
        let work = Workspace::new(alloc, size)?;
        let end = vec![in alloc; 0u64; size]?;
        let dwell = vec![in alloc; 0u128; size]?;
        let beat = Dense::new(alloc, size)?;
        let sixteen = Dense::new(alloc, size)?;
        let power = Dense::new(alloc, size)?;
        let product = Dense::new(alloc, size)?;
        Ok(SubsystemPower {
            alone,
            space,
            chain,
            work,
            end,
            dwell,
            beat,
            sixteen,
            power,
            product,
            hours,
            begun: false,
            count: Count::none(),
        })
    }

    /// How many count vectors the subsystem has, from 1 to [`dense_power::MOST_ROWS`].
    pub fn size(&self) -> usize
        ensures size { result ≡ states_of self.now.chain.of.subsystems }
        ensures some { 1 ≤ result }
        ensures few { result ≤ most_rows }
    {
        self.beat.size()
    }

    /// Begins a phase of so many hours in so many beats: the power is that of one beat. The matrices are made unless they are
    /// those of such a phase already.
    pub fn begin<L: Ledger>(
        &mut self,
        weights: &Weights,
        hours: u64,
        beats: u64,
        steps: &mut Steps<L>,
    )
        requires order { weights.now ≡ 16 }
        requires timed { IsTimed self.old.chain.of.subsystems hours beats }
        ensures value { self.new ≡ record { chain = record { of = self.old.chain.of; hours = hours; beats = beats }; power = 1 } }
        ensures steps { steps.new ≤ steps.old + begin_products self.old.chain.of.subsystems }
    {
        if self.has_begun(hours, beats) {
            self.begin_again();
        } else {
            self.begin_anew(weights, hours, beats, steps);
        }
    }

    /// Whether the matrices are those of a phase of these hours and beats.
    fn has_begun(&self, hours: u64, beats: u64) -> bool
        ensures begun { IsTrue result → 0 < self.now.power }
        ensures hours { IsTrue result → self.now.chain.hours ≡ hours }
        ensures beats { IsTrue result → self.now.chain.beats ≡ beats }
    {
        self.begun && self.hours == hours && self.chain.beats() == beats
    }

    /// Makes the power that of one beat, by the matrices that are there.
    fn begin_again(&mut self)
        requires { 0 < self.old.power }
        ensures { self.new ≡ record { chain = self.old.chain; power = 1 } }
    {
        self.power.copy_from(&self.beat);
        self.count = Count::one();
    }

    /// Makes the matrices of a phase, and the power that of one beat.
    fn begin_anew<L: Ledger>(
        &mut self,
        weights: &Weights,
        hours: u64,
        beats: u64,
        steps: &mut Steps<L>,
    )
        requires order { weights.now ≡ 16 }
        requires timed { IsTimed self.old.chain.of.subsystems hours beats }
        ensures value { self.new ≡ record { chain = record { of = self.old.chain.of; hours = hours; beats = beats }; power = 1 } }
        ensures steps { steps.new ≤ steps.old + begin_products self.old.chain.of.subsystems }
    {
        self.chain.retime(&self.alone, &self.space, hours, beats);
        make_beat(
            &mut self.beat,
            self.end.as_mut_slice(),
            self.dwell.as_mut_slice(),
            &mut self.work,
            &self.chain,
            weights,
            steps,
        );
        make_sixteen(&self.beat, &mut self.sixteen, &mut self.product, steps);
        self.power.copy_from(&self.beat);
        self.hours = hours;
        self.begun = true;
        self.count = Count::one();
    }

    /// Makes the power that of twice as many beats.
    pub fn double<L: Ledger>(&mut self, steps: &mut Steps<L>)
        requires begun { 0 < self.old.power }
        ensures value { self.new ≡ record { chain = self.old.chain; power = self.old.power + self.old.power } }
        ensures steps { steps.new ≤ steps.old + states_of self.old.chain.of.subsystems ^ 3 }
    {
        follow(&self.power, &self.power, &mut self.product, steps);
        swap(&mut self.power, &mut self.product);
        self.count = self.count.and(&self.count);
    }

    /// Makes the power that of one beat more.
    pub fn add_beat<L: Ledger>(&mut self, steps: &mut Steps<L>)
        requires begun { 0 < self.old.power }
        ensures value { self.new ≡ record { chain = self.old.chain; power = self.old.power + 1 } }
        ensures steps { steps.new ≤ steps.old + states_of self.old.chain.of.subsystems ^ 3 }
    {
        follow(&self.power, &self.beat, &mut self.product, steps);
        swap(&mut self.power, &mut self.product);
        self.count = self.count.and(&Count::one());
    }

    /// The matrix of as many beats as the power has.
    pub fn power(&self) -> &Dense
        ensures { 0 < self.now.power → IsPowerOf self.now.chain 16 self.now.power result.now }
    {
        &self.power
    }

    /// The matrix of sixteen beats.
    pub fn sixteen(&self) -> &Dense
        ensures { 0 < self.now.power → IsPowerOf self.now.chain 16 16 result.now }
    {
        &self.sixteen
    }
}

/// The count vectors of a loop that has few. It is refused only where the program is out of memory.
fn space_of(alloc: Global, l: &Loop) -> Result<Space, AllocError>
    requires { states_of l.now.subsystems ≤ most_states }
    ensures { IfOk result (λ s. s ≡ l.now) }
{
    match Space::new(alloc, l) {
        Ok(space) => Ok(space),
        Err(SpaceFault::Memory(fault)) => Err(fault),
        Err(SpaceFault::Limit(_)) => unreachable!(),
    }
}
