//! The chain over the places that are reached, or that are chosen.

ghost use Rattle.std.specs.Prelude.{◌≡◌, ℕ, true, false, [], ◌+◌, ◌*◌, ◌/◌, ◌^◌, ◌<◌, ◌≤◌, length, sum, slice_index, IfOk};
ghost use Rattle.sil_fraction.specs.Fraction.{◌≤ℚ◌};
ghost use Rattle.sil_fraction.specs.Sum.{sum_below};
ghost use Rattle.sil_model.specs.Budget.{lumped_events_of};
ghost use Rattle.sil_model.specs.Series.{Values};
ghost use Rattle.sil_model.specs.Sizes.{states_of};
ghost use Rattle.vector_laws.specs.Vectors.{weigh};
ghost use Rattle.product_chain.specs.Weights.{weight_of};
ghost use Rattle.place_chain.specs.Sweeps.{choice_products};
ghost use Rattle.place_chain.specs.PlaceChain.{AreInOrder, AreNoMore, HaveAllAbove, IsWithin, IsGatheredFrom, at_places, step_of_places, tick_loss_of};

use crate::closure::{mark_reached, mark_support};
use crate::compact::{compact, list_places};
use crate::estimate::mark_heavy;
use beat_ladder::Tick;
use common_cause::events;
use product_chain::{Chain, Columns, Entry, gather};
use sil_model::{Loop, Steps};
use std::alloc::{AllocError, Global};
use std::marker::Model;
use std::snapshot::Snapshot;
use std::sync::ledger::Ledger;

/// A chain at some count vectors, its places: those that a vector can reach, or those that come to hold enough.
///
/// Contracts see it as the chain, the places in their order, how many entries lead between them, and whether they are closed.
/// A vector over the places has a number for each of them.
#[derive(Drop)]
pub struct PlaceChain {
    // The chain, for proofs alone: it has no bytes.
    of: Snapshot<Chain>,
    closed: bool,
    masses: Vec<u64>,
    marks: Vec<bool>,
    ranks: Vec<u32>,
    places: Vec<u32>,
    starts: Vec<usize>,
    entries: Vec<Entry>,
}

impl Model for PlaceChain {
    ghost use Rattle.place_chain.specs.PlaceChain.{PlaceChainValue};

    ghost Value = { PlaceChainValue };

    ghost use Rattle.std.specs.Prelude.{vec_capacity, vec_len};
    ghost use Rattle.place_chain.specs.PlaceChain.{IsPlaceChain, HasRoom};

    ghost view = { λ r. record { chain = r.of.value; places = r.places.items; entries = vec_len r.entries; closed = r.closed } };

    ghost invariant = { λ r. IsPlaceChain r.of.value r.places.items r.closed r.starts.items r.entries.items × HasRoom r.of.value (vec_len r.masses) (vec_len r.marks) (vec_len r.ranks) (vec_capacity r.places) (vec_capacity r.starts) (vec_capacity r.entries) };
}

impl PlaceChain {
    /// Room for the places of vectors by the chains of a loop. There is no place in it yet.
    pub fn new(alloc: Global, l: &Loop, chain: &Chain) -> Result<PlaceChain, AllocError>
        requires same { l.now ≡ chain.now.of }
        ensures { IfOk result (λ r. r ≡ record { chain = chain.now; places = []; entries = 0; closed = true }) }
    {
        let columns = chain.columns();
        let size = columns.starts.len() - 1;
        let events = events(alloc, l)?;
        let masses = vec![in alloc; 0u64; size]?;
        let marks = vec![in alloc; false; size]?;
        let ranks = vec![in alloc; 0u32; size]?;
        let places = Vec::with_capacity(alloc, size)?;
        let mut starts = Vec::with_capacity(alloc, size + 1)?;
        starts.push(0)?;
        let entries = Vec::with_capacity(alloc, size * (events.len() + 1))?;
        Ok(PlaceChain {
            of: Snapshot::of(chain),
            closed: true,
            masses,
            marks,
            ranks,
            places,
            starts,
            entries,
        })
    }

    /// Finds the places that a vector can reach by a chain of the same loop, and makes it the chain over these.
    pub fn reach(&mut self, chain: &Chain, v: &[u64])
        requires same { self.old.chain.of ≡ chain.now.of }
        requires v { length v.now ≡ states_of chain.now.of.subsystems }
        ensures chain { self.new.chain ≡ chain.now }
        ensures closed { self.new.closed ≡ true }
        ensures support { IsWithin self.new.places v.now }
        ensures least { AreNoMore chain.now.of.subsystems chain.now.hours chain.now.beats v.now self.new.places }
    {
        let columns = chain.columns();
        mark_support(v, self.marks.as_mut_slice());
        mark_reached(columns, self.marks.as_mut_slice());
        list_places(
            self.marks.as_slice(),
            &mut self.places,
            self.ranks.as_mut_slice(),
        );
        compact(
            columns,
            self.marks.as_slice(),
            self.ranks.as_slice(),
            self.places.as_slice(),
            &mut self.entries,
            &mut self.starts,
        );
        self.of = Snapshot::of(chain);
        self.closed = true;
    }

    /// Chooses the places that hold more than `least` in a phase of so many ticks or into which it brings more, by an estimate,
    /// in units of 2^-48, and makes it the chain over these. Other count vectors may be reached by what is lost then.
    pub fn choose<L: Ledger>(
        &mut self,
        chain: &Chain,
        v: &[u64],
        ticks: u64,
        least: u64,
        steps: &mut Steps<L>,
    )
        requires same { self.old.chain.of ≡ chain.now.of }
        requires v { length v.now ≡ states_of chain.now.of.subsystems }
        ensures chain { self.new.chain ≡ chain.now }
        ensures open { self.new.closed ≡ false }
        ensures held { HaveAllAbove self.new.places least v.now }
        ensures steps { steps.new ≤ steps.old + choice_products chain.now.of.subsystems }
    {
        let columns = chain.columns();
        mark_heavy(
            columns,
            v,
            ticks,
            least,
            self.masses.as_mut_slice(),
            self.marks.as_mut_slice(),
            steps,
        );
        list_places(
            self.marks.as_slice(),
            &mut self.places,
            self.ranks.as_mut_slice(),
        );
        compact(
            columns,
            self.marks.as_slice(),
            self.ranks.as_slice(),
            self.places.as_slice(),
            &mut self.entries,
            &mut self.starts,
        );
        self.of = Snapshot::of(chain);
        self.closed = false;
    }

    /// How many places there are.
    pub fn size(&self) -> usize
        ensures size { result ≡ length self.now.places }
        ensures placed { AreInOrder self.now.chain.of.subsystems self.now.places }
    {
        self.places.len()
    }

    /// How many entries lead between the places: the products of a tick.
    pub fn products(&self) -> usize
        ensures value { result ≡ self.now.entries }
        ensures few { result ≤ states_of self.now.chain.of.subsystems * (lumped_events_of self.now.chain.of.subsystems + 1) }
    {
        self.entries.len()
    }

    /// Takes the numbers of a vector at the places, which weigh no more than the vector. One that holds nothing elsewhere keeps
    /// its mass and its weight.
    pub fn gather(&self, v: &[u64], small: &mut [u64])
        requires v { length v.now ≡ states_of self.now.chain.of.subsystems }
        requires mass { sum v.now ≤ 2 ^ 48 }
        requires small { length small.old ≡ length self.now.places }
        ensures gathered { IsGatheredFrom self.now.places v.now small.new }
        ensures most { sum small.new ≤ sum v.now }
        ensures weighed { IsWithin self.now.places v.now → (f : Values ℕ) → weigh small.new (at_places self.now.places f) ≡ weigh v.now f }
        ensures kept { IsWithin self.now.places v.now → sum small.new ≡ sum v.now }
    {
        let _ = self.of;
        take_at(self.places.as_slice(), v, small);
    }

    /// Puts the numbers at the places back. Elsewhere the vector holds nothing.
    pub fn scatter(&self, small: &[u64], v: &mut [u64])
        requires v { length v.old ≡ states_of self.now.chain.of.subsystems }
        requires small { length small.now ≡ length self.now.places }
        ensures gathered { IsGatheredFrom self.now.places v.new small.now }
        ensures within { IsWithin self.now.places v.new }
        ensures weighed { (f : Values ℕ) → weigh v.new f ≡ weigh small.now (at_places self.now.places f) }
        ensures kept { sum v.new ≡ sum small.now }
    {
        put_at(self.places.as_slice(), small, v);
    }

    /// Puts the numbers of a dwell at the places back. Elsewhere it holds nothing.
    pub fn scatter_dwell(&self, small: &[u128], dwell: &mut [u128])
        requires dwell { length dwell.old ≡ states_of self.now.chain.of.subsystems }
        requires small { length small.now ≡ length self.now.places }
        ensures gathered { IsGatheredFrom self.now.places dwell.new small.now }
        ensures within { IsWithin self.now.places dwell.new }
    {
        put_dwell_at(self.places.as_slice(), small, dwell);
    }

    /// One tick over the places: each number is the sum of all numbers, each times the weight of its way here, rounded down
    /// once.
    ///
    /// By every value list over the places the vector then weighs at most what the list after a step weighed before. It loses
    /// at most what a tick over all count vectors loses, where the places are closed.
    pub fn tick<L: Ledger>(&self, from: &[u64], to: &mut [u64], steps: &mut Steps<L>)
        requires from { length from.now ≡ length self.now.places }
        requires to { length to.old ≡ length self.now.places }
        requires mass { sum from.now ≤ 2 ^ 48 }
        ensures floors { (k : ℕ) → k < length self.now.places → slice_index to.new k ≡ sum_below (length self.now.places) (λ l. slice_index from.now l * weight_of self.now.chain.of.subsystems self.now.chain.hours self.now.chain.beats (slice_index self.now.places l) (slice_index self.now.places k)) / 2 ^ 48 }
        ensures encloses { (g : Values ℕ) → weigh to.new g ≤ℚ weigh from.now (step_of_places self.now g) }
        ensures kept { sum to.new ≤ sum from.now }
        ensures lack { sum from.now ≤ sum to.new + tick_loss_of self.now }
        ensures steps { steps.new ≤ steps.old + self.now.entries }
    {
        let columns = Columns {
            entries: self.entries.as_slice(),
            starts: self.starts.as_slice(),
        };
        gather(columns, from, to, steps);
    }
}

impl Tick for PlaceChain {
    ghost use Rattle.std.specs.Prelude.{length};
    ghost use Rattle.place_chain.specs.PlaceChain.{step_of_places, tick_loss_of};

    ghost size = { λ r. length r.places };

    ghost step = { step_of_places };

    ghost loss = { tick_loss_of };

    ghost products = { λ r. r.entries };

    fn tick<L: Ledger>(&self, from: &[u64], to: &mut [u64], steps: &mut Steps<L>) {
        PlaceChain::tick(self, from, to, steps);
    }
}

/// Takes the numbers at the places.
fn take_at(places: &[u32], v: &[u64], small: &mut [u64])
    requires below { (k : ℕ) → k < length places.now → slice_index places.now k < length v.now }
    requires small { length small.old ≡ length places.now }
    ensures { IsGatheredFrom places.now v.now small.new }
{
    for k in 0..places.len() {
        small[k] = v[places[k] as usize];
    }
}

/// Puts numbers at the places, and 0 elsewhere.
fn put_at(places: &[u32], small: &[u64], v: &mut [u64])
    requires below { (k : ℕ) → k < length places.now → slice_index places.now k < length v.old }
    requires rising { (k l : ℕ) → k < l → l < length places.now → slice_index places.now k < slice_index places.now l }
    requires small { length small.now ≡ length places.now }
    ensures gathered { IsGatheredFrom places.now v.new small.now }
    ensures within { IsWithin places.now v.new }
{
    v.fill(0);
    for k in 0..places.len() {
        v[places[k] as usize] = small[k];
    }
}

/// Puts the numbers of a dwell at the places, and 0 elsewhere.
fn put_dwell_at(places: &[u32], small: &[u128], dwell: &mut [u128])
    requires below { (k : ℕ) → k < length places.now → slice_index places.now k < length dwell.old }
    requires rising { (k l : ℕ) → k < l → l < length places.now → slice_index places.now k < slice_index places.now l }
    requires small { length small.now ≡ length places.now }
    ensures gathered { IsGatheredFrom places.now dwell.new small.now }
    ensures within { IsWithin places.now dwell.new }
{
    dwell.fill(0);
    for k in 0..places.len() {
        dwell[places[k] as usize] = small[k];
    }
}
