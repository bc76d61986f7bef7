//! Which ways there are to pass a phase, what each needs and takes at most, and which one is taken.

ghost use Rattle.std.specs.Prelude.{◌≡◌, ℕ, ◌+◌, ◌*◌, ◌^◌, ◌<◌, ◌≤◌, IsTrue, IsFalse};
ghost use Rattle.sil_model.specs.Calendar.{phases_of};
ghost use Rattle.sil_model.specs.Sizes.{states_of, all_beats_of, most_states, most_beats};
ghost use Rattle.uniformise.specs.Beat.{beat_products};
ghost use Rattle.phase_powers.specs.Products.{powered_products};
ghost use Rattle.phase_separate.specs.Losses.{LoseLittle};
ghost use Rattle.phase_separate.specs.Products.{separate_products};
ghost use Rattle.phase_way.specs.Choice.{IsChoice, IsExtentOf, HasSome, MayPass};
ghost use Rattle.phase_way.specs.Ways.{products_by, most_powered_states};

use phase_separate::Extent;
use sil_model::Loop;
use std::snapshot::Snapshot;
use test_calendar::{Plan, beats_of};

/// The most states of a loop whose phases may pass by powers. A proof needs it: the promise of few products is made of such
/// loops, and the matrices of more states might not fit.
const MOST_POWERED_STATES: u64 = 64;

/// How many products, at most, a phase may take for each count vector and beat, to pass by each subsystem for itself: blocks of
/// beats take about as many where half of the count vectors come to hold enough. Speed alone; a proof needs that a beat may take
/// as many for each count vector.
const SEPARATE_PRODUCTS: u64 = 2;

/// About how many products a ladder takes for each beat of its greatest rung. Speed alone.
const LADDER_PRODUCTS: u64 = 64;

/// Below so many states at all beats that go in blocks, the mission is over as soon as a ladder is made. Speed alone.
const SMALL_WORK: u64 = 16_384;

/// A way to pass all beats of a phase.
#[derive(Clone, Copy, Debug, PartialEq, Eq)]
pub enum Way {
    /// In blocks of beats, over the places that hold mass. Any loop and any phase will do.
    Blocks,
    /// By the powers of a beat. It needs a loop of few states.
    Powers,
    /// Each subsystem for itself. It needs that there are several, of few count vectors each, and beats that lose little so.
    Subsystems,
}

/// What the choice hangs on: how large a loop is, and the order of the series.
#[derive(Drop)]
pub struct Choice {
    /// The loop, for proofs alone: it has no bytes.
    pub of: Snapshot<Loop>,
    /// How many count vectors it has.
    pub states: u64,
    /// How many events lead from each, at most.
    pub events: u64,
    /// The order of the series.
    pub order: u8,
    /// How large its subsystems are, where it has several and each has few count vectors of its own.
    pub extent: Option<Extent>,
}

impl Choice {
    /// The choice for a loop of so many count vectors.
    pub fn of(l: &Loop, states: usize, order: u8) -> Choice
        requires states { states ≡ states_of l.now.subsystems }
        requires few { states ≤ most_states }
        requires least { 16 ≤ order }
        requires greatest { order ≤ 40 }
        ensures choice { IsChoice result }
        ensures of { result.of.value ≡ l.now }
        ensures order { result.order ≡ order }
    {
        Choice {
            of: Snapshot::of(l),
            states: states as u64,
            events: l.lumped_events(),
            order,
            extent: extent_of(l, states),
        }
    }

    /// The way of a phase of so many beats, which have so many binary digits.
    pub fn way(&self, beats: u64, digits: u64) -> Way
        requires choice { IsChoice self.now }
        requires beats { beats ≤ most_beats }
        requires digits { digits ≤ 64 }
        ensures may { MayPass self.now beats result }
        ensures few { products_by self.now.of.value.subsystems self.now.order beats digits result
            ≤ beats * beat_products self.now.of.value.subsystems self.now.order }
        ensures powered { states_of self.now.of.value.subsystems ≤ most_powered_states
            → products_by self.now.of.value.subsystems self.now.order beats digits result
            ≤ powered_products self.now.of.value.subsystems self.now.order digits }
    {
        if self.subsystems_take_few(beats, digits) {
            Way::Subsystems
        } else if self.powers_take_fewer(beats, digits) {
            Way::Powers
        } else {
            Way::Blocks
        }
    }

    /// Whether a phase may pass by powers.
    pub fn allows_powers(&self) -> bool
        ensures yes { IsTrue result → self.now.states ≤ most_powered_states }
        ensures no { IsFalse result → most_powered_states < self.now.states }
    {
        self.states <= MOST_POWERED_STATES
    }

    /// Whether a phase takes few products by each subsystem for itself, and no more than by powers, and loses little so.
    fn subsystems_take_few(&self, beats: u64, digits: u64) -> bool
        requires choice { IsChoice self.now }
        requires beats { beats ≤ most_beats }
        requires digits { digits ≤ 64 }
        ensures room { IsTrue result → HasSome self.now.extent }
        ensures little { IsTrue result → LoseLittle self.now.of.value.subsystems beats }
        ensures few { IsTrue result → separate_products self.now.of.value.subsystems digits ≤ beats * beat_products self.now.of.value.subsystems self.now.order }
        ensures powered { IsTrue result → states_of self.now.of.value.subsystems ≤ most_powered_states
            → separate_products self.now.of.value.subsystems digits ≤ powered_products self.now.of.value.subsystems self.now.order digits }
    {
        let Some(extent) = &self.extent else {
            return false;
        };
        let products = extent.products(digits);
        if self.allows_powers() && products > self.products_by_powers(digits) {
            return false;
        }
        products <= SEPARATE_PRODUCTS * beats * self.states && extent.lose_little(beats)
    }

    /// Whether a phase takes fewer products at most by powers than by its beats.
    fn powers_take_fewer(&self, beats: u64, digits: u64) -> bool
        requires choice { IsChoice self.now }
        requires beats { beats ≤ most_beats }
        requires digits { digits ≤ 64 }
        ensures may { IsTrue result → states_of self.now.of.value.subsystems ≤ most_powered_states }
        ensures few { IsTrue result → powered_products self.now.of.value.subsystems self.now.order digits
            ≤ beats * beat_products self.now.of.value.subsystems self.now.order }
        ensures no { IsFalse result → states_of self.now.of.value.subsystems ≤ most_powered_states
            → beats * beat_products self.now.of.value.subsystems self.now.order
            ≤ powered_products self.now.of.value.subsystems self.now.order digits }
    {
        if !self.allows_powers() {
            return false;
        }
        self.products_by_powers(digits) < beats * self.products_of_beat()
    }

    /// How many products a phase takes at most by powers.
    fn products_by_powers(&self, digits: u64) -> u64
        requires choice { IsChoice self.now }
        requires few { self.now.states ≤ most_powered_states }
        requires digits { digits ≤ 64 }
        ensures { result ≡ powered_products self.now.of.value.subsystems self.now.order digits }
    {
        let square = self.states * self.states;
        self.states * self.products_of_beat() + 4 * (square * self.states) * digits + 2 * square
    }

    /// How many products a beat takes at most.
    fn products_of_beat(&self) -> u64
        requires choice { IsChoice self.now }
        ensures value { result ≡ beat_products self.now.of.value.subsystems self.now.order }
        ensures small { result ≤ 2 ^ 28 }
    {
        let order = u64::from(self.order);
        self.states * (order * (self.events + 1) + 2 * order + 1)
    }

    /// Up to how many beats the blocks of a ladder go, for the phases of a plan of the loop. The figures are true with any.
    ///
    /// No block is longer than the longest phase that goes in blocks. And where those phases are short or the states few,
    /// greater blocks would take longer to make than they save; in the smallest missions there are none.
    pub fn beats_of_ladder(&self, l: &Loop, plan: &Plan) -> u64
        requires choice { IsChoice self.now }
        requires plan { plan.now.phases ≡ phases_of l.now }
        requires few { all_beats_of l.now ≤ most_beats }
    {
        let mut longest = 0;
        let mut all = 0u64;
        for p in 0..plan.phases() {
            let beats = beats_of(l, plan.hours(p));
            if self.way(beats, digits_of(beats)) == Way::Blocks {
                longest = beats.max(longest);
                all = all.saturating_add(beats);
            }
        }
        let work = all.saturating_mul(self.states);
        if work < SMALL_WORK {
            return 0;
        }
        longest.min(work / LADDER_PRODUCTS)
    }
}

/// How large the subsystems of a loop are, where it has several and each has few count vectors.
fn extent_of(l: &Loop, states: usize) -> Option<Extent>
    requires states { states ≡ states_of l.now.subsystems }
    requires few { states ≤ most_states }
    ensures { IsExtentOf l.now result }
{
    if l.len() < 2 {
        return None;
    }
    Extent::of(l, states)
}

/// How many binary digits a number of beats has.
pub fn digits_of(beats: u64) -> u64
    requires some { 0 < beats }
    ensures room { beats < 2 ^ result }
    ensures few { result ≤ 64 }
    ensures least { (digits : ℕ) → beats < 2 ^ digits → result ≤ digits }
{
    u64::from(beats.ilog2()) + 1
}
