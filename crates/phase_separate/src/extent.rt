//! How large the subsystems of a loop are: what a phase loses, and how many products it takes, where each passes it for itself.

ghost use Rattle.std.specs.Prelude.{◌≡◌, ℕ, ◌+◌, ◌*◌, ◌^◌, ◌<◌, ◌≤◌, [], ◌∷◌, length, slice_index_or, sum_by, take, All, IfSome, IsTrue};
ghost use Rattle.sil_model.specs.Budget.{lumped_events_of, group_events, common_causes};
ghost use Rattle.sil_model.specs.LoopValue.{IsSubsystemInRange};
ghost use Rattle.sil_model.specs.Sizes.{states_of, most_states};
ghost use Rattle.vector_laws.specs.Matrix.{most_rows};
ghost use Rattle.separate_laws.specs.Subsystems.{states_in};
ghost use Rattle.phase_separate.specs.Extents.{IsSizeOf, AreSumsOf, AreSmall, IsAdded};
ghost use Rattle.phase_separate.specs.Losses.{LoseLittle};
ghost use Rattle.phase_separate.specs.Products.{separate_products};
ghost use Rattle.phase_separate.specs.Subsystems.{HaveFewStates};

use dense_power::MOST_ROWS;
use sil_model::{Loop, Subsystem};
use std::marker::Model;
use std::snapshot::Snapshot;

/// The order of the weights by which the matrices are made, and what these weights lack, in units of 2^-48.
const ORDER: u64 = 16;

const MISSING: u64 = 13;

/// The products, the loss and the sizes of all subsystems of a loop, each sum over these. Contracts see it as the loop.
#[derive(Drop)]
pub struct Extent {
    // The loop, for proofs alone: it has no bytes.
    of: Snapshot<Loop>,
    states: u64,
    events: u64,
    subsystems: u64,
    sums: Sums,
}

/// One subsystem: how many count vectors it has, and how many events lead from each.
#[derive(Clone, Copy)]
struct Size {
    states: u64,
    events: u64,
}

/// Sums over subsystems: of their count vectors, of the cubes of these, of the products that it takes to begin a phase, and of
/// what a beat lacks in the matrices.
#[derive(Clone, Copy)]
struct Sums {
    states: u64,
    cubes: u64,
    begin: u64,
    lack: u64,
}

impl Model for Extent {
    ghost use Rattle.sil_model.specs.LoopValue.{LoopValue};
    ghost use Rattle.phase_separate.specs.Extents.{IsExtent};

    ghost Value = { LoopValue };

    ghost view = { λ e. e.of.value };

    ghost invariant = { IsExtent };
}

impl Extent {
    /// The extent of a loop with so many count vectors; none where a subsystem has too many for a matrix.
    pub fn of(l: &Loop, states: usize) -> Option<Extent>
        requires states { states ≡ states_of l.now.subsystems }
        requires few { states ≤ most_states }
        ensures of { IfSome result (λ e. e ≡ l.now) }
        ensures few { IfSome result (λ e. HaveFewStates l.now.subsystems) }
    {
        let sums = sums_of(l)?;
        let subsystems = l.len() as u64;
        Some(Extent {
            of: Snapshot::of(l),
            states: states as u64,
            events: l.lumped_events(),
            subsystems,
            sums,
        })
    }

    /// Whether so many beats lose no more than beats in blocks may.
    pub fn lose_little(&self, beats: u64) -> bool
        ensures { IsTrue result → LoseLittle self.now.subsystems beats }
    {
        if beats == 0 || beats >= 1 << 15 {
            return false;
        }
        let rounded = self.subsystems * self.states;
        let lack = 2 * beats * self.sums.lack
            + 3 * rounded
            + 16 * self.sums.lack
            + 16 * (beats + 16);
        let dwell = 2 * self.events + 2 * self.states + MISSING + ORDER * ORDER;
        let all = beats * self.sums.lack + rounded + 2 * self.states + 9 * beats + dwell;
        self.states * lack <= 1 << 46 && all <= beats * (2 * self.events + 2 * self.states + 200)
    }

    /// How many products a phase takes at most, whose beats have so many binary digits.
    pub fn products(&self, digits: u64) -> u64
        requires { digits ≤ 64 }
        ensures value { result ≡ separate_products self.now.subsystems digits }
        ensures small { result ≤ 2 ^ 40 }
    {
        let along = self.states * self.sums.states;
        let beat = products_of_beat(Size {
            states: self.states,
            events: self.events,
        });
        self.sums.begin + 2 * digits * (along + self.sums.cubes) + 3 * along + beat
    }
}

/// The sums over the subsystems of a loop; none where one has too many count vectors.
fn sums_of(l: &Loop) -> Option<Sums>
    ensures few { IfSome result (λ s. HaveFewStates l.now.subsystems) }
    ensures sums { IfSome result (λ s. AreSumsOf l.now.subsystems s) }
{
    let mut sums = Sums {
        states: 0,
        cubes: 0,
        begin: 0,
        lack: 0,
    };
    for i in 0..l.len() {
        let size = size_of(l.subsystem(i));
        if size.states > MOST_ROWS as u64 {
            return None;
        }
        sums.add(size);
    }
    Some(sums)
}

impl Sums {
    /// Adds those of one more subsystem.
    fn add(&mut self, size: Size)
        requires small { AreSmall self.old }
        requires states { size.states ≤ most_rows }
        requires events { size.events ≤ 8 * group_events + common_causes }
        ensures { IsAdded self.old size self.new }
    {
        let cube = size.states * size.states * size.states;
        self.states += size.states;
        self.cubes += cube;
        self.begin += size.states * products_of_beat(size) + 4 * cube;
        self.lack += 2 * size.events + 3 * size.states + MISSING;
    }
}

/// How many products a beat takes at most.
fn products_of_beat(size: Size) -> u64
    requires states { size.states ≤ most_states }
    requires events { size.events ≤ 1_000 }
    ensures { result ≡ size.states * (16 * (size.events + 1) + 2 * 16 + 1) }
{
    size.states * (ORDER * (size.events + 1) + 2 * ORDER + 1)
}

/// The size of a subsystem.
fn size_of(u: &Subsystem) -> Size
    requires { IsSubsystemInRange u.now }
    ensures { IsSizeOf u.now result }
{
    Size {
        states: u.states(),
        events: u.lumped_events(),
    }
}
