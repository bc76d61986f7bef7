//! Where the tests of a group lead, by the numbers of count vectors.

ghost use Rattle.std.specs.Prelude.{◌≡◌, ℕ, ◌+◌, ◌*◌, ◌<◌, ◌≤◌, length, IfOk, All};
ghost use Rattle.sil_model.specs.LoopValue.{groups_of};
ghost use Rattle.sil_model.specs.Counts.{count_in};
ghost use Rattle.sil_model.specs.declared.parts.Chan.{Chan};
ghost use Rattle.sil_model.specs.declared.parts.Group.{Group};
ghost use Rattle.sil_fraction.specs.Fraction.{ratio};
ghost use Rattle.test_matrix.specs.Hours.{settled_of};
ghost use Rattle.test_matrix.specs.Places.{IsRoomy, AreNumbers, AreWorking, settled_counts, failed_counts, AreTables};

use crate::weights::weights;
use channel_counts::{count_in, move_in};
use lumping::Space;
use sil_model::{CHANNEL_STATES, Chan};
use std::alloc::{AllocError, Global};

/// The tables of a group: the weights with which its channels fail, and by the number of a count vector how many of its
/// channels work, the numbers that a partial and a full test lead to where none of these fails, and the number that one
/// failure more leads to.
#[derive(Drop)]
pub struct GroupTables {
    pub rows: [[u128; 9]; 9],
    pub works: Vec<usize>,
    pub partial: Vec<usize>,
    pub full: Vec<usize>,
    pub failed: Vec<usize>,
}

impl GroupTables {
    /// The numbers that a partial or a full test leads to where no working channel fails.
    pub fn settled(&self, full: bool) -> &[usize]
        ensures { result.now ≡ settled_of full self.now }
    {
        if full {
            self.full.as_slice()
        } else {
            self.partial.as_slice()
        }
    }
}

/// The tables of the group `g`. `counts` is room for a count vector.
pub fn group_tables(
    alloc: Global,
    space: &Space,
    g: usize,
    restart_fault: u32,
    counts: &mut [u8],
) -> Result<GroupTables, AllocError>
    requires room { IsRoomy (groups_of space.now.subsystems) g counts.old }
    requires fault { restart_fault ≤ 1_000_000 }
    ensures { IfOk result (AreTables space.now.subsystems g (ratio restart_fault 1_000_000)) }
{
    let works = working(alloc, space, g, counts)?;
    let partial = settled(alloc, space, g, false, counts)?;
    let full = settled(alloc, space, g, true, counts)?;
    let failed = failed(alloc, space, g, counts)?;
    Ok(GroupTables {
        rows: weights(restart_fault),
        works,
        partial,
        full,
        failed,
    })
}

/// How many channels of a group work.
fn working(
    alloc: Global,
    space: &Space,
    g: usize,
    counts: &mut [u8],
) -> Result<Vec<usize>, AllocError>
    requires { IsRoomy (groups_of space.now.subsystems) g counts.old }
    ensures { IfOk result (λ v. AreWorking space.now.subsystems g v.items) }
{
    let size = space.size();
    let mut works = Vec::with_capacity(alloc, size)?;
    for i in 0..size {
        space.counts_at(i, counts);
        works.push(usize::from(count_in(counts, g, Chan::Work)))?;
    }
    Ok(works)
}

/// Where the tests of a group lead if no channel fails at them.
fn settled(
    alloc: Global,
    space: &Space,
    g: usize,
    full: bool,
    counts: &mut [u8],
) -> Result<Vec<usize>, AllocError>
    requires { IsRoomy (groups_of space.now.subsystems) g counts.old }
    ensures { IfOk result (λ v. AreNumbers space.now.subsystems (settled_counts full g) v.items) }
{
    let size = space.size();
    let mut places = Vec::with_capacity(alloc, size)?;
    for i in 0..size {
        space.counts_at(i, counts);
        settle(counts, g, full);
        places.push(space.rank(counts))?;
    }
    Ok(places)
}

/// Where one failure of a working channel leads, and nowhere else where none works.
fn failed(
    alloc: Global,
    space: &Space,
    g: usize,
    counts: &mut [u8],
) -> Result<Vec<usize>, AllocError>
    requires { IsRoomy (groups_of space.now.subsystems) g counts.old }
    ensures { IfOk result (λ v. AreNumbers space.now.subsystems (failed_counts g) v.items) }
{
    let size = space.size();
    let mut places = Vec::with_capacity(alloc, size)?;
    for i in 0..size {
        space.counts_at(i, counts);
        fail(counts, g);
        places.push(space.rank(counts))?;
    }
    Ok(places)
}

/// Sends the channels of a group that their tests find to Repair.
fn settle(counts: &mut [u8], g: usize, full: bool)
    requires group { CHANNEL_STATES * (g + 1) ≤ length counts.old }
    requires room { (k : Chan) → count_in counts.old g k ≤ 8 }
    ensures { counts.new ≡ settled_counts full g counts.old }
{
    let hidden = count_in(counts, g, Chan::Hidden);
    move_in(counts, g, Chan::Hidden, Chan::Repair, hidden);
    if full {
        let deep = count_in(counts, g, Chan::Deep);
        move_in(counts, g, Chan::Deep, Chan::Repair, deep);
    }
}

/// Lets a working channel of a group fail, if one works.
fn fail(counts: &mut [u8], g: usize)
    requires group { CHANNEL_STATES * (g + 1) ≤ length counts.old }
    requires room { (k : Chan) → count_in counts.old g k ≤ 8 }
    ensures { counts.new ≡ failed_counts g counts.old }
{
    let one = count_in(counts, g, Chan::Work).min(1);
    move_in(counts, g, Chan::Work, Chan::Hidden, one);
}
