//! An estimate of what a phase brings into each count vector.
//!
//! No clause says how good it is, but that what the vector holds is seen: what is lost with the count vectors that are left
//! out shows at the end of the phase, by what the vector then lacks.

ghost use Rattle.std.specs.Prelude.{◌≡◌, ℕ, true, ◌+◌, ◌*◌, ◌<◌, ◌≤◌, ◌^◌, length, slice_index, All};
ghost use Rattle.product_chain.specs.Columns.{AreWeighted};
ghost use Rattle.place_chain.specs.Marks.{is_marked};
ghost use Rattle.place_chain.specs.Sweeps.{swept_to};

use product_chain::{Columns, Entry};
use sil_model::Steps;
use std::sync::ledger::Ledger;

const ONE: u64 = 1 << 48;

/// What a tick brings into a count vector from others, in units of 2^-72, and how much of it stays, in units of 2^-48.
#[derive(Clone, Copy)]
struct Flow {
    comes: u128,
    stays: u64,
}

/// Marks the count vectors that hold more than `least` at the start of so many ticks or into which these bring more, in units
/// of 2^-48.
pub fn mark_heavy<L: Ledger>(
    columns: Columns<'_>,
    v: &[u64],
    ticks: u64,
    least: u64,
    masses: &mut [u64],
    marks: &mut [bool],
    steps: &mut Steps<L>,
)
    requires columns { AreWeighted (length marks.old) (length marks.old) columns.starts.now columns.entries.now }
    requires v { length v.now ≡ length marks.old }
    requires masses { length masses.old ≡ length marks.old }
    ensures held { (i : ℕ) → i < length v.now → least < slice_index v.now i → is_marked marks.new i ≡ true }
    ensures steps { steps.new ≤ steps.old + 3 * (length columns.entry.entries.now + length v.now) }
{
    start_masses(v, masses);
    sweep_up(columns, v, ticks, masses, steps);
    sweep_down(columns, v, ticks, masses, steps);
    let least = u128::from(least);
    for j in 0..marks.len() {
        let flow = flow_into(columns, j, masses, steps);
        marks[j] = u128::from(v[j]).saturating_add(brought(flow, ticks, steps)) > least;
    }
}

/// The masses of a vector, none greater than 1.
fn start_masses(v: &[u64], masses: &mut [u64])
    requires { length masses.old ≡ length v.now }
{
    for i in 0..v.len() {
        masses[i] = v[i].min(ONE);
    }
}

/// Estimates the masses in the order of numbers. A fault leads to a later count vector, so that this follows any number of them.
fn sweep_up<L: Ledger>(
    columns: Columns<'_>,
    v: &[u64],
    ticks: u64,
    masses: &mut [u64],
    steps: &mut Steps<L>,
)
    requires columns { AreWeighted (length masses.old) (length masses.old) columns.starts.now columns.entries.now }
    requires v { length v.now ≡ length masses.old }
    ensures { steps.new ≤ steps.old + length columns.entry.entries.now + length v.now }
{
    for j in 0..v.len() {
        set_mass(columns, v[j], ticks, j, masses, steps);
    }
}

/// Estimates the masses against the order of numbers. A repair leads to an earlier count vector.
fn sweep_down<L: Ledger>(
    columns: Columns<'_>,
    v: &[u64],
    ticks: u64,
    masses: &mut [u64],
    steps: &mut Steps<L>,
)
    requires columns { AreWeighted (length masses.old) (length masses.old) columns.starts.now columns.entries.now }
    requires v { length v.now ≡ length masses.old }
    ensures { steps.new ≤ steps.old + length columns.entry.entries.now + length v.now }
{
    for j in (0..v.len()).rev() {
        set_mass(columns, v[j], ticks, j, masses, steps);
    }
}

/// Estimates the mass that a count vector comes to hold: what it holds at the start, and what flows in while, in the mean, it
/// stays.
fn set_mass<L: Ledger>(
    columns: Columns<'_>,
    start: u64,
    ticks: u64,
    target: usize,
    masses: &mut [u64],
    steps: &mut Steps<L>,
)
    requires columns { AreWeighted (length masses.old) (length masses.old) columns.starts.now columns.entries.now }
    requires target { target < length masses.old }
    ensures { steps.new + swept_to columns.entry.starts.now target ≤ steps.old + swept_to columns.entry.starts.now (target + 1) }
{
    let flow = flow_into(columns, target, masses, steps);
    let leaves = ONE.saturating_sub(flow.stays).max(1);
    let held = u128::from(start).saturating_add(brought(flow, ticks.min(ONE / leaves), steps));
    masses[target] = held.min(u128::from(ONE)) as u64;
}

/// What flows into a count vector in a tick.
fn flow_into<L: Ledger>(
    columns: Columns<'_>,
    target: usize,
    masses: &[u64],
    steps: &mut Steps<L>,
) -> Flow
    requires columns { AreWeighted (length masses.now) (length masses.now) columns.starts.now columns.entries.now }
    requires target { target < length masses.now }
    ensures { steps.new + slice_index columns.entry.starts.now target ≤ steps.old + slice_index columns.entry.starts.now (target + 1) }
{
    flow_through(
        &columns.entries[columns.starts[target]..columns.starts[target + 1]],
        target,
        masses,
        steps,
    )
}

/// What flows into a count vector through its column: a product for each entry from another.
fn flow_through<L: Ledger>(
    column: &[Entry],
    target: usize,
    masses: &[u64],
    steps: &mut Steps<L>,
) -> Flow
    requires sources { All (λ e. e.source < length masses.now) column.now }
    ensures { steps.new ≤ steps.old + length column.now }
{
    let mut moved = 0u128;
    let mut stays = 0;
    for entry in column {
        let source = entry.source as usize;
        if source == target {
            stays = entry.weight;
        } else {
            let part = u128::from(masses[source]) * u128::from(entry.weight);
            steps.count_one();
            moved = moved.saturating_add(part);
        }
    }
    Flow {
        comes: moved >> 24,
        stays,
    }
}

/// What so many ticks bring, in units of 2^-48.
fn brought<L: Ledger>(flow: Flow, ticks: u64, steps: &mut Steps<L>) -> u128
    ensures { steps.new ≡ steps.old + 1 }
{
    steps.count_one();
    flow.comes.saturating_mul(u128::from(ticks)) >> 24
}
