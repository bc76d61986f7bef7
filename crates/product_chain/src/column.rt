//! The columns of a chain: what each count vector takes in a tick.

ghost use Rattle.std.specs.Prelude.{◌≡◌, ℕ, ◌+◌, ◌*◌, ◌<◌, ◌≤◌, ◌^◌, ◌++◌, length, map, slice_index, vec_capacity, vec_len, All};
ghost use Rattle.product_chain.specs.Columns.{AreParts, part, timed, stay_of, kept, entries_of};

use crate::moves::{Move, TickRate};
use interval_fixed::{ONE, ratio_down, ratio_up};

/// What a count vector takes from another in a tick.
#[derive(Clone, Copy, Debug, PartialEq, Eq)]
pub struct Entry {
    /// The count vector that is left.
    pub source: u32,
    /// The chance, in units of 2^-48, rounded down.
    pub weight: u64,
}

/// Columns, in the order of their targets: the entries of one target lie together.
#[derive(Clone, Copy, Debug)]
pub struct Columns<'a> {
    /// The entries of all targets.
    pub entries: &'a [Entry],
    /// Where those of each target begin, and where the last of them end.
    pub starts: &'a [usize],
}

/// Sets the chances of the rates, where so many beats take so many hours.
pub fn set_rates(rates: &mut [TickRate], hours: u64, beats: u64)
    requires some { 1 ≤ beats }
    requires few { beats ≤ 1_000_000 }
    requires divisors { All (λ r. (0 < r.den) × (r.den ≤ 10 ^ 18)) rates.old }
    requires slow { All (λ r. hours * r.num ≤ beats * r.den) rates.old }
    ensures { rates.new ≡ map (timed hours beats) rates.old }
{
    for rate in rates.iter_mut() {
        let num = u128::from(hours) * rate.num;
        let den = u128::from(beats) * rate.den;
        rate.down = ratio_down(num, den) as u64;
        rate.up = ratio_up(num, den) as u64;
    }
}

/// Sets what stays at each count vector: 1 less the chances of its moves, rounded up, or 0.
pub fn set_stays(stays: &mut [u64], moves: &[Move], rates: &[TickRate])
    requires known { All (λ m. m.rate < length rates.now) moves.now }
    requires sources { All (λ m. m.source < length stays.old) moves.now }
    ensures { (i : ℕ) → i < length stays.new → slice_index stays.new i ≡ stay_of rates.now moves.now i }
{
    stays.fill(ONE as u64);
    for m in moves {
        let leaves = rates[m.rate as usize].up;
        let stay = &mut stays[m.source as usize];
        *stay = stay.saturating_sub(leaves);
    }
}

/// Fills the columns, in the order of their targets, and where they begin.
pub fn fill(
    entries: &mut Vec<Entry>,
    starts: &mut [usize],
    moves: &[Move],
    move_starts: &[usize],
    rates: &[TickRate],
    stays: &[u64],
)
    requires few { length stays.now < 2 ^ 32 }
    requires known { All (λ m. m.rate < length rates.now) moves.now }
    requires parts { AreParts (length stays.now) move_starts.now moves.now }
    requires starts { length starts.old ≡ length stays.now + 1 }
    requires first { slice_index starts.old 0 ≡ 0 }
    requires room { length moves.now + length stays.now ≤ vec_capacity entries.old }
    ensures parts { AreParts (length stays.now) starts.new entries.new.items }
    ensures columns { (j : ℕ) → j < length stays.now → part starts.new entries.new.items j ≡ entries_of rates.now (part move_starts.now moves.now j) ++ kept j (slice_index stays.now j) }
    ensures room { length moves.now + length stays.now ≤ vec_capacity entries.new }
{
    entries.clear();
    for j in 0..stays.len() {
        push_moves(entries, &moves[move_starts[j]..move_starts[j + 1]], rates);
        push_entry(entries, j as u32, stays[j]);
        starts[j + 1] = entries.len();
    }
}

/// Adds an entry for each move that has a weight.
fn push_moves(entries: &mut Vec<Entry>, moves: &[Move], rates: &[TickRate])
    requires known { All (λ m. m.rate < length rates.now) moves.now }
    requires room { vec_len entries.old + length moves.now ≤ vec_capacity entries.old }
    ensures items { entries.new.items ≡ entries.old.items ++ entries_of rates.now moves.now }
    ensures capacity { vec_capacity entries.old ≤ vec_capacity entries.new }
    ensures len { vec_len entries.new ≤ vec_len entries.old + length moves.now }
{
    for m in moves {
        push_entry(entries, m.source, rates[m.rate as usize].down);
    }
}

/// Adds an entry, if it has a weight. There is room for it.
fn push_entry(entries: &mut Vec<Entry>, source: u32, weight: u64)
    requires { vec_len entries.old < vec_capacity entries.old }
    ensures items { entries.new.items ≡ entries.old.items ++ kept source weight }
    ensures capacity { vec_capacity entries.old ≤ vec_capacity entries.new }
    ensures len { vec_len entries.new ≤ vec_len entries.old + 1 }
{
    if weight > 0 {
        let Ok(()) = entries.push(Entry { source, weight }) else {
            unreachable!()
        };
    }
}
