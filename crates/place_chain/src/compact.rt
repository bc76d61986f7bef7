//! The places that are marked, their ranks, and the columns over the ranks.

ghost use Rattle.std.specs.Prelude.{◌≡◌, ◌<◌, ◌≤◌, ◌+◌, ◌^◌, ◌++◌, [], ◌∷◌, length, vec_len, vec_capacity, All};
ghost use Rattle.product_chain.specs.Columns.{AreWeighted};
ghost use Rattle.place_chain.specs.Places.{ArePlaces, AreCompact, compacted};

use product_chain::{Columns, Entry};

/// Lists the numbers that are marked, and sets the rank of each number: how many before it are marked.
pub fn list_places(marks: &[bool], places: &mut Vec<u32>, ranks: &mut [u32])
    requires few { length marks.now < 2 ^ 32 }
    requires ranks { length ranks.old ≡ length marks.now }
    requires room { length marks.now ≤ vec_capacity places.old }
    ensures places { ArePlaces marks.now places.new.items ranks.new }
    ensures room { length marks.now ≤ vec_capacity places.new }
{
    places.clear();
    for i in 0..marks.len() {
        ranks[i] = places.len() as u32;
        if marks[i] {
            let Ok(()) = places.push(i as u32) else {
                unreachable!()
            };
        }
    }
}

/// The columns of the places, with the ranks of their sources, and where they begin.
pub fn compact(
    all: Columns<'_>,
    marks: &[bool],
    ranks: &[u32],
    places: &[u32],
    entries: &mut Vec<Entry>,
    starts: &mut Vec<usize>,
)
    requires columns { AreWeighted (length marks.now) (length marks.now) all.starts.now all.entries.now }
    requires places { ArePlaces marks.now places.now ranks.now }
    requires ranks { length ranks.now ≡ length marks.now }
    requires room { length all.entries.now ≤ vec_capacity entries.old }
    requires starts { length places.now + 1 ≤ vec_capacity starts.old }
    ensures compact { AreCompact marks.now ranks.now places.now all.entry.starts.now all.entry.entries.now starts.new.items entries.new.items }
    ensures few { length entries.new.items ≤ length all.entry.entries.now }
    ensures room { vec_capacity entries.old ≤ vec_capacity entries.new }
    ensures starts { vec_capacity starts.old ≤ vec_capacity starts.new }
{
    entries.clear();
    starts.clear();
    push_start(starts, 0);
    for place in places {
        let j = *place as usize;
        push_column(
            entries,
            &all.entries[all.starts[j]..all.starts[j + 1]],
            marks,
            ranks,
        );
        push_start(starts, entries.len());
    }
}

/// Adds the entries of a column whose sources are marked.
fn push_column(entries: &mut Vec<Entry>, column: &[Entry], marks: &[bool], ranks: &[u32])
    requires sources { All (λ e. e.source < length marks.now) column.now }
    requires ranks { length ranks.now ≡ length marks.now }
    requires room { vec_len entries.old + length column.now ≤ vec_capacity entries.old }
    ensures items { entries.new.items ≡ entries.old.items ++ compacted marks.now ranks.now column.now }
    ensures capacity { vec_capacity entries.old ≤ vec_capacity entries.new }
    ensures len { vec_len entries.new ≤ vec_len entries.old + length column.now }
{
    for entry in column {
        let i = entry.source as usize;
        if marks[i] {
            push_entry(
                entries,
                Entry {
                    source: ranks[i],
                    weight: entry.weight,
                },
            );
        }
    }
}

/// Adds an entry. There is room for it.
fn push_entry(entries: &mut Vec<Entry>, entry: Entry)
    requires { vec_len entries.old < vec_capacity entries.old }
    ensures items { entries.new.items ≡ entries.old.items ++ entry ∷ [] }
    ensures capacity { vec_capacity entries.old ≤ vec_capacity entries.new }
    ensures len { vec_len entries.new ≡ vec_len entries.old + 1 }
{
    let Ok(()) = entries.push(entry) else {
        unreachable!()
    };
}

/// Adds a start. There is room for it.
fn push_start(starts: &mut Vec<usize>, start: usize)
    requires { vec_len starts.old < vec_capacity starts.old }
    ensures items { starts.new.items ≡ starts.old.items ++ start ∷ [] }
    ensures capacity { vec_capacity starts.old ≤ vec_capacity starts.new }
    ensures len { vec_len starts.new ≡ vec_len starts.old + 1 }
{
    let Ok(()) = starts.push(start) else {
        unreachable!()
    };
}
