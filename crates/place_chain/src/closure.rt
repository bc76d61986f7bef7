//! The count vectors that are reached from those that are marked.

ghost use Rattle.std.specs.Prelude.{◌≡◌, ℕ, Bool, true, false, ◌<◌, length, slice_index, slice_index_or, All};
ghost use Rattle.product_chain.specs.declared.column.Entry.{Entry as EntryValue};
ghost use Rattle.product_chain.specs.Columns.{AreWeighted, part};
ghost use Rattle.place_chain.specs.Marks.{is_marked, left_over, IsClosed, IsPassedOn, AreNeeded};

use product_chain::{Columns, Entry};

/// Marks the numbers of a vector that are not 0.
pub fn mark_support(v: &[u64], marks: &mut [bool])
    requires { length marks.old ≡ length v.now }
    ensures all { (i : ℕ) → i < length v.now → is_marked marks.new i ≡ false → slice_index v.now i ≡ 0 }
    ensures only { (i : ℕ) → i < length v.now → slice_index v.now i ≡ 0 → is_marked marks.new i ≡ false }
{
    for i in 0..v.len() {
        marks[i] = v[i] != 0;
    }
}

/// Marks each target to which an entry leads from a marked one, until there is none that is not marked.
pub fn mark_reached(columns: Columns<'_>, marks: &mut [bool])
    requires columns { AreWeighted (length marks.old) (length marks.old) columns.starts.now columns.entries.now }
    ensures kept { (i : ℕ) → is_marked marks.old i ≡ true → is_marked marks.new i ≡ true }
    ensures closed { IsClosed (length marks.old) columns.entry.starts.now columns.entry.entries.now marks.new }
    ensures least { AreNeeded (length marks.old) columns.entry.starts.now columns.entry.entries.now marks.old marks.new }
{
    while mark_round(columns, marks) {}
}

/// One round over all targets. It answers whether it has marked one.
fn mark_round(columns: Columns<'_>, marks: &mut [bool]) -> bool
    requires columns { AreWeighted (length marks.old) (length marks.old) columns.starts.now columns.entries.now }
    ensures kept { (i : ℕ) → is_marked marks.old i ≡ true → is_marked marks.new i ≡ true }
    ensures closed { result ≡ false → IsClosed (length marks.old) columns.entry.starts.now columns.entry.entries.now marks.new }
    ensures fewer { result ≡ true → left_over marks.new < left_over marks.old }
    ensures least { AreNeeded (length marks.old) columns.entry.starts.now columns.entry.entries.now marks.old marks.new }
{
    let mut found = false;
    for j in 0..marks.len() {
        if is_new(columns, marks, j) {
            marks[j] = true;
            found = true;
        }
    }
    found
}

/// Whether a target is not marked and one of its sources is.
fn is_new(columns: Columns<'_>, marks: &[bool], target: usize) -> bool
    requires columns { AreWeighted (length marks.now) (length marks.now) columns.starts.now columns.entries.now }
    requires target { target < length marks.now }
    ensures new { result ≡ true → is_marked marks.now target ≡ false }
    ensures led { result ≡ true → (P : ℕ → Bool) → IsPassedOn (length marks.now) columns.entry.starts.now columns.entry.entries.now P → ((i : ℕ) → is_marked marks.now i ≡ true → P i ≡ true) → P target ≡ true }
    ensures old { result ≡ false → is_marked marks.now target ≡ false → All (λ e. is_marked marks.now e.source ≡ false) (part columns.entry.starts.now columns.entry.entries.now target) }
{
    if marks[target] {
        return false;
    }
    is_led_to(
        &columns.entries[columns.starts[target]..columns.starts[target + 1]],
        marks,
    )
}

/// Whether one of the entries leads from a marked source.
fn is_led_to(column: &[Entry], marks: &[bool]) -> bool
    requires sources { All (λ e. e.source < length marks.now) column.now }
    ensures some { result ≡ true → (b : Bool) → ((k : ℕ) (d : EntryValue) → k < length column.now → is_marked marks.now (slice_index_or column.now k d).source ≡ true → b ≡ true) → b ≡ true }
    ensures none { result ≡ false → All (λ e. is_marked marks.now e.source ≡ false) column.now }
{
    for entry in column {
        if marks[entry.source as usize] {
            return true;
        }
    }
    false
}
