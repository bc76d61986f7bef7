//! The tests of an hour, on the two parts of a vector.

ghost use Rattle.std.specs.Prelude.{◌≡◌, ℕ, ◌+◌, ◌-◌, ◌*◌, ◌^◌, ◌<◌, ◌≤◌, length, slice_index_or, sum};
ghost use Rattle.sil_fraction.specs.Fraction.{Fraction, ◌-ℚ◌, ◌≤ℚ◌, whole};
ghost use Rattle.sil_model.specs.Series.{Values};
ghost use Rattle.sil_model.specs.Sizes.{most_states};
ghost use Rattle.test_matrix.specs.Rows.{IsBelow, LacksAtMost};
ghost use Rattle.vector_laws.specs.Vectors.{weigh};
ghost use Rattle.test_matrix.specs.Halves.{number_if};
ghost use Rattle.test_matrix.specs.Halves.{up_at, IsSplit, IsJoined, mass_up, mass_down};
ghost use Rattle.test_matrix.specs.Hours.{IsReady, AreReady, AreBelow, AreLikely, LackAtMost, table_list, hour_list, passing_by};

use crate::places::GroupTables;
use crate::spread::test_group;
use interval_fixed::{Dot, ONE};
use sil_model::Steps;
use std::sync::ledger::Ledger;
use test_calendar::GroupTest;

/// Bounds of what was up before all tests of an hour and is down after all of them, in units of 2^-48.
#[derive(Clone, Copy, Debug, PartialEq, Eq)]
pub struct Passed {
    /// No more than has passed.
    pub lo: u128,
    /// No less than has passed.
    pub hi: u128,
    ghost ordered: { lo ≤ hi },
    ghost at_most_one: { hi ≤ 2 ^ 48 },
}

/// The tests of an hour: `v` becomes lower bounds after them, by way of `down` and `sums`.
pub fn test_hour<L: Ledger>(
    groups: &[GroupTables],
    is_up: &[bool],
    tests: &[GroupTest],
    v: &mut [u64],
    down: &mut [u64],
    sums: &mut [Dot],
    steps: &mut Steps<L>,
) -> Passed
    requires ready { AreReady (length v.old) groups.now }
    requires few { length v.old ≤ most_states }
    requires exist { (k : ℕ) (d : GroupTest) → k < length tests.now → (slice_index_or tests.now k d).group < length groups.now }
    requires is_up { length is_up.now ≡ length v.old }
    requires down { length down.old ≡ length v.old }
    requires sums { length sums.old ≡ length v.old }
    requires mass { sum v.old ≤ 2 ^ 48 }
    ensures encloses { (chance : ℕ → Fraction) → AreBelow chance groups.now
        → (f : Values ℕ) → weigh v.new f ≤ℚ weigh v.old (hour_list chance groups.now tests.now f) }
    ensures lo { (chance : ℕ → Fraction) → AreLikely chance → AreBelow chance groups.now
        → whole result.lo ≤ℚ weigh v.old (passing_by (up_at is_up.now) (hour_list chance groups.now tests.now)) }
    ensures hi { (chance : ℕ → Fraction) → AreLikely chance → AreBelow chance groups.now
        → whole (2 ^ 48 - result.hi)
        ≤ℚ weigh v.old (λ i. whole 1 -ℚ passing_by (up_at is_up.now) (hour_list chance groups.now tests.now) i) }
    ensures width { result.hi - result.lo ≡ 2 ^ 48 - sum v.new }
    ensures loses { (lack : ℕ) → LackAtMost lack groups.now
        → sum v.old ≤ sum v.new + length tests.now * (lack + 2 * length v.old) }
    ensures kept { sum v.new ≤ sum v.old }
    ensures count { steps.new ≤ steps.old + length tests.now * (18 * length v.old) }
{
    split(is_up, v, down);
    test_groups(groups, tests, v, down, sums, steps);
    close(is_up, v, down)
}

/// Leaves in `v` what is where the loop is up, and moves the rest to `down`.
fn split(is_up: &[bool], v: &mut [u64], down: &mut [u64])
    requires is_up { length is_up.now ≡ length v.old }
    requires down { length down.old ≡ length v.old }
    ensures { IsSplit is_up.now v.old v.new down.new }
{
    for i in 0..v.len() {
        if is_up[i] {
            down[i] = 0;
        } else {
            down[i] = v[i];
            v[i] = 0;
        }
    }
}

/// The tests of an hour, group by group, of both parts of the vector.
fn test_groups<L: Ledger>(
    groups: &[GroupTables],
    tests: &[GroupTest],
    up: &mut [u64],
    down: &mut [u64],
    sums: &mut [Dot],
    steps: &mut Steps<L>,
)
    requires ready { AreReady (length up.old) groups.now }
    requires few { length up.old ≤ most_states }
    requires exist { (k : ℕ) (d : GroupTest) → k < length tests.now → (slice_index_or tests.now k d).group < length groups.now }
    requires down { length down.old ≡ length up.old }
    requires sums { length sums.old ≡ length up.old }
    requires mass { sum up.old + sum down.old ≤ 2 ^ 48 }
    ensures up { (chance : ℕ → Fraction) → AreBelow chance groups.now
        → (f : Values ℕ) → weigh up.new f ≤ℚ weigh up.old (hour_list chance groups.now tests.now f) }
    ensures down { (chance : ℕ → Fraction) → AreBelow chance groups.now
        → (f : Values ℕ) → weigh down.new f ≤ℚ weigh down.old (hour_list chance groups.now tests.now f) }
    ensures loses { (lack : ℕ) → LackAtMost lack groups.now
        → sum up.old + sum down.old ≤ sum up.new + sum down.new + length tests.now * (lack + 2 * length up.old) }
    ensures kept { sum up.new + sum down.new ≤ sum up.old + sum down.old }
    ensures count { steps.new ≤ steps.old + length tests.now * (18 * length up.old) }
{
    for test in tests {
        let tables = &groups[usize::from(test.group)];
        test_both(tables, test.full, up, down, sums, steps);
    }
}

/// One group's tests, of both parts of the vector.
fn test_both<L: Ledger>(
    tables: &GroupTables,
    full: bool,
    up: &mut [u64],
    down: &mut [u64],
    sums: &mut [Dot],
    steps: &mut Steps<L>,
)
    requires ready { IsReady (length up.old) tables.now }
    requires few { length up.old ≤ most_states }
    requires down { length down.old ≡ length up.old }
    requires sums { length sums.old ≡ length up.old }
    requires mass { sum up.old + sum down.old ≤ 2 ^ 48 }
    ensures up { (r : Fraction) → IsBelow tables.now.rows r
        → (f : Values ℕ) → weigh up.new f ≤ℚ weigh up.old (table_list r full tables.now f) }
    ensures down { (r : Fraction) → IsBelow tables.now.rows r
        → (f : Values ℕ) → weigh down.new f ≤ℚ weigh down.old (table_list r full tables.now f) }
    ensures loses { (lack : ℕ) → LacksAtMost lack tables.now.rows
        → sum up.old + sum down.old ≤ sum up.new + sum down.new + (lack + 2 * length up.old) }
    ensures kept { sum up.new + sum down.new ≤ sum up.old + sum down.old }
    ensures count { steps.new ≤ steps.old + 18 * length up.old }
{
    let settled = tables.settled(full);
    let works = tables.works.as_slice();
    let failed = tables.failed.as_slice();
    test_group(&tables.rows, works, settled, failed, up, sums, steps);
    test_group(&tables.rows, works, settled, failed, down, sums, steps);
}

/// Sums up what has passed from up to down and what has not, and puts both parts together in `up`.
fn close(is_up: &[bool], up: &mut [u64], down: &[u64]) -> Passed
    requires is_up { length is_up.now ≡ length up.old }
    requires down { length down.now ≡ length up.old }
    requires mass { sum up.old + sum down.now ≤ 2 ^ 48 }
    ensures lo { result.lo ≡ mass_down is_up.now up.old }
    ensures hi { result.hi ≡ 2 ^ 48 - (mass_up is_up.now up.old + sum down.now) }
    ensures joined { IsJoined up.old down.now up.new }
{
    let (stays, passed) = sides(is_up, up);
    let rest = total(down);
    join(up, down);
    Passed {
        lo: u128::from(passed),
        hi: ONE - u128::from(stays + rest),
    }
}

/// How much of a vector is where the loop is up, and how much where it is down.
fn sides(is_up: &[bool], v: &[u64]) -> (u64, u64)
    requires is_up { length is_up.now ≡ length v.now }
    requires mass { sum v.now ≤ 2 ^ 48 }
    ensures up { result.0 ≡ mass_up is_up.now v.now }
    ensures down { result.1 ≡ mass_down is_up.now v.now }
{
    let mut up = 0;
    let mut down = 0;
    for j in 0..v.len() {
        up += counted(is_up[j], v[j]);
        down += counted(!is_up[j], v[j]);
    }
    (up, down)
}

/// The number, where it counts.
fn counted(counts: bool, x: u64) -> u64
    ensures { result ≡ number_if counts x }
{
    if counts { x } else { 0 }
}

/// The sum of a vector.
fn total(v: &[u64]) -> u64
    requires { sum v.now ≤ 2 ^ 48 }
    ensures { result ≡ sum v.now }
{
    v.iter().sum()
}

/// Adds one part of a vector to the other.
fn join(v: &mut [u64], part: &[u64])
    requires room { length part.now ≡ length v.old }
    requires mass { sum v.old + sum part.now ≤ 2 ^ 48 }
    ensures { IsJoined v.old part.now v.new }
{
    for j in 0..v.len() {
        v[j] += part[j];
    }
}
