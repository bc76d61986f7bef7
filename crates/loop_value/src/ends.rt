//! The ends of PFDavg and of PFH, by the dwell of the mission.

ghost use Rattle.std.specs.Prelude.{◌≡◌, ℕ, ◌+◌, ◌*◌, ◌^◌, ◌<◌, ◌≤◌, length, sum, slice_index};
ghost use Rattle.sil_model.specs.Sizes.{most_states};
ghost use Rattle.mission_laws.specs.Missions.{AreMeans, pfh_lower, pfh_upper};
ghost use Rattle.loop_value.specs.Ends.{entries_of};

use crate::mission::Passages;
use interval_fixed::{Dot, ONE};
use sil_model::{Decimal18, Steps};
use std::sync::ledger::Ledger;

/// The number 1, in units of 10^-18.
const DECIMAL_ONE: u128 = 1_000_000_000_000_000_000;

/// Makes the dwell the mean over so many hours, rounded down at each count vector.
pub fn divide(dwell: &mut [u128], hours: u32)
    requires { 0 < hours }
    ensures { AreMeans hours dwell.old dwell.new }
{
    for i in 0..dwell.len() {
        dwell[i] /= u128::from(hours);
    }
}

/// The entries over the mission: each mean times the rate at which the loop goes down there, and `more` besides.
fn entries<L: Ledger>(means: &[u128], rates: &[u64], more: u128, steps: &mut Steps<L>) -> Dot
    requires length { length rates.now ≡ length means.now }
    requires few { length means.now ≤ most_states }
    requires mass { sum means.now ≤ 2 ^ 48 }
    requires small { (i : ℕ) → slice_index rates.now i ≤ 2 ^ 60 }
    requires more { more < 2 ^ 108 }
    ensures sum { result.sum ≡ entries_of rates.now means.now + more }
    ensures number { result.number ≡ length means.now + 2 }
    ensures steps { steps.new ≡ steps.old + length means.now + 2 }
{
    let mut sum = Dot::new();
    for i in 0..means.len() {
        sum.add_product(means[i], u128::from(rates[i]), steps);
    }
    sum.add_product(ONE, more / ONE, steps);
    sum.add_product(1, more % ONE, steps);
    sum
}

/// PFH: the entries in beats and at tests, over the mission, by the rate at which the loop goes down at each count vector, in
/// 10^-18 per hour. What the means lack counts at the greatest rate.
pub fn pfh_interval<L: Ledger>(
    means: &[u128],
    rates: &[u64],
    greatest: u128,
    lack: u128,
    mission: u32,
    passages: Passages,
    steps: &mut Steps<L>,
) -> Decimal18
    requires length { length rates.now ≡ length means.now }
    requires few { length means.now ≤ most_states }
    requires lack { sum means.now + lack ≡ 2 ^ 48 }
    requires small { (i : ℕ) → slice_index rates.now i ≤ greatest }
    requires greatest { greatest ≤ 2 ^ 60 }
    requires mission { 0 < mission }
    requires passages { passages.least ≤ passages.most }
    requires one_an_hour { passages.most ≤ mission * 2 ^ 48 }
    requires hours { mission ≤ 350_400 }
    ensures lo { result.lo ≡ pfh_lower mission (entries_of rates.now means.now) passages.least }
    ensures hi { result.hi ≡ pfh_upper mission (entries_of rates.now means.now) greatest lack passages.most }
    ensures steps { steps.new ≤ steps.old + 2 * length means.now + 5 }
{
    let hours = u128::from(mission);
    let least = DECIMAL_ONE * passages.least / hours;
    let most = (DECIMAL_ONE * passages.most).div_ceil(hours);
    let lower = entries(means, rates, least, steps);
    let mut upper = entries(means, rates, most, steps);
    upper.add_product(lack, greatest, steps);
    Decimal18 {
        lo: lower.down(),
        hi: upper.up(),
    }
}
