//! What watchers are told of a phase.

ghost use Rattle.std.specs.Prelude.{ℕ, ◌^◌, ◌<◌, ◌≤◌, length, map, sum, OnOk, OnErr};
ghost use Rattle.sil_model.specs.Calendar.{phases_of};
ghost use Rattle.mission_laws.specs.PhaseLaws.{HasPassed};
ghost use Rattle.loop_value.specs.Mission.{IsReady, IsPlanOf};
ghost use Rattle.loop_value.specs.Records.{IsRecordOf, HasFedPhase, HasFedPhaseInPart};

use crate::preparing::Prepared;
use crate::sides::{sides_of_means, sides_of_vector};
use sil_model::Loop;
use sil_watch::{PhaseRecord, WatchSet, Watcher, any_asked};
use std::alloc::AllocError;
use test_calendar::Plan;

/// Feeds the record of the phase `p`, at whose end the mission stands, to the watchers that are asked for. Where none is asked
/// for, no record is made.
pub fn tell(
    m: &Prepared,
    l: &Loop,
    plan: &Plan,
    p: usize,
    feed: &mut [Box<dyn Watcher>],
    asked: WatchSet,
) -> Result<(), AllocError>
    requires plan { IsPlanOf l.now plan.now }
    requires within { p < length (phases_of l.now) }
    requires ready { IsReady l.now m.now }
    requires mean_mass { sum m.now.mean.items ≤ 2 ^ 48 }
    requires end_mass { sum m.now.v.items ≤ 2 ^ 48 }
    ensures told { OnOk result ((order : ℕ) → 16 ≤ order → HasPassed l.now order p m.now.mean.items m.now.v.items
        → HasFedPhase l.now order p asked (map (λ w. watcher_value w) feed.old) (map (λ w. watcher_value w) feed.new)) }
    ensures refused { OnErr result ((order : ℕ) → 16 ≤ order → HasPassed l.now order p m.now.mean.items m.now.v.items
        → HasFedPhaseInPart l.now order p asked (map (λ w. watcher_value w) feed.old) (map (λ w. watcher_value w) feed.new)) }
{
    if any_asked(feed, asked) {
        let rec = record(m, l, plan, p);
        sil_watch::feed(feed, asked, &rec)?;
    }
    Ok(())
}

/// The record of the phase `p`.
fn record(m: &Prepared, l: &Loop, plan: &Plan, p: usize) -> PhaseRecord
    requires plan { IsPlanOf l.now plan.now }
    requires within { p < length (phases_of l.now) }
    requires few { p < 350_400 }
    requires ready { IsReady l.now m.now }
    requires mean_mass { sum m.now.mean.items ≤ 2 ^ 48 }
    requires end_mass { sum m.now.v.items ≤ 2 ^ 48 }
    ensures { (order : ℕ) → 16 ≤ order → HasPassed l.now order p m.now.mean.items m.now.v.items → IsRecordOf l.now order p result }
{
    let up = m.up.as_slice();
    let mean = sides_of_means(m.mean.as_slice(), up);
    let end = sides_of_vector(m.v.as_slice(), up);
    PhaseRecord {
        index: p as u32 + 1,
        start: plan.start(p),
        hours: plan.hours(p),
        mean: mean.chance_down(),
        at_end: end.chance_down(),
    }
}
