//! The figures of a loop.

ghost use Rattle.std.specs.Prelude.{◌≡◌, ℕ, ◌+◌, ◌≤◌, ◌↔◌, None, Some, length, map, IfOk, OnOk, OnErr};
ghost use Rattle.sil_model.specs.Budget.{pfd_width_of, pfh_width_of};
ghost use Rattle.sil_model.specs.Calendar.{phases_of};
ghost use Rattle.sil_model.specs.Figures.{pfd_of, pfh_of, Contains18};
ghost use Rattle.sil_model.specs.Sizes.{all_beats_of, states_of, most_states, most_beats, first_limit_of};
ghost use Rattle.sil_model.specs.declared.answers.LimitFault.{LimitFault};
ghost use Rattle.sil_model.specs.declared.answers.LimitFault.TheVariants.{TooManyTests, TooManyStates};
ghost use Rattle.phase_way.specs.Ways.{most_powered_states};
ghost use Rattle.loop_value.specs.Mission.{IsReady, IsPlanOf, StandsAt};
ghost use Rattle.loop_value.specs.Records.{HasFed, HasFedInPart};
ghost use Rattle.loop_value.specs.Sizes.{sizes_of, value_products, HaveRoom, value_products_by_powers};

use crate::ends::{divide, pfh_interval};
use crate::measuring::{Planned, ValueFault, lay_out};
use crate::mission::pass_mission;
use crate::preparing::{Prepared, prepare};
use crate::sides::sides_of_means;
use entry_rates::failure_rate;
use interval_fixed::ONE;
use sil_model::{Decimal18, LimitFault, Loop, Steps, Value};
use sil_watch::{WatchSet, Watcher};
use std::alloc::{AllocError, Global};
use std::sync::ledger::Ledger;
use test_calendar::Plan;

/// PFDavg and PFH of a loop, each as an interval that holds the figure of every order of the series from the one given on, and
/// that is no wider than the error budget allows.
///
/// The limits are those of [`crate::measure`]. All memory but that of the watchers is taken before the first beat.
///
/// The watchers whose kind is asked for are fed a record of every phase, in order of the phases, and each before
/// the next is made. If one of them is out of memory, the computation ends. Where none is asked for, no record is made.
pub fn value<L: Ledger>(
    alloc: Global,
    l: &Loop,
    order: u8,
    feed: &mut [Box<dyn Watcher>],
    asked: WatchSet,
    steps: &mut Steps<L>,
) -> Result<Value, ValueFault>
    requires least { 16 ≤ order }
    requires greatest { order ≤ 40 }
    ensures pfd { IfOk result (λ v. (N : ℕ) → order ≤ N → Contains18 v.pfd.lo v.pfd.hi (pfd_of N l.now)) }
    ensures pfh { IfOk result (λ v. (N : ℕ) → order ≤ N → Contains18 v.pfh.lo v.pfh.hi (pfh_of N l.now)) }
    ensures pfd_width { IfOk result (λ v. v.pfd.hi ≤ v.pfd.lo + pfd_width_of l.now order) }
    ensures pfh_width { IfOk result (λ v. v.pfh.hi ≤ v.pfh.lo + pfh_width_of l.now order) }

    ensures phases { IfOk result (λ v. v.phases ≡ length (phases_of l.now)) }
    ensures states { IfOk result (λ v. v.states ≡ states_of l.now.subsystems) }
    ensures beats { IfOk result (λ v. v.beats ≡ all_beats_of l.now) }
    ensures order { IfOk result (λ v. v.order ≡ order) }

    ensures within { OnOk result (first_limit_of l.now order ≡ None) }
    ensures first { (f : LimitFault) → result ≡ Err (ValueFault.Limit f) → first_limit_of l.now order ≡ Some f }
    // out of memory comes after these two alone
    ensures too_many_tests { (n : ℕ) → (result ≡ Err (ValueFault.Limit (TooManyTests n))) ↔ (first_limit_of l.now order ≡ Some (TooManyTests n)) }
    ensures too_many_states { (n : ℕ) → (result ≡ Err (ValueFault.Limit (TooManyStates n))) ↔ (first_limit_of l.now order ≡ Some (TooManyStates n)) }

    ensures products { OnOk result (steps.new ≤ steps.old + value_products l.now order) }
    ensures by_powers { OnOk result (states_of l.now.subsystems ≤ 64 → (digits : ℕ → ℕ) → HaveRoom digits
        → steps.new ≤ steps.old + value_products_by_powers l.now order digits) }

    // one list of records, one of each phase
    ensures told { OnOk result (HasFed l.now order (length (phases_of l.now)) asked (map (λ w. watcher_value w) feed.old) (map (λ w. watcher_value w) feed.new)) }
    ensures cut_short { (a : AllocError) → result ≡ Err (ValueFault.Memory a)
        → HasFedInPart l.now order asked (map (λ w. watcher_value w) feed.old) (map (λ w. watcher_value w) feed.new) }
    ensures nothing_told { (f : LimitFault) → result ≡ Err (ValueFault.Limit f) → map (λ w. watcher_value w) feed.new ≡ map (λ w. watcher_value w) feed.old }
{
    let planned = match lay_out(alloc, l, order) {
        Ok(planned) => planned,
        Err(fault) => return Err(fault),
    };
    match compute(alloc, l, &planned, order, feed, asked, steps) {
        Ok(value) => Ok(value),
        Err(fault) => Err(ValueFault::Memory(fault)),
    }
}

/// The value of a loop that exceeds no limit, and has this plan and these sizes.
fn compute<L: Ledger>(
    alloc: Global,
    l: &Loop,
    planned: &Planned,
    order: u8,
    feed: &mut [Box<dyn Watcher>],
    asked: WatchSet,
    steps: &mut Steps<L>,
) -> Result<Value, AllocError>
    requires plan { IsPlanOf l.now planned.now.plan }
    requires sizes { planned.now.sizes ≡ sizes_of l.now order }
    requires few_states { states_of l.now.subsystems ≤ most_states }
    requires few_beats { all_beats_of l.now ≤ most_beats }
    requires least { 16 ≤ order }
    requires greatest { order ≤ 40 }
    ensures pfd { IfOk result (λ v. (N : ℕ) → order ≤ N → Contains18 v.pfd.lo v.pfd.hi (pfd_of N l.now)) }
    ensures pfh { IfOk result (λ v. (N : ℕ) → order ≤ N → Contains18 v.pfh.lo v.pfh.hi (pfh_of N l.now)) }
    ensures pfd_width { IfOk result (λ v. v.pfd.hi ≤ v.pfd.lo + pfd_width_of l.now order) }
    ensures pfh_width { IfOk result (λ v. v.pfh.hi ≤ v.pfh.lo + pfh_width_of l.now order) }
    ensures phases { IfOk result (λ v. v.phases ≡ length (phases_of l.now)) }
    ensures states { IfOk result (λ v. v.states ≡ states_of l.now.subsystems) }
    ensures beats { IfOk result (λ v. v.beats ≡ all_beats_of l.now) }
    ensures order { IfOk result (λ v. v.order ≡ order) }
    ensures products { OnOk result (steps.new ≤ steps.old + value_products l.now order) }
    ensures by_powers { OnOk result (states_of l.now.subsystems ≤ most_powered_states → (digits : ℕ → ℕ) → HaveRoom digits
        → steps.new ≤ steps.old + value_products_by_powers l.now order digits) }
    ensures told { OnOk result (HasFed l.now order (length (phases_of l.now)) asked (map (λ w. watcher_value w) feed.old) (map (λ w. watcher_value w) feed.new)) }
    ensures refused { OnErr result (HasFedInPart l.now order asked (map (λ w. watcher_value w) feed.old) (map (λ w. watcher_value w) feed.new)) }
{
    let plan = &planned.plan;
    let mut parts = prepare(alloc, l, plan, order)?;
    let figures = evaluate(&mut parts, l, plan, feed, asked, steps)?;
    let sizes = planned.sizes;
    Ok(Value {
        pfd: figures.pfd,
        pfh: figures.pfh,
        phases: sizes.phases,
        states: sizes.states,
        beats: sizes.beats,
        order,
    })
}

/// The two figures of a loop.
#[derive(Clone, Copy)]
struct Figures {
    pfd: Decimal18,
    pfh: Decimal18,
}

/// The figures of a loop, whose mission stands at the start.
fn evaluate<L: Ledger>(
    m: &mut Prepared,
    l: &Loop,
    plan: &Plan,
    feed: &mut [Box<dyn Watcher>],
    asked: WatchSet,
    steps: &mut Steps<L>,
) -> Result<Figures, AllocError>
    requires plan { IsPlanOf l.now plan.now }
    requires few_states { states_of l.now.subsystems ≤ most_states }
    requires few_beats { all_beats_of l.now ≤ most_beats }
    requires ready { IsReady l.now m.old }
    requires order { 16 ≤ m.old.rooms.order }
    requires start { StandsAt l.now m.old.rooms.order 0 m.old }
    ensures pfd { IfOk result (λ figures. (N : ℕ) → m.old.rooms.order ≤ N → Contains18 figures.pfd.lo figures.pfd.hi (pfd_of N l.now)) }
    ensures pfh { IfOk result (λ figures. (N : ℕ) → m.old.rooms.order ≤ N → Contains18 figures.pfh.lo figures.pfh.hi (pfh_of N l.now)) }
    ensures pfd_width { IfOk result (λ figures. figures.pfd.hi ≤ figures.pfd.lo + pfd_width_of l.now m.old.rooms.order) }
    ensures pfh_width { IfOk result (λ figures. figures.pfh.hi ≤ figures.pfh.lo + pfh_width_of l.now m.old.rooms.order) }
    ensures products { OnOk result (steps.new ≤ steps.old + value_products l.now m.old.rooms.order) }
    ensures by_powers { OnOk result (states_of l.now.subsystems ≤ most_powered_states → (digits : ℕ → ℕ) → HaveRoom digits
        → steps.new ≤ steps.old + value_products_by_powers l.now m.old.rooms.order digits) }
    ensures told { OnOk result (HasFed l.now m.old.rooms.order (length (phases_of l.now)) asked (map (λ w. watcher_value w) feed.old) (map (λ w. watcher_value w) feed.new)) }
    ensures refused { OnErr result (HasFedInPart l.now m.old.rooms.order asked (map (λ w. watcher_value w) feed.old) (map (λ w. watcher_value w) feed.new)) }
{
    pass_mission(m, l, plan, feed, asked, steps)?;
    divide(m.dwell.as_mut_slice(), l.mission());
    let means = m.dwell.as_slice();
    let sides = sides_of_means(means, m.up.as_slice());
    let lack = ONE - sides.down - sides.up;
    Ok(Figures {
        pfd: sides.chance_down(),
        pfh: pfh_interval(
            means,
            m.rates.as_slice(),
            failure_rate(l),
            lack,
            l.mission(),
            m.passages,
            steps,
        ),
    })
}
