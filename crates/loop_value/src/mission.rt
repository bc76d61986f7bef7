//! The mission of a loop: one vector pushed forward from phase to phase.

ghost use Rattle.std.specs.Prelude.{◌≡◌, ℕ, suc, ◌+◌, ◌-◌, ◌*◌, ◌^◌, ◌<◌, ◌≤◌, length, map, All, OnOk, OnErr};
ghost use Rattle.sil_model.specs.Budget.{group_tests_of};
ghost use Rattle.sil_model.specs.Calendar.{phases_of, test_hours_of, beats_of};
ghost use Rattle.sil_model.specs.LoopValue.{IsWithin};
ghost use Rattle.sil_model.specs.Sizes.{states_of, all_beats_of, most_beats};
ghost use Rattle.vector_laws.specs.Vectors.{IsMass};
ghost use Rattle.mission_laws.specs.Losses.{HasLostInAll};
ghost use Rattle.mission_laws.specs.Missions.{HasCounted};
ghost use Rattle.uniformise.specs.Beat.{beat_products};
ghost use Rattle.phase_powers.specs.Products.{powered_products};
ghost use Rattle.phase_way.specs.Passed.{IsPassed};
ghost use Rattle.phase_way.specs.Ways.{most_powered_states};
ghost use Rattle.loop_value.specs.Mission.{IsReady, IsPlanOf, StandsAt, greatest_of, phase_products, powered_phase, tests_products, test_products};
ghost use Rattle.loop_value.specs.Sizes.{HaveRoom, powered_until};
ghost use Rattle.loop_value.specs.Records.{HasFed, HasFedInPart, HasFedPhase, HasFedPhaseInPart};

use crate::preparing::Prepared;
use crate::telling::tell;
use sil_model::{Loop, Steps};
use sil_watch::{WatchSet, Watcher};
use std::alloc::AllocError;
use std::sync::ledger::Ledger;
use test_calendar::Plan;

/// What has passed at the tests of the mission so far from up to down, in units of 2^-48: at least and at most.
#[derive(Clone, Copy, Debug, PartialEq, Eq)]
pub struct Passages {
    /// No more than has passed.
    pub least: u128,
    /// No less than has passed.
    pub most: u128,
}

/// One phase of so many hours: the vector goes to its end, the mean becomes that over the phase, and the dwell grows by the hours
/// times that mean.
fn pass_phase<L: Ledger>(m: &mut Prepared, l: &Loop, hours: u64, steps: &mut Steps<L>)
    requires ready { IsReady l.now m.old }
    requires hours { IsWithin 1 350_400 hours }
    requires few { beats_of l.now.subsystems hours ≤ most_beats }
    requires mass { IsMass m.old.v.items }
    requires room { All (λ x. x + hours * 2 ^ 48 ≤ 350_400 * 2 ^ 48) m.old.dwell.items }
    ensures ready { IsReady l.now m.new }
    ensures order { m.new.rooms.order ≡ m.old.rooms.order }
    ensures passages { m.new.passages ≡ m.old.passages }
    ensures passed { IsPassed l.now.subsystems m.old.rooms.order hours m.old.v.items m.new.mean.items m.new.v.items m.old.dwell.items m.new.dwell.items }
    ensures steps { steps.new ≤ steps.old + beats_of l.now.subsystems hours * beat_products l.now.subsystems m.old.rooms.order }
    ensures powered { states_of l.now.subsystems ≤ most_powered_states → (digits : ℕ) → beats_of l.now.subsystems hours < 2 ^ digits
        → steps.new ≤ steps.old + powered_products l.now.subsystems m.old.rooms.order digits }
{
    m.rooms.pass(
        l,
        hours,
        m.v.as_mut_slice(),
        m.mean.as_mut_slice(),
        m.dwell.as_mut_slice(),
        steps,
    );
}

/// The phase `p`, which is not the last, and the tests of the hour that ends it. In between, the watchers that are asked for are
/// told of the phase.
fn pass_to_next<L: Ledger>(
    m: &mut Prepared,
    l: &Loop,
    plan: &Plan,
    p: usize,
    feed: &mut [Box<dyn Watcher>],
    asked: WatchSet,
    steps: &mut Steps<L>,
) -> Result<(), AllocError>
    requires plan { IsPlanOf l.now plan.now }
    requires few { all_beats_of l.now ≤ most_beats }
    requires more { suc p < length (phases_of l.now) }
    requires ready { IsReady l.now m.old }
    requires order { 16 ≤ m.old.rooms.order }
    requires reached { StandsAt l.now m.old.rooms.order p m.old }
    ensures ready { OnOk result (IsReady l.now m.new) }
    ensures order { OnOk result (m.new.rooms.order ≡ m.old.rooms.order) }
    ensures reached { OnOk result (StandsAt l.now m.old.rooms.order (suc p) m.new) }
    ensures told { OnOk result (HasFedPhase l.now m.old.rooms.order p asked (map (λ w. watcher_value w) feed.old) (map (λ w. watcher_value w) feed.new)) }
    ensures refused { OnErr result (HasFedPhaseInPart l.now m.old.rooms.order p asked (map (λ w. watcher_value w) feed.old) (map (λ w. watcher_value w) feed.new)) }
    ensures steps { OnOk result (steps.new ≤ steps.old + phase_products l.now m.old.rooms.order p + tests_products l.now p) }
    ensures powered { OnOk result (states_of l.now.subsystems ≤ most_powered_states → (digits : ℕ → ℕ) → HaveRoom digits
        → steps.new ≤ steps.old + powered_phase l.now m.old.rooms.order digits p + tests_products l.now p) }
{
    pass_phase(m, l, plan.hours(p), steps);
    tell(m, l, plan, p, feed, asked)?;
    let tests = plan.tests_after(p);
    let passed = m.tests.apply(tests, m.v.as_mut_slice(), steps);
    m.passages = Passages {
        least: m.passages.least + passed.lo,
        most: m.passages.most + passed.hi,
    };
    Ok(())
}

/// All phases, and the tests between them. The vector stands at the start, and the dwell is 0. The watchers that are asked for
/// are told of every phase.
pub fn pass_mission<L: Ledger>(
    m: &mut Prepared,
    l: &Loop,
    plan: &Plan,
    feed: &mut [Box<dyn Watcher>],
    asked: WatchSet,
    steps: &mut Steps<L>,
) -> Result<(), AllocError>
    requires plan { IsPlanOf l.now plan.now }
    requires few { all_beats_of l.now ≤ most_beats }
    requires ready { IsReady l.now m.old }
    requires order { 16 ≤ m.old.rooms.order }
    requires start { StandsAt l.now m.old.rooms.order 0 m.old }
    ensures ready { OnOk result (IsReady l.now m.new) }
    ensures counted { OnOk result ((n : ℕ) → m.old.rooms.order ≤ n
        → HasCounted l.now (greatest_of l.now) n m.new.dwell.items m.new.passages.least (length (test_hours_of l.now) * 2 ^ 48 - m.new.passages.most)) }
    ensures lost { OnOk result (HasLostInAll l.now m.old.rooms.order m.new.dwell.items m.new.passages.least m.new.passages.most) }
    ensures few { OnOk result (m.new.passages.most ≤ length (test_hours_of l.now) * 2 ^ 48) }
    ensures told { OnOk result (HasFed l.now m.old.rooms.order (length (phases_of l.now)) asked (map (λ w. watcher_value w) feed.old) (map (λ w. watcher_value w) feed.new)) }
    ensures refused { OnErr result (HasFedInPart l.now m.old.rooms.order asked (map (λ w. watcher_value w) feed.old) (map (λ w. watcher_value w) feed.new)) }
    ensures steps { OnOk result (steps.new ≤ steps.old + all_beats_of l.now * beat_products l.now.subsystems m.old.rooms.order + group_tests_of l.now * test_products l.now.subsystems) }
    ensures powered { OnOk result (states_of l.now.subsystems ≤ most_powered_states → (digits : ℕ → ℕ) → HaveRoom digits
        → steps.new ≤ steps.old + powered_until l.now m.old.rooms.order digits (length (phases_of l.now)) + group_tests_of l.now * test_products l.now.subsystems) }
{
    let last = plan.phases() - 1;
    for p in 0..last {
        pass_to_next(m, l, plan, p, feed, asked, steps)?;
    }
    pass_phase(m, l, plan.hours(last), steps);
    tell(m, l, plan, last, feed, asked)?;
    Ok(())
}
