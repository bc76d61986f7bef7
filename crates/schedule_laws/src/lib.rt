//! The laws of the schedules and of the error budget of a loop, for contracts and proofs alone: no code runs here.
//!
//! `proofs/PhaseList`, `PhasesOfLoop`: how many phases there are, where each begins, and how long they last.
//!
//! The laws of schedules hold of whatever is left of a schedule, of the mission, of the schedule in which one phase counts,
//! and of that up to a phase.
//!
//! - `proofs/ShortSchedules`: in each beat at most about one event happens, and tests leave faults with a chance.
//! - `proofs/ScheduleHours`: the hours that count.
//! - `proofs/Ends`: at the end the loop is down or up.
//!
//! The error budget of a loop that exceeds no limit is small.
//!
//! - `proofs/Within`: what the limits say of a loop that exceeds none of them.
//! - `proofs/Few`: it has few groups, events, tests of groups and phases.
//! - `proofs/Small`: so its error budget, and the width of PFDavg, are small.
#![tactic(auto)]

ghost use Rattle.schedule_laws.specs.BudgetLaws.{BudgetLaw};
ghost use Rattle.schedule_laws.specs.Laws.{ScheduleLaw};

/// The beats of every schedule are short, its hours are those of its phases, and at its end the loop is down or up.
pub fn schedule_law()
    ensures { ScheduleLaw }
{}

/// The error budget of a loop within all limits is below 2^33 units of 2^-48, so no interval of PFDavg is wider than
/// 1/32,000. A call without a body: its clause is the law.
pub fn budget_law()
    ensures { BudgetLaw }
{}
