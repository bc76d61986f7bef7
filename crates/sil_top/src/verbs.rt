//! The verbs: what each makes of its loop.

ghost use Rattle.std.specs.Prelude.{◌≡◌, true, false, map, IfOk, IfSome, None};
ghost use Rattle.sil_model.specs.Sizes.{first_limit_of};
ghost use Rattle.sil_words.specs.Language.{IsLevel};
ghost use Rattle.sil_top.specs.Run.{IsCalledBy, IsPrinted, IsReported, IsSized, loop_calls, reads_file, within_limits, without_limit};
ghost use Rattle.sil_top.specs.Causes.{outcome_of};

use crate::Status;
use crate::answer::Answer;
use crate::figures::report_of;
use loop_print::print_loop;
use loop_value::{ValueFault, measure};
use sil_model::Loop;
use sil_report::{limit_fault_text, size_text};
use sil_watch::Watcher;
use sil_words::{Ask, Verb};
use std::alloc::{AllocError, Global};
use verb_table::{Positional, verb_rows};

/// Whether a verb reads a file: whether its row in the table has a name.
#[tactic(auto, using(crate::proofs::FileRows::next_row))]
pub fn reads_file(verb: Verb) -> bool
    ensures { result ≡ reads_file verb }
{
    let rows = verb_rows();
    for row in rows {
        if row.verb == verb && row.positional == Positional::Name {
            return true;
        }
    }
    false
}

/// What the verb makes of its loop. A loop of no file is within all limits.
#[tactic(auto, unfolding(verb_table::specs::Table::verb_table))]
pub fn answer_of(
    alloc: Global,
    l: &Loop,
    ask: &Ask,
    watchers: &mut [Box<dyn Watcher>],
) -> Result<Answer, AllocError>
    requires level { IfSome ask.now.need IsLevel }
    requires within { reads_file ask.now.verb ≡ false → first_limit_of l.now l.now.order ≡ None }
    ensures { IfOk result (λ x. IsCalledBy (reads_file ask.now.verb) (loop_calls (map (λ w. watcher_value w) watchers.old) ask.now l.now ask.now.verb) (outcome_of x)) }
{
    match ask.verb {
        Verb::Check => report_of(alloc, l, ask, watchers),
        Verb::Size => sizes_of(alloc, l),
        Verb::Gen => file_of(alloc, l),
        Verb::Bench => report_within(alloc, l, ask, watchers),
    }
}

/// The sizes of a loop, or the first limit that it exceeds.
fn sizes_of(alloc: Global, l: &Loop) -> Result<Answer, AllocError>
    ensures { IfOk result (λ x. IsCalledBy true (within_limits l.now (IsSized l.now)) (outcome_of x)) }
{
    match measure(alloc, l, l.order()) {
        Ok(sizes) => Ok(Answer {
            status: Status::Done,
            text: size_text(alloc, l, &sizes)?,
        }),
        Err(ValueFault::Limit(fault)) => Ok(Answer {
            status: Status::FileRefused,
            text: limit_fault_text(alloc, &fault)?,
        }),
        Err(ValueFault::Memory(e)) => Err(e),
    }
}

/// The loop file of a loop.
fn file_of(alloc: Global, l: &Loop) -> Result<Answer, AllocError>
    ensures { IfOk result (λ x. IsCalledBy false (without_limit (IsPrinted l.now)) (outcome_of x)) }
{
    Ok(Answer {
        status: Status::Done,
        text: print_loop(alloc, l)?,
    })
}

/// The report of a loop that is within all limits.
fn report_within(
    alloc: Global,
    l: &Loop,
    ask: &Ask,
    watchers: &mut [Box<dyn Watcher>],
) -> Result<Answer, AllocError>
    requires level { IfSome ask.now.need IsLevel }
    requires within { first_limit_of l.now l.now.order ≡ None }
    ensures { IfOk result (λ x. IsCalledBy false (without_limit (IsReported (map (λ w. watcher_value w) watchers.old) ask.now l.now)) (outcome_of x)) }
{
    report_of(alloc, l, ask, watchers)
}
