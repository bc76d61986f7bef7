//! From the words to the answer.

ghost use Rattle.std.specs.Prelude.{◌≡◌, true, false, map, string_bytes, IfOk, IfSome};
ghost use Rattle.loop_gen.specs.Drawn.{drawn_of};
ghost use Rattle.sil_words.specs.Language.{IsLevel};
ghost use Rattle.sil_model.specs.LoopValue.{LoopValue};
ghost use Rattle.sil_top.specs.Run.{IsCalledBy, IsFileOf, loop_calls, reads_file};
ghost use Rattle.sil_top.specs.Causes.{Answers, Reads, outcome_of};

use crate::answer::{Answer, Fault};
use crate::load::load;
use crate::verbs::{answer_of, reads_file};
use loop_gen::make_loop;
use sil_io::Shelf;
use sil_watch::Watcher;
use sil_words::{Ask, WordFault, read_words};
use std::alloc::{AllocError, Global};

/// What the words call for.
pub fn answer_to<S: Shelf>(
    alloc: Global,
    words: &[String],
    shelf: &mut S,
    watchers: &mut [Box<dyn Watcher>],
) -> Result<Answer, Fault>
    ensures { Answers (record { tells = S.tells; file = S.file; handed = S.handed; tried = S.tried; failed = S.failed; faults = S.faults; calm = S.calm })
        shelf.old shelf.new (map (λ w. watcher_value w) watchers.old) (map string_bytes words.now) result }
{
    let ask = match read_words(alloc, words) {
        Ok(ask) => ask,
        Err(WordFault::Usage) => return Err(Fault::Usage),
        Err(WordFault::Memory(e)) => return Err(Fault::Memory(e)),
    };
    if reads_file(ask.verb) {
        answer_of_file(alloc, &ask, shelf, watchers)
    } else {
        match answer_of_number(alloc, &ask, watchers) {
            Ok(answer) => Ok(answer),
            Err(e) => Err(Fault::Memory(e)),
        }
    }
}

/// What the verb makes of the loop of the file.
fn answer_of_file<S: Shelf>(
    alloc: Global,
    ask: &Ask,
    shelf: &mut S,
    watchers: &mut [Box<dyn Watcher>],
) -> Result<Answer, Fault>
    requires level { IfSome ask.now.need IsLevel }
    requires of_file { reads_file ask.now.verb ≡ true }
    ensures { Reads (record { tells = S.tells; file = S.file; handed = S.handed; tried = S.tried; failed = S.failed; faults = S.faults; calm = S.calm })
        shelf.old shelf.new ask.now.name (λ x. (l : LoopValue) × IsFileOf S.tells (S.file shelf.old) (S.handed shelf.new) ask.now.name l
        × IsCalledBy true (loop_calls (map (λ w. watcher_value w) watchers.old) ask.now l ask.now.verb) (outcome_of x)) result }
{
    let l = load(alloc, ask.name.as_str(), shelf)?;
    match answer_of(alloc, &l, ask, watchers) {
        Ok(answer) => Ok(answer),
        Err(e) => Err(Fault::Memory(e)),
    }
}

/// What the verb makes of the loop that is drawn from the number.
fn answer_of_number(
    alloc: Global,
    ask: &Ask,
    watchers: &mut [Box<dyn Watcher>],
) -> Result<Answer, AllocError>
    requires level { IfSome ask.now.need IsLevel }
    requires drawn { reads_file ask.now.verb ≡ false }
    ensures { IfOk result (λ x. IsCalledBy false (loop_calls (map (λ w. watcher_value w) watchers.old) ask.now (drawn_of ask.now.number) ask.now.verb) (outcome_of x)) }
{
    let l = make_loop(alloc, ask.number)?;
    answer_of(alloc, &l, ask, watchers)
}
