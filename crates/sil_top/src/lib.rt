//! The program but for its edge: from the words to the written text and the status.
#![tactic(auto)]

mod answer;
mod figures;
mod load;
mod program;
mod verbs;
mod words;

ghost use Rattle.std.specs.Prelude.{◌≡◌, map, string_bytes};
ghost use Rattle.sil_top.specs.Causes.{Writes};
ghost use Rattle.sil_top.specs.Promises.{KeepsPromises};

use crate::answer::Fault;
pub use crate::figures::reports_fix_figures;
pub use crate::program::{run_program, watchers_tell};
use crate::words::answer_to;
use sil_io::{Shelf, Sink, write_whole};
use sil_report::{too_long_text, usage_text};
use sil_watch::Watcher;
use std::alloc::Global;

/// How a run ended. The number of each is the exit status of the program.
#[derive(Clone, Copy, Debug, PartialEq, Eq)]
pub enum Status {
    /// The whole text was written.
    Done = 0,
    /// The whole report was written, and a band that was asked does not meet the level that is needed.
    NotShown = 1,
    /// The words are not in the language. The usage text was written.
    Usage = 2,
    /// The file is refused. The text says why.
    FileRefused = 3,
    /// A pick or a read failed. Nothing was written.
    ReadFault = 4,
    /// A write failed or stalled. A part of the text was taken, and not all of it.
    WriteFault = 5,
    /// Out of memory. Nothing was written.
    Memory = 6,
}

/// Runs the program on its words: looks up the file that they ask for, if they ask for one, and writes the text that is
/// called for. The watchers that are asked for are fed a record of every phase, and their lines follow the report. All watchers
/// are let go at the end.
///
/// What it promises stands in `specs/Promises.antt`, a field for each promise. They speak of what the shelf handed out since the
/// file was picked and of what the sink took, whichever shelf and sink they are. Over a shelf that tells its files the bytes
/// handed out are the file's, and a sink that tells its bytes holds those that it took. `CallsFor` says what the words and the
/// file call for: a status, and a text.
pub fn run<S: Shelf, K: Sink>(
    alloc: Global,
    words: &[String],
    shelf: &mut S,
    sink: &mut K,
    mut watchers: Vec<Box<dyn Watcher>>,
) -> Status
    ensures { KeepsPromises
        (record { tells = S.tells; file = S.file; handed = S.handed; tried = S.tried; failed = S.failed; faults = S.faults; calm = S.calm })
        shelf.old shelf.new (map (λ w. watcher_value w) watchers.items)
        (record { tells = K.tells; written = K.written; taken = K.taken; offered = K.offered; failed = K.failed; faults = K.faults; room = K.room })
        sink.old sink.new (map string_bytes words.now) result }
{
    match answer_to(alloc, words, shelf, watchers.as_mut_slice()) {
        Ok(answer) => write_text(sink, &answer.text, answer.status),
        Err(Fault::Usage) => write_text(sink, usage_text(), Status::Usage),
        Err(Fault::TooLong) => write_text(sink, too_long_text(), Status::FileRefused),
        Err(Fault::Refused(line)) => write_text(sink, &line, Status::FileRefused),
        Err(Fault::Read) => Status::ReadFault,
        Err(Fault::Memory(_)) => Status::Memory,
    }
}

/// Writes the text whole, and answers the status that it stands for.
fn write_text<K: Sink>(sink: &mut K, text: &[u8], status: Status) -> Status
    requires { status ≡ Status.WriteFault → ⊥ }
    ensures { Writes (record { tells = K.tells; written = K.written; taken = K.taken; offered = K.offered; failed = K.failed; faults = K.faults; room = K.room })
        sink.old sink.new (record { status = status; text = text.now }) result }
{
    match write_whole(sink, text) {
        Ok(()) => status,
        Err(_) => Status::WriteFault,
    }
}
