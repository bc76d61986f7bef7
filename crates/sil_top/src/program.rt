//! The program with its watchers.

ghost use Rattle.std.specs.Prelude.{map, string_bytes};
ghost use Rattle.sil_top.specs.Program.{program_watchers};
ghost use Rattle.sil_top.specs.Promises.{KeepsPromises};
ghost use Rattle.sil_top.specs.Watchers.{WatchersTell};

use crate::{Status, run};
use sil_io::{Shelf, Sink};
use sil_watch::{Occupancy, Peak, Series, Watcher};
use std::alloc::Global;

/// Runs the program on its words, with its watchers: a series without records, a peak that keeps none, and an occupancy without
/// hours.
///
/// It promises what [`run`] does, with these watchers (`program_watchers`). Where a box cannot be made, the program is out of memory, and
/// nothing is read or written. A further watcher is one box more here, in the order of `program_watchers`.
pub fn run_program<S: Shelf, K: Sink>(
    alloc: Global,
    words: &[String],
    shelf: &mut S,
    sink: &mut K,
) -> Status
    ensures { KeepsPromises
        (record { tells = S.tells; file = S.file; handed = S.handed; tried = S.tried; failed = S.failed; faults = S.faults; calm = S.calm })
        shelf.old shelf.new program_watchers
        (record { tells = K.tells; written = K.written; taken = K.taken; offered = K.offered; failed = K.failed; faults = K.faults; room = K.room })
        sink.old sink.new (map string_bytes words.now) result }
{
    let Ok(series) = Box::new(alloc, Series::new(alloc)) else {
        return Status::Memory;
    };
    let Ok(peak) = Box::new(alloc, Peak::new()) else {
        return Status::Memory;
    };
    let Ok(occupancy) = Box::new(alloc, Occupancy::new()) else {
        return Status::Memory;
    };
    let mut watchers: Vec<Box<dyn Watcher>> = Vec::new(alloc);
    if watchers.push(series).is_err() {
        return Status::Memory;
    }
    if watchers.push(peak).is_err() {
        return Status::Memory;
    }
    if watchers.push(occupancy).is_err() {
        return Status::Memory;
    }
    run(alloc, words, shelf, sink, watchers)
}

/// What the program's watchers tell: true lines of one list of records, and of the peak and of the hours that it is so.
pub fn watchers_tell()
    ensures { WatchersTell }
{}
