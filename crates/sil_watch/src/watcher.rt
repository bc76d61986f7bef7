//! What may be fed the records of a mission.

ghost use Rattle.std.specs.Prelude.{◌≡◌, [], ◌∷◌, OnOk, OnErr, IfOk};
ghost use Rattle.sil_watch.specs.Lines.{IsLineAt};
ghost use Rattle.sil_watch.specs.Watching.{WatcherValue, fed_with};

use crate::kind::WatcherKind;
use crate::record::PhaseRecord;
use std::alloc::AllocError;

/// What is fed the records of a mission's phases, one after another, and tells lines of them.
///
/// Contracts see its kind, its state, its rule, which makes the next state of a state and a record, and how lines are made of a
/// state. Its kind, its rule and how lines are made never change.
pub trait Watcher: Drop {
    ghost watcher_value: { Self → WatcherValue };

    /// Its kind, by which it is asked for.
    fn kind(&self) -> WatcherKind
        ensures { result ≡ (watcher_value self.now).kind };

    /// Takes in a record. Where the program is out of memory, the watcher is as before.
    fn phase(&mut self, rec: &PhaseRecord) -> Result<(), AllocError>
        ensures taken { OnOk result (watcher_value self.new ≡ fed_with (rec.now ∷ []) (watcher_value self.old)) }
        ensures refused { OnErr result (watcher_value self.new ≡ watcher_value self.old) };

    /// Appends its line `i`, counted from 0 and ended by a line feed, and answers true. Where there is no such line it answers
    /// false and appends nothing. Where the program is out of memory, `out` is as before.
    fn put_line(&self, i: usize, out: &mut Vec<u8>) -> Result<bool, AllocError>
        ensures line { let w = watcher_value self.now in IfOk result (λ is. IsLineAt (w.lines w.state) i is out.old.items out.new.items) }
        ensures refused { OnErr result (out.new.items ≡ out.old.items) };
}
