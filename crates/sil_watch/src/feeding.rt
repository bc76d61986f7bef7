//! Watchers in a list.

ghost use Rattle.std.specs.Prelude.{◌≡◌, ◌<◌, ℕ, false, List, ◌++◌, [], ◌∷◌, length, map, take, drop, OnOk, OnErr};
ghost use Rattle.sil_watch.specs.Watching.{fed_of, fed_with, is_asked_of};
ghost use Rattle.sil_watch.specs.declared.record.PhaseRecord.{PhaseRecord};

use crate::kind::WatchSet;
use crate::record::PhaseRecord;
use crate::watcher::Watcher;
use std::alloc::AllocError;

/// Feeds a record to the watchers whose kind is asked for, in the order of the list.
///
/// If memory runs out at one of them, those before it have taken in the record, and no other has.
pub fn feed(
    all: &mut [Box<dyn Watcher>],
    asked: WatchSet,
    rec: &PhaseRecord,
) -> Result<(), AllocError>
    ensures fed { OnOk result (map (λ w. watcher_value w) all.new ≡ map (fed_of asked (rec.now ∷ [])) (map (λ w. watcher_value w) all.old)) }
    ensures refused { OnErr result ((count : ℕ) × (map (λ w. watcher_value w) all.new
        ≡ map (fed_of asked (rec.now ∷ [])) (take count (map (λ w. watcher_value w) all.old)) ++ drop count (map (λ w. watcher_value w) all.old))
        × (count < length all.old)) }
{
    for i in 0..all.len() {
        offer(&mut all[i], asked, rec)?;
    }
    Ok(())
}

/// Feeds a record to a watcher, if its kind is asked for.
#[tactic(auto, unfolding(crate::specs::Watching::fed_of))]
fn offer(w: &mut Box<dyn Watcher>, asked: WatchSet, rec: &PhaseRecord) -> Result<(), AllocError>
    ensures fed { OnOk result (watcher_value w.new ≡ fed_of asked (rec.now ∷ []) (watcher_value w.old)) }
    ensures refused { OnErr result (watcher_value w.new ≡ watcher_value w.old) }
{
    if is_asked(w, asked) {
        take_in(w, rec)?;
    }
    Ok(())
}

/// Whether the kind of a watcher is asked for.
pub fn is_asked(w: &Box<dyn Watcher>, asked: WatchSet) -> bool
    ensures { result ≡ is_asked_of asked (watcher_value w.now) }
{
    asked.contains(w.kind())
}

/// Lets a watcher take in a record.
fn take_in(w: &mut Box<dyn Watcher>, rec: &PhaseRecord) -> Result<(), AllocError>
    ensures taken { OnOk result (watcher_value w.new ≡ fed_with (rec.now ∷ []) (watcher_value w.old)) }
    ensures refused { OnErr result (watcher_value w.new ≡ watcher_value w.old) }
{
    w.phase(rec)
}

/// Whether a watcher of a list is asked for.
pub fn any_asked(all: &[Box<dyn Watcher>], asked: WatchSet) -> bool
    ensures none { result ≡ false → (rs : List PhaseRecord) → map (fed_of asked rs) (map (λ w. watcher_value w) all.now) ≡ map (λ w. watcher_value w) all.now }
{
    for i in 0..all.len() {
        if is_asked(&all[i], asked) {
            return true;
        }
    }
    false
}
