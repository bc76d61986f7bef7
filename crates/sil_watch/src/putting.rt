//! The lines of watchers in a list.

ghost use Rattle.std.specs.Prelude.{◌≡◌, ◌++◌, [], map, OnOk, IfOk};
ghost use Rattle.sil_watch.specs.Lines.{IsLineAt, lines_of_all, lines_of_asked, text_of_lines};
ghost use Rattle.sil_watch.specs.Watching.{WatcherValue};

use crate::feeding::is_asked;
use crate::kind::WatchSet;
use crate::watcher::Watcher;
use std::alloc::AllocError;

/// Appends the lines of the watchers whose kind is asked for, in the order of the list, and of each all of its lines in their
/// order. Each is ended by a line feed. 2^64 lines of one watcher are more than memory holds.
pub fn put_lines(
    all: &[Box<dyn Watcher>],
    asked: WatchSet,
    out: &mut Vec<u8>,
) -> Result<(), AllocError>
    ensures { OnOk result (out.new.items ≡ out.old.items ++ lines_of_all asked (map (λ w. watcher_value w) all.now)) }
{
    for i in 0..all.len() {
        put_asked(&all[i], asked, out)?;
    }
    Ok(())
}

/// Appends the lines of a watcher, if its kind is asked for.
#[tactic(auto, unfolding(crate::specs::Lines::lines_of_asked))]
fn put_asked(w: &Box<dyn Watcher>, asked: WatchSet, out: &mut Vec<u8>) -> Result<(), AllocError>
    ensures { OnOk result (out.new.items ≡ out.old.items ++ lines_of_asked asked (watcher_value w.now)) }
{
    if is_asked(w, asked) {
        put_all_of(w, out)?;
    }
    Ok(())
}

/// Appends all lines of a watcher.
fn put_all_of(w: &Box<dyn Watcher>, out: &mut Vec<u8>) -> Result<(), AllocError>
    ensures { let v = watcher_value w.now in OnOk result (out.new.items ≡ out.old.items ++ text_of_lines (v.lines v.state)) }
{
    for i in 0..usize::MAX {
        if !put_one(w, i, out)? {
            return Ok(());
        }
    }
    // There are more lines than memory has bytes.
    Err(AllocError)
}

/// Appends one line of a watcher, and answers whether there is such a line.
fn put_one(w: &Box<dyn Watcher>, i: usize, out: &mut Vec<u8>) -> Result<bool, AllocError>
    ensures { let v = watcher_value w.now in IfOk result (λ is. IsLineAt (v.lines v.state) i is out.old.items out.new.items) }
{
    w.put_line(i, out)
}
