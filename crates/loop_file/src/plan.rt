//! The proof tests of a subsystem.

ghost use Rattle.toml.specs.View.{table_view};
ghost use Rattle.loop_file.specs.Walk.{Walks};
ghost use Rattle.loop_file.specs.LoopFile.{plan_checks, plan_of};

use crate::entry::Entry;
use file_fault::FileFault;
use sil_model::TestPlan;

/// The keys of the table.
const KEYS: [&str; 4] = ["every", "first", "stagger", "full_each"];

/// Reads the table `test` of a subsystem.
pub fn read_plan(entry: &Entry) -> Result<TestPlan, FileFault>
    ensures { Walks (plan_checks entry.now.place (table_view entry.now.table.now)) (plan_of (table_view entry.now.table.now)) result }
{
    entry.check_keys(&KEYS)?;
    let every = entry.at("every", entry.required_whole("every", 1, 350_400))?;
    let first = entry.at("first", entry.whole("first", 1, 350_400))?;
    let stagger = entry.at("stagger", entry.whole("stagger", 0, 350_400))?;
    let full_each = entry.at("full_each", entry.whole("full_each", 1, 1_000))?;
    Ok(TestPlan {
        first: first.unwrap_or(every),
        every,
        stagger: stagger.unwrap_or(0),
        full_each: full_each.unwrap_or(1),
    })
}
