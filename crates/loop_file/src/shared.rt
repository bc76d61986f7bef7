//! The keys that a type and a subsystem share, read.

ghost use Rattle.std.specs.Prelude.{◌≡◌};
ghost use Rattle.toml.specs.View.{table_view};
ghost use Rattle.loop_file.specs.Walk.{Walks};
ghost use Rattle.loop_file.specs.LoopFile.{over, given_checks, given_of};

use crate::entry::Entry;
use crate::fault::Flaw;
use crate::given::Given;
use file_fault::FileFault;

/// Reads the shared keys of a table. Where it has none, the value of its type stands; `du` and `repair` may be needed.
pub fn read_given(entry: &Entry, given: &Given, needed: bool) -> Result<Given, FileFault>
    ensures { Walks (given_checks entry.now.place needed given.now (table_view entry.now.table.now)) (given_of needed given.now (table_view entry.now.table.now)) result }
{
    Ok(Given {
        du: entry.at("du", over(needed, given.du, entry.rate("du")))?,
        dd: entry.at("dd", over(false, given.dd, entry.rate("dd")))?,
        beta: entry.at("beta", over(false, given.beta, entry.thousandths("beta")))?,
        beta_d: entry.at(
            "beta_d",
            over(false, given.beta_d, entry.thousandths("beta_d")),
        )?,
        coverage: entry.at(
            "coverage",
            over(false, given.coverage, entry.thousandths("coverage")),
        )?,
        restart_fault: entry.at(
            "restart_fault",
            over(
                false,
                given.restart_fault,
                entry.millionths("restart_fault"),
            ),
        )?,
        repair: entry.at(
            "repair",
            over(needed, given.repair, entry.whole("repair", 1, 8760)),
        )?,
        in_repair: entry.at(
            "in_repair",
            over(false, given.in_repair, entry.in_repair("in_repair")),
        )?,
    })
}

/// A table's own value, or else that of its type, which may be needed.
fn over<T: Copy>(
    needed: bool,
    given: Option<T>,
    reading: Result<Option<T>, Flaw>,
) -> Result<Option<T>, Flaw>
    ensures { result ≡ over needed given reading }
{
    match reading {
        Err(flaw) => Err(flaw),
        Ok(Some(own)) => Ok(Some(own)),
        Ok(None) => match given {
            Some(value) => Ok(Some(value)),
            None if needed => Err(Flaw::Missing),
            None => Ok(None),
        },
    }
}
