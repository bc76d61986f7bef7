//! An entry of `type`.

ghost use Rattle.std.specs.Prelude.{◌≡◌, map, false, ◌++◌, [], ◌∷◌, OnOk};
ghost use Rattle.toml.specs.View.{table_view};
ghost use Rattle.loop_file.specs.Walk.{Walks};
ghost use Rattle.loop_file.specs.LoopFile.{given_of, no_given, name_at, type_checks};

use crate::entry::Entry;
use crate::given::Given;
use crate::names::read_name;
use crate::shared::read_given;
use file_fault::FileFault;
use indexmap::IndexSet;

/// The keys of an entry of `type`.
const KEYS: [&str; 9] = [
    "name",
    "du",
    "dd",
    "beta",
    "beta_d",
    "coverage",
    "restart_fault",
    "repair",
    "in_repair",
];

/// Reads an entry of `type`, and notes its name.
pub fn read_type<'a>(entry: &Entry<'a>, names: &mut IndexSet<&'a str>) -> Result<Given, FileFault>
    ensures walks { Walks (type_checks entry.now.place (map (λ k. k.now) names.old.keys) (table_view entry.now.table.now)) (given_of false no_given (table_view entry.now.table.now)) result }
    ensures noted { OnOk result (map (λ k. k.now) names.new.keys ≡ map (λ k. k.now) names.old.keys ++ name_at (table_view entry.now.table.now) ∷ []) }
{
    entry.check_keys(&KEYS)?;
    read_name(entry, names)?;
    read_given(entry, &Given::NONE, false)
}
