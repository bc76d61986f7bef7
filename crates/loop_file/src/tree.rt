//! The tree of a file, and its arrays of tables.

ghost use Rattle.std.specs.Prelude.{◌≡◌, ◌⊎◌, true, map, OnOk, IfOk, IfErr, Some, None};
ghost use Rattle.toml.specs.Data.{as_array};
ghost use Rattle.toml.specs.View.{view, table_view, items_view};
ghost use Rattle.loop_file.specs.Walk.{Pass, IsMemory, IsRefusal};
ghost use Rattle.loop_file.specs.LoopFile.{array_checks, entry_checks, tables_of, items_or_none};
ghost use Rattle.loop_file.specs.Paths.{entry_path};
ghost use Rattle.loop_file.specs.declared.place.Place.TheVariants.{Top};
ghost use Rattle.loop_file.specs.Order.{keys_ascend};
ghost use Rattle.loop_file.specs.Tree.{tree_of};

use crate::entry::Entry;
use crate::fault::Flaw;
use crate::place::array_path;
use file_fault::FileFault;
use std::alloc::{AllocError, Global};
use toml::{Table, Value};

/// The tree of the bytes.
pub fn parse(alloc: Global, bytes: &[u8]) -> Result<Table, FileFault>
    ensures ok { IfOk result (λ t. tree_of bytes.now ≡ Some (table_view t)) }
    ensures refused { IfErr result (λ e. IsMemory e ⊎ ((e ≡ FileFault.NotToml) × (tree_of bytes.now ≡ None))) }
{
    match toml::table_from_slice(alloc, bytes) {
        Ok(table) => Ok(table),
        Err(e) => {
            if e.is_memory() {
                Err(FileFault::Memory(AllocError))
            } else {
                Err(FileFault::NotToml)
            }
        }
    }
}

/// The members of every table that is read stand in the order of their keys' bytes, so that the first key that the walk does
/// not know is the least one.
pub fn members_in_order(table: &Table)
    ensures { keys_ascend (table_view table.now) ≡ true }
{
    let _ = table.iter();
}

/// Reads the array at a key of the top table, which holds `least` to `greatest` tables.
pub fn read_tables<'a>(
    top: &Entry<'a>,
    key: &str,
    value: &'a Value,
    least: usize,
    greatest: usize,
) -> Result<Vec<&'a Table>, FileFault>
    requires { top.now.place ≡ Top }
    ensures pass { OnOk result (Pass (array_checks least greatest key.now (view value.now))) }
    ensures tables { IfOk result (λ tables. map (λ t. table_view t.now) tables.items ≡ items_or_none (as_array (view value.now))) }
    ensures fault { IfErr result (IsRefusal (array_checks least greatest key.now (view value.now))) }
{
    let Some(entries) = value.as_array() else {
        return Err(top.fault(key, Flaw::WrongKind));
    };
    if entries.len() < least || entries.len() > greatest {
        return Err(top.fault(key, Flaw::OutOfRange));
    }
    tables_of(top.alloc, key, entries)
}

/// The entries as tables, up to the first that is none.
fn tables_of<'a>(
    alloc: Global,
    key: &str,
    entries: &'a [Value],
) -> Result<Vec<&'a Table>, FileFault>
    ensures pass { OnOk result (Pass (entry_checks key.now 0 (items_view entries.now))) }
    ensures tables { IfOk result (λ tables. map (λ t. table_view t.now) tables.items ≡ tables_of (items_view entries.now)) }
    ensures fault { IfErr result (IsRefusal (entry_checks key.now 0 (items_view entries.now))) }
{
    let mut tables = Vec::new(alloc);
    for (i, entry) in entries.iter().enumerate() {
        let Some(table) = entry.as_table() else {
            return Err(no_table(alloc, key, i));
        };
        match tables.push(table) {
            Ok(()) => {}
            Err(_) => return Err(FileFault::Memory(AllocError)),
        }
    }
    Ok(tables)
}

/// The fault of an entry that is no table.
fn no_table(alloc: Global, key: &str, i: usize) -> FileFault
    ensures { IsMemory result ⊎ (result ≡ FileFault.WrongKind (entry_path key.now i)) }
{
    match array_path(alloc, key, i) {
        Ok(path) => FileFault::WrongKind(path),
        Err(error) => FileFault::Memory(error),
    }
}
