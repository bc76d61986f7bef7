//! Names of entries, of which no two may be the same.

ghost use Rattle.std.specs.Prelude.{codes, ◌≡◌, ◌++◌, [], ◌∷◌, map, IfOk, IfErr, Ok};
ghost use Rattle.toml.specs.Data.{get_member};
ghost use Rattle.toml.specs.View.{table_view};
ghost use Rattle.loop_file.specs.Walk.{IsRefusal};
ghost use Rattle.loop_file.specs.LoopFile.{key_check, new_name_in};

use crate::entry::Entry;
use crate::fault::Flaw;
use file_fault::FileFault;
use indexmap::IndexSet;
use std::alloc::AllocError;

/// Reads the name of an entry, which no name of `earlier` may be like, and notes it there.
pub fn read_name<'a>(
    entry: &Entry<'a>,
    earlier: &mut IndexSet<&'a str>,
) -> Result<&'a str, FileFault>
    ensures ok { IfOk result (λ name. new_name_in (map (λ k. k.now) earlier.old.keys) (get_member (codes "name") (table_view entry.now.table.now)) ≡ Ok name.now) }
    ensures noted { IfOk result (λ name. map (λ k. k.now) earlier.new.keys ≡ map (λ k. k.now) earlier.old.keys ++ name.now ∷ []) }
    ensures fault { IfErr result (IsRefusal (key_check entry.now.place (codes "name") (new_name_in (map (λ k. k.now) earlier.old.keys)) (table_view entry.now.table.now) ∷ [])) }
{
    let name = entry.at("name", entry.name("name"))?;
    match earlier.insert_full(name) {
        Ok((_, true)) => Ok(name),
        Ok((_, false)) => Err(entry.fault("name", Flaw::SameName)),
        Err(_) => Err(FileFault::Memory(AllocError)),
    }
}
