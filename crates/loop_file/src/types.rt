//! The types of subsystems.

ghost use Rattle.std.specs.Prelude.{◌≡◌, length};

use crate::entry::Entry;
use crate::fault::Flaw;
use crate::given::Given;
use crate::place::Place;
use crate::type_entry::read_type;
use file_fault::FileFault;
use indexmap::IndexSet;
use std::alloc::{AllocError, Global};
use toml::Table;

/// The types of a file, numbered by name.
#[derive(Drop)]
pub struct Types<'a> {
    names: IndexSet<&'a str>,
    given: Vec<Given>,
    ghost as_many: { length names.keys ≡ length given.items },
}

impl<'a> Types<'a> {
    ghost use Rattle.std.specs.Prelude.{map, false, OnOk, IfOk, IfErr};
    ghost use Rattle.toml.specs.View.{table_view};
    ghost use Rattle.loop_file.specs.Walk.{checks_below, Pass, IsRefusal};
    ghost use Rattle.loop_file.specs.LoopFile.{given_by, given_of, no_given, name_at, type_entry_checks};

    /// Reads the entries of `type`.
    pub fn read(alloc: Global, tables: &[&'a Table]) -> Result<Types<'a>, FileFault>
        ensures pass { let ts = map (λ t. table_view t.now) tables.now in OnOk result (Pass (checks_below (type_entry_checks ts) (length ts))) }
        ensures names { let ts = map (λ t. table_view t.now) tables.now in IfOk result (λ types. map (λ k. k.now) types.names.keys ≡ map name_at ts) }
        ensures given { let ts = map (λ t. table_view t.now) tables.now in IfOk result (λ types. types.given.items ≡ map (given_of false no_given) ts) }
        ensures fault { let ts = map (λ t. table_view t.now) tables.now in IfErr result (IsRefusal (checks_below (type_entry_checks ts) (length ts))) }
    {
        let mut names = IndexSet::new(alloc);
        let mut given = Vec::new(alloc);
        for (i, table) in tables.iter().enumerate() {
            let entry = Entry {
                alloc,
                table: *table,
                place: Place::OfType(i),
            };
            given
                .push(read_type(&entry, &mut names)?)
                .map_err(|_| FileFault::Memory(AllocError))?;
        }
        Ok(Types { names, given })
    }

    /// What the type of a name gives.
    pub fn given(&self, name: &str) -> Result<Given, Flaw>
        ensures { result ≡ given_by (map (λ k. k.now) self.now.names.keys) self.now.given.items name.now }
    {
        match self.names.get_index_of(name) {
            Some(i) => Ok(self.given[i]),
            None => Err(Flaw::UnknownType),
        }
    }
}
