//! A table of the file, read key by key.

ghost use Rattle.std.specs.Prelude.{◌≡◌, option_map, IfOk, IfErr, Ok, Err, map};
ghost use Rattle.std.specs.List.{list_any};
ghost use Rattle.std.specs.Str.{bytes_eq};
ghost use Rattle.toml.specs.Data.{get_member};
ghost use Rattle.toml.specs.View.{view, table_view};
ghost use Rattle.loop_file.specs.Walk.{Walks, IsMemory};
ghost use Rattle.loop_file.specs.Paths.{IsFaultAt, IsReadAt, path_of};
ghost use Rattle.loop_file.specs.Readings.{whole_in, rate_in, thousandths_in, millionths_in, name_in, in_repair_in, vote_in, required, optional};
ghost use Rattle.loop_file.specs.LoopFile.{unknown_checks};

use crate::fault::Flaw;
use crate::place::{Place, key_path};
use crate::values;
use file_fault::FileFault;
use sil_model::{InRepair, Text, Vote};
use std::alloc::Global;
use toml::{Table, Value};

/// A table, and where it stands.
#[derive(Clone, Copy)]
pub struct Entry<'a> {
    pub alloc: Global,
    pub table: &'a Table,
    pub place: Place,
}

impl<'a> Entry<'a> {
    /// The value at a key.
    pub fn find(&self, key: &str) -> Option<&'a Value>
        ensures { option_map (λ v. view v.now) result ≡ get_member key.now (table_view self.now.table.now) }
    {
        self.table.get(key)
    }

    /// The path of a key.
    pub fn path(&self, key: &str) -> Result<Text, FileFault>
        ensures ok { IfOk result (λ t. t ≡ path_of self.now.place key.now) }
        ensures memory { IfErr result IsMemory }
    {
        key_path(self.alloc, self.place, key).map_err(FileFault::Memory)
    }

    /// The fault of a flaw at a key, or out of memory for its path.
    pub fn fault(&self, key: &str, flaw: Flaw) -> FileFault
        ensures { IsFaultAt self.now.place key.now flaw result }
    {
        let path = match self.path(key) {
            Ok(path) => path,
            Err(fault) => return fault,
        };
        match flaw {
            Flaw::UnknownKey => FileFault::UnknownKey(path),
            Flaw::Missing => FileFault::Missing(path),
            Flaw::WrongKind => FileFault::WrongKind(path),
            Flaw::BadText(fault) => FileFault::BadText(path, fault),
            Flaw::OutOfRange => FileFault::OutOfRange(path),
            Flaw::BadVote => FileFault::BadVote(path),
            Flaw::SameName => FileFault::SameName(path),
            Flaw::UnknownType => FileFault::UnknownType(path),
        }
    }

    /// Refuses the first key that is not `known`.
    pub fn check_keys(&self, known: &[&str]) -> Result<(), FileFault>
        ensures { Walks (unknown_checks self.now.place (map (λ k. k.now) known.now) (table_view self.now.table.now)) tt result }
    {
        'keys: for (key, _value) in self.table.iter() {
            if !is_known(known, key.as_str()) {
                return Err(self.fault(key.as_str(), Flaw::UnknownKey));
            }
        }
        Ok(())
    }

    /// The outcome of reading a key of this table.
    pub fn at<T>(&self, key: &str, reading: Result<T, Flaw>) -> Result<T, FileFault>
        ensures { IsReadAt self.now.place key.now reading result }
    {
        match reading {
            Ok(value) => Ok(value),
            Err(flaw) => Err(self.fault(key, flaw)),
        }
    }

    /// A rate, if the key is there.
    pub fn rate(&self, key: &str) -> Result<Option<u64>, Flaw>
        ensures { result ≡ optional rate_in (get_member key.now (table_view self.now.table.now)) }
    {
        match self.find(key) {
            Some(value) => Ok(Some(values::rate(value)?)),
            None => Ok(None),
        }
    }

    /// A share in thousandths, if the key is there.
    pub fn thousandths(&self, key: &str) -> Result<Option<u16>, Flaw>
        ensures { result ≡ optional thousandths_in (get_member key.now (table_view self.now.table.now)) }
    {
        match self.find(key) {
            Some(value) => Ok(Some(values::thousandths(value)?)),
            None => Ok(None),
        }
    }

    /// A share in millionths, if the key is there.
    pub fn millionths(&self, key: &str) -> Result<Option<u32>, Flaw>
        ensures { result ≡ optional millionths_in (get_member key.now (table_view self.now.table.now)) }
    {
        match self.find(key) {
            Some(value) => Ok(Some(values::millionths(value)?)),
            None => Ok(None),
        }
    }

    /// How channels in repair vote, if the key is there.
    pub fn in_repair(&self, key: &str) -> Result<Option<InRepair>, Flaw>
        ensures { result ≡ optional in_repair_in (get_member key.now (table_view self.now.table.now)) }
    {
        match self.find(key) {
            Some(value) => Ok(Some(values::in_repair(value)?)),
            None => Ok(None),
        }
    }

    /// An integer from `least` to `greatest`, if the key is there.
    pub fn whole(&self, key: &str, least: u32, greatest: u32) -> Result<Option<u32>, Flaw>
        ensures { result ≡ optional (whole_in least greatest) (get_member key.now (table_view self.now.table.now)) }
    {
        match self.find(key) {
            Some(value) => Ok(Some(values::whole(value, least, greatest)?)),
            None => Ok(None),
        }
    }

    /// An integer from `least` to `greatest`, which has to be there.
    pub fn required_whole(&self, key: &str, least: u32, greatest: u32) -> Result<u32, Flaw>
        ensures { result ≡ required (whole_in least greatest) (get_member key.now (table_view self.now.table.now)) }
    {
        match self.find(key) {
            Some(value) => values::whole(value, least, greatest),
            None => Err(Flaw::Missing),
        }
    }

    /// A vote, which has to be there.
    pub fn vote(&self, key: &str) -> Result<Vote, Flaw>
        ensures { result ≡ required vote_in (get_member key.now (table_view self.now.table.now)) }
    {
        match self.find(key) {
            Some(value) => values::vote(value),
            None => Err(Flaw::Missing),
        }
    }

    /// A name, which has to be there.
    pub fn name(&self, key: &str) -> Result<&'a str, Flaw>
        ensures ok { IfOk result (λ t. required name_in (get_member key.now (table_view self.now.table.now)) ≡ Ok t.now) }
        ensures err { IfErr result (λ f. required name_in (get_member key.now (table_view self.now.table.now)) ≡ Err f) }
    {
        match self.find(key) {
            Some(value) => values::name(value),
            None => Err(Flaw::Missing),
        }
    }
}

/// Whether the key is one of those known.
fn is_known(known: &[&str], key: &str) -> bool
    ensures { result ≡ list_any (λ k. bytes_eq k key.now) (map (λ k. k.now) known.now) }
{
    known.contains(&key)
}
