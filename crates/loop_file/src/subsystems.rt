//! The subsystems of a loop.

ghost use Rattle.std.specs.Prelude.{◌≡◌, length, map, OnOk, IfOk, IfErr};
ghost use Rattle.toml.specs.View.{table_view};
ghost use Rattle.loop_file.specs.Walk.{checks_below, Pass, IsRefusal};
ghost use Rattle.loop_file.specs.LoopFile.{given_by, name_at, names_before, entry_of, subsystem_checks, subsystem_of};

use crate::subsystem_entry::read_subsystem;
use crate::types::Types;
use file_fault::FileFault;
use indexmap::IndexSet;
use sil_model::Subsystem;
use std::alloc::{AllocError, Global};
use toml::Table;

/// Reads the entries of `subsystem`.
pub fn read_subsystems(
    alloc: Global,
    tables: &[&Table],
    types: &Types,
) -> Result<Vec<Subsystem>, FileFault>
    ensures pass { let us = map (λ t. table_view t.now) tables.now in
        OnOk result (Pass (checks_below (λ i. subsystem_checks (given_by (map (λ k. k.now) types.now.names.keys) types.now.given.items) i (names_before us i) (entry_of us i)) (length us))) }
    ensures value { let us = map (λ t. table_view t.now) tables.now in
        IfOk result (λ subsystems. subsystems.items ≡ map (subsystem_of (given_by (map (λ k. k.now) types.now.names.keys) types.now.given.items)) us) }
    ensures fault { let us = map (λ t. table_view t.now) tables.now in
        IfErr result (IsRefusal (checks_below (λ i. subsystem_checks (given_by (map (λ k. k.now) types.now.names.keys) types.now.given.items) i (names_before us i) (entry_of us i)) (length us))) }
{
    let mut names = IndexSet::new(alloc);
    let mut subsystems = Vec::new(alloc);
    for (i, table) in tables.iter().enumerate() {
        subsystems
            .push(read_subsystem(alloc, table, i, types, &mut names)?)
            .map_err(|_| FileFault::Memory(AllocError))?;
    }
    Ok(subsystems)
}
