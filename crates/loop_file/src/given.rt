//! The keys that a type and a subsystem share.

ghost use Rattle.std.specs.Prelude.{◌≡◌, IfOk};
ghost use Rattle.toml.specs.View.{table_view};
ghost use Rattle.loop_file.specs.Walk.{Walks};

use crate::entry::Entry;
use crate::fault::Flaw;
use file_fault::FileFault;
use sil_model::InRepair;

/// The values that a table gives for the shared keys.
#[derive(Clone, Copy)]
pub struct Given {
    pub du: Option<u64>,
    pub dd: Option<u64>,
    pub beta: Option<u16>,
    pub beta_d: Option<u16>,
    pub coverage: Option<u16>,
    pub restart_fault: Option<u32>,
    pub repair: Option<u32>,
    pub in_repair: Option<InRepair>,
}

impl Given {
    /// No value at all.
    pub const NONE: Given = Given {
        du: None,
        dd: None,
        beta: None,
        beta_d: None,
        coverage: None,
        restart_fault: None,
        repair: None,
        in_repair: None,
    };
}
