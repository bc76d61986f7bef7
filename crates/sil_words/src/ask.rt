//! What the words of a run ask for.

ghost use Rattle.std.specs.Prelude.{◌≡◌};
ghost use Rattle.sil_words.specs.Language.{with_meaning};

use crate::values::{level_named, mode_named};
use sil_model::Text;
use sil_watch::WatchSet;
use std::alloc::AllocError;
use thiserror::Error;
use verb_table::{Meaning, Verb};

/// The mode of operation, which says of which figures the bands are asked.
#[derive(Clone, Copy, Debug, PartialEq, Eq)]
pub enum Mode {
    /// Low demand: the band of PFDavg.
    Low,
    /// High demand or continuous: the band of PFH.
    High,
    /// Both bands.
    Both,
}

/// What the words ask for. A field that the verb lacks holds the empty text, 0, `None`, `Low` or no kind.
#[derive(Drop)]
pub struct Ask {
    pub verb: Verb,
    /// The name of a file, which may be any text.
    pub name: Text,
    /// The number that a loop is made of.
    pub number: u64,
    /// The safety integrity level, 1 to 4, that the asked bands are to meet.
    pub need: Option<u8>,
    pub mode: Mode,
    /// The kinds of the watchers that are asked for.
    pub watch: WatchSet,
}

impl Ask {
    /// Takes in what an option of this meaning gives by its value. A flag's value is not looked at.
    pub(crate) fn take(&mut self, meaning: Meaning, value: &str)
        ensures { self.new ≡ with_meaning meaning value.now self.old }
    {
        match meaning {
            Meaning::Need => self.need = level_named(value),
            Meaning::Mode => self.mode = mode_named(value),
            Meaning::Watch(kind) => self.watch.insert(kind),
        }
    }
}

/// Why there is no answer to the words.
#[derive(Debug, Drop, Error)]
pub enum WordFault {
    /// Memory ran out. This says nothing of the words.
    #[error("out of memory")]
    Memory(AllocError),
    /// The words are not in the language.
    #[error("usage")]
    Usage,
}
