//! Why a loop file is refused.
#![tactic(auto)]

use sil_model::Text;
use sil_text::TextFault;
use std::alloc::AllocError;
use std::error::Error;
use std::fmt;

/// The first fault of a loop file, with the path of its place, or out of memory.
///
/// As numbers the faults but `Memory` are 1 to 10. Its words, by `Display`, are those of the line that the program
/// prints.
#[derive(Drop)]
pub enum FileFault {
    /// Memory ran out. This says nothing of the file.
    Memory(AllocError),
    /// The bytes are no TOML document.
    NotToml,
    /// The version is not 1.
    BadVersion(i64),
    /// No key of this name is known there.
    UnknownKey(Text),
    /// A key that has to be there is not.
    Missing(Text),
    /// The value is not of the kind that the key takes.
    WrongKind(Text),
    /// The text is none that the key takes.
    BadText(Text, TextFault),
    /// The number, or the length of the array, is out of its range.
    OutOfRange(Text),
    /// The text is no vote.
    BadVote(Text),
    /// An earlier entry has the same name.
    SameName(Text),
    /// No type has this name.
    UnknownType(Text),
}

impl fmt::Display for FileFault {
    ghost use Rattle.std.specs.Prelude.{Some};
    ghost use Rattle.file_fault.specs.Fault.{fault_of};

    ghost output = { λ fault. Some (fault_of fault) };

    fn fmt<W: fmt::Write>(&self, f: &mut fmt::Formatter<W>) -> fmt::Result {
        match self {
            FileFault::Memory(_) => f.write_str("out of memory"),
            FileFault::NotToml => f.write_str("not TOML"),
            FileFault::BadVersion(n) => write!(f, "version {n}"),
            FileFault::UnknownKey(path) => write!(f, "unknown key {}", path.as_str()),
            FileFault::Missing(path) => write!(f, "missing {}", path.as_str()),
            FileFault::WrongKind(path) => write!(f, "wrong kind {}", path.as_str()),
            FileFault::BadText(path, fault) => write!(f, "text {} {fault}", path.as_str()),
            FileFault::OutOfRange(path) => write!(f, "out of range {}", path.as_str()),
            FileFault::BadVote(path) => write!(f, "vote {}", path.as_str()),
            FileFault::SameName(path) => write!(f, "same name {}", path.as_str()),
            FileFault::UnknownType(path) => write!(f, "unknown type {}", path.as_str()),
        }
    }
}

impl fmt::Debug for FileFault {
    fn fmt<W: fmt::Write>(&self, f: &mut fmt::Formatter<W>) -> fmt::Result {
        write!(f, "{self}")
    }
}

impl Error for FileFault {}
