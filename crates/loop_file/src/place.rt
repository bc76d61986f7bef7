//! Where a table stands in a loop file.

ghost use Rattle.std.specs.Prelude.{◌≡◌, ◌<◌, IfOk, string_bytes};
ghost use Rattle.loop_file.specs.Paths.{path_of, prefix_of, shown_byte, entry_path};

use sil_model::Text;
use std::alloc::{AllocError, Global};

/// A table of a loop file. Entries are numbered from 0.
#[derive(Clone, Copy)]
pub enum Place {
    /// The table of the whole file.
    Top,
    /// An entry of `type`.
    OfType(usize),
    /// An entry of `subsystem`.
    OfSubsystem(usize),
    /// The table `test` of an entry of `subsystem`.
    OfTest(usize),
}

/// The path of a key of a table, as `subsystem[2].test.first`.
pub fn key_path(alloc: Global, place: Place, key: &str) -> Result<Text, AllocError>
    ensures { IfOk result (λ t. t ≡ path_of place key.now) }
{
    let mut path = prefix(alloc, place)?;
    for byte in key.bytes() {
        path.push(shown(byte))?;
    }
    Text::from_str(alloc, path.as_str())
}

/// The path of an entry of an array at the top, as `type[0]`.
pub fn array_path(alloc: Global, key: &str, i: usize) -> Result<Text, AllocError>
    ensures { IfOk result (λ t. t ≡ entry_path key.now i) }
{
    let path = format!(in alloc; "{key}[{i}]")?;
    Text::from_str(alloc, path.as_str())
}

/// What stands before the keys of a table.
fn prefix(alloc: Global, place: Place) -> Result<String, AllocError>
    ensures { IfOk result (λ s. string_bytes s ≡ prefix_of place) }
{
    match place {
        Place::Top => Ok(String::new(alloc)),
        Place::OfType(i) => format!(in alloc; "type[{i}]."),
        Place::OfSubsystem(i) => format!(in alloc; "subsystem[{i}]."),
        Place::OfTest(i) => format!(in alloc; "subsystem[{i}].test."),
    }
}

/// Bytes that are no printable ASCII character show as `?`.
fn shown(byte: u8) -> char
    ensures shown { result ≡ shown_byte byte }
    ensures ascii { result < 128 }
{
    if byte >= b' ' && byte <= b'~' {
        char::from(byte)
    } else {
        '?'
    }
}
