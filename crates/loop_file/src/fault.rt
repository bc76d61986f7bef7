//! What is wrong at a key of a loop file.

use sil_text::TextFault;

/// What is wrong at a key, wherever it stands.
#[derive(Clone, Copy, Debug, Eq, PartialEq)]
pub enum Flaw {
    /// No such key is known.
    UnknownKey,
    /// The key has to be there.
    Missing,
    /// The value is of another kind.
    WrongKind,
    /// The text is none that the key takes.
    BadText(TextFault),
    /// The number is out of its range.
    OutOfRange,
    /// The text is no vote.
    BadVote,
    /// An earlier entry has the name.
    SameName,
    /// No type has the name.
    UnknownType,
}
