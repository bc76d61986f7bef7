//! Why a text is refused.

use std::error::Error;
use std::fmt;

/// Why a text of a loop file is refused. As numbers the faults are 1 to 5.
#[derive(Clone, Copy, Debug, Eq, PartialEq)]
pub enum TextFault {
    /// The text is no decimal.
    NotDecimal = 1,
    /// The decimal is no whole number of units.
    TooFine = 2,
    /// The decimal is a whole number of units above the greatest one.
    TooLarge = 3,
    /// The text is no name.
    NotName = 4,
    /// The text is none of the words that are allowed at its place.
    NotChoice = 5,
}

impl fmt::Display for TextFault {
    ghost use Rattle.std.specs.Prelude.{Some};
    ghost use Rattle.sil_text.specs.Fault.{text_fault_of};

    ghost output = { λ fault. Some (text_fault_of fault) };

    fn fmt<W: fmt::Write>(&self, f: &mut fmt::Formatter<W>) -> fmt::Result {
        f.write_str(match self {
            TextFault::NotDecimal => "not a decimal",
            TextFault::TooFine => "too fine",
            TextFault::TooLarge => "too large",
            TextFault::NotName => "not a name",
            TextFault::NotChoice => "not a choice",
        })
    }
}

impl Error for TextFault {}
