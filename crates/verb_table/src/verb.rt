//! The verbs, and the kinds of their positional word.

/// What is to be done.
#[derive(Clone, Copy, Debug, PartialEq, Eq)]
pub enum Verb {
    /// Print the report of a loop file.
    Check,
    /// Print how large the loop of a file is.
    Size,
    /// Print the loop file that is made of a number.
    Gen,
    /// Check the loop that is made of a number.
    Bench,
}

/// The kind of a verb's positional word.
#[derive(Clone, Copy, Debug, PartialEq, Eq)]
pub enum Positional {
    /// Any text.
    Name,
    /// 1 to 20 digits with a value below 2^64.
    Number,
}
