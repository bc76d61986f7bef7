//! The verbs of the program, as one table of data.
//!
//! A [`VerbRow`] says by which word a verb is called, which kind of positional word follows it, and its options and flags
//! with what they take and mean. The words of a run are read by it: a new verb is a variant of [`Verb`] and a row here, with
//! the same row in `specs/Table.antt`, which [`verb_rows`] is proved to be. [`usage_text`] is proved to be that of the table.
#![tactic(auto)]

mod rows;
mod usage;
mod verb;

pub use rows::{ChoiceRow, Meaning, Values, VerbRow, row_of_word, verb_rows};
pub use usage::usage_text;
pub use verb::{Positional, Verb};
