//! The words of a run: what they ask for.
//!
//! [`read_words`] reads the words after the program's own name into an [`Ask`]. Which lists of words are in the language,
//! and what each asks for, is said in `specs/Language.antt` over whole lists and by the table of `verb_table`: a verb's
//! word, then options and flags with their values, one positional word, and perhaps `--` before words that are all
//! positional. `clap` splits the words; the values and the positional word are checked after it.
#![tactic(auto)]

mod ask;
mod law;
mod read;
mod split;
mod values;

pub use ask::{Ask, Mode, WordFault};
pub use law::one_ask_law;
pub use read::read_words;
pub use verb_table::Verb;
