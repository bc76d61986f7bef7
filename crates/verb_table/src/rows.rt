//! The rows of the table.

ghost use Rattle.std.specs.Prelude.{◌≡◌, map, true, false, IsTrue, ◌↔◌, MatchOption, Some, None};
ghost use Rattle.verb_table.specs.Table.{accepts, row_named, verb_table};
ghost use Rattle.verb_table.specs.Rows.{seen_row, seen_values};

use crate::verb::{Positional, Verb};
use sil_watch::WatcherKind;

/// What an option takes.
#[derive(Clone, Copy)]
pub enum Values {
    /// Nothing: it is a flag.
    Nothing,
    /// One of these texts.
    OneOf(&'static [&'static str]),
}

/// What an option or a flag gives to what is asked.
#[derive(Clone, Copy)]
pub enum Meaning {
    /// The safety integrity level that the asked bands are to meet.
    Need,
    /// The figures whose bands are asked.
    Mode,
    /// A watcher of this kind is asked for.
    Watch(WatcherKind),
}

/// An option, which takes a value, or a flag, which takes none. It is spelled with two dashes before its name.
#[derive(Clone, Copy)]
pub struct ChoiceRow {
    pub name: &'static str,
    pub values: Values,
    pub is_required: bool,
    pub meaning: Meaning,
}

/// A verb, and what follows its word.
#[derive(Clone, Copy)]
pub struct VerbRow {
    pub verb: Verb,
    pub word: &'static str,
    pub positional: Positional,
    pub choices: &'static [ChoiceRow],
}

const NEED: ChoiceRow = ChoiceRow {
    name: "need",
    values: Values::OneOf(&["1", "2", "3", "4"]),
    is_required: false,
    meaning: Meaning::Need,
};

const MODE: ChoiceRow = ChoiceRow {
    name: "mode",
    values: Values::OneOf(&["low", "high", "both"]),
    is_required: false,
    meaning: Meaning::Mode,
};

const SERIES: ChoiceRow = ChoiceRow {
    name: "series",
    values: Values::Nothing,
    is_required: false,
    meaning: Meaning::Watch(WatcherKind::Series),
};

const PEAK: ChoiceRow = ChoiceRow {
    name: "peak",
    values: Values::Nothing,
    is_required: false,
    meaning: Meaning::Watch(WatcherKind::Peak),
};

const OCCUPANCY: ChoiceRow = ChoiceRow {
    name: "occupancy",
    values: Values::Nothing,
    is_required: false,
    meaning: Meaning::Watch(WatcherKind::Occupancy),
};

/// The options and flags of a verb that answers with a loop's figures.
const OF_FIGURES: &[ChoiceRow] = &[NEED, MODE, SERIES, PEAK, OCCUPANCY];

static ROWS: [VerbRow; 4] = [
    VerbRow {
        verb: Verb::Check,
        word: "check",
        positional: Positional::Name,
        choices: OF_FIGURES,
    },
    VerbRow {
        verb: Verb::Size,
        word: "size",
        positional: Positional::Name,
        choices: &[],
    },
    VerbRow {
        verb: Verb::Gen,
        word: "gen",
        positional: Positional::Number,
        choices: &[],
    },
    VerbRow {
        verb: Verb::Bench,
        word: "bench",
        positional: Positional::Number,
        choices: OF_FIGURES,
    },
];

/// The rows of all verbs, in the order of the usage text.
pub fn verb_rows() -> &'static [VerbRow]
    ensures { map seen_row result.now ≡ verb_table }
{
    ROWS.as_slice()
}

/// The row of the verb that is called by this word.
pub fn row_of_word(word: &str) -> Option<&'static VerbRow>
    ensures { MatchOption result (row_named word.now ≡ None) (λ row. row_named word.now ≡ Some (seen_row row.now)) }
{
    let rows = verb_rows();
    for row in rows {
        if row.word == word {
            return Some(row);
        }
    }
    None
}

impl Values {
    /// Whether an option that takes these takes this text.
    pub fn accepts(self, value: &str) -> bool
        ensures { result ≡ accepts (seen_values self) value.now }
    {
        match self {
            Values::Nothing => false,
            Values::OneOf(values) => values.contains(&value),
        }
    }
}
