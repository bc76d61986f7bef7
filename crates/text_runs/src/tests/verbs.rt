//! The table, read.

use verb_table::{Positional, Values, Verb, row_of_word, verb_rows};

/// Rows are found by their word, and options take their values alone.
#[test]
fn rows_and_values(rt: HostRuntime) {
    let verbs = [
        ("check", Verb::Check, Positional::Name, 5),
        ("size", Verb::Size, Positional::Name, 0),
        ("gen", Verb::Gen, Positional::Number, 0),
        ("bench", Verb::Bench, Positional::Number, 5),
    ];
    assert_eq!(rt; verb_rows().len(), verbs.len());
    for (word, verb, positional, choices) in verbs {
        let found = row_of_word(word).map(|row| (row.verb, row.positional, row.choices.len()));
        assert_eq!(rt; found, Some((verb, positional, choices)), "{word}");
    }
    assert!(rt; row_of_word("Check").is_none() && row_of_word("").is_none());
    let levels = Values::OneOf(&["1", "2"]);
    assert!(rt; levels.accepts("2") && !levels.accepts("3") && !levels.accepts(""));
    assert!(rt; !Values::Nothing.accepts(""));
}
