//! The words of a run, read.

ghost use Rattle.std.specs.Prelude.{◌≡◌, map, string_bytes, true, false, IfOk, IfErr, IfSome};
ghost use Rattle.std.specs.Option.{option_map_or};
ghost use Rattle.verb_table.specs.Rows.{seen_choice, seen_row};
ghost use Rattle.verb_table.specs.Table.{IsCalled};
ghost use Rattle.sil_words.specs.Language.{Asks, AsksAfter, IsInLanguage, IsLevel, IsReading, Reading, is_positional, name_asked, number_asked, with_choice, with_choices};
ghost use Rattle.sil_words.specs.Splitting.{are_taken, shown, told_by};
ghost use Rattle.sil_words.specs.declared.ask.WordFault.TheVariants.{Usage};

use crate::ask::{Ask, Mode, WordFault};
use crate::split::{POSITION, split_words};
use crate::values::{is_taken, read_number};
use clap::ArgMatches;
use clap::parser::ValueSource;
use sil_model::Text;
use sil_watch::WatchSet;
use std::alloc::Global;
use verb_table::{ChoiceRow, Positional, VerbRow, row_of_word};

/// Reads the words after the program's own name.
///
/// `Usage` comes exactly where the words are not in the language, and `Memory` says nothing of them.
pub fn read_words(alloc: Global, words: &[String]) -> Result<Ask, WordFault>
    ensures ok { IfOk result (Asks (map string_bytes words.now)) }
    ensures need { IfOk result (λ a. IfSome a.need IsLevel) }
    ensures usage { IfErr result (λ e. e ≡ Usage → IsInLanguage (map string_bytes words.now) → ⊥) }
{
    match words {
        [first, rest @ ..] => match row_of_word(first.as_str()) {
            Some(row) => read_after(alloc, row, rest),
            None => Err(WordFault::Usage),
        },
        [] => Err(WordFault::Usage),
    }
}

// Reads the words after the verb of a row.
fn read_after(alloc: Global, row: &VerbRow, words: &[String]) -> Result<Ask, WordFault>
    requires { IsCalled (seen_row row.now) }
    ensures ok { IfOk result (AsksAfter (seen_row row.now) (map string_bytes words.now)) }
    ensures need { IfOk result (λ a. IfSome a.need IsLevel) }
    ensures usage { IfErr result (λ e. e ≡ Usage → (r : Reading) → IsReading (seen_row row.now) (map string_bytes words.now) r → ⊥) }
{
    let matches = split_words(alloc, row, words)?;
    if !are_options_taken(&matches, row.choices) {
        return Err(WordFault::Usage);
    }
    let (name, number) = read_positional(row.positional, told(&matches, POSITION))?;
    let name = match Text::from_str(alloc, name) {
        Ok(name) => name,
        Err(e) => return Err(WordFault::Memory(e)),
    };
    let mut ask = Ask {
        verb: row.verb,
        name,
        number,
        need: None,
        mode: Mode::Low,
        watch: WatchSet::empty(),
    };
    take_choices(&matches, row.choices, &mut ask);
    Ok(ask)
}

// The value that stands under a name in the words.
fn told<'a>(matches: &ArgMatches<'a>, name: &str) -> Option<&'a str>
    ensures { shown result ≡ told_by matches.now name.now }
{
    match matches.value_source(name) {
        Some(ValueSource::CommandLine) => matches.get_str(name),
        _ => None,
    }
}

// Whether each option takes the value that it is given.
fn are_options_taken(matches: &ArgMatches, choices: &[ChoiceRow]) -> bool
    ensures { result ≡ are_taken (map seen_choice choices.now) (told_by matches.now) }
{
    for choice in choices {
        if !is_taken(choice, told(matches, choice.name)) {
            return false;
        }
    }
    true
}

// Takes in what each option and flag gives that stands in the words.
fn take_choices(matches: &ArgMatches, choices: &[ChoiceRow], ask: &mut Ask)
    ensures { ask.new ≡ with_choices (told_by matches.now) ask.old (map seen_choice choices.now) }
{
    for choice in choices {
        take_choice(matches, choice, ask);
    }
}

fn take_choice(matches: &ArgMatches, choice: &ChoiceRow, ask: &mut Ask)
    ensures { ask.new ≡ with_choice (told_by matches.now) ask.old (seen_choice choice.now) }
{
    if let Some(value) = told(matches, choice.name) {
        ask.take(choice.meaning, value);
    }
}

// The name, and the number, that the positional word gives.
fn read_positional<'a>(
    positional: Positional,
    word: Option<&'a str>,
) -> Result<(&'a str, u64), WordFault>
    ensures ok { IfOk result (λ p. option_map_or (is_positional positional) (shown word.entry) false ≡ true) }
    ensures name { IfOk result (λ p. p.0.now ≡ name_asked positional (shown word.entry)) }
    ensures number { IfOk result (λ p. p.1 ≡ number_asked positional (shown word.entry)) }
    ensures fault { IfErr result (λ e. option_map_or (is_positional positional) (shown word.entry) false ≡ false) }
{
    let Some(word) = word else {
        return Err(WordFault::Usage);
    };
    match positional {
        Positional::Name => Ok((word, 0)),
        Positional::Number => Ok(("", read_number(word)?)),
    }
}
