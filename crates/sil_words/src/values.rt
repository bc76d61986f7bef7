//! The values of options, and numbers.

ghost use Rattle.std.specs.Prelude.{◌≡◌, true, false, IfOk, IfErr};
ghost use Rattle.std.specs.Char.{is_ascii_digit};
ghost use Rattle.std.specs.List.{list_all};
ghost use Rattle.std.specs.Str.Parse.{digits_value};
ghost use Rattle.verb_table.specs.Rows.{seen_choice};
ghost use Rattle.sil_words.specs.Language.{is_number, level_named, mode_named};
ghost use Rattle.sil_words.specs.Splitting.{shown, takes_told};

use crate::ask::{Mode, WordFault};
use verb_table::{ChoiceRow, Values};

/// Whether the option takes the value that it is given, if it is given one.
pub(crate) fn is_taken(choice: &ChoiceRow, value: Option<&str>) -> bool
    ensures { result ≡ takes_told (seen_choice choice.now) (shown value.entry) }
{
    match (choice.values, value) {
        (Values::Nothing, _) | (_, None) => true,
        (values, Some(value)) => values.accepts(value),
    }
}

/// The safety integrity level that a value names.
pub(crate) fn level_named(value: &str) -> Option<u8>
    ensures { result ≡ level_named value.now }
{
    match value {
        "1" => Some(1),
        "2" => Some(2),
        "3" => Some(3),
        "4" => Some(4),
        _ => None,
    }
}

/// The figures that a value names.
pub(crate) fn mode_named(value: &str) -> Mode
    ensures { result ≡ mode_named value.now }
{
    match value {
        "high" => Mode::High,
        "both" => Mode::Both,
        _ => Mode::Low,
    }
}

/// The most digits of a number.
const MOST_DIGITS: usize = 20;

/// The number that a word of digits writes.
pub(crate) fn read_number(word: &str) -> Result<u64, WordFault>
    ensures ok { IfOk result (λ n. is_number word.now ≡ true) }
    ensures value { IfOk result (λ n. n ≡ digits_value 10 word.now) }
    ensures fault { IfErr result (λ e. is_number word.now ≡ false) }
{
    if word.len() > MOST_DIGITS || !are_digits(word.as_bytes()) {
        return Err(WordFault::Usage);
    }
    match word.parse::<u64>() {
        Ok(number) => Ok(number),
        Err(_) => Err(WordFault::Usage),
    }
}

fn are_digits(text: &[u8]) -> bool
    ensures { result ≡ list_all is_ascii_digit text.now }
{
    text.iter().all(u8::is_ascii_digit)
}
