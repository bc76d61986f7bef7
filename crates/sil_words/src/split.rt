//! The words after a verb, split by `clap`.

ghost use Rattle.std.specs.Prelude.{◌≡◌, ◌≢◌, false, map, string_bytes, IfOk, IfErr};
ghost use Rattle.clap.specs.Simple.{app_of};
ghost use Rattle.clap.specs.Walk.{rule_of};
ghost use Rattle.clap.specs.Values.{kind_of};
ghost use Rattle.clap.specs.declared.error.kind.ErrorKind.TheVariants.{OutOfMemory};
ghost use Rattle.verb_table.specs.Rows.{seen_choice, seen_row};
ghost use Rattle.verb_table.specs.Table.{IsCalled};
ghost use Rattle.sil_words.specs.Language.{Reading};
ghost use Rattle.sil_words.specs.Splitting.{IsSplit, TellsOf, command_of, rule_for};
ghost use Rattle.sil_words.specs.declared.ask.WordFault.TheVariants.{Usage};

use crate::ask::WordFault;
use clap::error::ErrorKind;
use clap::{Arg, ArgAction, ArgMatches, Command, Error};
use std::alloc::{AllocError, Global};
use verb_table::{ChoiceRow, Values, VerbRow};

/// The name under which the positional word is found. No option has it.
pub(crate) const POSITION: &str = "WORD";

/// Splits the words after the verb of a row. The values of options and the positional word are not looked at.
pub(crate) fn split_words<'a>(
    alloc: Global,
    row: &VerbRow,
    words: &'a [String],
) -> Result<ArgMatches<'a>, WordFault>
    requires { IsCalled (seen_row row.now) }
    ensures ok { IfOk result (TellsOf (seen_row row.now).choices (map string_bytes words.entry.now)) }
    ensures fault { IfErr result (λ e. e ≡ Usage → (r : Reading) → IsSplit (seen_row row.now).choices (map string_bytes words.entry.now) r → ⊥) }
{
    let parsed = match command_for(alloc, row.choices) {
        Ok(command) => command.try_get_matches_from(words),
        Err(e) => return Err(WordFault::Memory(e)),
    };
    match parsed {
        Ok(matches) => Ok(matches),
        Err(e) => Err(fault_from(&e)),
    }
}

// The command that takes these options and a positional word.
fn command_for<'a>(alloc: Global, choices: &[ChoiceRow]) -> Result<Command<'a>, AllocError>
    ensures { IfOk result (λ c. app_of c ≡ command_of (map seen_choice choices.now)) }
{
    let mut command = Command::new(alloc, "sil")
        .no_binary_name(true)
        .disable_help_flag(true);
    for choice in choices {
        command = command.arg(arg_for(alloc, choice))?;
    }
    let position = Arg::new(alloc, POSITION)
        .required(true)
        .action(ArgAction::Set);
    command.arg(position)
}

fn arg_for<'a>(alloc: Global, choice: &ChoiceRow) -> Arg<'a>
    ensures rule { rule_of result ≡ rule_for (seen_choice choice.now) }
    ensures local { result.global ≡ false }
{
    let action = match choice.values {
        Values::Nothing => ArgAction::SetTrue,
        _ => ArgAction::Set,
    };
    Arg::new(alloc, choice.name)
        .long(choice.name)
        .action(action)
        .required(choice.is_required)
}

fn fault_from(e: &Error) -> WordFault
    ensures { result ≡ Usage → kind_of e.now ≢ OutOfMemory }
{
    match e.kind() {
        ErrorKind::OutOfMemory => WordFault::Memory(AllocError),
        _ => WordFault::Usage,
    }
}
