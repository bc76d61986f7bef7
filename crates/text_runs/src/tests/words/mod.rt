//! Worked words, and what they ask for.

mod lines;

use lines::LINES;
use sil_watch::{WatchSet, WatcherKind};
use sil_words::{Ask, Mode, Verb, WordFault, read_words};
use std::alloc::{AllocError, Global};
use std::test::Fail;

/// The words of a line, which `|` separates.
fn words_of(alloc: Global, line: &str) -> Result<Vec<String>, AllocError> {
    let mut words = Vec::new(alloc);
    for word in line.split('|') {
        words.push(String::from_str(alloc, word)?)?;
    }
    Ok(words)
}

/// What they ask for.
fn read(alloc: Global, line: &str) -> Result<Ask, WordFault> {
    match words_of(alloc, line) {
        Ok(words) => read_words(alloc, words.as_slice()),
        Err(e) => Err(WordFault::Memory(e)),
    }
}

fn verb_text(verb: Verb) -> &'static str {
    match verb {
        Verb::Check => "check",
        Verb::Size => "size",
        Verb::Gen => "gen",
        Verb::Bench => "bench",
    }
}

fn mode_text(mode: Mode) -> &'static str {
    match mode {
        Mode::Low => "low",
        Mode::High => "high",
        Mode::Both => "both",
    }
}

/// The watchers that are asked for, as the table of lines writes them.
fn watch_number(asked: WatchSet) -> u8 {
    let series = u8::from(asked.contains(WatcherKind::Series));
    let peak = u8::from(asked.contains(WatcherKind::Peak));
    let occupancy = u8::from(asked.contains(WatcherKind::Occupancy));
    series + 2 * peak + 4 * occupancy
}

/// An answer as the table of lines writes it.
fn answer_text(alloc: Global, answer: Result<Ask, WordFault>) -> Result<String, AllocError> {
    match answer {
        Ok(ask) => {
            let verb = verb_text(ask.verb);
            let number = ask.number;
            let need = match ask.need {
                Some(need) => format!(in alloc; "{need}")?,
                None => String::from_str(alloc, "-")?,
            };
            let mode = mode_text(ask.mode);
            let watch = watch_number(ask.watch);
            let name = ask.name.as_str();
            format!(in alloc; "{verb} {number} {need} {mode} {watch} [{name}]")
        }
        Err(WordFault::Usage) => String::from_str(alloc, "usage"),
        Err(WordFault::Memory(e)) => Err(e),
    }
}

#[test]
fn lines_ask_as_the_grammar_says(rt: HostRuntime) -> Result<(), Fail> {
    for row in LINES.lines() {
        let (line, expected) = row.split_once(" => ").unwrap_or((row, ""));
        let answer = answer_text(rt.alloc(), read(rt.alloc(), line))?;
        assert_eq!(rt; answer.as_str(), expected, "{line}");
    }
    assert!(rt; matches!(read_words(rt.alloc(), &[]), Err(WordFault::Usage)));
    Ok(())
}
