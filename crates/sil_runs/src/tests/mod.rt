//! The texts and the statuses of whole runs, and reports against figures from outside.

mod drawn;
mod faults;
mod figures;
mod files;
mod lines;
mod program;
mod refusals;
mod refuser;
mod reports;
mod series;
mod sizes;
mod watchers;
mod whole_runs;
mod years;

use sil_io::{MemShelf, MemSink};
use sil_top::{Status, run};
use sil_watch::{Series, Watcher};
use std::alloc::{AllocError, Global};
use std::test::Fail;

/// One channel without tests, for a year.
const ONE_CHANNEL: &str =
    "version = 1\nmission = 8760\n[[subsystem]]\nname = 'sif'\nvote = '1oo1'\ndu = '1.0E-6'\nrepair = 8\n";

/// Room for the text of every run here.
const ROOM: usize = 4000;

/// The words of a line, which blanks separate.
fn words_of(alloc: Global, line: &str) -> Result<Vec<String>, AllocError> {
    let mut words = Vec::new(alloc);
    for word in line.split_whitespace() {
        words.push(String::from_str(alloc, word)?)?;
    }
    Ok(words)
}

/// The status of a run over this shelf into this sink, perhaps with a series.
fn run_into(
    alloc: Global,
    line: &str,
    shelf: &mut MemShelf,
    sink: &mut MemSink,
    with_series: bool,
) -> Result<Status, AllocError> {
    let words = words_of(alloc, line)?;
    let mut watchers: Vec<Box<dyn Watcher>> = Vec::new(alloc);
    if with_series {
        watchers.push(Box::new(alloc, Series::new(alloc))?)?;
    }
    Ok(run(alloc, &words, shelf, sink, watchers))
}

/// The status and the text of a run over this shelf with a series, into a sink that fails after so many bytes.
fn ran_over(
    alloc: Global,
    line: &str,
    shelf: &mut MemShelf,
    fail_after: usize,
) -> Result<(Status, String), Fail> {
    let mut sink = MemSink::new(alloc, ROOM)?;
    sink.fail_after(fail_after);
    let status = run_into(alloc, line, shelf, &mut sink, true)?;
    let text = std::str::from_utf8(sink.bytes()).map_err(|_| "no text")?;
    Ok((status, String::from_str(alloc, text)?))
}

/// A shelf that holds one file, `loop.toml`.
fn shelf_of(alloc: Global, file: &[u8]) -> Result<MemShelf, AllocError> {
    let mut shelf = MemShelf::new(alloc);
    shelf.put("loop.toml", file)?;
    Ok(shelf)
}

/// The status and the text of a run over a shelf that holds one file, `loop.toml`.
fn ran(alloc: Global, line: &str, file: &[u8]) -> Result<(Status, String), Fail> {
    let mut shelf = shelf_of(alloc, file)?;
    ran_over(alloc, line, &mut shelf, ROOM)
}

/// The text of a run over a loop file, which is given after its first line and with `;` in the place of line feeds.
fn report_of(alloc: Global, line: &str, file: &str) -> Result<String, Fail> {
    let mut whole = String::from_str(alloc, "version = 1\n")?;
    whole.push_str(lines_of(alloc, file)?.as_str())?;
    let (status, text) = ran(alloc, line, whole.as_bytes())?;
    if status != Status::Done {
        return Err("no report".into());
    }
    Ok(text)
}

/// Whether a run over this file ends with this status and this text.
fn answers(
    alloc: Global,
    line: &str,
    file: &[u8],
    status: Status,
    told: &str,
) -> Result<bool, Fail> {
    let (found, text) = ran(alloc, line, file)?;
    Ok(found == status && text.as_str() == told)
}

/// The first column of a row, and the others, with a bar between two of them.
fn cut(row: &str) -> Result<(&str, &str), Fail> {
    Ok(row.split_once('|').ok_or("too few columns")?)
}

/// A text whose lines end with `;` here.
fn lines_of(alloc: Global, text: &str) -> Result<String, AllocError> {
    text.replace(alloc, ";", "\n")
}

/// The file of one channel with some of its text replaced, and with more text at its end.
fn changed(alloc: Global, part: &str, by: &str, more: &str) -> Result<String, AllocError> {
    let mut file = ONE_CHANNEL.replacen(alloc, part, by, 1)?;
    file.push_str(more)?;
    Ok(file)
}

/// The exit status of the program is the number of its status.
#[test]
fn exit_statuses(rt: HostRuntime) {
    for (status, number) in [
        (Status::Done, 0),
        (Status::NotShown, 1),
        (Status::Usage, 2),
        (Status::FileRefused, 3),
        (Status::ReadFault, 4),
        (Status::WriteFault, 5),
        (Status::Memory, 6),
    ] {
        assert_eq!(rt; status as u8, number);
    }
}
