//! The lines of phases behind a report.

use super::{ROOM, changed, ran, run_into, shelf_of};
use sil_io::MemSink;
use sil_top::Status;
use std::test::Fail;

/// How the lines of three years begin.
const STARTS: [&str; 3] = [
    "phase 1 start 0 hours 8760 mean 0.00",
    "phase 2 start 8760 hours 8760 mean 0.00",
    "phase 3 start 17520 hours 8760 mean 0.00",
];

/// Whether each line begins as its phase does.
fn are_phases(lines: &str) -> bool {
    let mut as_told = lines.lines().count() == STARTS.len();
    for (line, start) in lines.lines().zip(STARTS) {
        as_told = as_told && line.starts_with(start);
    }
    as_told
}

/// The report of three years with a test a year, and behind it a line of each. With no watcher a series that is asked for has no
/// lines.
#[test]
fn lines_of_phases(rt: HostRuntime) -> Result<(), Fail> {
    let alloc = rt.alloc();
    let years = "mission = 26280";
    let file = changed(alloc, "mission = 8760", years, "test = { every = 8760 }\n")?;
    let file = file.as_bytes();
    let (_, report) = ran(alloc, "check loop.toml", file)?;
    let (status, text) = ran(alloc, "check loop.toml --series", file)?;
    assert_eq!(rt; status, Status::Done);
    assert_eq!(rt; report.as_str().lines().count(), 7);
    let lines = text
        .as_str()
        .strip_prefix(report.as_str())
        .ok_or("no report")?;
    assert!(rt; are_phases(lines), "{lines}");
    let mut shelf = shelf_of(alloc, file)?;
    let mut sink = MemSink::new(alloc, ROOM)?;
    let _ = run_into(
        alloc,
        "check loop.toml --series",
        &mut shelf,
        &mut sink,
        false,
    )?;
    assert_eq!(rt; sink.bytes(), report.as_bytes());
    Ok(())
}
