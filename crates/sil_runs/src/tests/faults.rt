//! Files that are not there, shelves that fail, and sinks that take no more.

use super::{ONE_CHANNEL, ROOM, changed, ran, ran_over, run_into, shelf_of};
use sil_io::MemSink;
use sil_top::Status;
use std::alloc::Global;
use std::test::Fail;

/// A line, whether a pick fails, after how many bytes the sink fails, and the status and the text that follow.
type Row = (&'static str, bool, usize, Status, &'static str);

/// Of a name that the shelf does not hold, and where a pick fails, nothing is written. A sink that fails after ten bytes has the
/// first ten bytes of each text.
const ROWS: [Row; 10] = [
    (
        "check other.toml --need 1",
        false,
        ROOM,
        Status::ReadFault,
        "",
    ),
    ("size other.toml", false, ROOM, Status::ReadFault, ""),
    (
        "check loop.toml",
        false,
        10,
        Status::WriteFault,
        "mission 87",
    ),
    (
        "check loop.toml --need 4",
        false,
        10,
        Status::WriteFault,
        "mission 87",
    ),
    (
        "size loop.toml",
        false,
        10,
        Status::WriteFault,
        "mission 87",
    ),
    ("gen 7", false, 10, Status::WriteFault, "mission = "),
    ("gen seven", false, 10, Status::WriteFault, "usage: sil"),
    ("check loop.toml", true, ROOM, Status::ReadFault, ""),
    (
        "check loop.toml --series",
        true,
        ROOM,
        Status::ReadFault,
        "",
    ),
    ("size loop.toml", true, ROOM, Status::ReadFault, ""),
];

#[test]
fn names_picks_and_sinks(rt: HostRuntime) -> Result<(), Fail> {
    for (line, pick_fails, fail_after, status, told) in ROWS {
        let mut shelf = shelf_of(rt.alloc(), ONE_CHANNEL.as_bytes())?;
        if pick_fails {
            shelf.fail_pick();
        }
        let (found, text) = ran_over(rt.alloc(), line, &mut shelf, fail_after)?;
        assert!(rt; found == status && text.as_str() == told, "{line}");
    }
    // Where no file is asked for, none is picked.
    let mut shelf = shelf_of(rt.alloc(), ONE_CHANNEL.as_bytes())?;
    shelf.fail_pick();
    let (status, _) = ran_over(rt.alloc(), "gen 7", &mut shelf, ROOM)?;
    assert_eq!(rt; status, Status::Done);
    Ok(())
}

/// A file takes one read, and its end another: whichever of them fails, nothing is written.
#[test]
fn read_that_fails(rt: HostRuntime) -> Result<(), Fail> {
    for planned in 0..4u32 {
        for line in ["check loop.toml --series", "size loop.toml"] {
            let mut shelf = shelf_of(rt.alloc(), ONE_CHANNEL.as_bytes())?;
            shelf.fail_read_at(planned);
            let (status, text) = ran_over(rt.alloc(), line, &mut shelf, ROOM)?;
            let fails = status == Status::ReadFault && text.is_empty();
            assert!(rt;
                fails == (planned == 1 || planned == 2),
                "{line}: read {planned}"
            );
        }
    }
    Ok(())
}

/// Whether a sink that fails, or stalls, after so many bytes has just these bytes of a text.
fn is_cut(
    alloc: Global,
    line: &str,
    file: &[u8],
    whole: &[u8],
    taken: usize,
    stalls: bool,
) -> Result<bool, Fail> {
    let mut shelf = shelf_of(alloc, file)?;
    let mut sink = MemSink::new(alloc, ROOM)?;
    if stalls {
        sink.stall_after(taken);
    } else {
        sink.fail_after(taken);
    }
    let status = run_into(alloc, line, &mut shelf, &mut sink, true)?;
    Ok(status == Status::WriteFault && whole.get(..taken) == Some(sink.bytes()))
}

/// A sink that fails or stalls after each number of bytes.
#[test]
fn sink_that_stops_at_each_byte(rt: HostRuntime) -> Result<(), Fail> {
    let file = changed(rt.alloc(), "8760", "100", "test = { every = 50 }\n")?;
    let file = file.as_bytes();
    for line in ["size loop.toml", "check loop.toml --series"] {
        let (_, whole) = ran(rt.alloc(), line, file)?;
        for taken in 0..whole.len() {
            for stalls in [false, true] {
                assert!(rt;
                    is_cut(rt.alloc(), line, file, whole.as_bytes(), taken, stalls)?,
                    "{line}: {taken}"
                );
            }
        }
    }
    Ok(())
}
