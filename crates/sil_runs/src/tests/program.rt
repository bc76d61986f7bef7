//! The program with its own watchers.

use super::{ONE_CHANNEL, ROOM, words_of};
use sil_io::{MemShelf, MemSink};
use sil_top::{Status, run_program};
use std::test::Fail;

/// The report, and behind it the line of the one phase, whose mean is PFDavg.
#[test]
fn line_of_one_phase(rt: HostRuntime) -> Result<(), Fail> {
    let mut shelf = MemShelf::new(rt.alloc());
    shelf.put("loop.toml", ONE_CHANNEL.as_bytes())?;
    let mut sink = MemSink::new(rt.alloc(), ROOM)?;
    let words = words_of(rt.alloc(), "check loop.toml --series")?;
    let status = run_program(rt.alloc(), &words, &mut shelf, &mut sink);
    assert_eq!(rt; status, Status::Done);
    let text = std::str::from_utf8(sink.bytes()).map_err(|_| "no text")?;
    assert_eq!(rt; text.lines().count(), 8);
    let (_, line) = text.split_once("\nphase ").ok_or("no phase")?;
    assert!(rt;
        line.starts_with("1 start 0 hours 8760 mean 0.0043672383"),
        "{line}"
    );
    Ok(())
}

/// With memory at hand a name that is not there, and words with a wrong value, are not told as out of memory.
#[test]
fn other_ends(rt: HostRuntime) -> Result<(), Fail> {
    for (line, expected) in [
        ("check other.toml", Status::ReadFault),
        ("check loop.toml --need 0", Status::Usage),
        ("check loop.toml --need 03", Status::Usage),
        ("check loop.toml --mode=lower", Status::Usage),
        ("check --mode Both loop.toml", Status::Usage),
        ("bench 7 --need=SIL2", Status::Usage),
        ("bench 18446744073709551616", Status::Usage),
    ] {
        let mut shelf = MemShelf::new(rt.alloc());
        let mut sink = MemSink::new(rt.alloc(), ROOM)?;
        let words = words_of(rt.alloc(), line)?;
        let status = run_program(rt.alloc(), &words, &mut shelf, &mut sink);
        assert_eq!(rt; status, expected, "{line}");
    }
    Ok(())
}
