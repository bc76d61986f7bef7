//! The peak and the hours in each band, behind the report.

use super::figures::{holds, units};
use super::refuser::Refuser;
use super::{ONE_CHANNEL, ROOM, lines_of, shelf_of, words_of};
use sil_io::MemSink;
use sil_top::{Status, run, run_program};
use sil_watch::{Series, Watcher};
use std::alloc::Global;
use std::test::Fail;

/// What stands behind the seven lines of a report, which is that of a loop file given after its first line and with `;` in the
/// place of line feeds.
fn behind(alloc: Global, line: &str, file: &str) -> Result<String, Fail> {
    let mut whole = String::from_str(alloc, "version = 1\n")?;
    whole.push_str(lines_of(alloc, file)?.as_str())?;
    let mut shelf = shelf_of(alloc, whole.as_bytes())?;
    let mut sink = MemSink::new(alloc, 16_384)?;
    let words = words_of(alloc, line)?;
    if run_program(alloc, &words, &mut shelf, &mut sink) != Status::Done {
        return Err("no report".into());
    }
    let mut rest = std::str::from_utf8(sink.bytes()).map_err(|_| "no text")?;
    for _ in 0..7 {
        let (_, more) = rest.split_once('\n').ok_or("too few lines")?;
        rest = more;
    }
    Ok(String::from_str(alloc, rest)?)
}

/// A loop, the phase of its peak with the chance at the end of it, cut off after 18 decimals, and the hours in each band, in
/// their order.
type Row = (&'static str, &'static str, &'static str, [u32; 7]);

/// The chances are those of the exact process over full states (`tests/independent.py`), and so are the means by which the
/// phases were shared out.
const ROWS: [Row; 6] = [
    // One channel without tests: 1 - e^-x with x = 0.00876.
    (
        "mission = 8760;[[subsystem]];name = 'sif';vote = '1oo1';du = '1.0E-6';repair = 8;",
        "1",
        "0.008721742991964443",
        [0, 0, 0, 8760, 0, 0, 0],
    ),
    // A channel that fails at its test alone, and stays down.
    (
        "mission = 100;[[subsystem]];name = 'sif';vote = '1oo1';du = '0';restart_fault = '0.02';repair = 8;test = { first = 50, every = 100 };",
        "2",
        "0.020000000000000000",
        [50, 0, 0, 0, 50, 0, 0],
    ),
    // The same with a chance at the edge of two bands.
    (
        "mission = 100;[[subsystem]];name = 'sif';vote = '1oo1';du = '0';restart_fault = '0.1';repair = 8;test = { first = 50, every = 100 };",
        "2",
        "0.100000000000000000",
        [50, 0, 0, 0, 0, 0, 50],
    ),
    // Staggered valves.
    (
        "mission = 26280;[[subsystem]];name = 'valves';vote = '1oo2';du = '2.0E-6';repair = 24;test = { every = 8760, stagger = 4380 };",
        "1",
        "0.000301627179612219",
        [0, 13_140, 13_140, 0, 0, 0, 0],
    ),
    // Valves with partial strokes.
    (
        "mission = 43800;[[subsystem]];name = 'valves';vote = '1oo2';du = '2.0E-6';beta = '0.1';coverage = '0.7';repair = 24;test = { every = 2190, full_each = 4 };",
        "4",
        "0.000886219909786684",
        [0, 0, 43_800, 0, 0, 0, 0],
    ),
    // One valve, of whose tests only each eighth finds all: in the last three phases before such a test its mean is above 0.01.
    (
        "mission = 35040;[[subsystem]];name = 'valve';vote = '1oo1';du = '2.0E-6';coverage = '0.6';repair = 24;test = { every = 2190, full_each = 8 };",
        "8",
        "0.016489988658606259",
        [0, 0, 0, 21_900, 13_140, 0, 0],
    ),
];

/// How wide the interval of a peak may be here: 10^-10.
const WIDEST: u128 = 100_000_000;

/// The lines of an occupancy.
fn hours_text(alloc: Global, hours: [u32; 7]) -> Result<String, Fail> {
    let bands = [
        "beyond SIL 4",
        "SIL 4",
        "SIL 3",
        "SIL 2",
        "SIL 1",
        "no SIL",
        "undecided",
    ];
    let mut text = String::new(alloc);
    for (band, hours) in bands.into_iter().zip(hours) {
        text.push_str(format!(in alloc; "hours {band} {hours}\n")?.as_str())?;
    }
    Ok(text)
}

/// The line of the peak, and then the lines of the hours, whichever of their flags stands first.
#[test]
fn peaks_and_hours(rt: HostRuntime) -> Result<(), Fail> {
    let alloc = rt.alloc();
    for (file, phase, figure, hours) in ROWS {
        let told = behind(alloc, "check loop.toml --occupancy --peak", file)?;
        let start = format!(in alloc; "peak phase {phase} end ")?;
        let (line, rest) = told.as_str().split_once('\n').ok_or("no line")?;
        let ends = line.strip_prefix(start.as_str()).ok_or("another phase")?;
        let (lo, hi) = ends.split_once(" .. ").ok_or("no ends")?;
        assert!(rt;
            holds(units(lo), units(hi), units(figure), WIDEST),
            "{line}"
        );
        assert_eq!(rt; rest, hours_text(alloc, hours)?.as_str(), "{file}");
    }
    Ok(())
}

/// The flags in each order, with the name anywhere among them.
const ORDERS: [&str; 6] = [
    "check loop.toml --series --peak --occupancy",
    "check --series loop.toml --occupancy --peak",
    "check --peak --series --occupancy loop.toml",
    "check --peak --occupancy loop.toml --series",
    "check --need 1 --occupancy --series --peak loop.toml",
    "check --occupancy --peak --series -- loop.toml",
];

/// In whichever order the flags stand: the lines of the series, that of the peak, and those of the hours.
#[test]
fn flags_in_each_order(rt: HostRuntime) -> Result<(), Fail> {
    let alloc = rt.alloc();
    let (file, ..) = ROWS[3];
    let mut all = behind(alloc, "check loop.toml --series", file)?;
    assert_eq!(rt; all.as_str().lines().count(), 5);
    all.push_str(behind(alloc, "check loop.toml --peak", file)?.as_str())?;
    assert_eq!(rt; all.as_str().lines().count(), 6);
    all.push_str(behind(alloc, "check loop.toml --occupancy", file)?.as_str())?;
    assert_eq!(rt; all.as_str().lines().count(), 13);
    for line in ORDERS {
        assert_eq!(rt; behind(alloc, line, file)?.as_str(), all.as_str(), "{line}");
    }
    Ok(())
}

/// A drawn loop has the same lines as its file has.
#[test]
fn a_drawn_loop_has_them_too(rt: HostRuntime) -> Result<(), Fail> {
    let alloc = rt.alloc();
    let mut shelf = shelf_of(alloc, b"")?;
    let mut sink = MemSink::new(alloc, ROOM)?;
    let words = words_of(alloc, "bench --occupancy 7 --peak")?;
    assert_eq!(rt;
        run_program(alloc, &words, &mut shelf, &mut sink),
        Status::Done
    );
    let mut file = MemSink::new(alloc, ROOM)?;
    let words = words_of(alloc, "gen 7")?;
    assert_eq!(rt;
        run_program(alloc, &words, &mut shelf, &mut file),
        Status::Done
    );
    let mut shelf = shelf_of(alloc, file.bytes())?;
    let mut checked = MemSink::new(alloc, ROOM)?;
    let words = words_of(alloc, "check loop.toml --peak --occupancy")?;
    assert_eq!(rt;
        run_program(alloc, &words, &mut shelf, &mut checked),
        Status::Done
    );
    assert_eq!(rt; sink.bytes(), checked.bytes());
    let text = std::str::from_utf8(sink.bytes()).map_err(|_| "no text")?;
    assert!(rt; text.contains("\npeak phase ") && text.lines().count() == 15);
    Ok(())
}

/// A watcher that refuses its record ends the run out of memory, with nothing written, where its kind is asked for.
#[test]
fn a_peak_that_refuses(rt: HostRuntime) -> Result<(), Fail> {
    let alloc = rt.alloc();
    for (line, status) in [
        ("check loop.toml --peak", Status::Memory),
        ("check loop.toml --series --peak", Status::Memory),
        ("check loop.toml --series", Status::Done),
        ("check loop.toml", Status::Done),
    ] {
        let mut watchers: Vec<Box<dyn Watcher>> = Vec::new(alloc);
        watchers.push(Box::new(alloc, Series::new(alloc))?)?;
        watchers.push(Box::new(alloc, Refuser::new())?)?;
        let mut shelf = shelf_of(alloc, ONE_CHANNEL.as_bytes())?;
        let mut sink = MemSink::new(alloc, ROOM)?;
        let words = words_of(alloc, line)?;
        let found = run(alloc, &words, &mut shelf, &mut sink, watchers);
        assert_eq!(rt; found, status, "{line}");
        assert_eq!(rt; sink.bytes().is_empty(), status == Status::Memory);
    }
    Ok(())
}
