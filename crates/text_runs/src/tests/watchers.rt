//! Watchers that are fed, alone and in a list, and their lines.

use sil_model::Decimal18;
use sil_watch::{
    Occupancy, Peak, PhaseRecord, Series, WatchSet, Watcher, WatcherKind, feed, put_lines,
};
use std::alloc::{AllocError, Global};
use std::test::Fail;

const FIRST: &[u8] =
    b"phase 1 start 0 hours 8760 mean 0.000000000000000007 .. 0.500000000000000000 end 0.250000000000000000 .. 1.000000000000000000\n";

const SECOND: &[u8] =
    b"phase 2 start 0 hours 8760 mean 0.000000000000000007 .. 0.500000000000000000 end 0.250000000000000000 .. 1.000000000000000000\n";

const fn record(index: u32) -> PhaseRecord {
    PhaseRecord {
        index,
        start: 0,
        hours: 8760,
        mean: Decimal18 {
            lo: 7,
            hi: 500_000_000_000_000_000,
        },
        at_end: Decimal18 {
            lo: 250_000_000_000_000_000,
            hi: 1_000_000_000_000_000_000,
        },
    }
}

/// The lines of a watcher, one behind the other.
fn lines(alloc: Global, w: &Box<dyn Watcher>) -> Result<Vec<u8>, AllocError> {
    let mut out = Vec::new(alloc);
    for i in 0..10 {
        if !w.put_line(i, &mut out)? {
            break;
        }
    }
    Ok(out)
}

/// A series has one line for each record, and watchers in a list are fed, and tell their lines, where they are asked for.
#[test]
fn watchers_tell_lines(rt: HostRuntime) -> Result<(), Fail> {
    let alloc = rt.alloc();
    let mut series = Series::new(alloc);
    let mut out = [b'>'].to_vec(alloc)?;
    assert!(rt; !series.put_line(0, &mut out)?);
    series.phase(&record(1))?;
    assert!(rt; !series.put_line(1, &mut out)?);
    assert_eq!(rt; out.as_slice(), b">".as_slice());
    assert!(rt; series.put_line(0, &mut out)?);
    assert_eq!(rt; &out.as_slice()[1..], FIRST);
    assert_eq!(rt; series.kind(), WatcherKind::Series);
    let mut all: Vec<Box<dyn Watcher>> = Vec::new(alloc);
    all.push(Box::new(alloc, Series::new(alloc))?)?;
    all.push(Box::new(alloc, Series::new(alloc))?)?;
    let nobody = WatchSet::empty();
    let asked = WatchSet::only(WatcherKind::Series);
    feed(all.as_mut_slice(), nobody, &record(1))?;
    assert_eq!(rt; lines(alloc, &all[0])?.as_slice(), b"".as_slice());
    feed(all.as_mut_slice(), asked, &record(1))?;
    assert_eq!(rt; lines(alloc, &all[0])?.as_slice(), FIRST);
    assert_eq!(rt; lines(alloc, &all[1])?.as_slice(), FIRST);
    feed(all.as_mut_slice(), asked, &record(2))?;
    let mut told = Vec::new(alloc);
    put_lines(all.as_slice(), nobody, &mut told)?;
    assert!(rt; told.is_empty());
    put_lines(all.as_slice(), asked, &mut told)?;
    let mut both = FIRST.to_vec(alloc)?;
    both.extend_from_slice(SECOND)?;
    both.extend_from_slice(FIRST)?;
    both.extend_from_slice(SECOND)?;
    assert_eq!(rt; told.as_slice(), both.as_slice());
    Ok(())
}

/// A record whose chance at the end lies between `lo` and `width` more, in units of 10^-18.
fn ending(index: u32, lo: u32, width: u32) -> PhaseRecord {
    PhaseRecord {
        index,
        start: 0,
        hours: 8760,
        mean: Decimal18 { lo: 7, hi: 7 },
        at_end: Decimal18 {
            lo: u128::from(lo),
            hi: u128::from(lo) + u128::from(width),
        },
    }
}

/// A record of these hours whose mean lies between `lo` and `width` more, in units of 10^-9, and which ends in no SIL.
fn lasting(hours: u64, lo: u32, width: u32) -> PhaseRecord {
    PhaseRecord {
        index: 1,
        start: 0,
        hours,
        mean: Decimal18 {
            lo: u128::from(lo) * 1_000_000_000,
            hi: (u128::from(lo) + u128::from(width)) * 1_000_000_000,
        },
        at_end: Decimal18 {
            lo: 500_000_000_000_000_000,
            hi: 500_000_000_000_000_000,
        },
    }
}

/// A peak has no line before its first record, and then that of the first phase with the greatest upper end.
#[test]
fn a_peak_tells_of_one_phase(rt: HostRuntime) -> Result<(), Fail> {
    let alloc = rt.alloc();
    let mut peak = Peak::new();
    let mut out = [b'>'].to_vec(alloc)?;
    assert!(rt; !peak.put_line(0, &mut out)?);
    assert_eq!(rt; peak.kind(), WatcherKind::Peak);
    let first = "peak phase 1 end 0.000000000000000003 .. 0.000000000000000005\n";
    let fourth = "peak phase 4 end 0.000000000000000000 .. 0.000000000000000009\n";
    let last = "peak phase 4294967295 end 0.000000000000000001 .. 0.000000004294967296\n";
    for (index, lo, width, line) in [
        (1, 3, 2, first),
        // A greater lower end with a smaller upper end, and then the same upper end.
        (2, 4, 0, first),
        (3, 5, 0, first),
        (4, 0, 9, fourth),
        (5, 8, 0, fourth),
        (6, 9, 0, fourth),
        (4_294_967_295, 1, 4_294_967_295, last),
    ] {
        peak.phase(&ending(index, lo, width))?;
        let mut told = Vec::new(alloc);
        assert!(rt; peak.put_line(0, &mut told)?);
        assert_eq!(rt; told.as_slice(), line.as_bytes(), "phase {index}");
        assert!(rt; !peak.put_line(1, &mut out)?);
    }
    assert_eq!(rt; out.as_slice(), b">".as_slice());
    Ok(())
}

/// An occupancy tells the hours in each band, each band with its lower end, and no more hours than a number holds.
#[test]
fn an_occupancy_adds_up_hours(rt: HostRuntime) -> Result<(), Fail> {
    let alloc = rt.alloc();
    assert_eq!(rt; Occupancy::new().kind(), WatcherKind::Occupancy);
    let mut w: Box<dyn Watcher> = Box::new(alloc, Occupancy::new())?;
    assert_eq!(rt; lines(alloc, &w)?.as_slice(), NO_HOURS.as_bytes());
    for (hours, lo, width) in [
        (1, 0, 9_999),
        (10, 10_000, 89_999),
        (100, 100_000, 0),
        (1_000, 999_999, 1),
        (10_000, 1_000_000, 0),
        (100_000, 10_000_000, 89_999_999),
        (1_000_000, 100_000_000, 4_000_000_000),
        (20, 20_000, 0),
        (2_000, 9_999, 1),
    ] {
        w.phase(&lasting(hours, lo, width))?;
    }
    assert_eq!(rt; lines(alloc, &w)?.as_slice(), SOME_HOURS.as_bytes());
    w.phase(&lasting(18_446_744_073_709_551_615, 10_000, 0))?;
    w.phase(&lasting(1, 10_000, 0))?;
    let told = lines(alloc, &w)?;
    let second = told.split(|byte| *byte == b'\n').nth(1);
    assert_eq!(rt;
        second,
        Some(b"hours SIL 4 18446744073709551615".as_slice())
    );
    Ok(())
}

const NO_HOURS: &str = "\
hours beyond SIL 4 0
hours SIL 4 0
hours SIL 3 0
hours SIL 2 0
hours SIL 1 0
hours no SIL 0
hours undecided 0
";

const SOME_HOURS: &str = "\
hours beyond SIL 4 1
hours SIL 4 30
hours SIL 3 100
hours SIL 2 10000
hours SIL 1 100000
hours no SIL 1000000
hours undecided 3000
";

/// Each watcher of a list is fed, and tells its lines, where its own kind is asked for.
#[test]
fn watchers_are_asked_for_by_their_kinds(rt: HostRuntime) -> Result<(), Fail> {
    let alloc = rt.alloc();
    let peak = "peak phase 1 end 0.250000000000000000 .. 1.000000000000000000\n";
    let hours = "hours undecided 8760\n";
    for (kind, first, last) in [
        (WatcherKind::Series, FIRST, FIRST),
        (WatcherKind::Peak, peak.as_bytes(), peak.as_bytes()),
        (
            WatcherKind::Occupancy,
            b"hours beyond SIL 4 0\n".as_slice(),
            hours.as_bytes(),
        ),
    ] {
        let mut all: Vec<Box<dyn Watcher>> = Vec::new(alloc);
        all.push(Box::new(alloc, Series::new(alloc))?)?;
        all.push(Box::new(alloc, Peak::new())?)?;
        all.push(Box::new(alloc, Occupancy::new())?)?;
        let asked = WatchSet::only(kind);
        feed(all.as_mut_slice(), asked, &record(1))?;
        let mut told = Vec::new(alloc);
        put_lines(all.as_slice(), asked, &mut told)?;
        assert!(rt; told.as_slice().starts_with(first) && told.as_slice().ends_with(last));
        assert_eq!(rt;
            lines(alloc, &all[0])?.is_empty(),
            kind != WatcherKind::Series
        );
        assert_eq!(rt;
            lines(alloc, &all[1])?.is_empty(),
            kind != WatcherKind::Peak
        );
        let none = lines(alloc, &all[2])?.as_slice() == NO_HOURS.as_bytes();
        assert_eq!(rt; none, kind != WatcherKind::Occupancy);
    }
    Ok(())
}
