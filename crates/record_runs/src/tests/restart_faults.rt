//! A channel that fails at its tests alone, phase by phase.

use super::short_of_room::ShortOfRoom;
use super::{Ended, holds, lines_of, series, some_series, told};
use sample_loops::{Sample, sample_loop};
use sil_model::{ChannelFigures, InRepair, TestPlan, Vote};
use sil_watch::{Series, WatchSet};
use std::test::Fail;

/// A chance of 0.02 at a test, a repair of 8 hours, and tests at the hours 50 and 75 of a mission of 100.
pub(crate) const RESTART_FAULTS: Sample = Sample {
    vote: Vote { m: 1, n: 1 },
    figures: ChannelFigures {
        du: 0,
        dd: 0,
        beta: 0,
        beta_d: 0,
        coverage: 1000,
        restart_fault: 20_000,
        repair: 8,
    },
    in_repair: InRepair::Lost,
    test: Some(TestPlan {
        first: 50,
        every: 25,
        stagger: 0,
        full_each: 1,
    }),
};

/// How the line of each phase begins, its mean, and the chance at its end, both in units of 10^-18 and cut off.
///
/// In the third phase a channel that failed at the second test, 0.98 * 0.02, stays down. One that failed at the first, 0.02, is in
/// repair: of 25 hours it is down for 8 * (1 - e^(-25/8)), and at their end with a chance of e^(-25/8).
const PHASES: &str = "\
phase 1 start 0 hours 50|0|0
phase 2 start 50 hours 25|20000000000000000|20000000000000000
phase 3 start 75 hours 25|25718803624810192|20478738672468148
";

/// How wide the interval of PFDavg of this loop may be: 15 beats that lose 819 units of 2^-48 each, two tests with 72, three
/// means with 4, and 8 at the end.
const WIDEST: u128 = 44_227_734;

/// Each phase has its mean and its end, whatever number of series is fed, and a series is as before where nobody asks for it.
/// Where a watcher refuses its third record the computation ends: it holds the first two, and so does one behind it.
#[test]
fn restart_faults_phase_by_phase(rt: HostRuntime) -> Result<(), Fail> {
    let alloc = rt.alloc();
    let l = sample_loop(alloc, 100, &[RESTART_FAULTS])?.ok_or("a value is out of its range")?;
    let mut feed = some_series(alloc, 2)?;
    for (asked, count) in [
        (WatchSet::empty(), 0),
        (series(), 3),
        (WatchSet::empty(), 3),
    ] {
        assert_eq!(rt;
            told(alloc, &l, feed.as_mut_slice(), asked),
            Ended::WithFigures
        );
        for i in 0..2 {
            let lines = lines_of(alloc, feed.as_slice(), i)?;
            assert_eq!(rt; lines.as_str().lines().count(), count);
        }
    }
    let lines = lines_of(alloc, feed.as_slice(), 0)?;
    assert_eq!(rt;
        lines_of(alloc, feed.as_slice(), 1)?.as_str(),
        lines.as_str()
    );
    for (line, row) in lines.as_str().lines().zip(PHASES.lines()) {
        let (start, figures) = row.split_once('|').ok_or("no figures")?;
        let (mean, end) = figures.split_once('|').ok_or("no end")?;
        let (phase, intervals) = line.split_once(" mean ").ok_or("no mean")?;
        let (means, ends) = intervals.split_once(" end ").ok_or("no end")?;
        assert_eq!(rt; phase, start);
        assert!(rt; holds(means, mean, WIDEST)?, "{line}");
        assert!(rt; holds(ends, end, WIDEST)?, "{line}");
    }
    let mut short = some_series(alloc, 1)?;
    short.push(Box::new(alloc, ShortOfRoom::new(alloc, 2))?)?;
    short.push(Box::new(alloc, Series::new(alloc))?)?;
    let ended = told(alloc, &l, short.as_mut_slice(), series());
    assert_eq!(rt; ended, Ended::ForWantOfMemory);
    let before = lines_of(alloc, short.as_slice(), 0)?;
    let refuser = lines_of(alloc, short.as_slice(), 1)?;
    let behind = lines_of(alloc, short.as_slice(), 2)?;
    assert_eq!(rt; before.as_str(), lines.as_str());
    assert_eq!(rt; refuser.as_str().lines().count(), 2);
    assert!(rt; before.as_str().starts_with(refuser.as_str()));
    assert_eq!(rt; behind.as_str(), refuser.as_str());
    Ok(())
}
