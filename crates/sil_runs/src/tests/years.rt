//! The lines of phases behind a report.

use super::figures::{holds, units};
use super::report_of;
use std::test::Fail;

/// Sensors, logic and valves over three years, tested each year. `;` stands for a line feed.
const THREE_SUBSYSTEMS: &str = "\
mission = 26280;[[type]];name = 'plant';repair = 24\
;[[subsystem]];name = 'sensors';type = 'plant';vote = '2oo3';du = '5.0E-7';dd = '2.0E-6';test = { every = 8760 }\
;[[subsystem]];name = 'logic';type = 'plant';vote = '1oo1';du = '1.0E-7';dd = '9.0E-7';test = { every = 8760 }\
;[[subsystem]];name = 'valves';type = 'plant';vote = '1oo2';du = '2.0E-6';test = { every = 8760 }";

/// How the line of each year begins, and PFDavg over this year alone, in units of 10^-18 and cut off.
///
/// The mean of a year is what an independent computation over the full states has of the years up to it, less those before.
const YEARS: &str = "\
phase 1 start 0 hours 8760|580002437610825
phase 2 start 8760 hours 8760|582943276247498
phase 3 start 17520 hours 8760|582943229939147
";

/// How wide the interval of PFDavg may be.
const WIDEST: u128 = 75_593_359_129;

/// Whether the line of a phase begins like that of this year, and has an interval of its mean that holds that of the year.
fn tells(line: &str, year: &str) -> Result<bool, Fail> {
    let (start, mean) = year.split_once('|').ok_or("no mean")?;
    let (phase, intervals) = line.split_once(" mean ").ok_or("no mean")?;
    let (means, _) = intervals.split_once(" end ").ok_or("no end")?;
    let (lo, hi) = means.split_once(" .. ").ok_or("no ends")?;
    Ok(phase == start && holds(units(lo), units(hi), units(mean), WIDEST))
}

#[test]
fn one_line_of_each_phase(rt: HostRuntime) -> Result<(), Fail> {
    let alloc = rt.alloc();
    let report = report_of(alloc, "check loop.toml", THREE_SUBSYSTEMS)?;
    let text = report_of(alloc, "check --series loop.toml", THREE_SUBSYSTEMS)?;
    let lines = text
        .as_str()
        .strip_prefix(report.as_str())
        .ok_or("another report")?;
    assert_eq!(rt; lines.lines().count(), 3);
    for (line, year) in lines.lines().zip(YEARS.lines()) {
        assert!(rt; tells(line, year)?, "{line}");
    }
    Ok(())
}
