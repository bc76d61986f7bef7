//! Many records where memory is at hand: no series refuses one, and neither does `feed`.

use super::{lines_of, series, some_series};
use sil_model::Decimal18;
use sil_watch::{PhaseRecord, feed};
use std::test::Fail;

/// The record of the hour `index`, in which the loop is never down.
const fn hour(index: u32) -> PhaseRecord {
    let never = Decimal18 { lo: 0, hi: 0 };
    PhaseRecord {
        index,
        start: 0,
        hours: 1,
        mean: never,
        at_end: never,
    }
}

/// Two series of a list take in each of 2,000 records, and have a line of each.
#[test]
fn none_is_refused(rt: HostRuntime) -> Result<(), Fail> {
    let alloc = rt.alloc();
    let mut all = some_series(alloc, 2)?;
    for index in 1..2001 {
        feed(all.as_mut_slice(), series(), &hour(index))?;
    }
    for i in 0..2 {
        let lines = lines_of(alloc, all.as_slice(), i)?;
        assert_eq!(rt; lines.as_str().lines().count(), 2000);
        let last = lines.as_str().lines().last().ok_or("no line")?;
        assert!(rt; last.starts_with("phase 2000 start 0 hours 1 mean 0.0"));
    }
    Ok(())
}
