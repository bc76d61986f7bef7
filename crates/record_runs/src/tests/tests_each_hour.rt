//! As many phases as a loop can have: one channel, tested each hour.

use super::{Ended, holds, lines_of, series, some_series, told};
use sample_loops::{ONE_CHANNEL, Sample, YEARLY, sample_loop};
use sil_model::TestPlan;
use std::test::Fail;

/// How wide the interval of PFDavg of this loop may be: 4,097 beats that lose 819 units of 2^-48 each, 4,096 tests with 72, 4,097
/// means with 4, and 8 at the end.
const WIDEST: u128 = 13_026_916_436;

#[test]
fn all_phases_in_their_order(rt: HostRuntime) -> Result<(), Fail> {
    let alloc = rt.alloc();
    let hourly = Sample {
        test: Some(TestPlan {
            first: 1,
            every: 1,
            ..YEARLY
        }),
        ..ONE_CHANNEL
    };
    let l = sample_loop(alloc, 4097, &[hourly])?.ok_or("a value is out of its range")?;
    let mut feed = some_series(alloc, 1)?;
    assert_eq!(rt;
        told(alloc, &l, feed.as_mut_slice(), series()),
        Ended::WithFigures
    );
    let lines = lines_of(alloc, feed.as_slice(), 0)?;
    assert_eq!(rt; lines.as_str().lines().count(), 4097);
    let starts = (0u32..4097).zip(1u32..4098);
    for (line, (start, index)) in lines.as_str().lines().zip(starts) {
        let phase = format!(in alloc; "phase {index} start {start} hours 1 mean 0.")?;
        assert!(rt; line.starts_with(phase.as_str()), "{line}");
    }
    // over one hour, 1 - (1 - e^-x)/x with x = 10^-6
    let (_, means) = lines.as_str().split_once(" mean ").ok_or("no mean")?;
    let (means, _) = means.split_once(" end ").ok_or("no end")?;
    assert!(rt; holds(means, "499999833333", WIDEST)?, "{means}");
    Ok(())
}
