//! Sizes of loops, worked by hand.

use super::restart_faults::RESTART_FAULTS;
use loop_value::{ValueFault, measure};
use sample_loops::{ONE_CHANNEL, Sample, YEARLY, sample_loop};
use sil_model::{ChannelFigures, LimitFault, Sizes, TestPlan, Vote};
use std::test::Fail;

/// Channels of which one suffices, by the hours of a repair.
const fn channels(n: u8, repair: u32, test: Option<TestPlan>) -> Sample {
    Sample {
        vote: Vote { m: 1, n },
        figures: ChannelFigures {
            repair,
            ..ONE_CHANNEL.figures
        },
        test,
        ..ONE_CHANNEL
    }
}

const fn sizes(phases: u64, states: u64, beats: u64, work: u64) -> Result<Sizes, LimitFault> {
    Ok(Sizes {
        phases,
        states,
        beats,
        work,
    })
}

/// Sizes within all limits, and the first limit that is exceeded.
#[test]
fn sizes_and_first_limits(rt: HostRuntime) -> Result<(), Fail> {
    let yearly = Some(TestPlan {
        stagger: 10,
        ..YEARLY
    });
    let hourly = Some(TestPlan {
        first: 1,
        every: 1,
        ..YEARLY
    });
    // the channels are groups of their own, also where no test comes within the mission
    let never = Some(TestPlan {
        first: 350_400,
        every: 350_400,
        stagger: 10,
        full_each: 1,
    });
    let cases = [
        (8760, 28, &[ONE_CHANNEL][..], sizes(1, 4, 1096, 122_752)),
        // a phase for each test and one before; a beat is at most 8 hours: 7 in 50 hours, and 4 in 25
        (100, 28, &[RESTART_FAULTS][..], sizes(3, 4, 15, 1680)),
        (
            26_280,
            16,
            &[channels(6, 8, yearly)][..],
            sizes(13, 4096, 19_717, 1_292_173_312),
        ),
        (
            26_280,
            28,
            &[channels(6, 8, yearly), ONE_CHANNEL][..],
            Err(LimitFault::TooManyStates(16_384)),
        ),
        (
            4098,
            28,
            &[channels(1, 8, hourly), channels(6, 8, never)][..],
            Err(LimitFault::TooManyTests(4097)),
        ),
        (
            350_400,
            28,
            &[channels(3, 1, None)][..],
            Err(LimitFault::TooManyBeats(1_051_202)),
        ),
        (
            17_477,
            40,
            &[channels(6, 1, never)][..],
            Err(LimitFault::TooMuchWork(17_180_753_920)),
        ),
    ];
    for (mission, order, samples, expected) in cases {
        let l = sample_loop(rt.alloc(), mission, samples)?.ok_or("out of range")?;
        match measure(rt.alloc(), &l, order) {
            Ok(sizes) => assert_eq!(rt; Ok(sizes), expected),
            Err(ValueFault::Limit(fault)) => assert_eq!(rt; Err(fault), expected),
            Err(ValueFault::Memory(_)) => return Err("no memory".into()),
        }
    }
    Ok(())
}
