//! Loops with few and with many count vectors.

use lumping::{Space, SpaceFault};
use sample_loops::{ONE_CHANNEL, Sample, YEARLY, sample_loop};
use sil_model::{CHANNEL_STATES, LimitFault, TestPlan, Vote};
use std::test::Fail;

/// So many channels that are tested together.
const fn channels(m: u8, n: u8) -> Sample {
    Sample {
        vote: Vote { m, n },
        test: Some(YEARLY),
        ..ONE_CHANNEL
    }
}

/// So many channels of which one suffices, tested one after another.
fn staggered(n: u8, stagger: u32) -> Sample {
    Sample {
        test: Some(TestPlan { stagger, ..YEARLY }),
        ..channels(1, n)
    }
}

fn refused(states: u128) -> SpaceFault {
    SpaceFault::Limit(LimitFault::TooManyStates(states))
}

#[test]
fn only_more_states_than_the_limit_are_refused(rt: HostRuntime) -> Result<(), Fail> {
    let alloc = rt.alloc();
    let (sensors, logic, valves) = (channels(2, 3), channels(1, 1), channels(1, 2));
    let six = staggered(6, 10);
    let untested = Sample {
        test: None,
        ..channels(1, 8)
    };
    let cases = [
        (&[logic][..], Ok(4)),
        (&[sensors, logic, valves][..], Ok(800)),
        (&[sensors, logic, staggered(2, 4380)][..], Ok(1280)),
        (&[six][..], Ok(4096)),
        (&[six, logic][..], Err(refused(16_384))),
        (
            &[untested; 6][..],
            Err(refused(165 * 165 * 165 * 165 * 165 * 165)),
        ),
        (&[staggered(8, 10); 6][..], Err(refused(1 << 96))),
    ];
    for (samples, expected) in cases {
        let l = sample_loop(alloc, 26_280, samples)?.ok_or("out of range")?;
        match Space::new(alloc, &l) {
            Ok(space) => assert_eq!(rt; Ok(space.size()), expected),
            Err(fault) => assert_eq!(rt; Err(fault), expected),
        }
    }
    Ok(())
}

#[test]
fn each_number_has_its_count_vector(rt: HostRuntime) -> Result<(), Fail> {
    let alloc = rt.alloc();
    let samples = [channels(2, 3), channels(1, 1), channels(1, 2)];
    let l = sample_loop(alloc, 26_280, &samples)?.ok_or("out of range")?;
    let Ok(space) = Space::new(alloc, &l) else {
        return Err("no space".into());
    };
    let mut counts = [0u8; 12];
    assert_eq!(rt; CHANNEL_STATES * l.groups(), counts.len());
    for i in 0..space.size() {
        space.counts_at(i, &mut counts);
        assert_eq!(rt; space.rank(&counts), i);
    }
    let cases = [
        (0, [3, 0, 0, 0, 1, 0, 0, 0, 2, 0, 0, 0]),
        (1, [2, 1, 0, 0, 1, 0, 0, 0, 2, 0, 0, 0]),
        (20, [3, 0, 0, 0, 0, 1, 0, 0, 2, 0, 0, 0]),
        (799, [0, 0, 0, 3, 0, 0, 0, 1, 0, 0, 0, 2]),
    ];
    for (i, expected) in cases {
        assert!(rt; i < space.size());
        space.counts_at(i, &mut counts);
        assert_eq!(rt; counts, expected);
    }
    Ok(())
}
