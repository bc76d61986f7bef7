//! Loops with every kind of group.

use sample_loops::{ONE_CHANNEL, Sample, YEARLY, sample_loop};
use sil_model::{Group, TestPlan, Vote};
use std::test::Fail;

#[test]
fn only_staggered_channels_are_groups_of_their_own(rt: HostRuntime) -> Result<(), Fail> {
    let untested = Sample {
        vote: Vote { m: 2, n: 3 },
        ..ONE_CHANNEL
    };
    let together = Sample {
        test: Some(YEARLY),
        ..untested
    };
    let staggered = Sample {
        test: Some(TestPlan {
            stagger: 2920,
            ..YEARLY
        }),
        ..untested
    };
    let samples = [untested, together, staggered];
    let l = sample_loop(rt.alloc(), 87_600, &samples)?.ok_or("out of range")?;
    let expected = [(0, 0, 3), (1, 0, 3), (2, 0, 1), (2, 1, 1), (2, 2, 1)];
    assert_eq!(rt; l.groups(), expected.len());
    for (g, (subsystem, first_channel, size)) in expected.into_iter().enumerate() {
        let group = Group {
            subsystem,
            first_channel,
            size,
        };
        assert!(rt; g < l.groups());
        assert_eq!(rt; l.group(g), group);
    }
    assert_eq!(rt; (l.mission(), l.order(), l.len()), (87_600, 28, 3));
    assert_eq!(rt; l.subsystem(1).name.as_str(), "bb");
    Ok(())
}
