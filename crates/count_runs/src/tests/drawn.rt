//! Drawn loops against values that were worked out apart.

use loop_gen::make_loop;
use sil_model::{ChannelFigures, InRepair, Loop, TestPlan, Vote};
use std::process::Abort;
use std::test::Fail;

/// What is drawn for one subsystem: `du`, `dd`, `beta`, `beta_d`, `coverage`, `restart_fault` and `full_each`.
type Drawn = (u64, u64, u16, u16, u16, u32, u32);

/// The loop of a number.
#[derive(Clone, Copy)]
struct Expected {
    number: u64,
    mission: u32,
    repair: u32,
    sensors: Vote,
    drawn: [Drawn; 3],
}

const EXPECTED: [Expected; 6] = [
    Expected {
        number: 7,
        mission: 43_800,
        repair: 72,
        sensors: Vote { m: 1, n: 2 },
        drawn: [
            (2_400_000, 4_500_000, 60, 30, 950, 0, 2),
            (3_700_000, 9_500_000, 50, 25, 900, 200, 1),
            (1_300_000, 500_000, 20, 10, 1000, 500, 2),
        ],
    },
    Expected {
        number: 0,
        mission: 43_800,
        repair: 24,
        sensors: Vote { m: 2, n: 3 },
        drawn: [
            (3_700_000, 2_500_000, 90, 45, 900, 500, 1),
            (4_000_000, 300_000, 80, 40, 1000, 100, 1),
            (2_300_000, 4_500_000, 70, 35, 900, 100, 2),
        ],
    },
    Expected {
        number: 1,
        mission: 43_800,
        repair: 24,
        sensors: Vote { m: 1, n: 2 },
        drawn: [
            (2_100_000, 3_400_000, 70, 35, 900, 400, 1),
            (4_700_000, 2_300_000, 30, 15, 1000, 0, 3),
            (1_300_000, 9_000_000, 80, 40, 950, 300, 2),
        ],
    },
    Expected {
        number: 3,
        mission: 43_800,
        repair: 48,
        sensors: Vote { m: 1, n: 3 },
        drawn: [
            (3_900_000, 400_000, 30, 15, 950, 500, 3),
            (1_000_000, 6_300_000, 40, 20, 900, 300, 2),
            (4_600_000, 7_900_000, 30, 15, 950, 200, 3),
        ],
    },
    Expected {
        number: 1 << 63,
        mission: 26_280,
        repair: 48,
        sensors: Vote { m: 1, n: 2 },
        drawn: [
            (1_100_000, 4_900_000, 80, 40, 1000, 300, 2),
            (1_400_000, 7_900_000, 90, 45, 950, 500, 3),
            (4_700_000, 2_100_000, 60, 30, 1000, 500, 1),
        ],
    },
    Expected {
        number: u64::MAX,
        mission: 35_040,
        repair: 72,
        sensors: Vote { m: 2, n: 3 },
        drawn: [
            (300_000, 6_400_000, 0, 0, 1000, 500, 2),
            (3_300_000, 8_300_000, 20, 10, 900, 400, 3),
            (3_100_000, 100_000, 30, 15, 900, 0, 2),
        ],
    },
];

/// Asserts that the subsystem of a number is the expected one.
fn assert_subsystem(
    rt: &impl Abort,
    l: &Loop,
    i: usize,
    name: &str,
    vote: Vote,
    repair: u32,
    drawn: Drawn,
) {
    let (du, dd, beta, beta_d, coverage, restart_fault, full_each) = drawn;
    assert!(rt; i < l.len());
    let subsystem = l.subsystem(i);
    assert!(rt; subsystem.name.as_str() == name, "subsystem {i}");
    assert_eq!(rt; subsystem.vote, vote, "{name}");
    let figures = ChannelFigures {
        du,
        dd,
        beta,
        beta_d,
        coverage,
        restart_fault,
        repair,
    };
    assert_eq!(rt; subsystem.figures, figures, "{name}");
    assert_eq!(rt; subsystem.in_repair, InRepair::Lost, "{name}");
    let plan = TestPlan {
        first: 8760,
        every: 8760,
        stagger: 0,
        full_each,
    };
    assert_eq!(rt; subsystem.test, Some(plan), "{name}");
}

#[test]
fn loops_are_drawn_field_by_field(rt: HostRuntime) -> Result<(), Fail> {
    for expected in EXPECTED {
        let l = make_loop(rt.alloc(), expected.number)?;
        assert_eq!(rt;
            (l.mission(), l.order(), l.len()),
            (expected.mission, 28, 3)
        );
        let votes = [
            ("sensors", expected.sensors),
            ("logic", Vote { m: 1, n: 1 }),
            ("valves", Vote { m: 1, n: 2 }),
        ];
        for (i, (name, vote)) in votes.into_iter().enumerate() {
            assert!(rt; i < expected.drawn.len());
            assert_subsystem(&rt, &l, i, name, vote, expected.repair, expected.drawn[i]);
        }
    }
    Ok(())
}
