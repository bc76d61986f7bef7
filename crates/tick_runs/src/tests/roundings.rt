//! Roundings worked by hand, and the edges of the conditions.

ghost use Rattle.std.specs.Prelude.{◌≡◌, ◌<◌};

use interval_fixed::{Dot, Interval, ONE, ratio_down, ratio_up};
use sil_model::Steps;
use std::marker::Brand;
use std::process::Abort;
use std::sync::ledger::{Blank, Ledger};

#[test]
fn ratios_round_down_and_up(rt: HostRuntime) {
    let most = (1u128 << 80) - 1;
    let cases = [
        (1, 3, 93_824_992_236_885, 93_824_992_236_886),
        (0, 1, 0, 0),
        (0, most, 0, 0),
        (1, 1, ONE, ONE),
        (7, 7, ONE, ONE),
        (most, most, ONE, ONE),
        (1, most, 0, 1),
        (most - 1, most, ONE - 1, ONE),
        (3, 4, 211_106_232_532_992, 211_106_232_532_992),
    ];
    for (n, d, down, up) in cases {
        assert!(rt; n <= d && 0 < d && d <= most);
        assert_eq!(rt; ratio_down(n, d), down, "{n} / {d}");
        assert_eq!(rt; ratio_up(n, d), up, "{n} / {d}");
    }
}

fn sums<L: Ledger>(rt: &impl Abort, blank: Blank)
    requires name { blank.name ≡ L.name }
    requires parts { blank.parts ≡ L.parts }
    requires some { 0 < blank.parts }
{
    let mut steps = Steps::<L>::open(blank);
    let mut quarter = Dot::new();
    quarter.add_product(ONE / 2, ONE / 2, &mut steps);
    assert_eq!(rt; quarter.down(), 70_368_744_177_664);
    assert_eq!(rt; quarter.up(), 70_368_744_177_664);

    let mut least = Dot::new();
    assert_eq!(rt; (least.down(), least.up()), (0, 0));
    least.add_product(1, 1, &mut steps);
    assert_eq!(rt; (least.down(), least.up()), (0, 1));

    let mut greatest = Dot::new();
    for _ in 0..1024u32 {
        greatest.add_product(ONE, 1 << 68, &mut steps);
    }
    greatest.add_product(ONE, 1 << 60, &mut steps);
    assert_eq!(rt; greatest.down(), (1 << 78) + (1 << 60));
    assert_eq!(rt; greatest.up(), (1 << 78) + (1 << 60));
}

#[test]
fn sums_round_once_and_hold_1025_greatest_products(rt: HostRuntime) {
    sums::<Brand>(&rt, Blank::new(1));
}

#[test]
fn decimals_round_outward(rt: HostRuntime) {
    let cases = [
        (0, 0, 0, 1_000_000_000_000_000_000),
        (ONE, 0, 1_000_000_000_000_000_000, 1_000_000_000_000_000_000),
        (0, ONE, 0, 0),
        (1, ONE - 1, 3552, 3553),
        (
            ONE / 2,
            ONE / 4,
            500_000_000_000_000_000,
            750_000_000_000_000_000,
        ),
    ];
    for (part, complement, lo, hi) in cases {
        assert!(rt; part <= ONE && complement <= ONE - part);
        let decimal = Interval::from_parts(part, complement).to_decimal18();
        assert_eq!(rt; (decimal.lo, decimal.hi), (lo, hi), "{part}, {complement}");
    }
}

#[test]
fn intervals_add_exactly_and_scale_outward(rt: HostRuntime) {
    let sums = [
        ((0, 0), (0, 0), (0, 0)),
        (
            (ONE / 4, ONE / 2),
            (ONE / 8, ONE / 4),
            (105_553_116_266_496, 211_106_232_532_992),
        ),
        ((0, u128::MAX - 1), (1, 1), (1, u128::MAX)),
    ];
    for (a, b, sum) in sums {
        assert!(rt; a.0 <= a.1 && b.0 <= b.1 && a.1 <= u128::MAX - b.1);
        let one = Interval { lo: a.0, hi: a.1 };
        let added = one.add(Interval { lo: b.0, hi: b.1 });
        assert_eq!(rt; (added.lo, added.hi), sum, "{a:?} and {b:?}");
    }
    let scalings = [
        (1, 2, 1, 3, 0, 1),
        (10, 11, 2, 3, 6, 8),
        (6, 9, 2, 3, 4, 6),
        (3, 5, 0, 7, 0, 0),
        (ONE, ONE, 1, u32::MAX, 65_536, 65_537),
        (0, ONE, u32::MAX, 1, 0, 1_208_925_819_333_154_197_995_520),
    ];
    for (lo, hi, n, d, down, up) in scalings {
        assert!(rt; lo <= hi && hi <= ONE && 0 < d);
        let scaled = Interval { lo, hi }.scale(n, d);
        assert_eq!(rt;
            (scaled.lo, scaled.hi),
            (down, up),
            "{lo} to {hi}, {n} / {d}"
        );
    }
}
