//! The rungs against numbers that were worked out apart, and a channel that fails against the exponential.

ghost use Rattle.std.specs.Prelude.{◌≡◌, ◌^◌, ◌<◌, ◌≤◌};
ghost use Rattle.sil_fraction.specs.Fraction.{◌*ℚ◌, whole, inverse};

use super::ONE;
use beat_ladder::{BlockRoom, Ladder, Tick};
use sil_model::Steps;
use std::marker::Brand;
use std::process::Abort;
use std::sync::ledger::{Blank, Ledger};
use std::test::Fail;

/// For each rung: zeros before, how many numbers, what they lack, and what their tails lack of the beats. Worked out apart.
const RUNGS: &str = "\
0 17 9 74\n\
0 22 30 274\n\
0 29 74 879\n\
0 39 167 2757\n\
0 57 362 8969\n\
0 86 766 31381\n\
13 123 1594 116198\n\
51 174 3274 448170\n\
143 246 6669 1767012\n\
349 345 13516 7041025\n\
791 486 27288 28186558\n\
1716 683 54938 113004025\n\
3625 961 110369 453057707\n\
";

#[test]
fn rungs_are_those_of_exact_powers(rt: HostRuntime) -> Result<(), Fail> {
    let ladder = Ladder::new(rt.alloc(), 1_000_000)?;
    assert_eq!(rt; ladder.rungs(), 13);
    let mut found = String::new(rt.alloc());
    for exponent in 0..ladder.rungs() {
        let rung = ladder.rung(exponent);
        let line = format!(in rt.alloc();
            "{} {} {} {}\n",
            rung.low,
            rung.numbers.len(),
            rung.missing(),
            rung.dwell_missing()
        )?;
        found.push_str(&line)?;
    }
    assert_eq!(rt; found.as_str(), RUNGS);
    Ok(())
}

/// A rung of more beats than are asked for is not made.
#[test]
fn rungs_that_are_needed(rt: HostRuntime) -> Result<(), Fail> {
    for (beats, rungs) in [
        (0, 0),
        (1, 1),
        (2, 2),
        (3, 2),
        (4, 3),
        (1095, 11),
        (4096, 13),
    ] {
        let ladder = Ladder::new(rt.alloc(), beats)?;
        assert_eq!(rt; ladder.rungs(), rungs, "{beats}");
    }
    Ok(())
}

/// A channel that works, until it fails for good. Its vector has the chance that it works alone.
#[derive(Drop)]
struct Channel {
    stays: u64,
    ghost chance: { stays ≤ 2 ^ 48 },
}

impl Tick for Channel {
    ghost size = { λ c. 1 };

    ghost step = { λ c f i. (whole c.stays *ℚ f i) *ℚ inverse (whole (2 ^ 48)) };

    ghost loss = { λ c. 2 ^ 48 };

    ghost products = { λ c. 1 };

    fn tick<L: Ledger>(&self, from: &[u64], to: &mut [u64], steps: &mut Steps<L>) {
        to[0] = ((u128::from(self.stays) * u128::from(from[0])) >> 48) as u64;
        steps.count_one();
    }
}

fn pass<L: Ledger>(rt: &(impl Abort + AllocGlobal), blank: Blank) -> Result<(), Fail>
    requires name { blank.name ≡ L.name }
    requires parts { blank.parts ≡ L.parts }
    requires some { 0 < blank.parts }
{
    let mut steps = Steps::<L>::open(blank);
    let ladder = Ladder::new(rt.alloc(), 4096)?;
    let mut room = BlockRoom::new(rt.alloc(), 1)?;
    // 1/e, and 1 - 1/e, in units of 2^-48, rounded down.
    let (works, worked) = (103_548_857_136_060u128, 177_926_119_574_595u128);
    for exponent in 0..ladder.rungs() {
        let beats = 1u128 << exponent;
        // In so many beats about one failure comes.
        let channel = Channel {
            stays: ONE - (ONE >> exponent),
        };
        let mut v = [1u64 << 48];
        let mut dwell = [5u128];
        room.pass(
            &channel,
            ladder.rung(exponent),
            &mut v,
            &mut dwell,
            &mut steps,
        );
        let end = u128::from(v[0]);
        assert!(rt; end <= works, "end by the rung {exponent}");
        assert!(rt;
            works - end <= 200 * beats,
            "end by the rung {exponent} lacks"
        );
        let most = 5 + beats * (worked + 1);
        assert!(rt; dwell[0] <= most, "dwell by the rung {exponent}");
        let lacks = most - dwell[0];
        assert!(rt;
            lacks >> (2 * exponent) < 202,
            "dwell by the rung {exponent} lacks"
        );
    }
    Ok(())
}

#[test]
fn a_channel_fails_by_the_exponential(rt: HostRuntime) -> Result<(), Fail> {
    pass::<Brand>(&rt, Blank::new(1))
}
