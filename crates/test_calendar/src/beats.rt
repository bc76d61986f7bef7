//! The beats of a phase.

ghost use Rattle.std.specs.Prelude.{◌≡◌, ◌+◌, ◌*◌, ◌^◌, ◌≤◌};
ghost use Rattle.sil_model.specs.LoopValue.{IsValid, IsSubsystemInRange};
ghost use Rattle.sil_model.specs.Calendar.{beats_of, beat_rate_of, ceiling};

use sil_model::{Loop, Subsystem};

/// The beat rate is in units of 10^-12 per hour.
const UNITS: u64 = 1_000_000_000_000;

/// The beats of a phase of so many hours, from 1 to 350,400: the least number that is at least 1 and at least the hours
/// times the beat rate, which is the sum over all channels of `du`, `dd` and the repair rate rounded up.
pub fn beats_of(l: &Loop, hours: u64) -> u64
    requires some { 1 ≤ hours }
    requires few { hours ≤ 350_400 }
    ensures beats { result ≡ beats_of l.now.subsystems hours }
    ensures some { 1 ≤ result }
    ensures bounded { result ≤ 17_000_000 }
{
    (hours * beat_rate(l)).div_ceil(UNITS).max(1)
}

/// The beat rate of a loop, in 10^-12 per hour.
fn beat_rate(l: &Loop) -> u64
    ensures rate { result ≡ beat_rate_of l.now.subsystems }
    ensures bounded { result ≤ 48 * 1_002_000_000_000 }
{
    let mut rate = 0;
    for i in 0..l.len() {
        rate += subsystem_rate(l.subsystem(i));
    }
    rate
}

/// What the channels of one subsystem add to the beat rate.
fn subsystem_rate(u: &Subsystem) -> u64
    requires { IsSubsystemInRange u.now }
    ensures rate { result ≡ u.now.vote.n * (u.now.figures.du + u.now.figures.dd + ceiling (10 ^ 12) u.now.figures.repair) }
    ensures bounded { result ≤ 8 * 1_002_000_000_000 }
{
    let figures = &u.figures;
    let channel = figures.du + figures.dd + UNITS.div_ceil(u64::from(figures.repair));
    u64::from(u.vote.n) * channel
}
