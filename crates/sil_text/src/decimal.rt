//! Decimals as whole numbers of a unit.

ghost use Rattle.std.specs.Prelude.{◌≡◌, ◌+◌, ◌*◌, ◌^◌, ◌<◌, ◌≤◌};
ghost use Rattle.sil_text.specs.Parts.{reading_of, rate_of, thousandths_of, millionths_of};
ghost use Rattle.sil_text.specs.Reading.{IsCount, IsReading};

use crate::fault::TextFault;
use crate::scan::{Scanned, scan};
use crate::tens::{divided_by_tens, multiplied_by_tens};

/// Reads a rate, as `1.5E-6` per hour, as a number of 10^-12 per hour, at most 10^9.
#[tactic(auto, unfolding(crate::specs::Parts::rate_of))]
pub fn read_rate(s: &str) -> Result<u64, TextFault>
    ensures reads { IsReading 12 (10 ^ 9) s.now result }
    ensures answer { result ≡ rate_of s.now }
{
    read_units(s, 12, 1_000_000_000)
}

/// Reads a share, as `0.05`, as a number of thousandths, at most 1,000.
#[tactic(auto, unfolding(crate::specs::Parts::thousandths_of))]
pub fn read_thousandths(s: &str) -> Result<u16, TextFault>
    ensures reads { IsReading 3 (10 ^ 3) s.now result }
    ensures answer { result ≡ thousandths_of s.now }
{
    Ok(read_units(s, 3, 1_000)? as u16)
}

/// Reads a share, as `2E-4`, as a number of millionths, at most 1,000,000.
#[tactic(auto, unfolding(crate::specs::Parts::millionths_of))]
pub fn read_millionths(s: &str) -> Result<u32, TextFault>
    ensures reads { IsReading 6 (10 ^ 6) s.now result }
    ensures answer { result ≡ millionths_of s.now }
{
    Ok(read_units(s, 6, 1_000_000)? as u32)
}

/// Reads a decimal as a number of units of 10^-`places`, at most `greatest`.
fn read_units(s: &str, places: u32, greatest: u64) -> Result<u64, TextFault>
    requires { places ≤ 12 }
    ensures reads { IsReading places greatest s.now result }
    ensures answer { result ≡ reading_of places greatest s.now }
{
    match scan(s.as_bytes()) {
        Some(scanned) => units_of(scanned, places, greatest),
        None => Err(TextFault::NotDecimal),
    }
}

/// The value as a number of units of 10^-`places`, at most `greatest`.
fn units_of(scanned: Scanned, places: u32, greatest: u64) -> Result<u64, TextFault>
    requires raised { scanned.raised < 1000 }
    requires places { places ≤ 12 }
    ensures { IsCount (scanned.number * 10 ^ (scanned.raised + places)) (10 ^ scanned.lowered) greatest result }
{
    let raised = scanned.raised + places;
    if raised >= scanned.lowered {
        return multiplied_by_tens(scanned.number, raised - scanned.lowered, greatest).ok_or(
            TextFault::TooLarge,
        );
    }
    let Some(units) = divided_by_tens(scanned.number, scanned.lowered - raised) else {
        return Err(TextFault::TooFine);
    };
    if units > greatest as u128 {
        return Err(TextFault::TooLarge);
    }
    Ok(units as u64)
}
