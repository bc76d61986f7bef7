//! The bands of IEC 61508-1: safety integrity levels for low demand, by PFDavg, and for high demand or continuous mode, by
//! PFH.
//!
//! Each band holds its lower end and not its upper end. The band of an interval is the one that holds both of its ends, and
//! `Undecided` exactly where none does ([`one_band_law`]). No call takes memory, and none refuses.
#![tactic(auto)]

ghost use Rattle.std.specs.Prelude.{◌≡◌, ℕ, ◌*◌, ◌^◌, ◌≤◌, ◌<◌};
ghost use Rattle.sil_model.specs.Bands.{IsInBand, IsBandOf, pfd_edge, pfh_edge};
ghost use Rattle.sil_bands.specs.BandOf.{HasOneBand};
ghost use Rattle.sil_bands.specs.Meets.{meets_of};
ghost use Rattle.sil_bands.specs.Texts.{band_text_of};

use sil_model::{Band, Decimal18};

/// Where the band of SIL 4 begins for PFDavg, in units of 10^-18: at 10^-5.
const PFD_EDGE: u128 = 10_000_000_000_000;

/// Where the band of SIL 4 begins for PFH, in units of 10^-18 per hour: at 10^-9 per hour.
const PFH_EDGE: u128 = 1_000_000_000;

/// The band of an interval of PFDavg, in units of 10^-18.
pub fn pfd_band(pfd: Decimal18) -> Band
    ensures { IsBandOf pfd_edge pfd.lo pfd.hi result }
{
    band_of(PFD_EDGE, pfd)
}

/// The band of an interval of PFH, in units of 10^-18 per hour.
pub fn pfh_band(pfh: Decimal18) -> Band
    ensures { IsBandOf pfh_edge pfh.lo pfh.hi result }
{
    band_of(PFH_EDGE, pfh)
}

/// Whether a band shows that a safety integrity level from 1 to 4 is met: a better one shows it too, and an interval that is
/// undecided shows nothing.
pub fn meets(band: Band, need: u8) -> bool
    requires least { 1 ≤ need }
    requires greatest { need ≤ 4 }
    ensures { result ≡ meets_of band need }
{
    match band {
        Band::Beyond4 => true,
        Band::Sil4 => need <= 4,
        Band::Sil3 => need <= 3,
        Band::Sil2 => need <= 2,
        Band::Sil1 => need <= 1,
        Band::NoSil | Band::Undecided => false,
    }
}

/// The text of a band.
pub fn band_text(band: Band) -> &'static str
    ensures { result.now ≡ band_text_of band }
{
    match band {
        Band::Beyond4 => "beyond SIL 4",
        Band::Sil4 => "SIL 4",
        Band::Sil3 => "SIL 3",
        Band::Sil2 => "SIL 2",
        Band::Sil1 => "SIL 1",
        Band::NoSil => "no SIL",
        Band::Undecided => "undecided",
    }
}

/// An interval has one band, and for PFDavg this is a function of its ends (`pfd_band_of`).
pub fn one_band_law()
    ensures { HasOneBand }
{}

/// The band that holds both ends of the interval, where SIL 4 begins at the edge.
fn band_of(edge: u128, interval: Decimal18) -> Band
    requires { edge < 2 ^ 64 }
    ensures { IsBandOf edge interval.lo interval.hi result }
{
    let low = band_at(edge, interval.lo);
    if low == band_at(edge, interval.hi) {
        low
    } else {
        Band::Undecided
    }
}

/// The band that holds a number.
fn band_at(edge: u128, x: u128) -> Band
    requires { edge < 2 ^ 64 }
    ensures { IsInBand edge result x }
{
    if x < edge {
        Band::Beyond4
    } else if x < 10 * edge {
        Band::Sil4
    } else if x < 100 * edge {
        Band::Sil3
    } else if x < 1000 * edge {
        Band::Sil2
    } else if x < 10_000 * edge {
        Band::Sil1
    } else {
        Band::NoSil
    }
}
