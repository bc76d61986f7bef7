//! Figures in the lines of a report.

use std::test::Fail;

/// A whole number, or a figure with 18 decimals in units of 10^-18.
pub(crate) fn units(figure: &str) -> u128 {
    let mut units = 0u128;
    for byte in figure.bytes() {
        if byte.is_ascii_digit() {
            units = units
                .wrapping_mul(10)
                .wrapping_add(u128::from(byte.wrapping_sub(b'0')));
        }
    }
    units
}

/// What stands between two texts.
pub(crate) fn between<'a>(text: &'a str, start: &str, end: &str) -> Result<&'a str, Fail> {
    let (_, rest) = text.split_once(start).ok_or("no start")?;
    let (part, _) = rest.split_once(end).ok_or("no end")?;
    Ok(part)
}

/// Whether an interval holds a figure and is no wider than so much.
pub(crate) fn holds(lo: u128, hi: u128, figure: u128, widest: u128) -> bool {
    lo <= figure && figure <= hi && hi.saturating_sub(lo) <= widest
}

/// The two ends of an interval, and its band, behind which nothing stands.
pub(crate) fn ends_and_band(line: &str) -> Result<(u128, u128, &str), Fail> {
    let (lo, rest) = line.split_once(" .. ").ok_or("no ends")?;
    let (hi, band) = rest.split_once(' ').ok_or("no band")?;
    Ok((units(lo), units(hi), band))
}

/// Whether the line of a figure has such an interval, and this band.
pub(crate) fn is_line(line: &str, figure: &str, band: &str, widest: &str) -> Result<bool, Fail> {
    let (lo, hi, told) = ends_and_band(line)?;
    Ok(holds(lo, hi, units(figure), units(widest)) && told == band)
}
