//! The report of a loop's figures.

ghost use Rattle.std.specs.Prelude.{◌≡◌, ◌++◌, ℕ, List, OnOk, IfOk};
ghost use Rattle.sil_report.specs.FixedBy.{LinesFixNumbers, line_of_interval};
ghost use Rattle.sil_report.specs.Reports.{IsReport};

use crate::sizes::counts_text;
use sil_bands::{band_text, pfd_band, pfh_band};
use sil_model::{Band, Decimal18, Loop, Value};
use sil_text::put_decimal18;
use std::alloc::{AllocError, Global};

/// The seven lines of a report: mission time in hours, phases, lumped states, beats and order of the series, then PFDavg and
/// PFH as closed intervals with 18 decimals, each with its band of IEC 61508-1.
///
/// The mission time is that of the loop, the rest that of the value.
pub fn report(alloc: Global, l: &Loop, v: &Value) -> Result<Vec<u8>, AllocError>
    ensures { IfOk result (λ text. IsReport l.now.mission v.now text.items) }
{
    let counts = counts_text(alloc, l.mission(), v.phases, v.states, v.beats, v.order)?;
    let mut text = counts.into_bytes();
    push_interval(&mut text, b"pfd", v.pfd, pfd_band(v.pfd))?;
    push_interval(&mut text, b"pfh", v.pfh, pfh_band(v.pfh))?;
    Ok(text)
}

/// Adds the line of an interval with its band.
fn push_interval(
    text: &mut Vec<u8>,
    name: &[u8],
    interval: Decimal18,
    band: Band,
) -> Result<(), AllocError>
    ensures { OnOk result (text.new.items ≡ text.old.items ++ line_of_interval name.now (record { lo = interval.lo; hi = interval.hi; band = band })) }
{
    text.extend_from_slice(name)?;
    text.extend_from_slice(b" ")?;
    text.extend_from_slice(&put_decimal18(interval.lo))?;
    text.extend_from_slice(b" .. ")?;
    text.extend_from_slice(&put_decimal18(interval.hi))?;
    text.extend_from_slice(b" ")?;
    text.extend_from_slice(band_text(band).as_bytes())?;
    text.extend_from_slice(b"\n")?;
    Ok(())
}

/// One line stands for one interval with its band, and the first five lines for their five counts, whatever comes behind
/// them.
pub fn lines_fix_numbers()
    ensures { LinesFixNumbers }
{}
