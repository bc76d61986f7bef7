//! What lines of watchers have in common.

ghost use Rattle.std.specs.Prelude.{◌≡◌, ◌++◌, OnOk};
ghost use Rattle.sil_watch.specs.Lines.{interval_text};

use sil_model::Decimal18;
use sil_text::put_decimal18;
use std::alloc::AllocError;

/// Adds the two ends of an interval, after its name.
pub fn push_interval(text: &mut Vec<u8>, name: &[u8], interval: Decimal18) -> Result<(), AllocError>
    ensures { OnOk result (text.new.items ≡ text.old.items ++ (name.now ++ interval_text interval.lo interval.hi)) }
{
    text.extend_from_slice(name)?;
    text.extend_from_slice(&put_decimal18(interval.lo))?;
    text.extend_from_slice(b" .. ")?;
    text.extend_from_slice(&put_decimal18(interval.hi))?;
    Ok(())
}
