//! What a value of the tree stands for, or its flaw.

ghost use Rattle.std.specs.Prelude.{◌≡◌, ◌≤◌, IfOk, IfErr, Ok, Err};
ghost use Rattle.toml.specs.View.{view};
ghost use Rattle.loop_file.specs.Readings.{whole_in, rate_in, thousandths_in, millionths_in, text_in, name_in, in_repair_in, vote_in, vote_of};

use crate::fault::Flaw;
use sil_model::{InRepair, Vote};
use sil_text::{TextFault, is_name, read_millionths, read_rate, read_thousandths};
use toml::Value;

/// An integer from `least` to `greatest`.
pub fn whole(value: &Value, least: u32, greatest: u32) -> Result<u32, Flaw>
    ensures { result ≡ whole_in least greatest (view value.now) }
{
    let Some(number) = value.as_integer() else {
        return Err(Flaw::WrongKind);
    };
    if number < i64::from(least) || number > i64::from(greatest) {
        return Err(Flaw::OutOfRange);
    }
    Ok(number as u32)
}

/// A text.
pub fn text(value: &Value) -> Result<&str, Flaw>
    ensures ok { IfOk result (λ t. text_in (view value.now) ≡ Ok t.now) }
    ensures err { IfErr result (λ f. text_in (view value.now) ≡ Err f) }
{
    value.as_str().ok_or(Flaw::WrongKind)
}

/// A rate, in units of 10^-12 per hour.
pub fn rate(value: &Value) -> Result<u64, Flaw>
    ensures { result ≡ rate_in (view value.now) }
{
    read_rate(text(value)?).map_err(Flaw::BadText)
}

/// A share, in thousandths.
pub fn thousandths(value: &Value) -> Result<u16, Flaw>
    ensures { result ≡ thousandths_in (view value.now) }
{
    read_thousandths(text(value)?).map_err(Flaw::BadText)
}

/// A share, in millionths.
pub fn millionths(value: &Value) -> Result<u32, Flaw>
    ensures { result ≡ millionths_in (view value.now) }
{
    read_millionths(text(value)?).map_err(Flaw::BadText)
}

/// A name.
pub fn name(value: &Value) -> Result<&str, Flaw>
    ensures ok { IfOk result (λ t. name_in (view value.now) ≡ Ok t.now) }
    ensures err { IfErr result (λ f. name_in (view value.now) ≡ Err f) }
{
    let text = text(value)?;
    if is_name(text) {
        Ok(text)
    } else {
        Err(Flaw::BadText(TextFault::NotName))
    }
}

/// How channels vote while they are being repaired.
pub fn in_repair(value: &Value) -> Result<InRepair, Flaw>
    ensures { result ≡ in_repair_in (view value.now) }
{
    match text(value)? {
        "lost" => Ok(InRepair::Lost),
        "tripped" => Ok(InRepair::Tripped),
        _ => Err(Flaw::BadText(TextFault::NotChoice)),
    }
}

/// A MooN vote.
pub fn vote(value: &Value) -> Result<Vote, Flaw>
    ensures { result ≡ vote_in (view value.now) }
{
    vote_of(text(value)?.as_bytes())
}

/// A digit M, the letters `oo` and a digit N.
fn vote_of(text: &[u8]) -> Result<Vote, Flaw>
    ensures { result ≡ vote_of text.now }
{
    match text {
        [m @ b'1'..=b'8', b'o', b'o', n @ b'1'..=b'8'] if *m <= *n => Ok(Vote {
            m: m - b'0',
            n: n - b'0',
        }),
        _ => Err(Flaw::BadVote),
    }
}
