//! The parts of a decimal, found in its text.

ghost use Rattle.std.specs.Prelude.{◌≡◌, ℕ, ◌+◌, ◌*◌, ◌^◌, ◌<◌, ◌≤◌, length, All, IfSome, IfNone, IsTrue, ◌↔◌};
ghost use Rattle.std.specs.List.{position_or_len};
ghost use Rattle.std.specs.Char.{IsAsciiDigit};
ghost use Rattle.std.specs.Str.Parse.{digits_value, digits_value_after};
ghost use Rattle.sil_text.specs.Decimal.{AreExponentDigits, IsDecimal, IsExponent, with_exponent, minus};
ghost use Rattle.sil_text.specs.Parts.{is_no_digit, leading_digits, after_digits, fraction_of, after_fraction, sign_of, after_sign, exponent_of, parts_of};
ghost use Rattle.sil_text.specs.Values.{ArePowersOf, IsValueOf};

/// At most this many digits stand before the exponent.
const MOST_DIGITS: usize = 24;

/// At most this many digits stand in the exponent.
const MOST_EXPONENT_DIGITS: usize = 3;

/// The value of a decimal: `number` times ten to the power `raised`, divided by ten to the power `lowered`.
#[derive(Clone, Copy)]
pub struct Scanned {
    pub number: u128,
    pub raised: u32,
    pub lowered: u32,
}

/// The powers of ten that an exponent stands for, as a factor and as a divisor.
#[derive(Clone, Copy)]
struct Powers {
    raised: u32,
    lowered: u32,
}

/// The value that `text` writes, if it is a decimal.
pub fn scan(text: &[u8]) -> Option<Scanned>
    ensures some { IfSome result (λ scanned. IsDecimal (parts_of text.now) × IsValueOf scanned (parts_of text.now)) }
    ensures none { IfNone result (¬ IsDecimal (parts_of text.now)) }
{
    let (whole, rest) = split_digits(text);
    let (fraction, rest) = split_fraction(rest)?;
    let powers = scan_exponent(rest)?;
    if whole.is_empty() || whole.len() + fraction.len() > MOST_DIGITS {
        return None;
    }
    Some(Scanned {
        number: append_digits(append_digits(0, whole), fraction),
        raised: powers.raised,
        lowered: powers.lowered + fraction.len() as u32,
    })
}

/// The digits that `text` begins with, and what follows them.
#[tactic(auto, unfolding(crate::specs::Parts::leading_digits, crate::specs::Parts::after_digits))]
fn split_digits(text: &[u8]) -> (&[u8], &[u8])
    ensures digits { result.0.now ≡ leading_digits text.now }
    ensures rest { result.1.now ≡ after_digits text.now }
{
    text.split_at(count_digits(text))
}

/// How many digits `text` begins with.
fn count_digits(text: &[u8]) -> usize
    ensures place { result ≡ position_or_len is_no_digit text.now }
    ensures bound { result ≤ length text.now }
{
    for (place, byte) in text.iter().enumerate() {
        if !byte.is_ascii_digit() {
            return place;
        }
    }
    text.len()
}

/// The digits after the point that `text` begins with, and what follows them; none where it begins
/// with no point. A point without a digit is refused.
fn split_fraction(text: &[u8]) -> Option<(&[u8], &[u8])>
    ensures some { IfSome result
        (λ r. (r.0.now ≡ fraction_of text.now) × (r.1.now ≡ after_fraction text.now)) }
    ensures none { IfNone result (¬ IsExponent (exponent_of (after_fraction text.now))) }
{
    match text {
        [b'.', after @ ..] => {
            let (digits, rest) = split_digits(after);
            if digits.is_empty() {
                None
            } else {
                Some((digits, rest))
            }
        }
        _ => Some((&[], text)),
    }
}

/// The powers of ten of the exponent that `text` is, which may be left out.
fn scan_exponent(text: &[u8]) -> Option<Powers>
    ensures some { IfSome result
        (λ powers. IsExponent (exponent_of text.now) × ArePowersOf powers (exponent_of text.now)) }
    ensures none { IfNone result (¬ IsExponent (exponent_of text.now)) }
{
    match text {
        [] => Some(Powers {
            raised: 0,
            lowered: 0,
        }),
        [b'E' | b'e', signed @ ..] => scan_powers(signed),
        _ => None,
    }
}

/// The powers of ten that a sign, which may be left out, and one to three digits stand for.
fn scan_powers(text: &[u8]) -> Option<Powers>
    ensures some { IfSome result (λ powers. AreExponentDigits (after_sign text.now)
        × ((letter : ℕ) → ArePowersOf powers (with_exponent letter (sign_of text.now) (after_sign text.now)))) }
    ensures none { IfNone result (¬ AreExponentDigits (after_sign text.now)) }
{
    let (is_minus, digits) = split_sign(text);
    let power = exponent_digits(digits)?;
    if is_minus {
        Some(Powers {
            raised: 0,
            lowered: power,
        })
    } else {
        Some(Powers {
            raised: power,
            lowered: 0,
        })
    }
}

/// Whether `text` begins with a minus, and what follows the sign.
fn split_sign(text: &[u8]) -> (bool, &[u8])
    ensures sign { IsTrue result.0 ↔ (sign_of text.now ≡ minus) }
    ensures rest { result.1.now ≡ after_sign text.now }
{
    match text {
        [b'-', rest @ ..] => (true, rest),
        [b'+', rest @ ..] => (false, rest),
        _ => (false, text),
    }
}

/// The number that `text` writes, if it is one to three digits.
fn exponent_digits(text: &[u8]) -> Option<u32>
    ensures some { IfSome result
        (λ number. AreExponentDigits text.now × (number ≡ digits_value 10 text.now) × (number < 1000)) }
    ensures none { IfNone result (¬ AreExponentDigits text.now) }
{
    if text.is_empty()
        || text.len() > MOST_EXPONENT_DIGITS
        || !text.iter().all(u8::is_ascii_digit)
    {
        return None;
    }
    Some(append_digits(0, text) as u32)
}

/// The number whose digits are those of `number` and then `digits`.
fn append_digits(number: u128, digits: &[u8]) -> u128
    requires digits { All IsAsciiDigit digits.now }
    requires room { (number + 1) * 10 ^ length digits.now ≤ 10 ^ 24 }
    ensures value { result ≡ digits_value_after 10 number digits.now }
    ensures bound { result + 1 ≤ (number + 1) * 10 ^ length digits.now }
{
    let mut appended = number;
    for digit in digits {
        appended = appended * 10 + (digit - b'0') as u128;
    }
    appended
}
