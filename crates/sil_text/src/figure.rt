//! A figure in units of 10^-18, written out.

ghost use Rattle.std.specs.Prelude.{◌≡◌, ◌<◌, ◌^◌};
ghost use Rattle.sil_text.specs.Figure.{decimal18};
ghost use Rattle.sil_text.specs.FixedBy.{TextsFixNumbers};

/// Writes `v` units of 10^-18 as one digit, a point and eighteen digits.
///
/// Below 10^19, one digit before the point is enough.
pub fn put_decimal18(v: u128) -> [u8; 20]
    requires { v < 10 ^ 19 }
    ensures { result ≡ decimal18 v }
{
    let mut text = [b'.'; 20];
    let mut rest = v;
    for place in 0..18 {
        text[19 - place] = b'0' + (rest % 10) as u8;
        rest /= 10;
    }
    text[0] = b'0' + rest as u8;
    text
}

/// One text stands for one number: a whole number is read back from what it is written as where no further digit comes behind
/// it, and a figure whatever comes behind it.
pub fn texts_fix_numbers()
    ensures { TextsFixNumbers }
{}
