//! Ratios in units of 2^-48.

ghost use Rattle.std.specs.Prelude.{◌≡◌, ◌*◌, ◌/◌, ◌^◌, ◌<◌, ◌≤◌};
ghost use Rattle.sil_model.specs.Calendar.{ceiling};

/// The number 1, in units of 2^-48.
pub const ONE: u128 = 1 << 48;

/// `n / d` in units of 2^-48, rounded down. It is exact or less than one unit below.
pub fn ratio_down(n: u128, d: u128) -> u128
    requires at_most_one { n ≤ d }
    requires some { 0 < d }
    requires room { d < 2 ^ 80 }
    ensures floor { result ≡ n * 2 ^ 48 / d }
    ensures at_most_one { result ≤ 2 ^ 48 }
{
    n * ONE / d
}

/// `n / d` in units of 2^-48, rounded up. It is exact or less than one unit above.
pub fn ratio_up(n: u128, d: u128) -> u128
    requires at_most_one { n ≤ d }
    requires some { 0 < d }
    requires room { d < 2 ^ 80 }
    ensures ceiling { result ≡ ceiling (n * 2 ^ 48) d }
    ensures at_most_one { result ≤ 2 ^ 48 }
{
    (n * ONE).div_ceil(d)
}
