//! Exact products and quotients by powers of ten.

ghost use Rattle.std.specs.Prelude.{◌≡◌, ◌≢◌, ℕ, ◌*◌, ◌^◌, ◌≤◌, IfSome, IfNone};
ghost use Rattle.std.specs.Option.{SomeIff};

/// `number` divided by ten `times` times, where nothing is left over.
pub fn divided_by_tens(number: u128, times: u32) -> Option<u128>
    ensures some { IfSome result (λ quotient. number ≡ quotient * 10 ^ times) }
    ensures none { IfNone result ((quotient : ℕ) → number ≢ quotient * 10 ^ times) }
{
    let mut quotient = number;
    for _tens in 0..times {
        if quotient % 10 != 0 {
            return None;
        }
        quotient /= 10;
    }
    Some(quotient)
}

/// `number` multiplied by ten `times` times, where that is at most `greatest`.
pub fn multiplied_by_tens(number: u128, times: u32, greatest: u64) -> Option<u64>
    ensures { SomeIff result (number * 10 ^ times ≤ greatest) (number * 10 ^ times) }
{
    let mut product = number;
    for _tens in 0..times {
        if product > greatest as u128 {
            return None;
        }
        product *= 10;
    }
    if product > greatest as u128 {
        return None;
    }
    Some(product as u64)
}
