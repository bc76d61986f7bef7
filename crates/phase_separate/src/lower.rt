//! A vector made a little smaller, so that it stays below beats whose ticks are cut off.

ghost use Rattle.std.specs.Prelude.{◌≡◌, ℕ, ◌+◌, ◌-◌, ◌*◌, ◌^◌, ◌<◌, ◌≤◌, length, sum, slice_index};
ghost use Rattle.phase_separate.specs.Passes.{IsLowered};

/// The sum of all numbers of a vector.
pub fn sum_of(v: &[u64]) -> u128
    ensures { result ≡ sum v.now }
{
    let mut total = 0;
    for x in v {
        total += u128::from(*x);
    }
    total
}

/// Makes each number of `a` smaller by `beats * 2^-46` of the most that is there and is there sixteen beats on, which `b` is.
///
/// `whole` is what both vectors would come to if they lacked nothing, over as many beats as are summed in them.
pub fn lower(a: &mut [u64], b: &[u64], beats: u64, summed: u64, whole: u128)
    requires size { length b.now ≡ length a.old }
    requires few { beats < 2 ^ 15 }
    requires summed { summed < 2 ^ 15 }
    requires whole { whole ≤ summed * 2 ^ 48 }
    requires a { sum a.old ≤ whole }
    requires b { sum b.now ≤ whole }
    ensures { IsLowered beats ((whole - sum a.old) + (whole - sum b.now) + 16 * summed * (beats + 16)) a.old b.now a.new }
{
    let lacked = (whole - sum_of(a))
        + (whole - sum_of(b))
        + 16 * u128::from(summed) * u128::from(beats + 16);
    lower_by(a, b, u128::from(beats), lacked);
}

/// Makes each number of `a` smaller by `beats * 2^-46` of what it, that of `b` and `lacked` come to.
fn lower_by(a: &mut [u64], b: &[u64], beats: u128, lacked: u128)
    requires size { length b.now ≡ length a.old }
    requires few { beats < 2 ^ 15 }
    requires little { lacked ≤ 2 ^ 66 }
    ensures { IsLowered beats lacked a.old b.now a.new }
{
    for k in 0..a.len() {
        let taken = beats * (u128::from(a[k]) + u128::from(b[k]) + lacked);
        a[k] = ((u128::from(a[k]) << 46).saturating_sub(taken) >> 46) as u64;
    }
}
