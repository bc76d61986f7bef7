//! The mean of the vectors at the start of each beat, and what is dwelt from it on.

ghost use Rattle.std.specs.Prelude.{◌≡◌, ℕ, ◌*◌, ◌^◌, ◌<◌, ◌≤◌, length, map, slice_index};
ghost use Rattle.vector_laws.specs.Laws.{AreFloors};

/// Makes `mean` a sum of vectors divided by how many they are, rounded down.
pub fn divide(sums: &[u64], count: u64, mean: &mut [u64])
    requires size { length mean.old ≡ length sums.now }
    requires some { 0 < count }
    ensures { AreFloors count sums.now mean.new }
{
    for k in 0..sums.len() {
        mean[k] = sums[k] / count;
    }
}

/// Makes each number so many times as great.
pub fn multiply(dwell: &mut [u128], count: u64)
    requires few { count < 2 ^ 15 }
    requires small { (k : ℕ) → k < length dwell.old → slice_index dwell.old k ≤ 2 ^ 48 }
    ensures { dwell.new ≡ map (λ n. count * n) dwell.old }
{
    for k in 0..dwell.len() {
        dwell[k] *= u128::from(count);
    }
}
