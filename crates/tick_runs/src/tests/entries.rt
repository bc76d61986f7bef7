//! Whether the entries of a matrix and the numbers of a vector are within what is required of them.

ghost use Rattle.std.specs.Prelude.{◌≡◌, ℕ, ◌<◌, ◌≤◌, IsTrue};
ghost use Rattle.vector_laws.specs.Matrix.{entry_of, EachEntryAtMost};
ghost use Rattle.vector_laws.specs.Vectors.{IsMass};

use dense_power::Dense;
use interval_fixed::ONE;

/// Whether no entry of a row is more than so much.
fn is_row_small(m: &Dense, i: usize, most: u128) -> bool
    requires { i < m.now.size }
    ensures { IsTrue result → (j : ℕ) → j < m.now.size → entry_of m.now i j ≤ most }
{
    for j in 0..m.size() {
        if m.at(i, j) > most {
            return false;
        }
    }
    true
}

/// Whether no entry is more than so much.
pub(crate) fn is_small(m: &Dense, most: u128) -> bool
    ensures { IsTrue result → EachEntryAtMost m.now most }
{
    for i in 0..m.size() {
        if !is_row_small(m, i, most) {
            return false;
        }
    }
    true
}

/// Whether the numbers of a vector come to 1 at most.
pub(crate) fn is_mass(v: &[u64]) -> bool
    ensures { IsTrue result → IsMass v.now }
{
    let mut total = 0;
    for x in v {
        if *x > super::ONE - total {
            return false;
        }
        total += *x;
    }
    true
}
