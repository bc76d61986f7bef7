//! Products worked out by hand, and the greatest numbers.

ghost use Rattle.std.specs.Prelude.{◌≡◌, ◌*◌, ◌<◌, ◌≤◌, ◌^◌, IsTrue, IfOk, length, sum};

use super::entries::is_small;
use dense_power::Dense;
use digit_product::along_down;
use interval_fixed::ONE;
use sil_model::Steps;
use std::alloc::{AllocError, Global};
use std::marker::Brand;
use std::process::Abort;
use std::sync::ledger::{Blank, Ledger};

/// A matrix of at most three rows, a vector, and what the matrix brings of it.
struct Case {
    size: usize,
    entries: [u128; 9],
    stride: usize,
    blocks: usize,
    v: [u64; 12],
    wanted: [u64; 12],
}

const HALF: u128 = ONE / 2;

const QUARTER: u128 = ONE / 4;

/// The first number of a line goes in halves to both, and the second one stays.
const TWO: [u128; 9] = [HALF, QUARTER, 0, ONE, 0, 0, 0, 0, 0];

const THREE: [u128; 9] = [HALF, QUARTER, QUARTER, 0, HALF, QUARTER, ONE, 0, 0];

const CASES: [Case; 6] = [
    Case {
        size: 2,
        entries: TWO,
        stride: 1,
        blocks: 2,
        v: [8, 4, 3, 5, 0, 0, 0, 0, 0, 0, 0, 0],
        wanted: [4, 6, 1, 5, 0, 0, 0, 0, 0, 0, 0, 0],
    },
    Case {
        size: 2,
        entries: TWO,
        stride: 2,
        blocks: 1,
        v: [8, 3, 4, 5, 0, 0, 0, 0, 0, 0, 0, 0],
        wanted: [4, 1, 6, 5, 0, 0, 0, 0, 0, 0, 0, 0],
    },
    Case {
        size: 2,
        entries: TWO,
        stride: 3,
        blocks: 2,
        v: [8, 0, 3, 4, 1, 5, 2, 0, 7, 0, 0, 9],
        wanted: [4, 0, 1, 6, 1, 5, 1, 0, 3, 0, 0, 10],
    },
    Case {
        size: 3,
        entries: THREE,
        stride: 1,
        blocks: 2,
        v: [4, 6, 1, 0, 0, 0, 0, 0, 0, 0, 0, 0],
        wanted: [3, 4, 2, 0, 0, 0, 0, 0, 0, 0, 0, 0],
    },
    Case {
        size: 3,
        entries: THREE,
        stride: 2,
        blocks: 2,
        v: [4, 0, 6, 0, 1, 0, 0, 1, 2, 1, 0, 1],
        wanted: [3, 0, 4, 0, 2, 0, 0, 1, 1, 0, 0, 0],
    },
    Case {
        size: 3,
        entries: THREE,
        stride: 3,
        blocks: 1,
        v: [4, 0, 1, 6, 2, 1, 1, 0, 1, 0, 0, 0],
        wanted: [3, 0, 1, 4, 1, 0, 2, 0, 0, 0, 0, 0],
    },
];

/// Whether the numbers of a vector come to 2^63 at most.
fn is_light(v: &[u64]) -> bool
    ensures { IsTrue result → sum v.now ≤ 2 ^ 63 }
{
    let mut total = 0;
    for x in v {
        if *x > (1 << 63) - total {
            return false;
        }
        total += *x;
    }
    true
}

/// What a matrix brings of a vector.
fn along<L: Ledger>(
    rt: &impl Abort,
    alloc: Global,
    m: &Dense,
    stride: usize,
    blocks: usize,
    v: &[u64],
    steps: &mut Steps<L>,
) -> Result<Vec<u64>, AllocError>
    requires some { 0 < stride }
    requires v { length v.now ≡ stride * m.now.size * blocks }
    requires few { length v.now ≤ 4096 }
{
    let mut out = vec![in alloc; 9u64; v.len()]?;
    assert!(rt; is_small(m, ONE) && is_light(v));
    along_down(m, stride, blocks, v, &mut out, steps);
    Ok(out)
}

/// A matrix of at most three rows.
fn small_matrix(alloc: Global, size: usize, entries: &[u128; 9]) -> Result<Dense, AllocError>
    requires some { 1 ≤ size }
    requires few { size ≤ 3 }
    ensures { IfOk result (λ m. m.size ≡ size) }
{
    let mut m = Dense::new(alloc, size)?;
    for i in 0..size {
        for j in 0..size {
            m.set(i, j, entries[i * size + j]);
        }
    }
    Ok(m)
}

/// A matrix whose entries are all 1.
fn full_matrix(alloc: Global, size: usize) -> Result<Dense, AllocError>
    requires some { 1 ≤ size }
    requires few { size ≤ 64 }
    ensures { IfOk result (λ m. m.size ≡ size) }
{
    let mut m = Dense::new(alloc, size)?;
    for i in 0..size {
        for j in 0..size {
            m.set(i, j, ONE);
        }
    }
    Ok(m)
}

fn lines_of_two_and_three<L: Ledger>(
    rt: &impl Abort,
    alloc: Global,
    steps: &mut Steps<L>,
) -> Result<(), AllocError> {
    for case in &CASES {
        assert!(rt;
            1 <= case.size
                && case.size <= 3
                && 1 <= case.stride
                && case.stride <= 3
                && case.blocks <= 2
        );
        let len = case.stride * case.size * case.blocks;
        assert!(rt; len <= 12);
        let m = small_matrix(alloc, case.size, &case.entries)?;
        let v = &case.v[..len];
        let out = along(rt, alloc, &m, case.stride, case.blocks, v, steps)?;
        assert_eq!(rt; out.as_slice(), &case.wanted[..len]);
    }
    Ok(())
}

/// Products of numbers of 4,096 places that come to 2^63, of the greatest entries.
fn greatest_numbers<L: Ledger>(
    rt: &impl Abort,
    alloc: Global,
    steps: &mut Steps<L>,
) -> Result<(), AllocError> {
    let m = full_matrix(alloc, 64)?;
    let spread = [1u64 << 51; 4096];
    let out = along(rt, alloc, &m, 8, 8, &spread, steps)?;
    assert_eq!(rt; out.as_slice(), [1u64 << 57; 4096].as_slice());
    let mut one = [0u64; 64];
    one[63] = 1 << 63;
    let out = along(rt, alloc, &m, 1, 1, &one, steps)?;
    assert_eq!(rt; out.as_slice(), [1u64 << 63; 64].as_slice());
    Ok(())
}

fn run_all<L: Ledger>(rt: &impl Abort, alloc: Global, blank: Blank) -> Result<(), AllocError>
    requires name { blank.name ≡ L.name }
    requires parts { blank.parts ≡ L.parts }
    requires some { 0 < blank.parts }
{
    let mut steps = Steps::<L>::open(blank);
    lines_of_two_and_three(rt, alloc, &mut steps)?;
    greatest_numbers(rt, alloc, &mut steps)?;
    // Each number is rounded down once: ten thirds are 3, though the thirds of 3, 3 and 4 are 0, 0 and 1 where each is.
    let third = ONE / 3;
    let thirds = [third, ONE - 1, 0, third, 0, 0, third, 0, 1];
    let m = small_matrix(alloc, 3, &thirds)?;
    let out = along(rt, alloc, &m, 1, 1, &[3, 3, 4], &mut steps)?;
    assert_eq!(rt; out.as_slice(), [3, 2, 0].as_slice());
    Ok(())
}

#[test]
fn products_along_lines(rt: HostRuntime) -> Result<(), AllocError> {
    run_all::<Brand>(&rt, rt.alloc(), Blank::new(1))
}
