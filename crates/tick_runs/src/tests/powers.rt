//! Powers worked out apart, and the greatest size.

ghost use Rattle.std.specs.Prelude.{◌≡◌, ℕ, ◌<◌, ◌≤◌, ◌^◌, IsTrue, IfOk, All, vec_len, sum};
ghost use Rattle.vector_laws.specs.Rows.{row_of, EachRowAtMost};

use super::entries::is_small;
use dense_power::{Dense, power_pair};
use interval_fixed::ONE;
use sil_model::Steps;
use std::alloc::{AllocError, Global};
use std::marker::Brand;
use std::process::Abort;
use std::sync::ledger::{Blank, Ledger};

/// Whether a row sums to at most 1.
fn is_row_small(m: &Dense, i: usize) -> bool
    requires { i < m.now.size }
    ensures { IsTrue result → sum (row_of m.now i) ≤ 2 ^ 48 }
{
    let mut sum = 0;
    for j in 0..m.size() {
        let entry = m.at(i, j);
        if entry > ONE {
            return false;
        }
        sum += entry;
    }
    sum <= ONE
}

/// Whether each row sums to at most 1.
fn are_rows_small(m: &Dense) -> bool
    ensures { IsTrue result → EachRowAtMost m.now (2 ^ 48) }
{
    for i in 0..m.size() {
        if !is_row_small(m, i) {
            return false;
        }
    }
    true
}

/// Four matrices of one size.
fn scratch_of(alloc: Global, size: usize) -> Result<Vec<Dense>, AllocError>
    requires some { 1 ≤ size }
    requires few { size ≤ 64 }
    ensures four { IfOk result (λ v. vec_len v ≡ 4) }
    ensures sizes { IfOk result (λ v. All (λ m. m.size ≡ size) v.items) }
{
    let mut scratch = Vec::with_capacity(alloc, 4)?;
    for _ in 0..4u8 {
        scratch.push(Dense::new(alloc, size)?)?;
    }
    Ok(scratch)
}

/// The matrix of two rows.
fn two_by_two(alloc: Global, rows: [[u128; 2]; 2]) -> Result<Dense, AllocError>
    ensures { IfOk result (λ m. m.size ≡ 2) }
{
    let mut m = Dense::new(alloc, 2)?;
    for (i, row) in rows.iter().enumerate() {
        m.set(i, 0, row[0]);
        m.set(i, 1, row[1]);
    }
    Ok(m)
}

/// The rows of a matrix of two rows.
fn rows_of(m: &Dense) -> [[u128; 2]; 2]
    requires { m.now.size ≡ 2 }
{
    [[m.at(0, 0), m.at(0, 1)], [m.at(1, 0), m.at(1, 1)]]
}

/// Each entry rounded down once, with factors at their greatest.
fn products_are_rounded_down<L: Ledger>(
    rt: &impl Abort,
    alloc: Global,
    steps: &mut Steps<L>,
) -> Result<(), AllocError> {
    let a = two_by_two(alloc, [[ONE / 2, ONE / 4], [1, 0]])?;
    let b = two_by_two(alloc, [[ONE, 3], [5, 1 << 68]])?;
    let mut down = two_by_two(alloc, [[9, 9], [9, 9]])?;
    assert!(rt; is_small(&a, ONE) && is_small(&b, 1 << 68));
    down.mul_down(&a, &b, steps);
    assert_eq!(rt;
        rows_of(&down),
        [[140_737_488_355_329, 73_786_976_294_838_206_465], [1, 0]]
    );
    Ok(())
}

/// The pair of so many beats of the pair of one beat.
fn powered<L: Ledger>(
    rt: &impl Abort,
    alloc: Global,
    beats: u64,
    end: [[u128; 2]; 2],
    dwell: [[u128; 2]; 2],
    steps: &mut Steps<L>,
) -> Result<[[[u128; 2]; 2]; 2], AllocError>
    requires { (1 ≤ beats) × (beats ≤ 1_000_000) }
{
    let mut end = two_by_two(alloc, end)?;
    let mut dwell = two_by_two(alloc, dwell)?;
    let mut scratch = scratch_of(alloc, 2)?;
    assert!(rt; are_rows_small(&end) && are_rows_small(&dwell));
    power_pair(&mut end, &mut dwell, &mut scratch, beats, steps);
    Ok([rows_of(&end), rows_of(&dwell)])
}

/// Eleven beats, against the exact matrices rounded down, which were worked out apart in fractions. Each row may lack
/// 22 units of the end and 240 of the dwell sum.
fn eleven_beats<L: Ledger>(
    rt: &impl Abort,
    alloc: Global,
    steps: &mut Steps<L>,
) -> Result<(), AllocError> {
    let end = [
        [281_193_501_733_939, 281_474_976_710],
        [11_728_124_029_610, 269_746_852_681_041],
    ];
    let dwell = [
        [281_334_239_222_290, 140_737_488_355],
        [5_864_062_014_805, 275_610_914_695_848],
    ];
    let exact = [
        [
            [278_961_533_941_029, 2_513_442_769_549],
            [104_726_782_064_798, 176_748_194_645_798],
        ],
        [
            [3_081_309_069_910_217, 14_915_673_906_493],
            [621_486_412_771_951, 2_474_738_331_044_927],
        ],
    ];
    let pair = powered(rt, alloc, 11, end, dwell, steps)?;
    for (k, most) in [22, 240].iter().enumerate() {
        for i in 0..2 {
            for j in 0..2 {
                let (got, want) = (pair[k][i][j], exact[k][i][j]);
                assert!(rt; got <= want, "{k} {i} {j}: {got} of {want}");
                assert!(rt; want - got <= *most, "{k} {i} {j}: {got} of {want}");
            }
        }
    }
    Ok(())
}

/// The greatest size and the most beats, of which nothing is left after the first.
fn most_beats<L: Ledger>(
    rt: &impl Abort,
    alloc: Global,
    steps: &mut Steps<L>,
) -> Result<(), AllocError> {
    let mut end = Dense::new(alloc, 64)?;
    let mut dwell = Dense::new(alloc, 64)?;
    dwell.set(63, 0, ONE);
    let mut scratch = scratch_of(alloc, 64)?;
    assert!(rt; are_rows_small(&end) && are_rows_small(&dwell));
    power_pair(&mut end, &mut dwell, &mut scratch, 1_000_000, steps);
    assert_eq!(rt; end.size(), 64);
    assert_eq!(rt;
        (end.at(63, 63), dwell.at(63, 0), dwell.at(0, 63)),
        (0, ONE, 0)
    );
    Ok(())
}

fn run_all<L: Ledger>(rt: &impl Abort, alloc: Global, blank: Blank) -> Result<(), AllocError>
    requires name { blank.name ≡ L.name }
    requires parts { blank.parts ≡ L.parts }
    requires some { 0 < blank.parts }
{
    let mut steps = Steps::<L>::open(blank);
    products_are_rounded_down(rt, alloc, &mut steps)?;
    // the identity stays and adds up
    let once = [[ONE, 0], [0, ONE]];
    let pair = powered(rt, alloc, 5, once, once, &mut steps)?;
    assert_eq!(rt; pair, [once, [[5 * ONE, 0], [0, 5 * ONE]]]);
    eleven_beats(rt, alloc, &mut steps)?;
    most_beats(rt, alloc, &mut steps)
}

#[test]
fn products_and_powers_of_matrices(rt: HostRuntime) -> Result<(), AllocError> {
    run_all::<Brand>(&rt, rt.alloc(), Blank::new(1))
}
