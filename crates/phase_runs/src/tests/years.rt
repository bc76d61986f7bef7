//! A year of one channel that begins working and fails once in a million hours.

use std::process::Abort;

/// The chance that the channel works and that it has failed: at the end of the year, on average over it, and the hours of that.
///
/// The exact numbers are exp(-x) and (1 - exp(-x)) / x for x = 0.00876, and what they leave to 1, rounded down.
const EXACT: [(u64, u128, u128); 2] = [
    (
        279_020_024_305_116,
        280_245_708_394_922,
        2_454_952_405_539_518_789,
    ),
    (2_454_952_405_539, 1_229_268_315_733, 10_768_390_445_827_770),
];

/// What 1096 beats may lose, 819 units each.
const LOSS: u64 = 897_624;

/// Asserts that a phase left these chances; `hours` was 1 everywhere before it.
pub(crate) fn assert_year(rt: &impl Abort, v: &[u64; 4], mean: &[u128; 4], hours: &[u128; 4]) {
    let loss = u128::from(LOSS);
    for k in 0..2 {
        let (end, middle, dwelt) = EXACT[k];
        assert!(rt; v[k] <= end && end - v[k] <= LOSS, "end of {k}");
        assert!(rt;
            mean[k] <= middle && middle - mean[k] <= loss + 4,
            "mean of {k}"
        );
        let added = hours[k].saturating_sub(1);
        assert!(rt;
            added <= dwelt && dwelt - added <= 8760 * loss + 4,
            "hours of {k}"
        );
    }
    assert_eq!(rt;
        (v[2], v[3], mean[2], mean[3], hours[2], hours[3]),
        (0, 0, 0, 0, 1, 1)
    );
}
