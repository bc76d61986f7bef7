//! The bands at their edges, and the levels that they meet.

use sil_bands::{meets, pfd_band, pfh_band};
use sil_model::{Band, Decimal18};

#[test]
fn bands_at_their_edges_and_what_they_meet(rt: HostRuntime) {
    let sil4 = 10_000_000_000_000u128;
    let pfd = [
        (0, sil4 - 1, Band::Beyond4),
        (sil4 - 1, sil4 - 1, Band::Beyond4),
        (sil4, 10 * sil4 - 1, Band::Sil4),
        (sil4, 10 * sil4, Band::Undecided),
        (10 * sil4, 100 * sil4 - 1, Band::Sil3),
        (100 * sil4, 1000 * sil4 - 1, Band::Sil2),
        (1000 * sil4, 10_000 * sil4 - 1, Band::Sil1),
        (10_000 * sil4, 100_000 * sil4, Band::NoSil),
        (0, 100_000 * sil4, Band::Undecided),
    ];
    for (lo, hi, band) in pfd {
        assert!(rt; lo <= hi && hi < 10_000_000_000_000_000_000);
        assert_eq!(rt; pfd_band(Decimal18 { lo, hi }), band, "{lo} .. {hi}");
    }
    let pfh = [
        (0, 999_999_999, Band::Beyond4),
        (1_000_000_000, 9_999_999_999, Band::Sil4),
        (10_000_000_000, 99_999_999_999, Band::Sil3),
        (100_000_000_000, 999_999_999_999, Band::Sil2),
        (1_000_000_000_000, 9_999_999_999_999, Band::Sil1),
        (10_000_000_000_000, 10_000_000_000_000, Band::NoSil),
        (9_999_999_999_999, 10_000_000_000_000, Band::Undecided),
    ];
    for (lo, hi, band) in pfh {
        assert!(rt; lo <= hi && hi < 10_000_000_000_000_000_000);
        assert_eq!(rt; pfh_band(Decimal18 { lo, hi }), band, "{lo} .. {hi}");
    }
    let levels = [
        (Band::Beyond4, 4),
        (Band::Sil4, 4),
        (Band::Sil3, 3),
        (Band::Sil2, 2),
        (Band::Sil1, 1),
        (Band::NoSil, 0),
        (Band::Undecided, 0),
    ];
    for (band, most) in levels {
        for need in 1..=4u8 {
            assert_eq!(rt; meets(band, need), need <= most, "{band:?} {need}");
        }
    }
}
