//! What is computed of a loop.

ghost use Rattle.std.specs.Prelude.{◌≤◌, ◌<◌, ◌^◌};

/// A closed interval in units of 10^-18, with `lo <= hi < 10^19`.
#[derive(Clone, Copy, Debug, PartialEq, Eq)]
pub struct Decimal18 {
    /// The lower end, in units of 10^-18.
    pub lo: u128,
    /// The upper end, in units of 10^-18.
    pub hi: u128,
    ghost ordered: { lo ≤ hi },
    ghost printable: { hi < 10 ^ 19 },
}

/// A band of the safety integrity levels of IEC 61508-1.
#[derive(Clone, Copy, Debug, PartialEq, Eq)]
pub enum Band {
    /// Below the band of SIL 4.
    Beyond4,
    /// SIL 4.
    Sil4,
    /// SIL 3.
    Sil3,
    /// SIL 2.
    Sil2,
    /// SIL 1.
    Sil1,
    /// Above the band of SIL 1.
    NoSil,
    /// No band holds both ends of the interval.
    Undecided,
}

/// The figures of a loop, and how large its computation was.
#[derive(Clone, Copy, Debug, PartialEq, Eq)]
pub struct Value {
    /// PFDavg, the average probability of failure on demand.
    pub pfd: Decimal18,
    /// PFH, the average frequency of dangerous failure per hour.
    pub pfh: Decimal18,
    /// The phases between proof tests.
    pub phases: u64,
    /// The lumped states.
    pub states: u64,
    /// The beats of all phases.
    pub beats: u64,
    /// The order of the series.
    pub order: u8,
}

/// How large the computation of a loop is.
#[derive(Clone, Copy, Debug, PartialEq, Eq)]
pub struct Sizes {
    /// The phases between proof tests.
    pub phases: u64,
    /// The lumped states.
    pub states: u64,
    /// The beats of all phases.
    pub beats: u64,
    /// Beats times order times states.
    pub work: u64,
}

/// The limit that a loop exceeds, with the count that exceeds it.
#[derive(Clone, Copy, Debug, PartialEq, Eq)]
pub enum LimitFault {
    /// More tests of channels than [`MOST_TESTS`](crate::MOST_TESTS).
    TooManyTests(u64),
    /// More lumped states than [`MOST_STATES`](crate::MOST_STATES).
    TooManyStates(u128),
    /// More beats than [`MOST_BEATS`](crate::MOST_BEATS).
    TooManyBeats(u64),
    /// More work than [`MOST_WORK`](crate::MOST_WORK).
    TooMuchWork(u64),
}
