//! The kinds of watchers, and sets of these.

ghost use Rattle.std.specs.Prelude.{◌≡◌};
ghost use Rattle.sil_watch.specs.Kinds.{holds, no_kinds, with_kind};

/// The kinds of watchers, in the order in which their lines are told.
#[derive(Clone, Copy, Debug, PartialEq, Eq)]
pub enum WatcherKind {
    /// The series of the phases.
    Series,
    /// The phase at whose end the chance of being down is greatest.
    Peak,
    /// The hours in each band.
    Occupancy,
}

/// A set of kinds of watchers.
#[derive(Clone, Copy, Debug, PartialEq, Eq)]
pub struct WatchSet {
    series: bool,
    peak: bool,
    occupancy: bool,
}

impl WatchSet {
    /// No kind.
    pub fn empty() -> WatchSet
        ensures { result ≡ no_kinds }
    {
        WatchSet {
            series: false,
            peak: false,
            occupancy: false,
        }
    }

    /// This kind alone.
    pub fn only(kind: WatcherKind) -> WatchSet
        ensures { result ≡ with_kind kind no_kinds }
    {
        let mut set = WatchSet::empty();
        set.insert(kind);
        set
    }

    /// Takes in a kind.
    pub fn insert(&mut self, kind: WatcherKind)
        ensures { self.new ≡ with_kind kind self.old }
    {
        match kind {
            WatcherKind::Series => self.series = true,
            WatcherKind::Peak => self.peak = true,
            WatcherKind::Occupancy => self.occupancy = true,
        }
    }

    /// Whether a kind is among them.
    pub fn contains(self, kind: WatcherKind) -> bool
        ensures { result ≡ holds self kind }
    {
        match kind {
            WatcherKind::Series => self.series,
            WatcherKind::Peak => self.peak,
            WatcherKind::Occupancy => self.occupancy,
        }
    }
}
