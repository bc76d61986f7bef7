//! A watcher that refuses.

ghost use Rattle.sil_watch.specs.Peak.{peak_value};

use sil_watch::{Peak, PhaseRecord, Watcher, WatcherKind};
use std::alloc::AllocError;

/// A peak that refuses each record.
#[derive(Drop)]
pub(crate) struct Refuser {
    peak: Peak,
}

impl Refuser {
    pub(crate) fn new() -> Refuser {
        Refuser { peak: Peak::new() }
    }
}

impl Watcher for Refuser {
    ghost watcher_value = { λ w. peak_value w.peak };

    fn kind(&self) -> WatcherKind {
        self.peak.kind()
    }

    fn phase(&mut self, _rec: &PhaseRecord) -> Result<(), AllocError> {
        Err(AllocError)
    }

    fn put_line(&self, i: usize, out: &mut Vec<u8>) -> Result<bool, AllocError> {
        self.peak.put_line(i, out)
    }
}
