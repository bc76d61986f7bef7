//! A watcher that runs out of room.

ghost use Rattle.sil_watch.specs.Series.{series_value};

use sil_watch::{PhaseRecord, Series, Watcher, WatcherKind};
use std::alloc::{AllocError, Global};

/// A series that has room for so many records more, and refuses the next one.
#[derive(Drop)]
pub(crate) struct ShortOfRoom {
    series: Series,
    room: u32,
}

impl ShortOfRoom {
    pub(crate) fn new(alloc: Global, room: u32) -> ShortOfRoom {
        ShortOfRoom {
            series: Series::new(alloc),
            room,
        }
    }
}

impl Watcher for ShortOfRoom {
    ghost watcher_value = { λ w. series_value w.series };

    fn kind(&self) -> WatcherKind {
        self.series.kind()
    }

    fn phase(&mut self, rec: &PhaseRecord) -> Result<(), AllocError> {
        if self.room == 0 {
            return Err(AllocError);
        }
        self.series.phase(rec)?;
        self.room -= 1;
        Ok(())
    }

    fn put_line(&self, i: usize, out: &mut Vec<u8>) -> Result<bool, AllocError> {
        self.series.put_line(i, out)
    }
}
