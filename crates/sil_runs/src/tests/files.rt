//! The files of the command lines.

use super::{ONE_CHANNEL, changed, lines_of};
use sil_io::MemShelf;
use std::alloc::{AllocError, Global};

/// Sensors, logic and valves over ten days, tested every 80 hours.
const THREE: &str = "\
version = 1;mission = 240;[[type]];name = 'plant';repair = 24\
;[[subsystem]];name = 'sensors';type = 'plant';vote = '2oo3';du = '5.0E-7';dd = '2.0E-6';test = { every = 80 }\
;[[subsystem]];name = 'logic';type = 'plant';vote = '1oo1';du = '1.0E-7';dd = '9.0E-7';test = { every = 80 }\
;[[subsystem]];name = 'valves';type = 'plant';vote = '1oo2';du = '2.0E-6';test = { every = 80 }";

/// A PFDavg of exactly 1/100, where two bands meet, and a PFH of 2/10000.
const NEAR: &str = "\
version = 1;mission = 100;[[subsystem]];name = 'sif';vote = '1oo1';du = '0';repair = 8;restart_fault = '0.02'\
;test = { first = 50, every = 100 }";

/// One beat too many.
const LARGE: &str =
    "version = 1;mission = 250001;[[subsystem]];name = 'sif';vote = '1oo4';du = '0';repair = 1";

/// A shelf that holds them.
pub(crate) fn shelf_of_files(alloc: Global) -> Result<MemShelf, AllocError> {
    let mut shelf = MemShelf::new(alloc);
    shelf.put("one", ONE_CHANNEL.as_bytes())?;
    shelf.put("-x", ONE_CHANNEL.as_bytes())?;
    shelf.put("three", lines_of(alloc, THREE)?.as_bytes())?;
    shelf.put("near", lines_of(alloc, NEAR)?.as_bytes())?;
    shelf.put("none", changed(alloc, "1.0E-6", "0", "")?.as_bytes())?;
    shelf.put("large", lines_of(alloc, LARGE)?.as_bytes())?;
    shelf.put("bad", b"version =")?;
    Ok(shelf)
}
