//! The loop of a file.

ghost use Rattle.sil_top.specs.Run.{IsFileOf, IsHandedWhole};
ghost use Rattle.sil_top.specs.Causes.{Reads};

use crate::answer::Fault;
use file_fault::FileFault;
use loop_file::read_loop;
use sil_io::{ReadFault, Shelf, read_to_limit};
use sil_model::{Loop, MOST_FILE_BYTES};
use sil_report::file_fault_text;
use std::alloc::Global;

/// Reads the loop of the file of this name.
pub fn load<S: Shelf>(alloc: Global, name: &str, shelf: &mut S) -> Result<Loop, Fault>
    ensures { Reads (record { tells = S.tells; file = S.file; handed = S.handed; tried = S.tried; failed = S.failed; faults = S.faults; calm = S.calm })
        shelf.old shelf.new name.now (IsFileOf S.tells (S.file shelf.old) (S.handed shelf.new) name.now) result }
{
    let bytes = read_file(alloc, name, shelf)?;
    match read_loop(alloc, &bytes) {
        Ok(l) => Ok(l),
        Err(FileFault::Memory(e)) => Err(Fault::Memory(e)),
        Err(fault) => match file_fault_text(alloc, &fault) {
            Ok(line) => Err(Fault::Refused(line)),
            Err(e) => Err(Fault::Memory(e)),
        },
    }
}

/// Reads the file of this name whole.
fn read_file<S: Shelf>(alloc: Global, name: &str, shelf: &mut S) -> Result<Vec<u8>, Fault>
    ensures { Reads (record { tells = S.tells; file = S.file; handed = S.handed; tried = S.tried; failed = S.failed; faults = S.faults; calm = S.calm })
        shelf.old shelf.new name.now (λ bytes. IsHandedWhole S.tells (S.file shelf.old) (S.handed shelf.new) name.now bytes.items) result }
{
    if shelf.pick(name).is_err() {
        return Err(Fault::Read);
    }
    match read_to_limit(alloc, shelf, MOST_FILE_BYTES) {
        Ok(bytes) => Ok(bytes),
        Err(ReadFault::TooLong) => Err(Fault::TooLong),
        Err(ReadFault::Failed) => Err(Fault::Read),
        Err(ReadFault::Memory(e)) => Err(Fault::Memory(e)),
    }
}
