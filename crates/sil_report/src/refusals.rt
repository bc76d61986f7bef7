//! The lines that name what is refused.

ghost use Rattle.std.specs.Prelude.{◌≡◌, ◌≢◌, IfOk, alloc_error, string_bytes};
ghost use Rattle.file_fault.specs.declared.FileFault.TheVariants.{Memory};
ghost use Rattle.sil_report.specs.Texts.{file_fault_line_of, limit_fault_line_of, too_long_line};

use file_fault::FileFault;
use sil_model::{LimitFault, MOST_BEATS, MOST_STATES, MOST_TESTS, MOST_WORK};
use std::alloc::{AllocError, Global};

/// The line of a file that is longer than a loop file may be.
pub fn too_long_text() -> &'static [u8]
    ensures { result.now ≡ too_long_line }
{
    b"refused: file longer than 65536 bytes\n"
}

/// The line of a loop that is above a limit: the count that is too great, and the limit.
pub fn limit_fault_text(alloc: Global, f: &LimitFault) -> Result<Vec<u8>, AllocError>
    ensures { IfOk result (λ text. text.items ≡ limit_fault_line_of f.now) }
{
    Ok(limit_line(alloc, f)?.into_bytes())
}

/// The line of a loop file that is refused: the fault, and the path of its place in the file.
///
/// To be out of memory is no fault of a file, and has no line.
pub fn file_fault_text(alloc: Global, f: &FileFault) -> Result<Vec<u8>, AllocError>
    requires { f.now ≢ Memory alloc_error }
    ensures { IfOk result (λ text. text.items ≡ file_fault_line_of f.now) }
{
    Ok(fault_line(alloc, f)?.into_bytes())
}

fn limit_line(alloc: Global, f: &LimitFault) -> Result<String, AllocError>
    ensures { IfOk result (λ text. string_bytes text ≡ limit_fault_line_of f.now) }
{
    match *f {
        LimitFault::TooManyTests(n) => {
            format!(in alloc; "refused: {n} channel tests, limit {MOST_TESTS}\n")
        }
        LimitFault::TooManyStates(n) => {
            format!(in alloc; "refused: {n} states, limit {MOST_STATES}\n")
        }
        LimitFault::TooManyBeats(n) => {
            format!(in alloc; "refused: {n} beats, limit {MOST_BEATS}\n")
        }
        LimitFault::TooMuchWork(n) => {
            format!(in alloc; "refused: work {n}, limit {MOST_WORK}\n")
        }
    }
}

fn fault_line(alloc: Global, f: &FileFault) -> Result<String, AllocError>
    ensures { IfOk result (λ text. string_bytes text ≡ file_fault_line_of f.now) }
{
    format!(in alloc; "refused: {f}\n")
}
