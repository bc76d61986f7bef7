//! Whole runs over a shelf and a sink in memory, of which no premise is left open.
//!
//! The promise `complete` of [`run_program`] has premises: that the words are in the language, that the file is told, without fault and
//! within the limits, and that neither count of faults rises. Here the shelf, the sink and the words are made, and each of those
//! premises is proved: what remains is said of the bytes of the file alone ([`check_file`]), read off them ([`check_sound`]), or
//! nothing at all ([`check_drawn`], [`check_one_channel`]).
#![tactic(auto)]

ghost use Rattle.std.specs.Prelude.{◌≡◌, codes, List, [], ◌∷◌, map, string_bytes, IfOk, IfNone, IfSome};
ghost use Rattle.sil_model.specs.LoopValue.{LoopValue};
ghost use Rattle.loop_gen.specs.Drawn.{drawn_of};
ghost use Rattle.complete_run.specs.OneChannel.{one_channel};
ghost use Rattle.complete_run.specs.Whole.{AreSound, AreUnsound, IsWhole};

use file_fault::FileFault;
use loop_file::read_loop;
use loop_gen::make_loop;
use loop_print::print_loop;
use loop_value::{ValueFault, measure};
use sil_io::{MemShelf, MemSink};
use sil_model::MOST_FILE_BYTES;
use sil_top::{Status, run_program};
use std::alloc::{AllocError, Global};

/// Room for every report.
const ROOM: usize = 1024;

/// The bytes of examples/one-channel.toml.
const ONE_CHANNEL: &[u8] = b"\
    # One transmitter with one dangerous undetected failure in a million hours, \
    a mission of a year and no test at all.\n\
    # PFDavg has the closed form 1 - (1 - e^-x)/x with x = 0.00876, \
    which is 0.0043672383602...: inside the interval.\n\
    # The smallest loop there is; a start for a file of one's own.\n\
    version = 1\n\
    mission = 8760\n\
    [[subsystem]]\n\
    name = \"sif\"\n\
    vote = \"1oo1\"\n\
    du = \"1.0E-6\"\n\
    repair = 8\n";

/// The words of the run.
fn words_of_check(alloc: Global) -> Result<Vec<String>, AllocError>
    ensures { IfOk result (λ words. map string_bytes words.items ≡ codes "check" ∷ codes "loop.toml" ∷ []) }
{
    let mut words = Vec::new(alloc);
    words.push(String::from_str(alloc, "check")?)?;
    words.push(String::from_str(alloc, "loop.toml")?)?;
    Ok(words)
}

/// The status of `check loop.toml` over a shelf that holds this file under that name, and the sink that the run wrote to.
pub fn check_file(alloc: Global, file: &[u8]) -> Result<(Status, MemSink), AllocError>
    // Of each file without fault, whose loop is within the limits, the whole report is written, or the program was out of memory.
    ensures { IfOk result (λ ended. (l : LoopValue) → AreSound file.now l → IsWhole l ended.0 ended.1.written) }
{
    let mut shelf = MemShelf::new(alloc);
    shelf.put("loop.toml", file)?;
    let mut sink = MemSink::new(alloc, ROOM)?;
    let words = words_of_check(alloc)?;
    let status = run_program(alloc, &words, &mut shelf, &mut sink);
    Ok((status, sink))
}

/// The same of a file that is read first, and `None` where it is not sound.
#[tactic(auto, using(crate::proofs::Unsound::long_file, crate::proofs::Unsound::faulty_file, crate::proofs::Unsound::loop_over_limit))]
pub fn check_sound(alloc: Global, file: &[u8]) -> Result<Option<(Status, MemSink)>, AllocError>
    ensures whole { IfOk result (λ found. IfSome found (λ ended. (l : LoopValue) × AreSound file.now l × IsWhole l ended.0 ended.1.written)) }
    ensures none { IfOk result (λ found. IfNone found (AreUnsound file.now)) }
{
    if file.len() > MOST_FILE_BYTES {
        return Ok(None);
    }
    let l = match read_loop(alloc, file) {
        Ok(l) => l,
        Err(FileFault::Memory(e)) => return Err(e),
        Err(_) => return Ok(None),
    };
    match measure(alloc, &l, l.order()) {
        Ok(_) => Ok(Some(check_file(alloc, file)?)),
        Err(ValueFault::Memory(e)) => Err(e),
        Err(ValueFault::Limit(_)) => Ok(None),
    }
}

/// The same of the loop file that is printed of the loop of a number.
pub fn check_drawn(alloc: Global, number: u64) -> Result<(Status, MemSink), AllocError>
    ensures { IfOk result (λ ended. IsWhole (drawn_of number) ended.0 ended.1.written) }
{
    let l = make_loop(alloc, number)?;
    let file = print_loop(alloc, &l)?;
    check_file(alloc, &file)
}

/// The same of the file of one channel without tests, for a year. The checker reads its bytes, so no premise is left open.
#[tactic(auto, using(crate::proofs::OneChannel::one_channel_is_sound))]
pub fn check_one_channel(alloc: Global) -> Result<(Status, MemSink), AllocError>
    ensures { IfOk result (λ ended. IsWhole one_channel ended.0 ended.1.written) }
{
    check_file(alloc, ONE_CHANNEL)
}
