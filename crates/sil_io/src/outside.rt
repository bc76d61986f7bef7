//! Real files and the standard output. Which bytes they hold no clause can tell; what was asked of them, what was read
//! and what was written is kept for proofs alone.
//!
//! The clauses hold of every runtime and of every writer, and one body serves them all, which cannot ask which it has.
//! Where an open file tells what its reads will give, as files in memory may, `read` hands out just that, leaves the
//! file as it was where it fails, and answers 0 to a buffer with room only at the file's end. Where a writer tells what
//! it holds, `write` adds to it just the bytes that it answers, or, where it fails, a front of those that it was given;
//! `note_stall` adds nothing. What no clause ties, and a reader has to see, is
//!
//! - that `FileShelf::pick` opens the file of the name that it is given, `fs::open(self.rt, name)`, and keeps it as it
//!   was opened: a body that opens another file, or reads some bytes first, meets every clause;
//! - that no call of `FileShelf` does anything else with the files of the runtime, which it could write and remove too;
//! - that `pick`, `read` and `write` fail only where the call of the library below them fails, and that `write` takes
//!   bytes where the writer does: a body that always fails, or always takes nothing, meets every clause, and tests
//!   alone refuse it;
//! - that `OutSink::write` flushes the writer at each write, and fails where the flush fails: tests alone refuse a
//!   flush that is left out, or whose failure is ignored;
//! - that the sink of `main` is made of the standard output, `OutSink::new(io::writer(&rt))` in
//!   `crates/sil/src/main.rt`;
//! - that `FileShelf` and `OutSink` do nothing when they are dropped, since no clause speaks of a drop: one that writes
//!   to the writer or to the files of the runtime meets every clause, and a test refuses only the first;
//! - that `main` hands its words but the first, the real files and this sink to `run_program`, does nothing else with
//!   the runtime, and ends with the number of the answer; where it cannot have its words, it ends with that of `Memory`
//!   or, if they are not UTF-8, of `Usage`.
ghost use Rattle.std.specs.Prelude.{◌≡◌, ℕ, ◌≤◌, ◌<◌, ◌++◌, ◌∷◌, ◌↔◌, [], None, true, false, length, take, drop, is_ok, is_err, IsTrue, IsOk, IfOk, OnOk, OnErr};
ghost use Rattle.std.specs.Io.KnownBytes.{Appends, Consumes, Keeps, IsAtEnd};
ghost use Rattle.sil_io.specs.Faults.{CountsFault, counted};
ghost use Rattle.sil_io.specs.Handed.{nothing_handed, handed_more};
ghost use Rattle.sil_io.specs.Outside.{FilesState, OutState, AppendsFront};

use crate::log::Log;
use crate::reading::Shelf;
use crate::writing::{Failed, Sink};
use std::io::{Read, Write};
use std::marker::Model;
use std::rt::Files;
use std::{fs, io};

/// The files that the program's paths name.
pub struct FileShelf<'a, R: Files> {
    rt: &'a R,
    file: Option<R::File>,
    tried: Log,
    pieces: Log,
    failed: bool,
    faults: u64,
}

impl<'a, R: Files> Model for FileShelf<'a, R> {
    ghost use Rattle.std.specs.Prelude.{is_some, option_and_then};
    ghost use Rattle.sil_io.specs.Outside.{FilesState, handed_by};

    ghost Value = { FilesState };

    ghost view = { λ s. record { picked = is_some s.file; remaining = option_and_then R.File.remaining s.file; handed = handed_by (is_some s.file) s.tried.value s.pieces.value; tried = s.tried.value; failed = s.failed; faults = s.faults } };
}

impl<R: Files> Drop for FileShelf<'_, R> {
    fn drop(self) {
        let FileShelf {
            rt: _,
            file: _,
            tried: _,
            pieces: _,
            failed: _,
            faults: _,
        } = self;
    }
}

impl<'a, R: Files> FileShelf<'a, R> {
    /// A shelf over the files of this runtime, none of which is picked.
    pub fn new(rt: &'a R) -> FileShelf<'a, R>
        ensures { result ≡ record { picked = false; remaining = None; handed = nothing_handed; tried = []; failed = false; faults = 0 } }
    {
        FileShelf {
            rt,
            file: None,
            tried: Log::new(),
            pieces: Log::new(),
            failed: false,
            faults: 0,
        }
    }
}

impl<R: Files> Shelf for FileShelf<'_, R> {
    ghost tells = { false };

    ghost file = { λ _ _. None };

    ghost picked = { λ s. s.picked };

    ghost left = { λ _. [] };

    ghost handed = { λ s. s.handed };

    ghost tried = { λ s. s.tried };

    ghost failed = { λ s. s.failed };

    ghost faults = { λ s. s.faults };

    ghost calm = { λ _. ⊥ };

    /// Opens the file at this path. Whatever keeps it from being opened is a fault.
    fn pick(&mut self, name: &str) -> Result<(), Failed> {
        self.tried.push(name.as_bytes());
        self.pieces = Log::new();
        match fs::open(self.rt, name) {
            Ok(file) => {
                self.file = Some(file);
                self.failed = false;
                Ok(())
            }
            Err(_) => {
                self.file = None;
                self.failed = true;
                self.faults = self.faults.saturating_add(1);
                Err(Failed)
            }
        }
    }

    /// Reads from the open file, if one is open. Where the file tells what its reads will give, just that is handed out,
    /// a failed read leaves it as it was, and 0 for a buffer with room is its end.
    fn read(&mut self, buf: &mut [u8]) -> Result<usize, Failed>
        ensures within { IfOk result (λ n. n ≤ length buf.new) }
        ensures consumed { IfOk result (λ n. Consumes self.old.remaining self.new.remaining (take n buf.new)) }
        ensures kept { OnErr result (Keeps self.old.remaining self.new.remaining) }
        ensures at_end { result ≡ Ok 0 → 0 < length buf.new → IsAtEnd self.new.remaining }
        ensures handed { IfOk result (λ n. self.new.handed ≡ handed_more self.old.handed (take n buf.new)) }
        ensures nothing_more { OnErr result (self.new.handed ≡ self.old.handed) }
        ensures unpicked { self.old.picked ≡ false → IfOk result (λ n. n ≡ 0) }
        ensures picked_stays { self.new.picked ≡ self.old.picked }
        ensures tried_stay { self.new.tried ≡ self.old.tried }
        ensures failed_stays { OnOk result (self.new.failed ≡ self.old.failed) }
        ensures noted { OnErr result (self.new.failed ≡ true) }
        ensures no_fault { OnOk result (self.new.faults ≡ self.old.faults) }
        ensures one_fault { OnErr result (self.new.faults ≡ counted self.old.faults) }
        ensures failed { OnErr result (CountsFault self.old.faults self.new.faults) }
        ensures faults_never_fall { self.old.faults ≤ self.new.faults }
        // The trait's clauses on shelves that tell their files or are calm: this one does not, and is not.
        ensures given { IfOk result (λ n. IsTrue false → take n buf.new ≡ take n []) }
        ensures rest { IfOk result (λ n. IsTrue false → nothing_handed.bytes ≡ drop n nothing_handed.bytes) }
        ensures calm_reads { ⊥ → IsOk result × (self.new.faults ≡ self.old.faults) }
    {
        match &mut self.file {
            None => Ok(0),
            Some(file) => match file.read(buf) {
                Ok(count) => {
                    self.pieces.push(&buf[..count]);
                    Ok(count)
                }
                Err(_) => {
                    self.failed = true;
                    self.faults = self.faults.saturating_add(1);
                    Err(Failed)
                }
            },
        }
    }
}

/// A writer, as the standard output is one, flushed at each write.
#[derive(Drop)]
pub struct OutSink<W: Write + Drop> {
    out: W,
    taken: Log,
    offered: Log,
    stalled: bool,
    failed: bool,
    faults: u64,
}

impl<W: Write + Drop> Model for OutSink<W> {
    ghost use Rattle.std.specs.List.{concat};
    ghost use Rattle.sil_io.specs.Outside.{OutState};

    ghost Value = { OutState };

    ghost view = { λ s. record { held = W.contents s.out; taken = concat s.taken.value; offered = s.offered.value; stalled = s.stalled; failed = s.failed; faults = s.faults } };
}

impl<W: Write + Drop> OutSink<W> {
    /// A sink over this writer.
    pub fn new(out: W) -> OutSink<W>
        ensures { result ≡ record { held = W.contents out; taken = []; offered = []; stalled = false; failed = false; faults = 0 } }
    {
        OutSink {
            out,
            taken: Log::new(),
            offered: Log::new(),
            stalled: false,
            failed: false,
            faults: 0,
        }
    }
}

impl<W: Write + Drop> Sink for OutSink<W> {
    ghost tells = { false };

    ghost written = { λ _. [] };

    ghost taken = { λ s. s.taken };

    ghost offered = { λ s. s.offered };

    ghost stalled = { λ s. s.stalled };

    ghost failed = { λ s. s.failed };

    ghost faults = { λ s. s.faults };

    ghost room = { λ _. 0 };

    /// Writes to the output and flushes it. Whatever keeps the bytes from being written or flushed is a fault. Where the
    /// writer tells what it holds, a write adds to it just what it answers, and a failed one nothing but a front of the
    /// bytes.
    fn write(&mut self, bytes: &[u8]) -> Result<usize, Failed>
        ensures within { IfOk result (λ n. n ≤ length bytes.now) }
        ensures written { IfOk result (λ n. Appends self.old.held self.new.held (take n bytes.now)) }
        ensures part_written { OnErr result (AppendsFront self.old.held self.new.held bytes.now) }
        ensures taken { IfOk result (λ n. self.new.taken ≡ self.old.taken ++ take n bytes.now) }
        ensures nothing_taken { OnErr result (self.new.taken ≡ self.old.taken) }
        ensures offered { self.new.offered ≡ self.old.offered ++ bytes.now ∷ [] }
        ensures stalls { IsTrue self.new.stalled ↔ ((result ≡ Ok 0) × (0 < length bytes.now)) }
        ensures noted { self.new.failed ≡ is_err result }
        ensures faults_never_fall { self.old.faults ≤ self.new.faults }
        ensures no_fault { OnOk result (self.new.faults ≡ self.old.faults) }
        ensures one_fault { OnErr result (self.new.faults ≡ counted self.old.faults) }
        ensures failed { OnErr result (CountsFault self.old.faults self.new.faults) }
    {
        self.offered.push(bytes);
        match write_and_flush(&mut self.out, bytes) {
            Ok(count) => {
                self.taken.push(&bytes[..count]);
                self.stalled = count == 0 && !bytes.is_empty();
                self.failed = false;
                Ok(count)
            }
            Err(_) => {
                self.stalled = false;
                self.failed = true;
                self.faults = self.faults.saturating_add(1);
                Err(Failed)
            }
        }
    }

    /// Writes nothing.
    fn note_stall(&mut self)
        requires { IsTrue self.old.stalled }
        ensures one_fault { self.new ≡ record self.old { stalled = false; failed = true; faults = counted self.old.faults } }
        ensures faults_never_fall { self.old.faults ≤ self.new.faults }
        ensures counted { CountsFault self.old.faults self.new.faults }
    {
        self.stalled = false;
        self.failed = true;
        self.faults = self.faults.saturating_add(1);
    }
}

// Where the writer tells what it holds, it holds more by the first bytes of these, as many as are answered, and after an
// error by no others. That the writer is flushed, and that the answer tells of a failed flush, no clause says.
fn write_and_flush<W: Write>(out: &mut W, bytes: &[u8]) -> io::Result<usize>
    ensures within { IfOk result (λ n. n ≤ length bytes.now) }
    ensures written { IfOk result (λ n. Appends (W.contents out.old) (W.contents out.new) (take n bytes.now)) }
    ensures part_written { OnErr result (AppendsFront (W.contents out.old) (W.contents out.new) bytes.now) }
{
    let count = out.write(bytes)?;
    out.flush()?;
    Ok(count)
}
