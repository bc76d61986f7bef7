//! A shelf in memory, which tells its bytes.
ghost use Rattle.std.specs.Prelude.{◌≡◌, ◌≢◌, ℕ, ◌+◌, ◌≤◌, ◌<◌, ◌++◌, ◌↔◌, List, [], ◌∷◌, Some, None, true, false, length, take, drop, min, is_ok, is_err, IsTrue, IsOk, IsErr, IsSome, IfOk, OnOk, OnErr};
ghost use Rattle.std.specs.List.{position};
ghost use Rattle.sil_io.specs.Faults.{CountsFault, counted};
ghost use Rattle.sil_io.specs.Handed.{nothing_handed, just_picked, handed_more};
ghost use Rattle.sil_io.specs.ShelfState.{ShelfState, bytes_under, has_name, no_plan, after_read, IsDue, IsCalm};

use crate::log::Log;
use crate::reading::Shelf;
use crate::writing::Failed;
use std::alloc::{AllocError, Global};
use std::marker::Model;

// A file: its name and its bytes.
#[derive(Drop)]
struct StoredFile {
    name: String,
    bytes: Vec<u8>,
}

impl Model for StoredFile {
    ghost use Rattle.std.specs.Prelude.{string_bytes};
    ghost use Rattle.sil_io.specs.ShelfState.{NamedBytes};

    ghost Value = { NamedBytes };

    ghost view = { λ f. record { name = string_bytes f.name; bytes = f.bytes.items } };
}

// Which file is picked, by its place, and how many of its bytes are read.
#[derive(Clone, Copy)]
struct Reading {
    place: usize,
    read: usize,
}

// The faults that are planned, and how many reads there were. Reads after the last number are not counted.
#[derive(Clone, Copy)]
struct Plan {
    picks_fail: bool,
    reads: u32,
    fail_at: Option<u32>,
}

impl Plan {
    // Counts a read, and answers whether it is to fail.
    fn next_read_fails(&mut self) -> bool
        ensures due { IsTrue result ↔ IsDue self.old }
        ensures counted { self.new ≡ after_read self.old }
        ensures calm_stays { IsCalm self.old → IsCalm self.new }
        ensures calm_reads { IsCalm self.old → result ≡ false }
    {
        let Some(number) = self.reads.checked_add(1) else {
            return false;
        };
        self.reads = number;
        self.fail_at == Some(number)
    }
}

/// A shelf whose files are kept in memory.
#[derive(Drop)]
pub struct MemShelf {
    alloc: Global,
    files: Vec<StoredFile>,
    reading: Option<Reading>,
    tried: Log,
    plan: Plan,
    failed: bool,
    faults: u64,
}

impl Model for MemShelf {
    ghost use Rattle.std.specs.Prelude.{is_some};
    ghost use Rattle.sil_io.specs.ShelfState.{ShelfState};
    ghost use Rattle.sil_io.specs.Reading.{left_of, handed_of, IsReading};

    ghost Value = { ShelfState };

    ghost view = { λ s. record { files = s.files.items; picked = is_some s.reading; left = left_of s.files.items s.reading; handed = handed_of s.files.items s.reading; tried = s.tried.value; plan = s.plan; failed = s.failed; faults = s.faults } };

    ghost invariant = { λ s. IsReading s.files.items s.reading };
}

impl MemShelf {
    /// A shelf without files, of which no fault is planned.
    pub fn new(alloc: Global) -> MemShelf
        ensures { result ≡ record { files = []; picked = false; left = []; handed = nothing_handed; tried = []; plan = no_plan; failed = false; faults = 0 } }
    {
        MemShelf {
            alloc,
            files: Vec::new(alloc),
            reading: None,
            tried: Log::new(),
            plan: Plan {
                picks_fail: false,
                reads: 0,
                fail_at: None,
            },
            failed: false,
            faults: 0,
        }
    }

    /// Puts the bytes under the name, in place of those that are there. Afterwards no file is picked. Out of memory,
    /// the shelf is as before.
    pub fn put(&mut self, name: &str, bytes: &[u8]) -> Result<(), AllocError>
        ensures put { OnOk result (bytes_under self.new.files name.now ≡ Some bytes.now) }
        ensures others_stay { OnOk result ((other : List ℕ) → other ≢ name.now → bytes_under self.new.files other ≡ bytes_under self.old.files other) }
        ensures none_picked { OnOk result (self.new.picked ≡ false) }
        ensures none_left { OnOk result (self.new.left ≡ []) }
        ensures none_handed { OnOk result (self.new.handed ≡ nothing_handed) }
        ensures tried_stay { self.new.tried ≡ self.old.tried }
        ensures plan_stays { self.new.plan ≡ self.old.plan }
        ensures failed_stays { self.new.failed ≡ self.old.failed }
        ensures faults_stay { self.new.faults ≡ self.old.faults }
        ensures refused { OnErr result (self.new ≡ self.old) }
    {
        let file = StoredFile {
            name: String::from_str(self.alloc, name)?,
            bytes: Vec::from_slice(self.alloc, bytes)?,
        };
        store(&mut self.files, file)?;
        self.reading = None;
        Ok(())
    }

    /// From now on each pick fails.
    pub fn fail_pick(&mut self)
        ensures { self.new ≡ record self.old { plan = record self.old.plan { picks_fail = true } } }
    {
        self.plan.picks_fail = true;
    }

    /// From now on the read with this number fails. Reads are numbered from 1 on, over the life of the shelf, and a read
    /// after number 2^32 - 1 has none. This takes the place of an earlier number.
    pub fn fail_read_at(&mut self, call: u32)
        ensures { self.new ≡ record self.old { plan = record self.old.plan { fail_at = Some call } } }
    {
        self.plan.fail_at = Some(call);
    }

    // Counts a failed pick, after which no file is picked.
    fn refuse_pick(&mut self) -> Result<(), Failed>
        ensures fails { IsErr result }
        ensures one_fault { self.new ≡ record self.old { picked = false; left = []; handed = nothing_handed; failed = true; faults = counted self.old.faults } }
        ensures faults_never_fall { self.old.faults ≤ self.new.faults }
    {
        self.reading = None;
        self.failed = true;
        self.faults = self.faults.saturating_add(1);
        Err(Failed)
    }
}

// Puts a file in the place of the one of its name, or at the end where there is none.
fn store(files: &mut Vec<StoredFile>, file: StoredFile) -> Result<(), AllocError>
    ensures put { OnOk result (bytes_under files.new.items file.name ≡ Some file.bytes) }
    ensures others_stay { OnOk result ((other : List ℕ) → other ≢ file.name → bytes_under files.new.items other ≡ bytes_under files.old.items other) }
    ensures refused { OnErr result (files.new.items ≡ files.old.items) }
{
    match place_of(files, file.name.as_str()) {
        Some(place) => files[place] = file,
        None => files.push(file)?,
    }
    Ok(())
}

// The place of the first file of this name.
fn place_of(files: &[StoredFile], name: &str) -> Option<usize>
    ensures { result ≡ position (has_name name.now) files.now }
{
    files.iter().position(|file| file.name.as_str() == name)
}

// Copies the first bytes to the front of the buffer, as many as fit, and answers how many.
fn give(bytes: &[u8], buf: &mut [u8]) -> usize
    ensures count { result ≡ min (length buf.old) (length bytes.now) }
    ensures given { buf.new ≡ take result bytes.now ++ drop result buf.old }
{
    let count = buf.len().min(bytes.len());
    buf[..count].copy_from_slice(&bytes[..count]);
    count
}

impl Shelf for MemShelf {
    ghost tells = { true };

    ghost file = { λ s name. bytes_under s.files name };

    ghost picked = { λ s. s.picked };

    ghost left = { λ s. s.left };

    ghost handed = { λ s. s.handed };

    ghost tried = { λ s. s.tried };

    ghost failed = { λ s. s.failed };

    ghost faults = { λ s. s.faults };

    ghost calm = { λ s. IsCalm s.plan };

    /// Fails for a name that the shelf does not hold, and where picks are to fail, and nowhere else.
    fn pick(&mut self, name: &str) -> Result<(), Failed>
        ensures found { IsOk result ↔ ((self.old.plan.picks_fail ≡ false) × IsSome (bytes_under self.old.files name.now)) }
        ensures files_stay { self.new.files ≡ self.old.files }
        ensures picked { self.new.picked ≡ is_ok result }
        ensures whole { OnOk result (bytes_under self.old.files name.now ≡ Some self.new.left) }
        ensures nothing_left { OnErr result (self.new.left ≡ []) }
        ensures anew { OnOk result (self.new.handed ≡ just_picked name.now) }
        ensures no_file { OnErr result (self.new.handed ≡ nothing_handed) }
        ensures tried { self.new.tried ≡ self.old.tried ++ name.now ∷ [] }
        ensures plan_stays { self.new.plan ≡ self.old.plan }
        ensures noted { self.new.failed ≡ is_err result }
        ensures faults_never_fall { self.old.faults ≤ self.new.faults }
        ensures no_fault { OnOk result (self.new.faults ≡ self.old.faults) }
        ensures counted { OnErr result (self.new.faults ≡ counted self.old.faults) }
    {
        self.tried.push(name.as_bytes());
        if self.plan.picks_fail {
            return self.refuse_pick();
        }
        match place_of(&self.files, name) {
            Some(place) => {
                self.reading = Some(Reading { place, read: 0 });
                self.failed = false;
                Ok(())
            }
            None => self.refuse_pick(),
        }
    }

    /// Fails at the planned number, and nowhere else. Otherwise it gives as many bytes as the buffer and the rest of the
    /// file allow.
    fn read(&mut self, buf: &mut [u8]) -> Result<usize, Failed>
        ensures fails { IsErr result ↔ IsDue self.old.plan }
        ensures numbered { self.new.plan ≡ after_read self.old.plan }
        ensures calm_stays { IsCalm self.old.plan → IsCalm self.new.plan }
        ensures calm_reads { IsCalm self.old.plan → IsOk result }
        ensures count { IfOk result (λ n. n ≡ min (length buf.old) (length self.old.left)) }
        ensures buffer { IfOk result (λ n. buf.new ≡ take n self.old.left ++ drop n buf.old) }
        ensures left { IfOk result (λ n. self.new.left ≡ drop n self.old.left) }
        ensures handed { IfOk result (λ n. self.new.handed ≡ handed_more self.old.handed (take n buf.new)) }
        ensures files_stay { self.new.files ≡ self.old.files }
        ensures picked_stays { self.new.picked ≡ self.old.picked }
        ensures nothing_to_read { self.old.picked ≡ false → self.old.left ≡ [] }
        ensures tried_stay { self.new.tried ≡ self.old.tried }
        ensures failed_stays { OnOk result (self.new.failed ≡ self.old.failed) }
        ensures no_fault { OnOk result (self.new.faults ≡ self.old.faults) }
        ensures one_fault { OnErr result (self.new ≡ record self.old { plan = after_read self.old.plan; failed = true; faults = counted self.old.faults }) }
        ensures faults_never_fall { self.old.faults ≤ self.new.faults }
    {
        if self.plan.next_read_fails() {
            self.failed = true;
            self.faults = self.faults.saturating_add(1);
            return Err(Failed);
        }
        let Some(reading) = self.reading else {
            return Ok(0);
        };
        let count = give(&self.files[reading.place].bytes[reading.read..], buf);
        self.reading = Some(Reading {
            place: reading.place,
            read: reading.read + count,
        });
        Ok(count)
    }
}
