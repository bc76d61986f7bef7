//! A sink in memory, which tells its bytes.
ghost use Rattle.std.specs.Prelude.{◌≡◌, ℕ, ◌+◌, ◌-◌, ◌≤◌, ◌<◌, ◌++◌, ◌∷◌, ◌↔◌, [], Some, None, true, false, length, take, min, is_err, IsTrue, IsErr, IfOk, OnOk, OnErr};
ghost use Rattle.sil_io.specs.Faults.{CountsFault, counted};
ghost use Rattle.sil_io.specs.SinkState.{SinkState, failing_after, stalling_after, space_of, sooner, IsFailing, IsStalling};

use crate::log::Log;
use crate::writing::{Failed, Sink};
use std::alloc::{AllocError, Global};
use std::marker::Model;

// A planned stop: after so many bytes more the sink fails, or it takes nothing.
#[derive(Clone, Copy)]
struct Stop {
    after: usize,
    stalls: bool,
}

/// A sink that keeps what is written, up to a fixed room.
#[derive(Drop)]
pub struct MemSink {
    bytes: Vec<u8>,
    room: usize,
    stop: Option<Stop>,
    offered: Log,
    stalled: bool,
    failed: bool,
    faults: u64,
}

impl Model for MemSink {
    ghost use Rattle.std.specs.Prelude.{◌+◌, ◌≤◌, vec_len, vec_capacity};
    ghost use Rattle.sil_io.specs.SinkState.{SinkState};

    ghost Value = { SinkState };

    ghost view = { λ s. record { written = s.bytes.items; room = s.room; stop = s.stop; offered = s.offered.value; stalled = s.stalled; failed = s.failed; faults = s.faults } };

    ghost invariant = { λ s. vec_len s.bytes + s.room ≤ vec_capacity s.bytes };
}

impl MemSink {
    /// An empty sink with room for so many bytes, whose memory is taken here.
    pub fn new(alloc: Global, room: usize) -> Result<MemSink, AllocError>
        ensures { IfOk result (λ s. s ≡ record { written = []; room = room; stop = None; offered = []; stalled = false; failed = false; faults = 0 }) }
    {
        let bytes = Vec::with_capacity(alloc, room)?;
        Ok(MemSink {
            bytes,
            room,
            stop: None,
            offered: Log::new(),
            stalled: false,
            failed: false,
            faults: 0,
        })
    }

    /// From now on the sink takes so many bytes more, and then fails. This takes the place of an earlier stop.
    pub fn fail_after(&mut self, bytes: usize)
        ensures { self.new ≡ record self.old { stop = Some (failing_after bytes) } }
    {
        self.stop = Some(Stop {
            after: bytes,
            stalls: false,
        });
    }

    /// From now on the sink takes so many bytes more, and then takes nothing. This takes the place of an earlier stop.
    pub fn stall_after(&mut self, bytes: usize)
        ensures { self.new ≡ record self.old { stop = Some (stalling_after bytes) } }
    {
        self.stop = Some(Stop {
            after: bytes,
            stalls: true,
        });
    }

    /// The bytes written.
    pub fn bytes(&self) -> &[u8]
        ensures { result.now ≡ self.now.written }
    {
        self.bytes.as_slice()
    }

    // How many bytes more the sink takes.
    fn space(&self) -> usize
        ensures { result ≡ space_of self.now }
    {
        match self.stop {
            None => self.room,
            Some(stop) => self.room.min(stop.after),
        }
    }

    // Whether a piece that is not empty fails.
    fn is_failing(&self) -> bool
        ensures { IsTrue result ↔ IsFailing self.now }
    {
        self.room == 0
            || self
                .stop
                .is_some_and(|stop| stop.after == 0 && !stop.stalls)
    }

    // Appends bytes that there is room for.
    fn append(&mut self, bytes: &[u8])
        requires { length bytes.now ≤ self.old.room }
        ensures written { self.new.written ≡ self.old.written ++ bytes.now }
        ensures room { self.new.room + length bytes.now ≡ self.old.room }
        ensures stop { self.new.stop ≡ sooner (length bytes.now) self.old.stop }
        ensures offered { self.new.offered ≡ self.old.offered }
        ensures faults { self.new.faults ≡ self.old.faults }
    {
        self.bytes.extend_from_slice(bytes).unwrap();
        self.room -= bytes.len();
        self.stop = self.stop.map(|stop| Stop {
            after: stop.after.saturating_sub(bytes.len()),
            stalls: stop.stalls,
        });
    }

    fn count_fault(&mut self)
        ensures one_fault { self.new ≡ record self.old { stalled = false; failed = true; faults = counted self.old.faults } }
        ensures faults_never_fall { self.old.faults ≤ self.new.faults }
    {
        self.stalled = false;
        self.failed = true;
        self.faults = self.faults.saturating_add(1);
    }
}

impl Sink for MemSink {
    ghost tells = { true };

    ghost written = { λ s. s.written };

    ghost taken = { λ s. s.written };

    ghost offered = { λ s. s.offered };

    ghost stalled = { λ s. s.stalled };

    ghost failed = { λ s. s.failed };

    ghost faults = { λ s. s.faults };

    ghost room = { λ s. space_of s };

    /// Takes as many bytes as the room and the planned stop allow.
    fn write(&mut self, bytes: &[u8]) -> Result<usize, Failed>
        ensures within { IfOk result (λ n. n ≤ length bytes.now) }
        ensures unchanged { OnErr result (self.new.written ≡ self.old.written) }
        ensures faults_never_fall { self.old.faults ≤ self.new.faults }
        ensures failed { OnErr result (CountsFault self.old.faults self.new.faults) }
        ensures offered { self.new.offered ≡ self.old.offered ++ bytes.now ∷ [] }
        ensures stalls { IsTrue self.new.stalled ↔ ((result ≡ Ok 0) × (0 < length bytes.now)) }
        ensures noted { self.new.failed ≡ is_err result }

        // To a piece that is not empty, a failure and an answer 0 come exactly there.
        ensures fails { IsErr result ↔ ((0 < length bytes.now) × IsFailing self.old) }
        ensures takes_nothing { 0 < length bytes.now → ((result ≡ Ok 0) ↔ IsStalling self.old) }
        ensures roomy { 0 < length bytes.now → length bytes.now ≤ space_of self.old → (result ≡ Ok (length bytes.now)) × (self.new.faults ≡ self.old.faults) }
        ensures taken { IfOk result (λ n. n ≡ min (length bytes.now) (space_of self.old)) }
        ensures appended { IfOk result (λ n. self.new.written ≡ self.old.written ++ take n bytes.now) }
        ensures room { IfOk result (λ n. self.new.room + n ≡ self.old.room) }
        ensures stop { IfOk result (λ n. self.new.stop ≡ sooner n self.old.stop) }
        ensures no_fault { OnOk result (self.new.faults ≡ self.old.faults) }
        ensures one_fault { OnErr result (self.new ≡ record self.old { offered = self.old.offered ++ bytes.now ∷ []; stalled = false; failed = true; faults = counted self.old.faults }) }
    {
        self.offered.push(bytes);
        if !bytes.is_empty() && self.is_failing() {
            self.count_fault();
            return Err(Failed);
        }
        let count = bytes.len().min(self.space());
        self.append(&bytes[..count]);
        self.stalled = count == 0 && !bytes.is_empty();
        self.failed = false;
        Ok(count)
    }

    fn note_stall(&mut self)
        requires { IsTrue self.old.stalled }
        ensures unchanged { self.new.written ≡ self.old.written }
        ensures faults_never_fall { self.old.faults ≤ self.new.faults }
        ensures counted { CountsFault self.old.faults self.new.faults }
        ensures one_fault { self.new ≡ record self.old { stalled = false; failed = true; faults = counted self.old.faults } }
    {
        self.count_fault();
    }
}
