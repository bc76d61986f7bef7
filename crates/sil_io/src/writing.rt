//! Writing a text whole.
ghost use Rattle.std.specs.Prelude.{◌≡◌, ℕ, ◌≤◌, ◌<◌, ◌++◌, ◌∷◌, ◌↔◌, Bool, true, false, List, [], take, length, is_err, IsTrue, IsOk, IfOk, OnOk, OnErr};
ghost use Rattle.sil_io.specs.Faults.{CountsFault};
ghost use Rattle.sil_io.specs.Bytes.{AppendsPart, OffersWhole, StopsAtRest};

use thiserror::Error;

/// A read or a write that failed. The count of faults of the shelf or the sink tells of it too.
#[derive(Clone, Copy, Debug, PartialEq, Eq, Error)]
#[error("the read or the write failed")]
pub struct Failed;

/// A place that bytes are written to.
pub trait Sink {
    // whether the sink tells which bytes were written
    ghost tells: { Bool };

    // the bytes written so far, where told
    ghost written: { Self → List ℕ };

    // the bytes that `write` answered to have taken, in order
    ghost taken: { Self → List ℕ };

    // the pieces that `write` was offered, in order
    ghost offered: { Self → List (List ℕ) };

    // whether the last call was a write that answered 0 to a piece that is not empty
    ghost stalled: { Self → Bool };

    // whether the last call was a write that failed, or noted a stall
    ghost failed: { Self → Bool };

    // how many writes failed or stalled; it stands still at 2^64 - 1
    ghost faults: { Self → ℕ };

    // the sink tells that it takes a piece of at most so many bytes whole, without a fault; 0 tells nothing
    ghost room: { Self → ℕ };

    /// Writes the first bytes of a piece, and answers how many it took. After `Failed` nothing counts as taken, and a
    /// sink that tells holds what it held. An answer 0 to a piece that is not empty is a stall.
    fn write(&mut self, bytes: &[u8]) -> Result<usize, Failed>
        ensures within { IfOk result (λ n. n ≤ length bytes.now) }
        ensures appended { IfOk result (λ n. IsTrue tells → written self.new ≡ written self.old ++ take n bytes.now) }
        ensures unchanged { OnErr result (IsTrue tells → written self.new ≡ written self.old) }
        ensures taken { IfOk result (λ n. taken self.new ≡ taken self.old ++ take n bytes.now) }
        ensures nothing_taken { OnErr result (taken self.new ≡ taken self.old) }
        ensures offered { offered self.new ≡ offered self.old ++ bytes.now ∷ [] }
        ensures stalls { IsTrue (stalled self.new) ↔ ((result ≡ Ok 0) × (0 < length bytes.now)) }
        ensures noted { failed self.new ≡ is_err result }
        ensures faults_never_fall { faults self.old ≤ faults self.new }
        ensures no_fault { OnOk result (faults self.new ≡ faults self.old) }
        ensures failed { OnErr result (CountsFault (faults self.old) (faults self.new)) }
        ensures roomy { 0 < length bytes.now → length bytes.now ≤ room self.old → (result ≡ Ok (length bytes.now)) × (faults self.new ≡ faults self.old) };

    /// Counts the stall of the last write.
    fn note_stall(&mut self)
        requires { IsTrue (stalled self.old) }
        ensures unchanged { IsTrue tells → written self.new ≡ written self.old }
        ensures nothing_taken { taken self.new ≡ taken self.old }
        ensures nothing_offered { offered self.new ≡ offered self.old }
        ensures over { stalled self.new ≡ false }
        ensures noted { failed self.new ≡ true }
        ensures faults_never_fall { faults self.old ≤ faults self.new }
        ensures counted { CountsFault (faults self.old) (faults self.new) };
}

/// Writes all the bytes, in as many writes as the sink wants.
///
/// The first write is offered all the bytes, and each further one all that are left, which are some and fewer than
/// before; for no bytes there is no write. A write that takes nothing is a stall: the sink counts it, and the answer is
/// `Failed`. After `Failed` a part of the bytes from their start on was taken, and never all of them; a sink that tells
/// holds just that part more.
pub fn write_whole<K: Sink>(sink: &mut K, bytes: &[u8]) -> Result<(), Failed>
    ensures whole { OnOk result (IsTrue K.tells → K.written sink.new ≡ K.written sink.old ++ bytes.now) }
    ensures part { OnErr result (IsTrue K.tells → AppendsPart (K.written sink.old) (K.written sink.new) bytes.now) }
    ensures all_taken { OnOk result (K.taken sink.new ≡ K.taken sink.old ++ bytes.now) }
    ensures part_taken { OnErr result (AppendsPart (K.taken sink.old) (K.taken sink.new) bytes.now) }
    ensures not_for_nothing { OnErr result (0 < length bytes.now) }
    ensures untouched { length bytes.now ≡ 0 → sink.new ≡ sink.old }
    ensures offered { 0 < length bytes.now → OffersWhole bytes.now (K.offered sink.old) (K.offered sink.new) }
    ensures stopped { OnErr result (StopsAtRest bytes.now (K.taken sink.old) (K.taken sink.new) (K.offered sink.new)) }
    ensures over { 0 < length bytes.now → K.stalled sink.new ≡ false }
    ensures noted { 0 < length bytes.now → K.failed sink.new ≡ is_err result }
    ensures faults_never_fall { K.faults sink.old ≤ K.faults sink.new }
    ensures no_fault { OnOk result (K.faults sink.new ≡ K.faults sink.old) }
    ensures failed { OnErr result (CountsFault (K.faults sink.old) (K.faults sink.new)) }
    // A sink with room for the bytes takes them, without a fault.
    ensures roomy { length bytes.now ≤ K.room sink.old → IsOk result × (K.faults sink.new ≡ K.faults sink.old) }
{
    let mut done = 0;
    while done < bytes.len() {
        let count = sink.write(&bytes[done..])?;
        if count == 0 {
            sink.note_stall();
            return Err(Failed);
        }
        done += count;
    }
    Ok(())
}
