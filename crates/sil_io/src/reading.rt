//! Reading a picked file whole.
ghost use Rattle.std.specs.Prelude.{◌≡◌, ℕ, ◌+◌, ◌≤◌, ◌<◌, ◌^◌, Bool, true, false, List, [], ◌∷◌, ◌++◌, Option, take, drop, length, vec_len, is_ok, is_err, IsTrue, IsSome, IsOk, IfOk, OnOk, OnErr, IsErrOf};
ghost use Rattle.sil_io.specs.Faults.{CountsFault};
ghost use Rattle.sil_io.specs.Handed.{Handed, nothing_handed, just_picked, handed_more, HandsMoreThan, HandsAtMost, HandsFrontOf};

use crate::writing::Failed;
use std::alloc::{AllocError, Global};
use thiserror::Error;

/// A collection of files by name, of which one is picked and then read.
pub trait Shelf {
    // whether the shelf tells which bytes its files have
    ghost tells: { Bool };

    // the bytes of the file under a name, where told
    ghost file: { Self → List ℕ → Option (List ℕ) };

    // whether a file is picked
    ghost picked: { Self → Bool };

    // the bytes of the picked file that are not read yet, where told
    ghost left: { Self → List ℕ };

    // which file is picked, if one is, and the bytes that `read` handed out since, in order
    ghost handed: { Self → Handed };

    // the names that were asked of `pick`, in order
    ghost tried: { Self → List (List ℕ) };

    // whether the last pick failed, or a read after it did
    ghost failed: { Self → Bool };

    // how many picks and reads failed; it stands still at 2^64 - 1
    ghost faults: { Self → ℕ };

    // the shelf tells that it is calm: from now on it picks each name that it holds, and reads, without a fault
    ghost calm: { Self → Type 0 };

    /// Picks the file of this name, to be read from its start. After `Failed` no file is picked.
    fn pick(&mut self, name: &str) -> Result<(), Failed>
        ensures picked { picked self.new ≡ is_ok result }
        ensures whole { OnOk result (IsTrue tells → file self.old name.now ≡ Some (left self.new)) }
        ensures nothing_left { OnErr result (IsTrue tells → left self.new ≡ []) }
        ensures anew { OnOk result (handed self.new ≡ just_picked name.now) }
        ensures no_file { OnErr result (handed self.new ≡ nothing_handed) }
        ensures files_stay { IsTrue tells → (other : List ℕ) → file self.new other ≡ file self.old other }
        ensures tried { tried self.new ≡ tried self.old ++ name.now ∷ [] }
        ensures noted { failed self.new ≡ is_err result }
        ensures faults_never_fall { faults self.old ≤ faults self.new }
        ensures no_fault { OnOk result (faults self.new ≡ faults self.old) }
        ensures failed { OnErr result (CountsFault (faults self.old) (faults self.new)) }
        ensures calm_stays { calm self.old → calm self.new }
        ensures calm_picks { calm self.old → IsSome (file self.old name.now) → IsOk result × (faults self.new ≡ faults self.old) };

    /// Moves the next bytes of the picked file to the front of the buffer, and answers how many. 0 for a buffer with
    /// room is the end of the file, and so is any read while no file is picked. After `Failed` no clause says what is
    /// left of the file. What was handed out are the first bytes of the buffer, as they are after the call.
    fn read(&mut self, buf: &mut [u8]) -> Result<usize, Failed>
        ensures within { IfOk result (λ n. n ≤ length buf.new) }
        ensures given { IfOk result (λ n. IsTrue tells → take n buf.new ≡ take n (left self.old)) }
        ensures rest { IfOk result (λ n. IsTrue tells → left self.new ≡ drop n (left self.old)) }
        ensures handed { IfOk result (λ n. handed self.new ≡ handed_more (handed self.old) (take n buf.new)) }
        ensures nothing_more { OnErr result (handed self.new ≡ handed self.old) }
        ensures end { result ≡ Ok 0 → 0 < length buf.old → IsTrue tells → left self.old ≡ [] }
        ensures unpicked { picked self.old ≡ false → IfOk result (λ n. n ≡ 0) }
        ensures picked_stays { picked self.new ≡ picked self.old }
        ensures files_stay { IsTrue tells → (name : List ℕ) → file self.new name ≡ file self.old name }
        ensures tried_stay { tried self.new ≡ tried self.old }
        ensures failed_stays { OnOk result (failed self.new ≡ failed self.old) }
        ensures noted { OnErr result (failed self.new ≡ true) }
        ensures faults_never_fall { faults self.old ≤ faults self.new }
        ensures no_fault { OnOk result (faults self.new ≡ faults self.old) }
        ensures failed { OnErr result (CountsFault (faults self.old) (faults self.new)) }
        ensures calm_stays { calm self.old → calm self.new }
        ensures calm_reads { calm self.old → IsOk result × (faults self.new ≡ faults self.old) };
}

/// Why a file was not read whole.
#[derive(Debug, Drop, Error)]
pub enum ReadFault {
    /// Out of memory for the bytes.
    #[error(transparent)]
    Memory(AllocError),
    /// A read failed.
    #[error("the file is not readable")]
    Failed,
    /// There are more bytes than the limit.
    #[error("the file is too long")]
    TooLong,
}

/// Reads the picked file to its end, if at most `limit` bytes of it are left.
///
/// Memory for one byte more than the limit is taken at once, before the first read.
pub fn read_to_limit<S: Shelf>(
    alloc: Global,
    shelf: &mut S,
    limit: usize,
) -> Result<Vec<u8>, ReadFault>
    requires { limit < 2 ^ 31 }
    ensures all { IfOk result (λ bytes. IsTrue S.tells → bytes.items ≡ S.left shelf.old) }
    ensures read_out { OnOk result (IsTrue S.tells → S.left shelf.new ≡ []) }
    ensures all_handed { IfOk result (λ bytes. S.handed shelf.new ≡ handed_more (S.handed shelf.old) bytes.items) }
    ensures more_handed { IsErrOf result ReadFault.TooLong → HandsMoreThan limit (S.handed shelf.old) (S.handed shelf.new) }
    ensures part_handed { IsErrOf result ReadFault.Failed → HandsAtMost limit (S.handed shelf.old) (S.handed shelf.new) }
    ensures front_handed { IsTrue S.tells → HandsFrontOf (S.left shelf.old) (S.handed shelf.old) (S.handed shelf.new) }
    ensures none_handed { (e : AllocError) → IsErrOf result (ReadFault.Memory e) → S.handed shelf.new ≡ S.handed shelf.old }
    ensures within { IfOk result (λ bytes. vec_len bytes ≤ limit) }
    ensures too_long { IsErrOf result ReadFault.TooLong → IsTrue S.tells → limit < length (S.left shelf.old) }
    ensures fault { IsErrOf result ReadFault.Failed → CountsFault (S.faults shelf.old) (S.faults shelf.new) }
    ensures picked_stays { S.picked shelf.new ≡ S.picked shelf.old }
    ensures files_stay { IsTrue S.tells → (name : List ℕ) → S.file shelf.new name ≡ S.file shelf.old name }
    ensures tried_stay { S.tried shelf.new ≡ S.tried shelf.old }
    ensures failed_stays { OnOk result (S.failed shelf.new ≡ S.failed shelf.old) }
    ensures noted { IsErrOf result ReadFault.Failed → S.failed shelf.new ≡ true }
    ensures untouched { (e : AllocError) → IsErrOf result (ReadFault.Memory e) → shelf.new ≡ shelf.old }
    ensures faults_never_fall { S.faults shelf.old ≤ S.faults shelf.new }
    ensures no_fault { OnOk result (S.faults shelf.new ≡ S.faults shelf.old) }
    // Over a calm shelf no read fails, and it stays calm with its count.
    ensures calm_stays { S.calm shelf.old → S.calm shelf.new }
    ensures calm_count { S.calm shelf.old → S.faults shelf.new ≡ S.faults shelf.old }
    ensures calm_reads { S.calm shelf.old → IsErrOf result ReadFault.Failed → ⊥ }
{
    let mut bytes = vec![in alloc; 0; limit + 1].map_err(ReadFault::Memory)?;
    let mut filled = 0;
    // Each turn but the last takes a byte or more.
    for _ in 0..limit + 2 {
        if filled > limit {
            break;
        }
        match shelf.read(&mut bytes[filled..]) {
            Err(Failed) => return Err(ReadFault::Failed),
            Ok(0) => {
                bytes.truncate(filled);
                return Ok(bytes);
            }
            Ok(count) => filled += count,
        }
    }
    Err(ReadFault::TooLong)
}
