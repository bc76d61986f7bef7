//! The rungs for 1, 2, 4, .. beats.

ghost use Rattle.std.specs.Prelude.{◌≡◌, ℕ, ◌^◌, ◌<◌, ◌≤◌, IfOk};
ghost use Rattle.beat_ladder.specs.Powers.{MayServe};
ghost use Rattle.beat_ladder.specs.Rungs.{IsUsable};

use crate::Rung;
use std::alloc::{AllocError, Global};
use std::marker::Model;

/// The greatest exponent of a rung.
const LAST: usize = 12;

/// A rung for each power of 2 beats, from 1 up to 4,096.
///
/// Contracts see it as the number of its rungs.
#[derive(Drop)]
pub struct Ladder {
    rungs: Vec<Rung>,
}

impl Model for Ladder {
    ghost use Rattle.std.specs.Prelude.{ℕ, vec_len};
    ghost use Rattle.beat_ladder.specs.Rungs.{AreRungs};

    ghost Value = { ℕ };

    ghost view = { λ l. vec_len l.rungs };

    ghost invariant = { λ l. AreRungs l.rungs.items };
}

impl Ladder {
    /// The rungs of at most so many beats, or those before the first that lacks too much to be used.
    ///
    /// All 13 take about 52 kB. No rung is made for 0 beats.
    pub fn new(alloc: Global, beats: u64) -> Result<Ladder, AllocError>
        ensures few { IfOk result (λ l. l ≤ 13) }
        ensures short { IfOk result (λ l. (e : ℕ) → e < l → 2 ^ e ≤ beats) }
        ensures full { IfOk result (λ l. l < 13 → 2 ^ l ≤ beats → MayServe l → ⊥) }
    {
        let mut rungs = Vec::with_capacity(alloc, LAST + 1)?;
        if beats == 0 {
            return Ok(Ladder { rungs });
        }
        rungs.push(Rung::one_beat(alloc)?)?;
        for exponent in 0..LAST {
            if beats < 2u64 << exponent {
                return Ok(Ladder { rungs });
            }
            let next = rungs[exponent].doubled(alloc)?;
            if !next.is_close() {
                return Ok(Ladder { rungs });
            }
            rungs.push(next)?;
        }
        Ok(Ladder { rungs })
    }

    /// How many rungs there are: one for each exponent below it.
    pub fn rungs(&self) -> u8
        ensures count { result ≡ self.now }
        ensures few { result ≤ 13 }
    {
        self.rungs.len() as u8
    }

    /// The rung of 2^exponent beats.
    pub fn rung(&self, exponent: u8) -> &Rung
        requires { exponent < self.now }
        ensures which { result.now.exponent ≡ exponent }
        ensures usable { IsUsable result.now }
    {
        &self.rungs[usize::from(exponent)]
    }
}
