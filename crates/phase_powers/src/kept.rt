//! Of which phase, by weights of which order, matrices are.

ghost use Rattle.std.specs.Prelude.{◌≡◌, IsTrue};

use phase_run::Phase;
use product_chain::Chain;
use std::marker::Model;
use std::snapshot::Snapshot;

/// A phase with an order. Contracts see it as the chain of the phase and the order.
#[derive(Drop)]
pub struct KeptPhase {
    // The chain, for proofs alone: it has no bytes.
    chain: Snapshot<Chain>,
    hours: u64,
    beats: u64,
    order: u8,
}

impl Model for KeptPhase {
    ghost use Rattle.phase_powers.specs.Kept.{PhaseValue, IsTimedSo};

    ghost Value = { PhaseValue };

    ghost view = { λ p. record { chain = p.chain.value; order = p.order } };

    ghost invariant = { λ p. IsTimedSo p.chain.value p.hours p.beats };
}

impl KeptPhase {
    /// The phase, by its weights.
    pub fn of(phase: &Phase<'_>) -> KeptPhase
        requires hours { phase.now.hours ≡ phase.now.chain.now.hours }
        requires beats { phase.now.beats ≡ phase.now.chain.now.beats }
        ensures { result ≡ record { chain = phase.now.chain.now; order = phase.now.weights.now } }
    {
        KeptPhase {
            chain: Snapshot::of(phase.chain),
            hours: phase.hours,
            beats: phase.beats,
            order: phase.weights.order(),
        }
    }

    /// Whether it has these hours, beats and order.
    pub fn has(&self, hours: u64, beats: u64, order: u8) -> bool
        ensures hours { IsTrue result → self.now.chain.hours ≡ hours }
        ensures beats { IsTrue result → self.now.chain.beats ≡ beats }
        ensures order { IsTrue result → self.now.order ≡ order }
    {
        self.hours == hours && self.beats == beats && self.order == order
    }
}
