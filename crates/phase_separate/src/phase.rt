//! What a vector passes and dwells in the beats of a phase.

ghost use Rattle.std.specs.Prelude.{◌≡◌, ℕ, ◌+◌, ◌*◌, ◌^◌, ◌<◌, ◌≤◌, length, sum, vec_len};
ghost use Rattle.sil_model.specs.LoopValue.{IsValid};
ghost use Rattle.sil_model.specs.Sizes.{states_of};
ghost use Rattle.product_chain.specs.Kept.{IsTimed};
ghost use Rattle.vector_laws.specs.Vectors.{IsMass};
ghost use Rattle.uniformise.specs.Beat.{beat_products};
ghost use Rattle.phase_separate.specs.Ends.{IsAtEnd, IsSumOfStarts, IsDwelling};
ghost use Rattle.phase_separate.specs.Losses.{LoseLittle};
ghost use Rattle.phase_separate.specs.Passes.{IsVisited};
ghost use Rattle.phase_separate.specs.Products.{along_products, power_products};
ghost use Rattle.phase_separate.specs.Rooms.{HaveSize};
ghost use Rattle.phase_separate.specs.Subsystems.{powers_at};

use crate::along::{Buffers, Span, pass_along};
use crate::lower::{lower, sum_of};
use crate::means::{divide, multiply};
use crate::visit::{add_beat, double};
use phase_run::Phase;
use product_chain::Chain;
use sil_model::Steps;
use std::sync::ledger::Ledger;
use subsystem_power::SubsystemPower;
use uniformise::Workspace;

/// Makes `visited` the sum of the vectors at the start of each beat, and the powers those of all beats.
pub fn visit_all<L: Ledger>(
    chain: &Chain,
    subsystems: &mut [SubsystemPower],
    beats: u64,
    start: &[u64],
    visited: &mut [u64],
    buffers: &mut Buffers,
    steps: &mut Steps<L>,
)
    requires subsystems { subsystems.old ≡ powers_at chain.now 1 }
    requires valid { IsValid chain.now.of }
    requires timed { IsTimed chain.now.of.subsystems chain.now.hours chain.now.beats }
    requires some { 0 < beats }
    requires few { beats < 2 ^ 15 }
    requires mass { IsMass start.now }
    requires start { length start.now ≡ states_of chain.now.of.subsystems }
    requires visited { length visited.old ≡ states_of chain.now.of.subsystems }
    requires buffers { HaveSize (states_of chain.now.of.subsystems) buffers.old }
    ensures subsystems { subsystems.new ≡ powers_at chain.now beats }
    ensures buffers { HaveSize (states_of chain.now.of.subsystems) buffers.new }
    ensures visited { IsVisited chain.now beats start.now visited.new }
    ensures steps { (digits : ℕ) → beats < 2 ^ digits → steps.new ≤ steps.old + 2 * digits * (along_products chain.now.of.subsystems + power_products chain.now.of.subsystems) }
{
    visited.copy_from_slice(start);
    for place in (0..beats.ilog2()).rev() {
        let passed = beats >> (place + 1);
        double(chain, subsystems, passed, start, visited, buffers, steps);
        if (beats >> place) % 2 == 1 {
            add_beat(
                chain,
                subsystems,
                2 * passed,
                start,
                visited,
                buffers,
                steps,
            );
        }
    }
}

/// Makes `later` what is below the vector at the end of the phase.
pub fn pass_ends<L: Ledger>(
    chain: &Chain,
    subsystems: &[SubsystemPower],
    beats: u64,
    start: &[u64],
    later: &mut [u64],
    buffers: &mut Buffers,
    steps: &mut Steps<L>,
)
    requires subsystems { subsystems.now ≡ powers_at chain.now beats }
    requires valid { IsValid chain.now.of }
    requires timed { IsTimed chain.now.of.subsystems chain.now.hours chain.now.beats }
    requires little { LoseLittle chain.now.of.subsystems beats }
    requires mass { IsMass start.now }
    requires start { length start.now ≡ states_of chain.now.of.subsystems }
    requires later { length later.old ≡ states_of chain.now.of.subsystems }
    requires buffers { HaveSize (states_of chain.now.of.subsystems) buffers.old }
    ensures buffers { HaveSize (states_of chain.now.of.subsystems) buffers.new }
    ensures later { IsAtEnd chain.now beats start.now later.new }
    ensures size { length later.new ≡ length later.old }
    ensures steps { steps.new ≤ steps.old + 2 * along_products chain.now.of.subsystems }
{
    buffers.now.copy_from_slice(start);
    pass_along(
        chain,
        subsystems,
        Span::Power,
        beats,
        &mut buffers.now,
        &mut buffers.next,
        steps,
    );
    later.copy_from_slice(&buffers.now);
    pass_along(
        chain,
        subsystems,
        Span::Sixteen,
        beats,
        &mut buffers.now,
        &mut buffers.next,
        steps,
    );
    lower(later, &buffers.now, beats, 1, sum_of(start));
}

/// Makes `visited` what is below the sum of the vectors at the start of each beat.
pub fn lower_visited<L: Ledger>(
    chain: &Chain,
    subsystems: &[SubsystemPower],
    beats: u64,
    start: &[u64],
    visited: &mut [u64],
    buffers: &mut Buffers,
    steps: &mut Steps<L>,
)
    requires subsystems { subsystems.now ≡ powers_at chain.now beats }
    requires valid { IsValid chain.now.of }
    requires timed { IsTimed chain.now.of.subsystems chain.now.hours chain.now.beats }
    requires little { LoseLittle chain.now.of.subsystems beats }
    requires mass { IsMass start.now }
    requires start { length start.now ≡ states_of chain.now.of.subsystems }
    requires buffers { HaveSize (states_of chain.now.of.subsystems) buffers.old }
    requires visited { IsVisited chain.now beats start.now visited.old }
    ensures buffers { HaveSize (states_of chain.now.of.subsystems) buffers.new }
    ensures visited { IsSumOfStarts chain.now beats start.now visited.new }
    ensures steps { steps.new ≤ steps.old + along_products chain.now.of.subsystems }
{
    buffers.now.copy_from_slice(visited);
    pass_along(
        chain,
        subsystems,
        Span::Sixteen,
        beats,
        &mut buffers.now,
        &mut buffers.next,
        steps,
    );
    let whole = u128::from(beats) * sum_of(start);
    lower(visited, &buffers.now, beats, beats, whole);
}

/// Makes `dwell` what is dwelt in the beats of a phase: that of one, by the mean of the vectors at their starts, as often.
pub fn dwell_all<L: Ledger>(
    work: &mut Workspace,
    phase: &Phase<'_>,
    visited: &[u64],
    mean: &mut [u64],
    dwell: &mut [u128],
    steps: &mut Steps<L>,
)
    requires work { work.old ≡ states_of phase.now.chain.now.of.subsystems }
    requires order { phase.now.weights.now ≡ 16 }
    requires some { 0 < phase.now.beats }
    requires few { phase.now.beats < 2 ^ 15 }
    requires visited { length visited.now ≡ states_of phase.now.chain.now.of.subsystems }
    requires mean { length mean.old ≡ states_of phase.now.chain.now.of.subsystems }
    requires dwell { length dwell.old ≡ states_of phase.now.chain.now.of.subsystems }
    requires mass { sum visited.now ≤ phase.now.beats * 2 ^ 48 }
    ensures work { work.new ≡ work.old }
    ensures mean { length mean.new ≡ length mean.old }
    ensures dwell { IsDwelling phase.now.chain.now phase.now.beats visited.now dwell.new }
    ensures steps { steps.new ≤ steps.old + beat_products phase.now.chain.now.of.subsystems 16 }
{
    divide(visited, phase.beats, mean);
    dwell.fill(0);
    work.beat(phase.chain, phase.weights, mean, dwell, steps);
    multiply(dwell, phase.beats);
}
