//! The matrices of one beat: row i is what becomes of the whole at state i.

ghost use Rattle.std.specs.Prelude.{◌≡◌, ◌+◌, ◌*◌, ◌<◌, ◌≤◌, length};
ghost use Rattle.sil_model.specs.Sizes.{states_of};
ghost use Rattle.uniformise.specs.Beat.{beat_products};
ghost use Rattle.phase_powers.specs.Pairs.{IsRowPair, IsBeatPair};

use dense_power::Dense;
use interval_fixed::ONE;
use phase_run::Phase;
use sil_model::Steps;
use std::sync::ledger::Ledger;
use uniformise::Workspace;

/// Makes `end` the end matrix and `dwell` the dwell matrix of one beat. The two rows are room for it.
pub fn make_beat_pair<L: Ledger>(
    end: &mut Dense,
    dwell: &mut Dense,
    end_row: &mut [u64],
    dwell_row: &mut [u128],
    work: &mut Workspace,
    phase: &Phase<'_>,
    steps: &mut Steps<L>,
)
    requires end { end.old.size ≡ states_of phase.now.chain.now.of.subsystems }
    requires dwell { dwell.old.size ≡ states_of phase.now.chain.now.of.subsystems }
    requires end_row { length end_row.old ≡ states_of phase.now.chain.now.of.subsystems }
    requires dwell_row { length dwell_row.old ≡ states_of phase.now.chain.now.of.subsystems }
    requires work { work.old ≡ states_of phase.now.chain.now.of.subsystems }
    ensures pair { IsBeatPair phase.now.chain.now phase.now.weights.now end.new dwell.new }
    ensures work { work.new ≡ work.old }
    ensures steps { steps.new ≤ steps.old + states_of phase.now.chain.now.of.subsystems * beat_products phase.now.chain.now.of.subsystems phase.now.weights.now }
{
    for i in 0..end_row.len() {
        beat_from(i, end_row, dwell_row, work, phase, steps);
        end.set_row(i, end_row);
        dwell.set_wide_row(i, dwell_row);
    }
}

/// Makes `end` the vector after one beat of the whole at state i, and `dwell` what it dwells during the beat.
fn beat_from<L: Ledger>(
    i: usize,
    end: &mut [u64],
    dwell: &mut [u128],
    work: &mut Workspace,
    phase: &Phase<'_>,
    steps: &mut Steps<L>,
)
    requires i { i < states_of phase.now.chain.now.of.subsystems }
    requires end { length end.old ≡ states_of phase.now.chain.now.of.subsystems }
    requires dwell { length dwell.old ≡ states_of phase.now.chain.now.of.subsystems }
    requires work { work.old ≡ states_of phase.now.chain.now.of.subsystems }
    ensures rows { IsRowPair phase.now.chain.now phase.now.weights.now i end.new dwell.new }
    ensures work { work.new ≡ work.old }
    ensures steps { steps.new ≤ steps.old + beat_products phase.now.chain.now.of.subsystems phase.now.weights.now }
{
    end.fill(0);
    end[i] = ONE as u64;
    dwell.fill(0);
    work.beat(phase.chain, phase.weights, end, dwell, steps);
}
