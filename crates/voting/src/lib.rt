//! Whether a loop is up, by its counts.
#![tactic(auto)]

ghost use Rattle.std.specs.Prelude.{◌≡◌, ℕ, ◌+◌, ◌*◌, ◌≤◌, length};
ghost use Rattle.sil_model.specs.State.{FullState, is_up_of};
ghost use Rattle.sil_model.specs.LoopValue.{groups_of};
ghost use Rattle.sil_model.specs.Counts.{IsCounts};
ghost use Rattle.lumped_laws.specs.CountsOfState.{counts_of_state};
ghost use Rattle.voting.specs.Counting.{counting_in};

use channel_counts::sum_in;
use sil_model::{CHANNEL_STATES, Chan, InRepair, Loop};

/// Whether the loop is up in every full state with these counts.
pub fn is_up(l: &Loop, counts: &[u8]) -> bool
    requires { IsCounts (groups_of l.now.subsystems) counts.now }
    ensures { (s : FullState) → counts_of_state l.now.subsystems s ≡ counts.now → result ≡ is_up_of l.now.subsystems s }
{
    let mut first = 0;
    for i in 0..l.len() {
        let u = l.subsystem(i);
        let groups = u.groups();
        if counting_in(counts, first, groups, u.in_repair) < usize::from(u.vote.m) {
            return false;
        }
        first += groups;
    }
    true
}

/// How many channels of the `n` groups from `first` on count as working.
fn counting_in(counts: &[u8], first: usize, n: usize, in_repair: InRepair) -> usize
    requires few { n ≤ 48 }
    requires inside { CHANNEL_STATES * (first + n) ≤ length counts.now }
    ensures { result ≡ counting_in in_repair counts.now first n }
{
    let working = sum_in(counts, first, n, Chan::Work);
    match in_repair {
        InRepair::Lost => working,
        InRepair::Tripped => working + sum_in(counts, first, n, Chan::Repair),
    }
}
