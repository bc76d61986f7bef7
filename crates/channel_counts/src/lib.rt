//! The count vector of a full state: how many channels of each group are in each state.
//!
//! A count is read and moved by the name of a state. `specs/CountsOf` says which counts a full state has, and
//! `proofs/Counting` what the moves of its channels do to them.
#![tactic(auto)]

ghost use Rattle.std.specs.Prelude.{◌≡◌, ℕ, ◌+◌, ◌*◌, ◌<◌, ◌≤◌, ◌^◌, length};
ghost use Rattle.sil_model.specs.Counts.{place_of, count_in, moved_in};
ghost use Rattle.channel_counts.specs.GroupSums.{sum_in, moved_together};

use sil_model::{CHANNEL_STATES, Chan};

/// The place of a state among the counts of a group.
fn place_of(k: Chan) -> usize
    ensures place { result ≡ place_of k }
    ensures inside { result < CHANNEL_STATES }
{
    match k {
        Chan::Work => 0,
        Chan::Hidden => 1,
        Chan::Deep => 2,
        Chan::Repair => 3,
    }
}

/// How many channels of the group `g` are in a state.
pub fn count_in(counts: &[u8], g: usize, k: Chan) -> u8
    requires { CHANNEL_STATES * (g + 1) ≤ length counts.now }
    ensures count { result ≡ count_in counts.now g k }
    ensures small { result ≤ 255 }
{
    counts[CHANNEL_STATES * g + place_of(k)]
}

/// How many channels of the `n` groups from `first` on are in a state.
pub fn sum_in(counts: &[u8], first: usize, n: usize, k: Chan) -> usize
    requires few { n ≤ 48 }
    requires inside { CHANNEL_STATES * (first + n) ≤ length counts.now }
    ensures sum { result ≡ sum_in counts.now first n k }
    ensures small { result ≤ 255 * n }
{
    let mut sum = 0;
    for g in first..first + n {
        sum += usize::from(count_in(counts, g, k));
    }
    sum
}

/// `n` channels of the group `g` leave the state `from` for the state `to`.
pub fn move_in(counts: &mut [u8], g: usize, from: Chan, to: Chan, n: u8)
    requires inside { CHANNEL_STATES * (g + 1) ≤ length counts.old }
    requires enough { n ≤ count_in counts.old g from }
    requires room { count_in counts.old g to + n < 2 ^ 8 }
    ensures { counts.new ≡ moved_in counts.old g from to n }
{
    counts[CHANNEL_STATES * g + place_of(from)] -= n;
    counts[CHANNEL_STATES * g + place_of(to)] += n;
}
