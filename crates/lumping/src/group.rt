//! The counts of one group, and their number among those of its size.

ghost use Rattle.std.specs.Prelude.{◌≡◌, ℕ, ◌+◌, ◌-◌, ◌<◌, ◌≤◌, length};
ghost use Rattle.sil_model.specs.Sizes.{channel_states, shares_of};
ghost use Rattle.sil_model.specs.Counts.{together, lists_below, list_number, list_numbered};

use sil_model::CHANNEL_STATES;

/// How many lists of three numbers have a sum below `sum`.
#[tactic(auto, using(crate::proofs::Closed::closed))]
fn triples_below(sum: usize) -> usize
    requires { sum ≤ 9 }
    ensures triples { result ≡ lists_below 3 sum }
    ensures few { result ≤ 165 }
{
    sum * (sum + 1) * (sum + 2) / 6
}

/// How many lists of two numbers have a sum below `sum`.
#[tactic(auto, using(crate::proofs::Closed::closed))]
fn pairs_below(sum: usize) -> usize
    requires { sum ≤ 9 }
    ensures pairs { result ≡ lists_below 2 sum }
    ensures few { result ≤ 45 }
{
    sum * (sum + 1) / 2
}

/// The number of the four counts of a group among those of its size.
pub fn number_in_group(counts: &[u8]) -> usize
    requires each { length counts.now ≡ channel_states }
    requires few { together counts.now ≤ 8 }
    ensures { result ≡ list_number counts.now }
{
    let in_repair = usize::from(counts[3]);
    let deep_or_repair = usize::from(counts[2]) + in_repair;
    let failed = usize::from(counts[1]) + deep_or_repair;
    triples_below(failed) + pairs_below(deep_or_repair) + in_repair
}

/// The sum of the list of three numbers that has this number, and its number among those of its sum.
fn split_triples(number: usize) -> (usize, usize)
    requires { number ≤ 165 }
    ensures whole { lists_below 3 result.0 + result.1 ≡ number }
    ensures rest { result.1 < lists_below 2 (result.0 + 1) }
{
    let mut sum = 0;
    let mut rest = number;
    // How many lists of three numbers have exactly this sum.
    let mut alike = 1;
    while rest >= alike {
        rest -= alike;
        sum += 1;
        alike += sum + 1;
    }
    (sum, rest)
}

/// The sum of the list of two numbers that has this number, and its number among those of its sum.
fn split_pairs(number: usize) -> (usize, usize)
    requires { number ≤ 165 }
    ensures whole { lists_below 2 result.0 + result.1 ≡ number }
    ensures rest { result.1 ≤ result.0 }
{
    let mut sum = 0;
    let mut rest = number;
    while rest > sum {
        sum += 1;
        rest -= sum;
    }
    (sum, rest)
}

/// The four counts of a group of this size that have this number.
pub fn counts_in_group(size: u8, number: usize) -> [u8; CHANNEL_STATES]
    requires few { size ≤ 8 }
    requires number { number < shares_of size }
    ensures { result ≡ list_numbered (channel_states - 1) size number }
{
    let (failed, rest) = split_triples(number);
    let (deep_or_repair, in_repair) = split_pairs(rest);
    [
        size - failed as u8,
        (failed - deep_or_repair) as u8,
        (deep_or_repair - in_repair) as u8,
        in_repair as u8,
    ]
}
