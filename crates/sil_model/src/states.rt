//! How many: the states of a channel, the ways to share out over them, and the events.

ghost use Rattle.std.specs.Prelude.{◌≡◌, ℕ, ◌+◌, ◌*◌, ◌≤◌, ◌^◌, [], ◌∷◌, length};
ghost use Rattle.sil_model.specs.Budget.{lumped_events_of, group_events, common_causes};
ghost use Rattle.sil_model.specs.LoopValue.{IsVoteInRange, groups_by_test, groups_of};
ghost use Rattle.sil_model.specs.Sizes.{channel_states, shares_of, states_of};

use crate::{Loop, Subsystem};

/// How many states a channel has, and so how many counts a group.
pub const CHANNEL_STATES: usize = 4;

/// How many events a group has: those of one of its channels.
const GROUP_EVENTS: u64 = 4;

/// How many common causes a subsystem has.
const COMMON_CAUSES: u64 = 3;

/// In how many ways `n` equal channels share out over their states: C(n + 3, 3).
pub fn shares(n: u8) -> u64
    requires { n ≤ 8 }
    ensures shares { result ≡ shares_of n }
    ensures some { 1 ≤ result }
    ensures few { result ≤ 165 }
{
    let n = u64::from(n);
    (n + 1) * (n + 2) * (n + 3) / 6
}

impl Subsystem {
    /// How many groups its channels make: one where they are tested together, or not at all.
    pub fn groups(&self) -> usize
        ensures groups { (i : ℕ) → result ≡ length (groups_by_test i self.now.vote.n self.now.test) }
        ensures few { result ≤ 255 }
    {
        match self.test {
            Some(plan) if plan.stagger != 0 => usize::from(self.vote.n),
            _ => 1,
        }
    }

    /// How many count vectors it has alone.
    pub fn states(&self) -> u64
        requires { IsVoteInRange self.now.vote }
        ensures states { result ≡ states_of (self.now ∷ []) }
        ensures some { 1 ≤ result }
        ensures few { result ≤ channel_states ^ 8 }
    {
        match self.test {
            Some(plan) if plan.stagger != 0 => shares(1).pow(u32::from(self.vote.n)),
            _ => shares(self.vote.n),
        }
    }

    /// How many events lead from one of its count vectors.
    pub fn lumped_events(&self) -> u64
        requires { IsVoteInRange self.now.vote }
        ensures events { result ≡ lumped_events_of (self.now ∷ []) }
        ensures few { result ≤ 8 * group_events + common_causes }
    {
        GROUP_EVENTS * self.groups() as u64 + COMMON_CAUSES
    }
}

impl Loop {
    /// How many events lead from a count vector.
    #[tactic(auto, unfolding(crate::specs::Budget::lumped_events_of))]
    pub fn lumped_events(&self) -> u64
        ensures events { result ≡ lumped_events_of self.now.subsystems }
        ensures few { result ≤ 48 * group_events + 6 * common_causes }
    {
        GROUP_EVENTS * self.groups() as u64 + COMMON_CAUSES * self.len() as u64
    }
}
