//! The weights of a beat: the truncated exponential series as numbers in units of 2^-48, below it at every order.
//!
//! A beat of a vector is the sum over k of `w(k)` times the vector after k ticks, and its mean during the beat the sum of
//! `y(k)` times the same. [`Weights::new`] makes them once for an order; every other call reads one.
#![tactic(auto)]

ghost use Rattle.std.specs.Prelude.{◌≡◌, ℕ, suc, ◌+◌, ◌-◌, ◌*◌, ◌/◌, ◌^◌, ◌<◌, ◌≤◌, slice_index};
ghost use Rattle.sil_fraction.specs.Sum.{sum_below};
ghost use Rattle.sil_model.specs.WeightTable.{weight_of, mean_weight_of, missing_of};
ghost use Rattle.series_weights.specs.Weights.{IsBelowTerm, IsBelowTail};

use std::marker::Model;

/// Floor of 2^48 divided by a bound on the series of every length: S_40 + 1/(40 * 40!).
const FIRST_WEIGHT: u64 = 103_548_857_136_060;

const ONE: u64 = 1 << 48;

/// The last weight that is not 0, for every order.
const LAST_TERM: u8 = 16;

/// The weights of an order. Contracts see them as the order.
#[derive(Drop)]
pub struct Weights {
    order: u8,
    weights: [u64; 41],
    means: [u64; 41],
}

impl Model for Weights {
    ghost use Rattle.std.specs.Prelude.{ℕ};

    ghost Value = { ℕ };

    ghost use Rattle.series_weights.specs.Tables.{HoldWeights};

    ghost view = { λ w. w.order };

    ghost invariant = { HoldWeights };
}

impl Weights {
    /// The weights of an order from 16 to 40.
    pub fn new(order: u8) -> Weights
        requires least { 16 ≤ order }
        requires greatest { order ≤ 40 }
        ensures { result ≡ order }
    {
        let weights = weight_table();
        let means = mean_table(&weights, usize::from(order));
        Weights {
            order,
            weights,
            means,
        }
    }

    /// The order that these weights were made for, from 16 to 40.
    pub fn order(&self) -> u8
        ensures order { result ≡ self.now }
        ensures least { 16 ≤ result }
        ensures greatest { result ≤ 40 }
    {
        self.order
    }

    /// How many weights there are before all are 0: no order has more terms that count.
    pub fn terms(&self) -> u8
        ensures within { result ≤ self.now + 1 }
        ensures some { 0 < result }
        ensures order { (16 ≤ self.now) × (self.now ≤ 40) }
        ensures rest { (k : ℕ) → result ≤ k → weight_of k ≡ 0 }
    {
        self.order.min(LAST_TERM) + 1
    }

    /// The weight of k steps, in units of 2^-48, for k up to the order. It is 0 for every k above 16.
    pub fn w(&self, k: u8) -> u128
        requires { k ≤ self.now }
        ensures value { result ≡ weight_of k }
        ensures below { IsBelowTerm result k }
        ensures falls { 0 < k → k * result ≤ weight_of (k - 1) }
        ensures small { result ≤ 2 ^ 48 }
    {
        u128::from(self.weights[usize::from(k)])
    }

    /// The weight of k steps in the mean of a beat, in units of 2^-48, for k below the order.
    pub fn y(&self, k: u8) -> u128
        requires { k < self.now }
        ensures value { result ≡ mean_weight_of self.now k }
        ensures below { IsBelowTail self.now result k }
        ensures small { result ≤ 2 ^ 48 }
    {
        u128::from(self.means[usize::from(k)])
    }

    /// What the weights below the order lack of 2^48: 13 for order 16, and 9 for each other.
    pub fn missing(&self) -> u128
        ensures value { result ≡ missing_of self.now }
        ensures rest { result + sum_below self.now weight_of ≡ 2 ^ 48 }
        ensures means { 2 ^ 48 ≤ sum_below self.now (mean_weight_of self.now) + result + self.now * self.now }
    {
        let mut missing = ONE;
        for k in 0..usize::from(self.order) {
            missing -= self.weights[k];
        }
        u128::from(missing)
    }
}

/// The weights of 0 to 40 steps.
fn weight_table() -> [u64; 41]
    ensures { (k : ℕ) → k < 41 → slice_index result k ≡ weight_of k }
{
    let mut table = [0; 41];
    table[0] = FIRST_WEIGHT;
    for k in 1..41 {
        table[k] = table[k - 1] / k as u64;
    }
    table
}

/// The weights of the mean of a beat, of 0 steps up to those of the order, by running sums from the last.
fn mean_table(weights: &[u64; 41], order: usize) -> [u64; 41]
    requires order { order ≤ 40 }
    requires weights { (k : ℕ) → k < 41 → slice_index weights.now k ≡ weight_of k }
    ensures { (k : ℕ) → k < order → slice_index result k ≡ mean_weight_of order k }
{
    let mut table = [0; 41];
    let mut above = 0;
    for k in (0..order).rev() {
        above += weights[k + 1];
        table[k] = above;
    }
    table
}
