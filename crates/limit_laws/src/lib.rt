//! The figures at growing orders of the series converge, for contracts and proofs alone: no code runs here.
//!
//! The figures of a loop are defined at each order, as exact fractions. Here it is proved that they settle as the order
//! grows: the figures of an order `n` differ from those of every greater order by at most an explicit bound, which falls as
//! `1/n!`. So they approach one real number, the **exact figure**, and each closed interval that contains the figures of
//! every order from some order on contains it.
//!
//! `specs/Real` says what a real number is where there are fractions alone: a Cauchy sequence of fractions with its modulus
//! of convergence, a place for each `k` from which on any two of them differ by at most `1/k`. `specs/Exact` says which
//! number is the exact figure of a loop, `specs/Bounds` how much the figures of two orders may differ.
//!
//! - `proofs/Tails`: the later terms of the series together are at most twice the first of them.
//! - `proofs/Quotients`: quotients whose terms and divisors differ by little.
//! - `proofs/Orders`: a beat and its mean at two orders. `proofs/Exponentials`: the exponential series of a step.
//! - `proofs/Most`: the most that a schedule pays. `proofs/Schedules`: what it pays at two orders.
//! - `proofs/Missions`: the beats of the schedules of a loop, and the most that they pay.
//! - `proofs/Composed`, `Steps`: two beats are one beat of their hours together.
//!   `proofs/Beginnings`, `Balances`: a short beat against one step, and what a beat changes by its mean.
//! - `proofs/SplitBeats`, `FinerSchedules`: the same of beats with their pay, and of schedules.
//! - `proofs/Limits`: real numbers and the sequences that approach them. `proofs/Figures`: the figures.
#![tactic(auto)]

ghost use Rattle.sil_model.specs.State.{FullState};
ghost use Rattle.sil_model.specs.Series.{Values};
ghost use Rattle.limit_laws.specs.RealLaws.{RealLaws};
ghost use Rattle.limit_laws.specs.Laws.{IsMarkov, SeriesConverges, BeatsConverge, PaysConverge, FiguresConverge, ExactFigures};
ghost use Rattle.limit_laws.specs.Process.{ProcessLaws};
ghost use Rattle.limit_laws.specs.Finer.{FinerLaws};

/// Bounds of a real number mean what they should, and a sequence approaches one number alone.
pub fn real_laws()
    ensures { RealLaws }
{}

/// The truncated exponential series of two orders differ by at most `2/(n + 1)!`, and approach a number.
pub fn series_converges()
    ensures { SeriesConverges }
{}

/// A beat of two orders, its mean, and the exponential series of its step.
pub fn beats_converge()
    ensures { (T : Values FullState → Values FullState) → IsMarkov T → BeatsConverge T }
{}

/// What a schedule of short beats pays at two orders, in every mode.
pub fn pays_converge()
    ensures { PaysConverge }
{}

/// PFDavg, PFH and the figures of a phase at two orders differ by at most a bound, which vanishes as the order grows.
pub fn figures_converge()
    ensures { FiguresConverge }
{}

/// A valid loop has one exact figure of each kind. It lies in each interval that contains the figures at every order from
/// some order on, and differs from the figure at each order by at most its bound.
pub fn exact_figures()
    ensures { ExactFigures }
{}

/// In the limit, the beats are the transition semigroup of the Markov process of the events: they compose, and begin as
/// its rates say.
pub fn process_laws()
    ensures { ProcessLaws }
{}

/// What a schedule pays in the limit does not depend on how fine its beats are cut.
pub fn finer_laws()
    ensures { FinerLaws }
{}
