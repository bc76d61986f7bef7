//! The definitions of the model tried on small cases: each is computed by the checker from the definitions alone, and
//! agrees with fractions that were worked out apart. No code runs here, and no crate stands on this one.
#![tactic(auto)]

ghost use Rattle.model_cases.specs.Cases.{WorkedCases, PhaseCases, BandCases};
ghost use Rattle.model_cases.specs.Budgets.{BudgetCases};
ghost use Rattle.model_cases.specs.Exchange.{ExchangeCases};
ghost use Rattle.model_cases.specs.Orders.{OrderCases};

/// Beats, common cause, tests, passages and PFDavg of small loops.
pub fn worked_cases()
    ensures { WorkedCases }
{}

/// PFDavg and PFH across a test, and the mean and the end of a phase.
pub fn phase_cases()
    ensures { PhaseCases }
{}

/// The error budgets of a channel over a year and of one across a test, and how wide their intervals may be.
pub fn budget_cases()
    ensures { BudgetCases }
{}

/// Bands at their edges.
pub fn band_cases()
    ensures { BandCases }
{}

/// Two channels that trade places under a test.
pub fn exchange_cases()
    ensures { ExchangeCases }
{}

/// A beat at two orders of the series, the errors of small loops, and bounds of a real number.
pub fn order_cases()
    ensures { OrderCases }
{}
