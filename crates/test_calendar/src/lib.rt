//! The calendar of a loop's proof tests: how many tests of channels there are, the phases between test hours, the groups
//! that are tested at each, and the beats of a phase.
//!
//! [`plan`] makes the calendar from the test plans, from one test hour to the next, and refuses a loop with more than
//! [`MOST_TESTS`](sil_model::MOST_TESTS) tests of channels before it works through them. [`channel_tests`] and [`beats_of`] only count, without memory.
#![tactic(auto)]

mod beats;
mod counting;
mod groups;
mod hours;
mod phases;
mod planning;

pub use beats::beats_of;
pub use counting::channel_tests;
pub use groups::GroupTest;
pub use phases::Plan;
pub use planning::{PlanFault, plan};
