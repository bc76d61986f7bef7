//! The beats of one subsystem of a loop, as matrices.
//!
//! Between tests a subsystem does not hang on the others, so that it is a loop for itself. [`SubsystemPower`] has the matrix
//! of one beat of it, that of sixteen, and that of as many as are asked for, by doublings.
//!
//! - `alone`: a subsystem as a loop. `matrices`: how the matrices are made. `power`: the public type. `count`: of how many
//!   beats the power is, for proofs.
//!
//! Only [`subsystem_alone`] and [`SubsystemPower::new`] take memory.
#![tactic(auto)]

mod alone;
mod count;
mod matrices;
mod power;

pub use alone::alone as subsystem_alone;
pub use power::SubsystemPower;
