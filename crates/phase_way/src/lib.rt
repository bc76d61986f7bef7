//! A phase of a mission, from test to test, in the way that takes least.
//!
//! [`PhaseRooms`] pushes a vector through the phases of a loop. There are three ways to do so, the variants of `Way`, and all
//! keep the same promise; they differ in what they need and in how long they take. Which one a phase goes is asked of `Choice`,
//! in this order:
//!
//! 1. Each subsystem for itself, if the loop has several and each has few count vectors, if this takes few products for each
//!    count vector and beat and no more than powers do, and if little is lost so.
//! 2. By the powers of a beat, if the loop has few states and powers take fewer products at most than beats.
//! 3. In blocks of beats.
//!
//! The same choice says up to how many beats the blocks go, and for which ways there is room.
//!
//! - `choice`: the ways, what each takes, and the choice; every number of speed stands there.
//! - `rooms`: the rooms of the ways. `passing`: a phase by each way. `phases`: the public type.
//!
//! Only [`PhaseRooms::new`] takes memory.
#![tactic(auto)]

mod choice;
mod passing;
mod phases;
mod rooms;

pub use phases::PhaseRooms;
