//! The events of a loop between its count vectors: those of single channels, and those of common causes.
//!
//! A common cause moves all channels of its subsystem that work, and no other, also where they are in several groups.
//! `share` is the share of the repair crews that each channel in repair has, at a count vector.
#![tactic(auto)]

mod event;
mod list;
mod share;

pub use event::{LumpEvent, Rate};
pub use list::events;
pub use share::{Share, share_at, share_in};
