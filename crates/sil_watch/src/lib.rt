//! Watchers of a mission: each is fed a record of every phase, and tells its lines afterwards.
//!
//! - [`PhaseRecord`] is what is computed of one phase: where it lies, and the chance that the loop is down, over it and at
//!   its end.
//! - [`Watcher`] is what may be fed such records. A watcher has a state, a list of whole numbers; its rule makes the next state
//!   of a state and a record; its lines are those of its state.
//! - [`Series`] keeps all records, and has a line for each.
//! - [`Peak`] keeps the phase at whose end the chance of being down is greatest, and has a line of it.
//! - [`Occupancy`] adds up the hours in each band, and has a line for each band.
//! - [`WatcherKind`] and [`WatchSet`] say which watchers are asked for.
#![tactic(auto)]

mod feeding;
mod kind;
mod lines;
mod occupancy;
mod peak;
mod putting;
mod record;
mod series;
mod watcher;

pub use feeding::{any_asked, feed, is_asked};
pub use kind::{WatchSet, WatcherKind};
pub use occupancy::{Occupancy, hours_add_up, lines_fix_hours};
pub use peak::{Peak, lines_fix_peaks, peaks_keep_greatest};
pub use putting::put_lines;
pub use record::PhaseRecord;
pub use series::{Series, lines_fix_records};
pub use watcher::Watcher;
