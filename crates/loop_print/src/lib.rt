//! Loops printed as loop files.
//!
//! [`print_loop`] prints the canonical file of a loop: mission time, order, version, and each subsystem with every key. Its bytes
//! are said one by one (`canonical_text`). What `loop_file` reads of it is the same loop again; over the definitions alone that is
//! [`round_trip_law`].
#![tactic(auto)]

mod print;

pub use print::{print_loop, round_trip_law};
