//! Loops that are made from a number.
//!
//! [`make_loop`] draws a loop of three subsystems, always the same of the same number: a large valid input for which no
//! file is needed. `specs/Drawn.antt` says which loop it is. For every number it is valid and exceeds no limit.
#![tactic(auto)]

mod drawing;
mod generator;

pub use drawing::{drawn_law, make_loop};
