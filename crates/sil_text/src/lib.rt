//! The texts of a loop file: exact decimals, names, and figures with eighteen digits after the point.
//!
//! A decimal is read as a whole number of a unit that the caller names, never as a float: `1.0e-06` is
//! exactly a million of 10^-12. Nothing here takes memory.
#![tactic(auto)]

mod decimal;
mod fault;
mod figure;
mod name;
mod scan;
mod tens;

pub use decimal::{read_millionths, read_rate, read_thousandths};
pub use fault::TextFault;
pub use figure::{put_decimal18, texts_fix_numbers};
pub use name::is_name;
