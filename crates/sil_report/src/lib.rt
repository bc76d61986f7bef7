//! The texts that the program prints of a loop's sizes, of what is refused, and of how it is called.
//!
//! Every line is ended by a line feed. A text that depends on a value is a `Vec` of its bytes, and the only error is want
//! of memory; a fixed text takes none.
#![tactic(auto)]

mod refusals;
mod reports;
mod sizes;

pub use refusals::{file_fault_text, limit_fault_text, too_long_text};
pub use reports::{lines_fix_numbers, report};
pub use sil_bands::band_text;
pub use sizes::{counts_text, size_text};
pub use verb_table::usage_text;
