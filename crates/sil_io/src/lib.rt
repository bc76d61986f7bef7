//! Where bytes come from and where they go: files by name and a place for output, with every fault counted.
//!
//! [`Shelf`] and [`Sink`] are what the program reads from and writes to. [`read_to_limit`] reads a picked file whole,
//! and [`write_whole`] writes a text whole.
#![tactic(auto)]

mod log;
mod memory_shelf;
mod memory_sink;
mod outside;
mod reading;
mod writing;

pub use log::Log;
pub use memory_shelf::MemShelf;
pub use memory_sink::MemSink;
pub use outside::{FileShelf, OutSink};
pub use reading::{ReadFault, Shelf, read_to_limit};
pub use writing::{Failed, Sink, write_whole};
