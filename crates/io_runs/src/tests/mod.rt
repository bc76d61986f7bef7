//! What is read and written, and where that fails.

mod memory;
mod outside;

use sil_io::{ReadFault, Shelf, Sink, read_to_limit, write_whole};
use std::alloc::Global;

/// The text of the tests, of 13 bytes.
const TEXT: &[u8] = b"mission 8760\n";

/// Whether the file of this name is picked.
fn picks<S: Shelf>(shelf: &mut S, name: &str) -> bool {
    shelf.pick(name).is_ok()
}

/// What is read of the picked file, up to a limit.
fn read<S: Shelf>(alloc: Global, shelf: &mut S, limit: u8) -> Result<Vec<u8>, ReadFault> {
    read_to_limit(alloc, shelf, usize::from(limit))
}

/// Whether the text is written whole.
fn is_written<K: Sink>(sink: &mut K) -> bool {
    write_whole(sink, TEXT).is_ok()
}

/// How many bytes of a piece are written, unless the write fails.
fn written<K: Sink>(sink: &mut K, piece: &[u8]) -> Option<usize> {
    sink.write(piece).ok()
}
