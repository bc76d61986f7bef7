//! What a run answers, and why it does not.

use crate::Status;
use std::alloc::AllocError;

/// A text to be written, and the status that it stands for.
#[derive(Drop)]
pub struct Answer {
    pub status: Status,
    pub text: Vec<u8>,
}

/// Why there is no answer.
#[derive(Drop)]
pub enum Fault {
    /// The words are not in the language.
    Usage,
    /// A pick or a read failed.
    Read,
    /// There are more bytes than a loop file has.
    TooLong,
    /// The file has a fault, which this line names.
    Refused(Vec<u8>),
    /// The program was out of memory.
    Memory(AllocError),
}
