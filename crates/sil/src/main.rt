//! `sil`: proved bounds on the figures of a safety loop.
#![tactic(auto)]

use sil_io::{FileShelf, OutSink};
use sil_top::{Status, run_program};
use std::io::{self, ErrorKind};
use std::process::ExitCode;

fn main(rt: HostRuntime) -> ExitCode {
    let all = match std::env::args(&rt) {
        Ok(all) => all,
        Err(e) if e.kind() == ErrorKind::OutOfMemory => return exit_code(Status::Memory),
        // The words are not UTF-8.
        Err(_) => return exit_code(Status::Usage),
    };
    let mut words: Vec<String> = Vec::new(rt.alloc());
    for word in all.skip(1) {
        if words.push(word).is_err() {
            return exit_code(Status::Memory);
        }
    }
    let mut shelf = FileShelf::new(&rt);
    let mut sink = OutSink::new(io::writer(&rt));
    exit_code(run_program(rt.alloc(), &words, &mut shelf, &mut sink))
}

/// The exit status of the program is the number of its status.
fn exit_code(status: Status) -> ExitCode {
    ExitCode::from(status as u8)
}
