//! Files that are refused.

use super::{ONE_CHANNEL, answers, changed, cut, lines_of};
use sil_model::MOST_FILE_BYTES;
use sil_top::Status;
use std::alloc::Global;
use std::test::Fail;

/// A line of each refused file: what is replaced in the file of one channel, by what, what stands at its end, and the
/// fault. `;` stands for a line feed.
const REFUSED: &str = r#"'1.0E-6'|1e-6||wrong kind subsystem[0].du
1.0E-6|1E-13||text subsystem[0].du too fine
1.0E-6|0.0011||text subsystem[0].du too large
1.0E-6|1E||text subsystem[0].du not a decimal
1oo1|3oo2||vote subsystem[0].vote
[[subsystem]];name = 'sif';vote = '1oo1';du = '1.0E-6';repair = 8|subsystem = []||out of range subsystem
||[[subsystem]];name = "sif"|same name subsystem[1].name
version = 1|version = 7||version 7
version = 1|version = "1"||wrong kind version
||du_rate = 1|unknown key subsystem[0].du_rate
||type = "x"|unknown type subsystem[0].type
8760|0||out of range mission
8760|350401||out of range mission
8760|0;zz = 1||unknown key zz
8760|8760;"\u00e9" = 1||unknown key ??
8760|8760;order = 15||out of range order
8760|8760;order = 41||out of range order
8760|8760;type = 3||wrong kind type
8760|8760;type = [1]||wrong kind type[0]
8760|8760;mission = 8760||not TOML
8760|99999999999999999999||not TOML
8760|8760.0||wrong kind mission
8760|1979-05-27||wrong kind mission
.0E-6'|||not TOML
name = 'sif'|name = ""||text subsystem[0].name not a name
||in_repair = "off"|text subsystem[0].in_repair not a choice
||test = 5|wrong kind subsystem[0].test
||test = {}|missing subsystem[0].test.every
||test = { every = 0 }|out of range subsystem[0].test.every
repair = 8|repair = 8761||out of range subsystem[0].repair"#;

/// Whether this line of words refuses this file by this fault.
fn is_refused(alloc: Global, words: &str, file: &[u8], fault: &str) -> Result<bool, Fail> {
    let line = format!(in alloc; "refused: {fault}\n")?;
    answers(alloc, words, file, Status::FileRefused, line.as_str())
}

/// Whether both verbs refuse the file of this row by its line.
fn are_refused(alloc: Global, row: &str) -> Result<bool, Fail> {
    let (part, rest) = cut(row)?;
    let (by, rest) = cut(rest)?;
    let (more, fault) = cut(rest)?;
    let part = lines_of(alloc, part)?;
    let file = lines_of(alloc, changed(alloc, part.as_str(), by, more)?.as_str())?;
    let file = file.as_bytes();
    Ok(
        is_refused(alloc, "check loop.toml --need 4", file, fault)?
            && is_refused(alloc, "size loop.toml", file, fault)?,
    )
}

/// Both verbs print the same line of a refused file.
#[test]
fn refused_files(rt: HostRuntime) -> Result<(), Fail> {
    for row in REFUSED.lines() {
        assert!(rt; are_refused(rt.alloc(), row)?, "{row}");
    }
    Ok(())
}

/// The faults of the file of one channel where it is cut off before each of its lines.
const MISSING: &str = "\
missing version|missing mission|missing subsystem|missing subsystem[0].name|missing subsystem[0].vote\
|missing subsystem[0].du|missing subsystem[0].repair";

/// The file of one channel cut off after each of its lines but the last.
#[test]
fn truncated_files(rt: HostRuntime) -> Result<(), Fail> {
    let mut read = 0;
    for (fault, line) in MISSING.split('|').zip(ONE_CHANNEL.lines()) {
        let front = ONE_CHANNEL.as_bytes().get(..read).ok_or("too long")?;
        assert!(rt;
            is_refused(rt.alloc(), "check loop.toml", front, fault)?,
            "{fault}"
        );
        read += line.len() + 1;
    }
    assert_eq!(rt; read, ONE_CHANNEL.len());
    Ok(())
}

/// A byte that no text has is no TOML, in a name as well as in a comment.
#[test]
fn byte_of_no_text(rt: HostRuntime) -> Result<(), Fail> {
    let mut file: Vec<u8> = Vec::from_slice(rt.alloc(), ONE_CHANNEL.as_bytes())?;
    file.extend_from_slice(b"# \xff\n")?;
    let mut name: Vec<u8> = Vec::from_slice(rt.alloc(), ONE_CHANNEL.as_bytes())?;
    for byte in name.as_mut_slice() {
        // the last letter of the name, and no other byte of the file
        if *byte == b'f' {
            *byte = 255;
        }
    }
    for file in [file.as_slice(), name.as_slice()] {
        assert!(rt; is_refused(rt.alloc(), "check loop.toml", file, "not TOML")?);
    }
    Ok(())
}

/// The file of one channel, made so long by a comment.
fn lengthened(alloc: Global, size: usize) -> Result<Vec<u8>, Fail> {
    let mut file: Vec<u8> = Vec::from_slice(alloc, ONE_CHANNEL.as_bytes())?;
    file.resize(size, b'#')?;
    Ok(file)
}

/// A file as long as a loop file may be, and one byte longer.
#[test]
fn longest_file(rt: HostRuntime) -> Result<(), Fail> {
    let alloc = rt.alloc();
    let file = lengthened(alloc, MOST_FILE_BYTES)?;
    let told = "mission 8760\nphases 1\nstates 4\nbeats 1096\norder 28\nwork 122752\n";
    assert!(rt; answers(alloc, "size loop.toml", &file, Status::Done, told)?);
    let file = lengthened(alloc, MOST_FILE_BYTES + 1)?;
    let fault = "file longer than 65536 bytes";
    assert!(rt; is_refused(alloc, "size loop.toml", &file, fault)?);
    Ok(())
}
