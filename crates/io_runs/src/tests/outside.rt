//! Real files, the standard output, and writers in its place.
use super::{TEXT, is_written, picks, read, written};
use sil_io::{FileShelf, OutSink, ReadFault};
use std::alloc::Global;
use std::io::{Error, ErrorKind, Write};
use std::test::Fail;
use std::{fs, io};

/// A writer that takes a few bytes at a time, and whose write or flush of one number fails. Calls are numbered from 1 on.
#[derive(Drop)]
struct Planned {
    bytes: Vec<u8>,
    most: usize,
    failing_write: u32,
    failing_flush: u32,
    writes: u32,
    flushes: u32,
}

impl Planned {
    fn new(alloc: Global, most: usize, failing_write: u32, failing_flush: u32) -> Planned {
        Planned {
            bytes: Vec::new(alloc),
            most,
            failing_write,
            failing_flush,
            writes: 0,
            flushes: 0,
        }
    }
}

impl Write for Planned {
    fn write(&mut self, buf: &[u8]) -> io::Result<usize> {
        self.writes = self.writes.saturating_add(1);
        if self.writes == self.failing_write {
            return Err(Error::from(ErrorKind::BrokenPipe));
        }
        let count = buf.len().min(self.most);
        self.bytes.extend_from_slice(&buf[..count])?;
        Ok(count)
    }

    fn flush(&mut self) -> io::Result<()> {
        self.flushes = self.flushes.saturating_add(1);
        if self.flushes == self.failing_flush {
            return Err(Error::from(ErrorKind::StorageFull));
        }
        Ok(())
    }
}

#[test]
fn each_write_is_flushed_and_each_failure_is_told(rt: HostRuntime) -> Result<(), Fail> {
    // how many bytes a write takes, which write and which flush fails; then whether all is written, the bytes that the
    // writer holds, and how often it was asked to write and to flush
    for (most, failing_write, failing_flush, want, held, writes, flushes) in [
        (100, 0, 0, true, TEXT, 1, 1),
        (1, 0, 0, true, TEXT, 13, 13),
        (5, 0, 0, true, TEXT, 3, 3),
        (100, 1, 0, false, b"", 1, 0),
        (5, 2, 0, false, b"missi", 2, 1),
        (100, 0, 1, false, TEXT, 1, 1),
        (1, 0, 1, false, b"m", 1, 1),
        (5, 0, 3, false, TEXT, 3, 3),
        (0, 0, 0, false, b"", 1, 1),
    ] {
        let mut writer = Planned::new(rt.alloc(), most, failing_write, failing_flush);
        let row = format!(in rt.alloc(); "{most} a write, {failing_write}, {failing_flush}")?;
        assert_eq!(rt; is_written(&mut OutSink::new(&mut writer)), want, "{row}");
        assert_eq!(rt; writer.bytes.as_slice(), held, "{row}");
        assert_eq!(rt; (writer.writes, writer.flushes), (writes, flushes), "{row}");
    }
    Ok(())
}

#[test]
fn a_sink_goes_on_after_a_failure(rt: HostRuntime) {
    let mut sink = OutSink::new(Planned::new(rt.alloc(), 5, 2, 2));
    // the second write fails, and then the flush of the third one
    for want in [Some(5), None, None, Some(5)] {
        assert_eq!(rt; written(&mut sink, TEXT), want);
    }
}

#[test]
fn writes_to_the_standard_output(rt: HostRuntime) {
    assert!(rt; is_written(&mut OutSink::new(io::writer(&rt))));
}

#[test]
fn reads_a_real_file_and_refuses_a_missing_one(rt: HostRuntime) -> Result<(), Fail> {
    let path = "sil-io-test.toml";
    fs::write(&rt, path, TEXT)?;
    let mut shelf = FileShelf::new(&rt);
    let picked = picks(&mut shelf, path);
    let bytes = read(rt.alloc(), &mut shelf, 13);
    fs::remove_file(&rt, path)?;
    assert!(rt; picked);
    assert_eq!(rt; bytes?.as_slice(), TEXT);
    assert!(rt; !picks(&mut shelf, path));
    assert_eq!(rt; read(rt.alloc(), &mut shelf, 9)?.len(), 0);
    // a folder has no bytes to read
    if picks(&mut shelf, ".") {
        let nothing = read(rt.alloc(), &mut shelf, 13);
        assert!(rt; matches!(nothing, Err(ReadFault::Failed)));
    }
    Ok(())
}
