//! The shelf and the sink in memory.
use super::{TEXT, is_written, picks, read, written};
use sil_io::{MemShelf, MemSink, ReadFault, Shelf};
use std::alloc::{AllocError, Global};
use std::test::Fail;

/// A shelf with the text as its one file, `loop`.
fn shelf_with_loop(alloc: Global) -> Result<MemShelf, AllocError> {
    let mut shelf = MemShelf::new(alloc);
    shelf.put("loop", TEXT)?;
    Ok(shelf)
}

#[test]
fn reads_a_picked_file_of_at_most_the_limit(rt: HostRuntime) -> Result<(), Fail> {
    let mut shelf = MemShelf::new(rt.alloc());
    shelf.put("empty", b"")?;
    shelf.put("loop", b"mission 1\n")?;
    shelf.put("loop", TEXT)?;
    // the name, whether it is picked, and the limit; then what is read, or none where there is more
    for (name, picked, limit, want) in [
        ("loop", true, 13, Some(TEXT)),
        ("loop", true, 100, Some(TEXT)),
        ("loop", true, 12, None),
        ("loop", true, 0, None),
        ("other", false, 9, Some(b"")),
        ("empty", true, 0, Some(b"")),
    ] {
        assert_eq!(rt; picks(&mut shelf, name), picked, "{name}");
        let outcome = read(rt.alloc(), &mut shelf, limit);
        match want {
            Some(want) => assert_eq!(rt; outcome?.as_slice(), want, "{name} to {limit}"),
            None => assert!(rt;
                matches!(outcome, Err(ReadFault::TooLong)),
                "{name} to {limit}"
            ),
        }
    }
    Ok(())
}

#[test]
fn nothing_is_read_without_a_picked_file(rt: HostRuntime) -> Result<(), Fail> {
    let mut shelf = shelf_with_loop(rt.alloc())?;
    assert!(rt; picks(&mut shelf, "loop"));
    shelf.put("other", b"")?;
    assert_eq!(rt; read(rt.alloc(), &mut shelf, 9)?.len(), 0);
    assert!(rt; picks(&mut shelf, "loop"));
    shelf.fail_pick();
    for name in ["loop", "other", "loop"] {
        assert!(rt; !picks(&mut shelf, name), "{name}");
        assert_eq!(rt; read(rt.alloc(), &mut shelf, 13)?.len(), 0);
    }
    Ok(())
}

#[test]
fn the_planned_read_fails_and_no_other(rt: HostRuntime) -> Result<(), Fail> {
    for planned in 0..8u32 {
        let mut shelf = shelf_with_loop(rt.alloc())?;
        shelf.fail_read_at(1);
        shelf.fail_read_at(planned);
        assert!(rt; picks(&mut shelf, "loop"));
        let mut bytes = [0; 4];
        let mut taken: Vec<u8> = Vec::new(rt.alloc());
        // the file takes four reads, and the end of the file one more
        for call in 1..8u32 {
            match shelf.read(&mut bytes) {
                Ok(count) => {
                    assert!(rt; call != planned, "read {call}");
                    taken.extend_from_slice(&bytes[..count])?;
                }
                Err(_) => assert_eq!(rt; call, planned),
            }
        }
        assert_eq!(rt; taken.as_slice(), TEXT);
    }
    Ok(())
}

#[test]
fn a_file_whose_read_fails_is_not_read_whole(rt: HostRuntime) -> Result<(), Fail> {
    for planned in 1..5u32 {
        let mut shelf = shelf_with_loop(rt.alloc())?;
        shelf.fail_read_at(planned);
        // two reads each: the whole file, and its end
        for file in 0..2u32 {
            assert!(rt; picks(&mut shelf, "loop"));
            let fails = planned.saturating_sub(1) / 2 == file;
            match read(rt.alloc(), &mut shelf, 13) {
                Ok(bytes) => {
                    assert!(rt; !fails, "read {planned}");
                    assert_eq!(rt; bytes.as_slice(), TEXT);
                }
                Err(fault) => assert!(rt; fails && matches!(fault, ReadFault::Failed)),
            }
        }
    }
    Ok(())
}

/// Whether the text is not written whole, and the sink holds so many bytes of it.
fn stops_after(sink: &mut MemSink, taken: usize) -> bool {
    taken < TEXT.len() && !is_written(sink) && sink.bytes() == &TEXT[..taken]
}

#[test]
fn a_sink_holds_the_bytes_before_its_stop(rt: HostRuntime) -> Result<(), Fail> {
    for taken in 0..13usize {
        let mut failing = MemSink::new(rt.alloc(), 100)?;
        failing.fail_after(taken);
        assert!(rt; stops_after(&mut failing, taken), "failing after {taken}");

        let mut small = MemSink::new(rt.alloc(), taken)?;
        assert!(rt; stops_after(&mut small, taken), "room for {taken}");
        assert_eq!(rt; written(&mut small, b""), Some(0));

        let mut stalling = MemSink::new(rt.alloc(), 100)?;
        stalling.fail_after(5);
        stalling.stall_after(taken);
        assert!(rt; stops_after(&mut stalling, taken), "stalling after {taken}");
        for piece in [TEXT, b""] {
            assert_eq!(rt; written(&mut stalling, piece), Some(0));
        }
        stalling.fail_after(1);
        assert_eq!(rt; written(&mut stalling, TEXT), Some(1));
        assert_eq!(rt; written(&mut stalling, TEXT), None);
    }
    Ok(())
}

#[test]
fn a_stop_at_the_end_of_the_room(rt: HostRuntime) -> Result<(), Fail> {
    let mut whole = MemSink::new(rt.alloc(), 13)?;
    whole.fail_after(13);
    assert!(rt; is_written(&mut whole));
    assert_eq!(rt; whole.bytes(), TEXT);
    // where the room is full it fails, though a stall is planned there
    let mut full = MemSink::new(rt.alloc(), 5)?;
    full.stall_after(5);
    assert_eq!(rt; written(&mut full, TEXT), Some(5));
    assert_eq!(rt; written(&mut full, TEXT), None);
    Ok(())
}
