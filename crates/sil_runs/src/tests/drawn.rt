//! Loops that are drawn from numbers.

use super::figures::{between, is_line};
use super::{ROOM, ran, ran_over};
use sil_io::MemShelf;
use sil_top::Status;
use std::test::Fail;

/// What `gen 7` prints has the sizes of the drawn loop, and no file is needed for it.
///
/// The report of `bench 7` is the same in each run, whatever is needed. Its figures are those of an independent computation over the
/// full states: PFDavg is in SIL 1, and PFH in no band.
#[test]
fn loop_that_is_drawn_from_seven(rt: HostRuntime) -> Result<(), Fail> {
    let alloc = rt.alloc();
    let mut shelf = MemShelf::new(alloc);
    let (status, file) = ran_over(alloc, "gen 7", &mut shelf, ROOM)?;
    assert_eq!(rt; status, Status::Done);
    let start = "mission 43800\nphases 5\n";
    let (status, sizes) = ran(alloc, "size loop.toml", file.as_bytes())?;
    assert_eq!(rt; status, Status::Done);
    assert!(rt; sizes.as_str().starts_with(start), "{sizes}");
    let (status, first) = ran_over(alloc, "bench 7", &mut shelf, ROOM)?;
    assert_eq!(rt; status, Status::Done);
    let (status, second) = ran_over(alloc, "bench 7 --need 1 --mode both", &mut shelf, ROOM)?;
    assert_eq!(rt; status, Status::NotShown);
    let text = first.as_str();
    assert_eq!(rt; text, second.as_str());
    assert!(rt; text.starts_with(start), "{text}");
    assert_eq!(rt; text.lines().count(), 7);
    let pfd = between(text, "pfd ", "\n")?;
    let pfh = between(text, "pfh ", "\n")?;
    assert!(rt;
        is_line(pfd, "17995757341979306", "SIL 1", "22061438899")?,
        "{text}"
    );
    assert!(rt;
        is_line(pfh, "13442239249746", "no SIL", "2682987")?,
        "{text}"
    );
    Ok(())
}
