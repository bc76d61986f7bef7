//! Whole command lines, with the status and the text that each has to give.

use super::files::shelf_of_files;
use super::{ROOM, lines_of, ran_over};
use sil_io::MemShelf;
use sil_top::Status;
use std::alloc::Global;
use std::test::Fail;

/// Lines of words, and after the arrow the exit status and how the text begins. `;` stands for a line feed.
///
/// `one` is one channel without tests (both bands SIL 2), `-x` the same file, `three` three subsystems (PFDavg SIL 4, PFH SIL 1),
/// `near` a PFDavg that is undecided and a PFH without a band, `none` a loop that never fails (both beyond SIL 4), `large` one
/// above a limit, and `bad` no TOML.
const LINES: &str = "\
check one => 0 mission 8760;phases 1;states 4;beats 1096;order 28;pfd 0.00436
check -- -x => 0 mission 8760;phases 1;states 4;beats 1096;order 28;pfd 0.00436
check one --need 1 => 0 mission 8760;
check one --need 2 => 0 mission 8760;
check one --need 3 => 1 mission 8760;phases 1;states 4;beats 1096;order 28;pfd 0.00436
check one --need=4 => 1 mission 8760;
check one --need 2 --mode high => 0 mission 8760;
check one --need 3 --mode high => 1 mission 8760;
check --need=2 --mode both one => 0 mission 8760;
check --need=3 --mode=both one => 1 mission 8760;
check one --series --need 2 => 0 mission 8760;
check one --peak --need 3 => 1 mission 8760;
check --occupancy one --peak=1 => 2 usage: sil check NAME
check one --mode high => 0 mission 8760;
check one --need 2 --need 2 => 2 usage: sil check NAME
check three --need 4 => 0 mission 240;
check three --need 4 --mode low => 0 mission 240;
check three --need 2 --mode high => 1 mission 240;
check three --need 1 --mode high => 0 mission 240;
check three --need 2 --mode both => 1 mission 240;
check three --need 1 --mode both => 0 mission 240;
check near => 0 mission 100;
check near --need 1 => 1 mission 100;
check near --need 1 --mode high => 1 mission 100;
check none --need 4 --mode both => 0 mission 8760;
check large --need 1 => 3 refused: 1000004 beats, limit 1000000;
check bad --need 1 => 3 refused: not TOML;
check other --need 1 => 4 
size one => 0 mission 8760;phases 1;states 4;beats 1096;order 28;work 122752;
size -- -x => 0 mission 8760;
size large => 3 refused: 1000004 beats, limit 1000000;
size other => 4 
size one --series => 2 usage: sil check NAME
size one --peak => 2 usage: sil check NAME
gen 7 --occupancy => 2 usage: sil check NAME
size one --need 1 => 2 usage: sil check NAME
check => 2 usage: sil check NAME
 => 2 usage: sil check NAME
check one one => 2 usage: sil check NAME
check -x => 2 usage: sil check NAME
check one --need 5 => 2 usage: sil check NAME
check --need -1 one => 2 usage: sil check NAME
check one --mode => 2 usage: sil check NAME
check --series=1 one => 2 usage: sil check NAME
gen -7 => 2 usage: sil check NAME
gen 18446744073709551616 => 2 usage: sil check NAME
gen 7 --need 1 => 2 usage: sil check NAME
gen 007 => 0 mission = 43800;order = 28;version = 1;;[[subsystem]];
gen 0 => 0 mission = 43800;
bench one => 2 usage: sil check NAME
--help => 2 usage: sil check NAME
-h => 2 usage: sil check NAME
Check one => 2 usage: sil check NAME
report one => 2 usage: sil check NAME
";

/// The usage text.
const USAGE: &str =
    "usage: sil check NAME [--need 1|2|3|4] [--mode low|high|both] [--series] [--peak] [--occupancy]
       sil size NAME
       sil gen NUMBER
       sil bench NUMBER [--need 1|2|3|4] [--mode low|high|both] [--series] [--peak] [--occupancy]
";

/// Whether the run of this row ends as the row says.
fn ends_so(alloc: Global, shelf: &mut MemShelf, row: &str) -> Result<bool, Fail> {
    let (line, told) = row.split_once(" => ").ok_or("no status")?;
    let (number, start) = told.split_once(' ').ok_or("no text")?;
    let (status, text) = ran_over(alloc, line, shelf, ROOM)?;
    let start = lines_of(alloc, start)?;
    let text = text.as_str();
    Ok(
        is_number(status, number)
            && text.starts_with(start.as_str())
            && text.is_empty() == start.as_str().is_empty(),
    )
}

/// Whether this digit is the exit status.
fn is_number(status: Status, digit: &str) -> bool {
    digit.as_bytes() == [b'0' + status as u8].as_slice()
}

/// Each line ends as its row says. Where the words are not in the language the usage text is written, and a report is the same
/// whatever is needed.
#[test]
fn command_lines(rt: HostRuntime) -> Result<(), Fail> {
    let mut shelf = shelf_of_files(rt.alloc())?;
    for row in LINES.lines() {
        assert!(rt; ends_so(rt.alloc(), &mut shelf, row)?, "{row}");
    }
    let (status, text) = ran_over(rt.alloc(), "check one two", &mut shelf, ROOM)?;
    assert_eq!(rt; status, Status::Usage);
    assert_eq!(rt; text.as_str(), USAGE);
    let (_, report) = ran_over(rt.alloc(), "check three", &mut shelf, ROOM)?;
    assert_eq!(rt; report.as_str().lines().count(), 7);
    for line in ["check three --need 3 --mode both", "check --need 4 three"] {
        let (_, text) = ran_over(rt.alloc(), line, &mut shelf, ROOM)?;
        assert_eq!(rt; text.as_str(), report.as_str(), "{line}");
    }
    Ok(())
}
