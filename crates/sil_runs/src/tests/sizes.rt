//! The sizes of loops, and the limits.

use super::{answers, changed, cut, lines_of};
use sil_top::Status;
use std::alloc::Global;
use std::test::Fail;

/// What is changed in the file of one channel, what stands at its end, and the exit status and the text of `size`. `;` stands
/// for a line feed.
const SIZES: &str = "\
|||0|mission 8760;phases 1;states 4;beats 1096;order 28;work 122752;
8760;[[subsystem]];name = 'sif';vote = '1oo1'|100;[[subsystem]];name = 'sif';vote = '1oo6'\
|test = { first = 10, every = 100, stagger = 10 }|0|mission 100;phases 7;states 4096;beats 79;order 28;work 9060352;
8760;[[subsystem]];name = 'sif';vote = '1oo1'|100;[[subsystem]];name = 'sif';vote = '1oo6'\
|test = { first = 10, every = 100, stagger = 10 };[[subsystem]];name = 'b';vote = '1oo1';du = '0';repair = 8\
|3|refused: 16384 states, limit 4096;
8760;[[subsystem]];name = 'sif';vote = '1oo1';du = '1.0E-6';repair = 8\
|250000;[[subsystem]];name = 'sif';vote = '1oo4';du = '0';repair = 1\
||0|mission 250000;phases 1;states 35;beats 1000000;order 28;work 980000000;
8760;[[subsystem]];name = 'sif';vote = '1oo1';du = '1.0E-6';repair = 8\
|250001;[[subsystem]];name = 'sif';vote = '1oo4';du = '0';repair = 1||3|refused: 1000004 beats, limit 1000000;
8760;[[subsystem]];name = 'sif';vote = '1oo1';du = '1.0E-6';repair = 8\
|350400;[[subsystem]];name = 'sif';vote = '1oo3';du = '1.0E-6';repair = 1||3|refused: 1051202 beats, limit 1000000;
8760|4097|test = { every = 1 }|0|mission 4097;phases 4097;states 4;beats 4097;order 28;work 458864;
8760|4098|test = { every = 1 }|3|refused: 4097 channel tests, limit 4096;
8760;[[subsystem]];name = 'sif';vote = '1oo1'|350400;[[subsystem]];name = 'sif';vote = '1oo6'\
|test = { first = 175200, every = 350400, stagger = 1 }|3|refused: work 30140579840, limit 17179869184;
8760;[[subsystem]];name = 'sif';vote = '1oo1';du = '1.0E-6';repair = 8\
|26280;[[type]];name = 'plant';repair = 24\
;[[subsystem]];name = 'sensors';type = 'plant';vote = '2oo3';du = '5.0E-7';dd = '2.0E-6';test = { every = 8760 }\
;[[subsystem]];name = 'logic';type = 'plant';vote = '1oo1';du = '1.0E-7';dd = '9.0E-7';test = { every = 8760 }\
;[[subsystem]];name = 'valves';type = 'plant';vote = '1oo2';du = '2.0E-6'\
|test = { every = 8760 }|0|mission 26280;phases 3;states 800;beats 6573;order 28;work 147235200;
8760;[[subsystem]];name = 'sif';vote = '1oo1';du = '1.0E-6';repair = 8\
|26280;[[type]];name = 'plant';repair = 24\
;[[subsystem]];name = 'sensors';type = 'plant';vote = '2oo3';du = '5.0E-7';dd = '2.0E-6';test = { every = 8760 }\
;[[subsystem]];name = 'logic';type = 'plant';vote = '1oo1';du = '1.0E-7';dd = '9.0E-7';test = { every = 8760 }\
;[[subsystem]];name = 'valves';type = 'plant';vote = '1oo2';du = '2.0E-6'\
|test = { every = 8760, stagger = 4380 }|0|mission 26280;phases 5;states 1280;beats 6575;order 28;work 235648000;
";

/// Whether `size` of the file of this row ends as the row says.
fn has_sizes(alloc: Global, row: &str) -> Result<bool, Fail> {
    let (part, rest) = cut(row)?;
    let (by, rest) = cut(rest)?;
    let (more, rest) = cut(rest)?;
    let (number, told) = cut(rest)?;
    let (part, by) = (lines_of(alloc, part)?, lines_of(alloc, by)?);
    let more = lines_of(alloc, more)?;
    let file = changed(alloc, part.as_str(), by.as_str(), more.as_str())?;
    let status = if number == "0" {
        Status::Done
    } else {
        Status::FileRefused
    };
    let told = lines_of(alloc, told)?;
    answers(
        alloc,
        "size loop.toml",
        file.as_bytes(),
        status,
        told.as_str(),
    )
}

#[test]
fn sizes_and_limits(rt: HostRuntime) -> Result<(), Fail> {
    for row in SIZES.lines() {
        assert!(rt; has_sizes(rt.alloc(), row)?, "{row}");
    }
    Ok(())
}
