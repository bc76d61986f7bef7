//! Runs of which no premise is left open: the report stands in the sink, or the program was out of memory.

use complete_run::{check_drawn, check_one_channel, check_sound};
use sil_top::Status;
use std::test::Fail;

/// One channel without tests, for a year.
const ONE_CHANNEL: &[u8] =
    b"version = 1\nmission = 8760\n[[subsystem]]\nname = 'sif'\nvote = '1oo1'\ndu = '1.0E-6'\nrepair = 8\n";

/// The report of one channel has its PFDavg of 1 - (1 - e^-x)/x with x = 0.00876, which begins with 0.00436723836; the lower
/// end is less than a unit of 10^-11 below.
#[test]
fn reports_stand_in_the_sink(rt: HostRuntime) -> Result<(), Fail> {
    let alloc = rt.alloc();
    let start = b"mission 8760\nphases 1\nstates 4\nbeats 1096\norder 28\npfd 0.0043672383";
    let (status, sink) = check_one_channel(alloc)?;
    assert_eq!(rt; status, Status::Done);
    assert!(rt; sink.bytes().starts_with(start));
    let (status, sink) = check_sound(alloc, ONE_CHANNEL)?.ok_or("not sound")?;
    assert_eq!(rt; status, Status::Done);
    assert!(rt; sink.bytes().starts_with(start));
    let (status, sink) = check_drawn(alloc, 7)?;
    assert_eq!(rt; status, Status::Done);
    assert!(rt; sink.bytes().starts_with(b"mission 43800\nphases 5\n"));
    Ok(())
}
