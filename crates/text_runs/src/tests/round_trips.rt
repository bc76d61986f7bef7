//! A loop is printed and read back.

use loop_file::read_loop;
use loop_print::print_loop;
use std::test::Fail;

/// The canonical file of the loop of the test, by the format's rules: every key, in the order of their bytes, and each
/// figure in its unit.
const CANONICAL: &str = "mission = 26280\norder = 28\nversion = 1\n\n\
    [[subsystem]]\nbeta = \"50E-3\"\nbeta_d = \"20E-3\"\ncoverage = \"900E-3\"\ndd = \"2000000E-12\"\n\
    du = \"500000E-12\"\nin_repair = \"lost\"\nname = \"sensors\"\nrepair = 24\nrestart_fault = \"100E-6\"\n\
    vote = \"2oo3\"\n\n\
    [subsystem.test]\nevery = 8760\nfirst = 4380\nfull_each = 2\nstagger = 2920\n\n\
    [[subsystem]]\nbeta = \"0E-3\"\nbeta_d = \"0E-3\"\ncoverage = \"1000E-3\"\ndd = \"900000E-12\"\n\
    du = \"100000E-12\"\nin_repair = \"tripped\"\nname = \"logic\"\nrepair = 8\nrestart_fault = \"0E-6\"\n\
    vote = \"1oo1\"\n\n\
    [[subsystem]]\nbeta = \"0E-3\"\nbeta_d = \"0E-3\"\ncoverage = \"1000E-3\"\ndd = \"0E-12\"\n\
    du = \"2000000E-12\"\nin_repair = \"lost\"\nname = \"valves\"\nrepair = 24\nrestart_fault = \"0E-6\"\n\
    vote = \"1oo2\"\n";

#[test]
fn three_subsystems_are_printed_and_read_back(rt: HostRuntime) -> Result<(), Fail> {
    let file = "version = 1\nmission = 26280\n[[type]]\nname = \"plant\"\nrepair = 24\n\
        [[subsystem]]\nname = \"sensors\"\ntype = \"plant\"\nvote = \"2oo3\"\ndu = \"5.0E-7\"\ndd = \"2.0E-6\"\n\
        beta = \"0.05\"\nbeta_d = \"0.02\"\ncoverage = \"0.9\"\nrestart_fault = \"1E-4\"\n\
        test = { every = 8760, first = 4380, stagger = 2920, full_each = 2 }\n\
        [[subsystem]]\nname = \"logic\"\nvote = \"1oo1\"\ndu = \"1.0E-7\"\ndd = \"9.0E-7\"\nrepair = 8\nin_repair = \"tripped\"\n\
        [[subsystem]]\nname = \"valves\"\ntype = \"plant\"\nvote = \"1oo2\"\ndu = \"2.0E-6\"\n";
    let l = read_loop(rt.alloc(), file.as_bytes())?;
    let text = print_loop(rt.alloc(), &l)?;
    assert_eq!(rt;
        std::str::from_utf8(&text).map_err(|_| "no text")?,
        CANONICAL
    );
    let back = read_loop(rt.alloc(), &text)?;
    assert_eq!(rt; (back.mission(), back.order(), back.len()), (26_280, 28, 3));
    for (i, name) in ["sensors", "logic", "valves"].into_iter().enumerate() {
        assert!(rt; i < back.len());
        assert_eq!(rt; back.subsystem(i).name.as_str(), name);
    }
    let again = print_loop(rt.alloc(), &back)?;
    assert_eq!(rt; again.as_slice(), CANONICAL.as_bytes());
    Ok(())
}
