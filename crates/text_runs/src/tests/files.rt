//! Whole files, and the first fault of each.

use loop_file::read_loop;
use std::alloc::{AllocError, Global};
use std::test::Fail;

/// The top table with all that it needs.
const TOP: &str = "version = 1\nmission = 9\n";

/// A subsystem with its name alone.
const NAMED: &str = "version = 1\nmission = 9\n[[subsystem]]\nname = \"a\"\n";

/// A subsystem that lacks its repair time.
const RATED: &str =
    "version = 1\nmission = 9\n[[subsystem]]\nname = \"a\"\nvote = \"1oo1\"\ndu = \"0\"\n";

/// What the fault says of a file of these lines, or `accepted`.
fn outcome(alloc: Global, top: &str, rest: &str) -> Result<String, AllocError> {
    let file = format!(in alloc; "{top}{rest}")?;
    match read_loop(alloc, file.as_bytes()) {
        Ok(_) => String::from_str(alloc, "accepted"),
        Err(fault) => format!(in alloc; "{fault}"),
    }
}

#[test]
fn first_faults_of_files(rt: HostRuntime) -> Result<(), Fail> {
    let cases = [
        ("", "", "missing version"),
        ("", "version = 7\n", "version 7"),
        ("", "version =", "not TOML"),
        ("", "version = 1\n", "missing mission"),
        ("", "version = 1\nmission = 0\n", "out of range mission"),
        (TOP, "", "missing subsystem"),
        (TOP, "zz = 1\nza = 1\n", "unknown key za"),
        (TOP, "\"\u{e9}\" = 1\n", "unknown key ??"),
        (TOP, "order = 15\n", "out of range order"),
        (TOP, "type = 3\n", "wrong kind type"),
        (TOP, "type = [1]\n", "wrong kind type[0]"),
        (TOP, "subsystem = []\n", "out of range subsystem"),
        (TOP, "mission = 9\n", "not TOML"),
        (NAMED, "", "missing subsystem[0].vote"),
        (NAMED, "vote = \"3oo2\"\n", "vote subsystem[0].vote"),
        (NAMED, "vote = \"1oo1\"\n", "missing subsystem[0].du"),
        (NAMED, "du_rate = 1\n", "unknown key subsystem[0].du_rate"),
        (
            NAMED,
            "vote = \"1oo1\"\ntype = \"x\"\n",
            "unknown type subsystem[0].type",
        ),
        (
            NAMED,
            "vote = \"1oo1\"\ndu = 1e-6\n",
            "wrong kind subsystem[0].du",
        ),
        (
            NAMED,
            "vote = \"1oo1\"\ndu = \"1E-13\"\n",
            "text subsystem[0].du too fine",
        ),
        (RATED, "", "missing subsystem[0].repair"),
        (RATED, "repair = 8\n", "accepted"),
        (RATED, "repair = 8761\n", "out of range subsystem[0].repair"),
        (
            RATED,
            "repair = 8\nin_repair = \"off\"\n",
            "text subsystem[0].in_repair not a choice",
        ),
        (
            RATED,
            "repair = 8\ntest = 5\n",
            "wrong kind subsystem[0].test",
        ),
        (
            RATED,
            "repair = 8\ntest = {}\n",
            "missing subsystem[0].test.every",
        ),
        (
            RATED,
            "repair = 8\n[[subsystem]]\nname = \"a\"\n",
            "same name subsystem[1].name",
        ),
    ];
    for (top, rest, fault) in cases {
        assert_eq!(rt; outcome(rt.alloc(), top, rest)?.as_str(), fault);
    }
    Ok(())
}

#[test]
fn a_key_stands_before_its_type_and_a_type_before_the_default(rt: HostRuntime) -> Result<(), Fail> {
    let file = "version = 1\nmission = 9\n[[type]]\nname = \"t\"\nrepair = 24\ndd = \"1E-6\"\n\
        [[subsystem]]\nname = \"a\"\ntype = \"t\"\nvote = \"2oo3\"\ndu = \"0\"\ndd = \"2E-6\"\n\
        [[subsystem]]\nname = \"b\"\ntype = \"t\"\nvote = \"1oo1\"\ndu = \"0\"\nrepair = 8\n";
    let l = read_loop(rt.alloc(), file.as_bytes())?;
    assert_eq!(rt; l.len(), 2);
    let (a, b) = (l.subsystem(0), l.subsystem(1));
    assert_eq!(rt; (a.figures.dd, a.figures.repair), (2_000_000, 24));
    assert_eq!(rt; (b.figures.dd, b.figures.repair), (1_000_000, 8));
    assert_eq!(rt; (l.order(), b.figures.coverage), (28, 1_000));
    Ok(())
}
