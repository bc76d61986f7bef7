//! Every line, written out.

use file_fault::FileFault;
use sample_loops::{ONE_CHANNEL, sample_loop};
use sil_model::{LimitFault, Sizes, Text};
use sil_report::{file_fault_text, limit_fault_text, size_text, too_long_text, usage_text};
use sil_text::TextFault;
use std::test::Fail;

/// Limits are named with their counts, usage has a line for each verb, and sizes are those of one channel without tests.
#[test]
fn limits_usage_and_sizes(rt: HostRuntime) -> Result<(), Fail> {
    let alloc = rt.alloc();
    for (fault, line) in [
        (
            LimitFault::TooManyTests(4097),
            "refused: 4097 channel tests, limit 4096\n",
        ),
        (
            LimitFault::TooManyStates(16_384),
            "refused: 16384 states, limit 4096\n",
        ),
        (
            LimitFault::TooManyStates(74_120_331_225_600_000_000),
            "refused: 74120331225600000000 states, limit 4096\n",
        ),
        (
            LimitFault::TooManyBeats(1_051_202),
            "refused: 1051202 beats, limit 1000000\n",
        ),
        (
            LimitFault::TooMuchWork(30_140_579_840),
            "refused: work 30140579840, limit 17179869184\n",
        ),
    ] {
        assert_eq!(rt;
            limit_fault_text(alloc, &fault)?.as_slice(),
            line.as_bytes()
        );
    }
    assert_eq!(rt;
        too_long_text(),
        "refused: file longer than 65536 bytes\n".as_bytes()
    );
    let lines = [
        "usage: sil check NAME [--need 1|2|3|4] [--mode low|high|both] [--series] [--peak] [--occupancy]\n",
        "       sil size NAME\n",
        "       sil gen NUMBER\n",
        "       sil bench NUMBER [--need 1|2|3|4] [--mode low|high|both] [--series] [--peak] [--occupancy]\n",
    ];
    let mut text = String::new(alloc);
    for line in lines {
        text.push_str(line)?;
    }
    assert_eq!(rt; usage_text(), text.as_bytes());
    let l = sample_loop(alloc, 8760, &[ONE_CHANNEL])?.ok_or("out of range")?;
    let sizes = Sizes {
        phases: 1,
        states: 4,
        beats: 1096,
        work: 122_752,
    };
    assert_eq!(rt;
        size_text(alloc, &l, &sizes)?.as_slice(),
        "mission 8760\nphases 1\nstates 4\nbeats 1096\norder 28\nwork 122752\n".as_bytes()
    );
    Ok(())
}

#[test]
fn faults_of_a_file_are_named_with_their_places(rt: HostRuntime) -> Result<(), Fail> {
    let alloc = rt.alloc();
    let at = |path: &str| Text::from_str(alloc, path);
    for (fault, line) in [
        (FileFault::NotToml, "refused: not TOML\n"),
        (FileFault::BadVersion(-7), "refused: version -7\n"),
        (
            FileFault::UnknownKey(at("subsystem[0].zz")?),
            "refused: unknown key subsystem[0].zz\n",
        ),
        (FileFault::UnknownKey(at("")?), "refused: unknown key \n"),
        (
            FileFault::Missing(at("mission")?),
            "refused: missing mission\n",
        ),
        (
            FileFault::WrongKind(at("type[1]")?),
            "refused: wrong kind type[1]\n",
        ),
        (
            FileFault::OutOfRange(at("order")?),
            "refused: out of range order\n",
        ),
        (
            FileFault::BadVote(at("subsystem[0].vote")?),
            "refused: vote subsystem[0].vote\n",
        ),
        (
            FileFault::SameName(at("type[1].name")?),
            "refused: same name type[1].name\n",
        ),
        (
            FileFault::UnknownType(at("subsystem[5].type")?),
            "refused: unknown type subsystem[5].type\n",
        ),
    ] {
        match fault {
            FileFault::Memory(_) => panic!(rt; "no fault of a file"),
            fault => assert_eq!(rt; file_fault_text(alloc, &fault)?.as_slice(), line.as_bytes()),
        }
    }
    for (fault, line) in [
        (
            TextFault::NotDecimal,
            "refused: text subsystem[0].du not a decimal\n",
        ),
        (
            TextFault::TooFine,
            "refused: text subsystem[0].du too fine\n",
        ),
        (
            TextFault::TooLarge,
            "refused: text subsystem[0].du too large\n",
        ),
        (
            TextFault::NotName,
            "refused: text subsystem[0].du not a name\n",
        ),
        (
            TextFault::NotChoice,
            "refused: text subsystem[0].du not a choice\n",
        ),
    ] {
        let fault = FileFault::BadText(at("subsystem[0].du")?, fault);
        assert_eq!(rt; file_fault_text(alloc, &fault)?.as_slice(), line.as_bytes());
    }
    Ok(())
}
