//! Worked values, from the description of the loop file.

use sil_text::{TextFault, is_name, put_decimal18, read_millionths, read_rate, read_thousandths};
use std::test::Fail;

/// Rates are counted in units of 10^-12, shares in thousandths and millionths; faults are numbered from one; names are short
/// and plain; figures have eighteen digits after the point.
#[test]
fn decimals_names_and_figures(rt: HostRuntime) -> Result<(), Fail> {
    let rates = [
        ("1E-6", Ok(1_000_000)),
        ("0.000001", Ok(1_000_000)),
        ("1.0e-06", Ok(1_000_000)),
        ("1E-12", Ok(1)),
        ("1E-3", Ok(1_000_000_000)),
        ("0E999", Ok(0)),
        ("1.1E-3", Err(TextFault::TooLarge)),
        ("1E999", Err(TextFault::TooLarge)),
        ("999999999999999999999999E+999", Err(TextFault::TooLarge)),
        ("1E-13", Err(TextFault::TooFine)),
        ("1000.0000000000001", Err(TextFault::TooFine)),
        ("", Err(TextFault::NotDecimal)),
        ("-1", Err(TextFault::NotDecimal)),
        (".5", Err(TextFault::NotDecimal)),
        ("5.", Err(TextFault::NotDecimal)),
        ("1E", Err(TextFault::NotDecimal)),
        ("1E-", Err(TextFault::NotDecimal)),
        ("1E0001", Err(TextFault::NotDecimal)),
        ("1 ", Err(TextFault::NotDecimal)),
        ("0000000000000000000000000", Err(TextFault::NotDecimal)),
    ];
    for (text, answer) in rates {
        assert_eq!(rt; read_rate(text), answer);
    }
    assert_eq!(rt; read_thousandths("0.05"), Ok(50));
    assert_eq!(rt; read_thousandths("1"), Ok(1000));
    assert_eq!(rt; read_thousandths("1.001"), Err(TextFault::TooLarge));
    assert_eq!(rt; read_thousandths("0.0005"), Err(TextFault::TooFine));
    assert_eq!(rt; read_millionths("2E-4"), Ok(200));
    assert_eq!(rt; read_millionths("1.000"), Ok(1_000_000));
    let faults = [
        (TextFault::NotDecimal, 1),
        (TextFault::TooFine, 2),
        (TextFault::TooLarge, 3),
        (TextFault::NotName, 4),
        (TextFault::NotChoice, 5),
    ];
    for (fault, number) in faults {
        assert_eq!(rt; fault as u8, number);
    }
    let names = [
        ("valves ~ 2", true),
        ("thirty-two bytes are a full name", true),
        ("", false),
        ("thirty-three bytes are one beyond", false),
        ("caf\u{e9}", false),
    ];
    for (name, is) in names {
        assert_eq!(rt; is_name(name), is);
    }
    let figures = [
        (0, "0.000000000000000000"),
        (1_234_567_890_123_456_789, "1.234567890123456789"),
    ];
    for (figure, text) in figures {
        assert_eq!(rt; put_decimal18(figure).as_slice(), text.as_bytes());
    }
    Ok(())
}
