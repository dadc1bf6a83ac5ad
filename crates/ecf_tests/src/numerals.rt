//! Numerals against their values.

use ecf_decimal::decimal;
use std::test::Fail;

fn value_of(text: &str) -> Option<u128> {
    decimal(text.as_bytes())
}

#[test]
fn numerals_have_these_values(rt: HostRuntime) -> Result<(), Fail> {
    let most = u128::MAX;
    for (text, value) in [
        ("0", Some(0)),
        ("7", Some(7)),
        ("0007", Some(7)),
        ("1000000", Some(1_000_000)),
        ("340282366920938463463374607431768211455", Some(most)),
        ("0340282366920938463463374607431768211455", Some(most)),
        ("340282366920938463463374607431768211456", None),
        ("9999999999999999999999999999999999999999", None),
        ("", None),
        ("-1", None),
        ("+1", None),
        ("1_000", None),
        ("12a", None),
        ("1 ", None),
    ] {
        assert_eq!(rt; value_of(text), value);
    }
    Ok(())
}
