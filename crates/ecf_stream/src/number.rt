//! Numbers in decimal digits, within a range.

ghost use Rattle.std.specs.Prelude.{◌≡◌, ◌≤◌, IfSome};
ghost use Rattle.ecf_lines.specs.Line.{number_within};

use ecf_decimal::decimal;

/// The number that a word spells, if it spells one from `least` to `most`.
pub fn number_within(least: u128, most: u128, word: &[u8]) -> Option<u128>
    ensures value { result ≡ number_within least most word.now }
    ensures in_range { IfSome result (λ value. value ≤ most) }
{
    let value = decimal(word)?;
    if least <= value && value <= most {
        Some(value)
    } else {
        None
    }
}
