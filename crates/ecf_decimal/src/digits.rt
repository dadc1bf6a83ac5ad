//! Numerals, and the value of their digits.

ghost use Rattle.std.specs.Prelude.{◌≡◌, ◌^◌, ◌<◌, IsTrue};
ghost use Rattle.std.specs.List.{list_all};
ghost use Rattle.std.specs.Char.{is_ascii_digit};
ghost use Rattle.std.specs.Option.{SomeIff};
ghost use Rattle.ecf_decimal.specs.Decimal.{is_numeral, number_value};

/// The value of a numeral: one decimal digit or more and nothing else, and zeros may lead.
/// `None` where the bytes are no numeral, and where the value doesn't fit 128 bits.
pub fn decimal(bytes: &[u8]) -> Option<u128>
    ensures { SomeIff result (IsTrue (is_numeral bytes.now) × (number_value bytes.now < 2 ^ 128)) (number_value bytes.now) }
{
    if is_numeral(bytes) {
        value_of(bytes)
    } else {
        None
    }
}

fn is_numeral(bytes: &[u8]) -> bool
    ensures { result ≡ is_numeral bytes.now }
{
    !bytes.is_empty() && has_only_digits(bytes)
}

fn has_only_digits(bytes: &[u8]) -> bool
    ensures { result ≡ list_all is_ascii_digit bytes.now }
{
    bytes.iter().all(|byte| byte.is_ascii_digit())
}

// The value of digits, if it fits 128 bits.
fn value_of(digits: &[u8]) -> Option<u128>
    requires { IsTrue (list_all is_ascii_digit digits.now) }
    ensures { SomeIff result (number_value digits.now < 2 ^ 128) (number_value digits.now) }
{
    let mut value: u128 = 0;
    for digit in digits {
        value = value
            .checked_mul(10)?
            .checked_add(u128::from(*digit - b'0'))?;
    }
    Some(value)
}
