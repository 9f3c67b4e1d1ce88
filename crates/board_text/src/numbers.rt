//! Parses the decimal numbers in records.
ghost use Rattle.std.specs.Prelude.{◌≡◌, ◌+◌, ◌*◌, nat_lt, if◌then◌else◌};
ghost use Rattle.board_text.specs.Numbers.{number_of_digits};

/// The number of one to twenty decimal digits, if it is below 2^64; `None` of any other field.
pub fn number_of_field(field: &[u8]) -> Option<u64>
    ensures { result ≡ number_of_digits field.now }
{
    if field.is_empty() || field.len() > 20 {
        return None;
    }
    let mut number: u64 = 0;
    for digit in field {
        if !digit.is_ascii_digit() {
            return None;
        }
        number = next_number(number, *digit - b'0')?;
    }
    Some(number)
}

// Ten times a number, plus a digit.
fn next_number(number: u64, digit: u8) -> Option<u64>
    ensures { result ≡ (if nat_lt (number * 10 + digit) 0x1_0000_0000_0000_0000 then Some (number * 10 + digit)
        else None) }
{
    let more = u128::from(number) * 10 + u128::from(digit);
    u64::try_from(more).ok()
}
