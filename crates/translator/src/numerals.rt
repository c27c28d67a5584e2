// Numbers as a file writes them.
ghost use Rattle.std.specs.Prelude.{◌≡◌};
ghost use Rattle.translator.specs.Numerals.{number_in, value_within, Decimal, signed_in};

// The number that the digits write, if they are digits and it is within the limit.
fn digits_value(digits: &[u8]) -> Option<u32>
    ensures { result ≡ value_within 0 digits.now }
{
    let mut value: u32 = 0;
    for digit in digits {
        if !digit.is_ascii_digit() {
            return None;
        }
        value = value
            .checked_mul(10)?
            .checked_add(u32::from(*digit - b'0'))?;
    }
    Some(value)
}

// The number that the bytes write: decimal digits without needless zeros, up to 4,294,967,295.
pub fn numeral(digits: &[u8]) -> Option<u32>
    ensures value { result ≡ number_in digits.now }
    ensures decimal { Decimal digits.now result }
{
    if digits.is_empty() {
        return None;
    }
    if digits.len() > 1 && digits[0] == b'0' {
        return None;
    }
    digits_value(digits)
}

// The same where -1, and no other number, may have a sign.
// By hand: -1 and plain numbers are read by one signed reader, a rule of the project; each caller says what -1 means.
pub(crate) fn signed(digits: &[u8]) -> Option<i64>
    ensures { result ≡ signed_in digits.now }
{
    if digits == b"-1".as_slice() {
        return Some(-1);
    }
    numeral(digits).map(i64::from)
}
