// Plain numbers in decimal digits, by the one scan of digits, and the blanks that end a token. What
// a token means stands above this file, in `words`.
ghost use Rattle.std.specs.Prelude.{◌≡◌, ◌+◌, ◌-◌, ◌*◌, ◌≤◌, if◌then◌else◌};
ghost use Rattle.std.specs.List.{list_all};
ghost use Rattle.std.specs.Option.{option_map};
ghost use Rattle.text.specs.Ahead.{BeginsWithDigits};
ghost use Rattle.text.specs.Text.{is_blank, is_digit, value_on, number_of, capped};

use cnf::limits::NUMBER_LIMIT;

/// Whether a byte is a space or a tab.
pub fn is_blank(byte: u8) -> bool
    ensures { result ≡ is_blank byte }
{
    byte == b' ' || byte == b'\t'
}

/// The value of a number that is spelled in decimal digits with no leading zero and no sign; `None`
/// for any other bytes.
///
/// Values up to 2^62 are told exactly, and any value above that as 2^62 + 1. There may be any
/// number of digits.
pub fn number(digits: &[u8]) -> Option<u64>
    ensures { result ≡ option_map capped (number_of digits.now) }
{
    match digits {
        [] | [b'0', _, ..] => None,
        _ => value(digits),
    }
}

// The value of digits; `None` where a byte is no digit.
fn value(digits: &[u8]) -> Option<u64>
    ensures { result
        ≡ (if list_all is_digit digits.now then Some (capped (value_on 0 digits.now)) else None) }
{
    let (value, count) = leading_digits(digits);
    if count < digits.len() {
        return None;
    }
    Some(value)
}

/// The value of the digits that the bytes begin with, told as `number` tells it, and how many they
/// are.
pub fn leading_digits(bytes: &[u8]) -> (u64, usize)
    ensures { BeginsWithDigits bytes.now result.0 result.1 }
{
    let mut value = 0;
    let mut count = 0;
    while count < bytes.len() && bytes[count].is_ascii_digit() {
        value = with_digit(value, bytes[count]);
        count += 1;
    }
    (value.min(NUMBER_LIMIT + 1), count)
}

// The value with one more digit after it. Values above the limit are all alike, so what would grow
// too large may become any of them.
fn with_digit(value: u64, digit: u8) -> u64
    requires low { 48 ≤ digit }
    requires high { digit ≤ 57 }
    ensures { capped result ≡ capped (10 * value + (digit - 48)) }
{
    if value > NUMBER_LIMIT / 10 {
        return NUMBER_LIMIT + 1;
    }
    10 * value + u64::from(digit - b'0')
}
