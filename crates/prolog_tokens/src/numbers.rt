//! Numbers that digits spell.

ghost use Rattle.std.specs.Prelude.{◌≡◌, ◌≤◌, ◌<◌, ◌^◌, length, SomeIff};
ghost use Rattle.std.specs.Char.{digit_value, IsScalar};
ghost use Rattle.prolog_tokens.specs.Numbers.{digits_len, number_of};

/// The first number that is too wide.
const LIMIT: u128 = 1 << 127;

/// The value of a digit or a letter of either case, from 0 to 35, and 36 for any other byte.
fn digit_value(byte: u8) -> u32
    ensures { result ≡ digit_value byte }
{
    char::from(byte).to_digit(36).unwrap_or(36)
}

/// How many digits of the base the text begins with.
pub fn digits_len(bytes: &[u8], base: u32) -> usize
    ensures value { result ≡ digits_len base bytes.now }
    ensures bound { result ≤ length bytes.now }
{
    bytes
        .iter()
        .take_while(|byte| digit_value(**byte) < base)
        .count()
}

/// The number of the digits, where it is below 2^127.
pub fn number(digits: &[u8], base: u32) -> Option<u128>
    requires { 0 < base }
    ensures { SomeIff result (number_of base digits.now < 2 ^ 127) (number_of base digits.now) }
{
    let mut number: u128 = 0;
    for byte in digits {
        number = number
            .checked_mul(u128::from(base))?
            .checked_add(u128::from(digit_value(*byte)))?;
        if number >= LIMIT {
            return None;
        }
    }
    Some(number)
}

/// The character whose number the digits spell, if it is a Unicode scalar value.
pub fn scalar(digits: &[u8], base: u32) -> Option<char>
    requires { 0 < base }
    ensures { SomeIff result (IsScalar (number_of base digits.now)) (number_of base digits.now) }
{
    char::from_u32(u32::try_from(number(digits, base)?).ok()?)
}
