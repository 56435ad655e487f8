//! Numbers and truth values by their spelling (Protocol Buffers text format, language specification: numeric
//! literals, and the values of Boolean fields).
ghost use Rattle.std.specs.Prelude.{◌≡◌, ◌<◌, ◌≤◌, ◌*◌, ◌+◌, IfSome};
ghost use Rattle.mg_config.specs.Number as number;

use crate::word::is;

/// Returns the value of a digit in a base of at most 16, or none if the byte is no such digit.
fn digit_of(byte: u8, base: u32) -> Option<u32>
    requires { base ≤ 16 }
    ensures value { result ≡ number.digit_of base byte }
    ensures bound { IfSome result (λ value. value < 16) }
{
    let value = match byte {
        b'0'..=b'9' => byte - b'0',
        b'A'..=b'F' => byte - b'A' + 10,
        b'a'..=b'f' => byte - b'a' + 10,
        _ => 16,
    };
    let value = u32::from(value);
    if value < base { Some(value) } else { None }
}

/// Returns the number that `value` is with one more digit after it.
fn appended(base: u32, value: u64, digit: u32) -> u128
    requires base { base ≤ 16 }
    requires digit { digit < 16 }
    ensures { result ≡ value * base + digit }
{
    u128::from(value) * u128::from(base) + u128::from(digit)
}

/// Returns the number that digits spell in a base. Returns none if there are no digits, a digit isn't of the base, or
/// the number is above `most`.
fn value_in(base: u32, most: u64, digits: &[u8]) -> Option<u64>
    requires base { base ≤ 16 }
    requires some { 1 ≤ base }
    ensures value { result ≡ number.value_in base most digits.now }
    ensures bound { IfSome result (λ value. value ≤ most) }
{
    if digits.is_empty() {
        return None;
    }
    let mut value: u64 = 0;
    for byte in digits {
        let digit = digit_of(*byte, base)?;
        let more = appended(base, value, digit);
        if more > u128::from(most) {
            return None;
        }
        value = more as u64;
    }
    Some(value)
}

/// Returns the number that a text without a sign spells, or none if it spells no number up to `most`. The number is
/// decimal, hexadecimal after `0x` or `0X`, or octal after `0`.
fn magnitude(most: u64, text: &[u8]) -> Option<u64>
    ensures value { result ≡ number.magnitude most text.now }
    ensures bound { IfSome result (λ value. value ≤ most) }
{
    match text {
        [b'0'] => Some(0),
        [b'0', b'x' | b'X', digits @ ..] => value_in(16, most, digits),
        [b'0', digits @ ..] => value_in(8, most, digits),
        _ => value_in(10, most, text),
    }
}

/// Returns the number that a text spells, or none if it spells none in the range of 32 signed bits.
pub fn number_of(text: &[u8]) -> Option<i32>
    ensures { result ≡ number.number_of text.now }
{
    match text {
        [b'-', rest @ ..] => {
            let size = magnitude(1 << 31, rest)?;
            Some((-(size as i64)) as i32)
        }
        _ => {
            let size = magnitude((1 << 31) - 1, text)?;
            Some(size as i32)
        }
    }
}

/// Returns the number that a text spells, or none if it spells none in the range of 64 signed bits.
pub fn long_number_of(text: &[u8]) -> Option<i64>
    ensures { result ≡ number.long_number_of text.now }
{
    match text {
        [b'-', rest @ ..] => {
            let size = magnitude(1 << 63, rest)?;
            Some((-i128::from(size)) as i64)
        }
        _ => {
            let size = magnitude((1 << 63) - 1, text)?;
            Some(size as i64)
        }
    }
}

/// Returns the truth value that a word spells: `true`, `True`, `t`, `false`, `False` or `f`.
pub fn truth_of_word(text: &[u8]) -> Option<bool>
    ensures { result ≡ number.truth_of_word text.now }
{
    if is(text, b"true") || is(text, b"True") || is(text, b"t") {
        Some(true)
    } else if is(text, b"false") || is(text, b"False") || is(text, b"f") {
        Some(false)
    } else {
        None
    }
}

/// Returns the truth value that a number spells: `1` or `0`.
pub fn truth_of_number(text: &[u8]) -> Option<bool>
    ensures { result ≡ number.truth_of_number text.now }
{
    match text {
        b"1" => Some(true),
        b"0" => Some(false),
        _ => None,
    }
}
