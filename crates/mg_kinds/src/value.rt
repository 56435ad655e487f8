//! What the values of options say.
ghost use Rattle.std.specs.Prelude.{◌≡◌};
ghost use Rattle.mg_text.specs.View.{value_view};
ghost use Rattle.mg_kinds.specs.Values as values;

use mg_calc::Keep;
use mg_config::{is, long_number_in_value};
use mg_text::{Scalar, TreeValue};

fn number_between(low: i64, high: i64, value: &TreeValue) -> Option<i64>
    ensures { result ≡ values.number_between low high (value_view value.now) }
{
    let n = long_number_in_value(value)?;
    if low <= n && n <= high { Some(n) } else { None }
}

/// Returns the number that a value says, if it is above 0.
pub fn positive(value: &TreeValue) -> Option<i64>
    ensures { result ≡ values.positive (value_view value.now) }
{
    number_between(1, i64::MAX, value)
}

/// Returns the number that a value says, if a timestamp in the range has it.
pub fn timestamp_number(value: &TreeValue) -> Option<i64>
    ensures { result ≡ values.timestamp_number (value_view value.now) }
{
    number_between(i64::MIN + 3, i64::MAX - 3, value)
}

/// Returns how many calls a value sets for a counting source, if it is a number from 0 to 1000000.
pub fn call_count(value: &TreeValue) -> Option<u32>
    ensures { result ≡ values.call_count (value_view value.now) }
{
    let n = number_between(0, 1_000_000, value)?;
    Some(n as u32)
}

/// Returns how many packets a value allows a limiter in flight, if it is a number from 1 to 2147483647.
pub fn flight_limit(value: &TreeValue) -> Option<u32>
    ensures { result ≡ values.flight_limit (value_view value.now) }
{
    let n = number_between(1, 2_147_483_647, value)?;
    Some(n as u32)
}

/// Returns the bytes of a value that is a word, and no bytes for every other value.
pub fn word_in(value: &TreeValue) -> &[u8]
    ensures { result.now ≡ values.word_in (value_view value.now) }
{
    match value {
        TreeValue::Scalar(Scalar::Word(text)) => text.as_bytes(),
        _ => b"",
    }
}

/// Returns which numbers IntFilterCalculator is told to keep by a value, if the value names one of the choices.
pub fn keep_in(value: &TreeValue) -> Option<Keep>
    ensures { result ≡ values.keep_in (value_view value.now) }
{
    let name = word_in(value);
    if is(name, b"EVEN") {
        Some(Keep::Even)
    } else if is(name, b"ODD") {
        Some(Keep::Odd)
    } else if is(name, b"NEGATIVE") {
        Some(Keep::Negative)
    } else if is(name, b"NON_NEGATIVE") {
        Some(Keep::NonNegative)
    } else {
        None
    }
}

/// Returns whether a value is `ASYNC`, the only thinner type that PacketThinnerCalculator has here.
pub fn is_asynchronous(value: &TreeValue) -> bool
    ensures { result ≡ values.is_asynchronous (value_view value.now) }
{
    is(word_in(value), b"ASYNC")
}
