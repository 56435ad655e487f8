ghost use Rattle.std.specs.Prelude.{◌≡◌};
ghost use Rattle.serde_json.specs.View.{view};
ghost use Rattle.mg_feed.specs.Form.{time_of, time_named};

use mg_time::Timestamp;
use serde_json::Value;

/// Returns the timestamp that a JSON value says, if a packet may carry it: a whole number of the range, `PreStream` or
/// `PostStream`.
pub fn time_by(value: &Value) -> Option<Timestamp>
    ensures { result ≡ time_of (view value.now) }
{
    match value {
        Value::Number(number) => Timestamp::of_range(number.as_i64()?),
        Value::String(text) => time_by_name(text.as_str()),
        _ => None,
    }
}

// Returns the timestamp with this name, `PreStream` or `PostStream`.
fn time_by_name(text: &str) -> Option<Timestamp>
    ensures { result ≡ time_named text.now }
{
    if text == "PreStream" {
        Some(Timestamp::PRE_STREAM)
    } else if text == "PostStream" {
        Some(Timestamp::POST_STREAM)
    } else {
        None
    }
}
