ghost use Rattle.std.specs.Prelude.{◌≡◌, codes, option_map};
ghost use Rattle.serde_json.specs.View.{view};
ghost use Rattle.serde_json.specs.Find.{get};
ghost use Rattle.mg_feed.specs.Form.{form_of, member_count, packet_form, bound_form, close_form, side_form, packets_form, two_form, text_at, flag_at, members_at};
ghost use Rattle.mg_feed.specs.Code.Forms.{form_view};

use serde_json::{Map, Value};

/// What a line says, in one of its five forms. Names, times and values are parts of the line's JSON value.
pub enum Form<'a> {
    Packet(&'a str, &'a Value, &'a Value),
    Packets(&'a Value, &'a Map<String, Value>),
    Bound(&'a str, &'a Value),
    Close(&'a str),
    Side(&'a str, &'a Value),
}

/// Returns the form of a line's JSON value, or None if it has none of the five forms.
pub fn form_by(value: &Value) -> Option<Form<'_>>
    ensures { option_map form_view result ≡ form_of (view value.now) }
{
    match count_of(value) {
        3 => packet_by(value),
        2 => two_by(value),
        _ => None,
    }
}

// Returns how many members an object has, and 0 for any other value.
fn count_of(value: &Value) -> usize
    ensures { result ≡ member_count (view value.now) }
{
    match value.as_object() {
        Some(members) => members.len(),
        None => 0,
    }
}

// Reads an object of three members as a packet.
fn packet_by(value: &Value) -> Option<Form<'_>>
    ensures { option_map form_view result
        ≡ packet_form (text_at (codes "stream") (view value.now)) (get (codes "ts") (view value.now)) (get (codes "value") (view value.now)) }
{
    let stream = value.get("stream").and_then(Value::as_str)?;
    let time = value.get("ts")?;
    let payload = value.get("value")?;
    Some(Form::Packet(stream, time, payload))
}

// Reads an object of two members as a bound, a close, a side packet or packets of several streams.
fn two_by(value: &Value) -> Option<Form<'_>>
    ensures { option_map form_view result ≡ two_form (view value.now) }
{
    if let Some(form) = bound_by(value) {
        return Some(form);
    }
    if let Some(form) = close_by(value) {
        return Some(form);
    }
    if let Some(form) = side_by(value) {
        return Some(form);
    }
    packets_by(value)
}

fn bound_by(value: &Value) -> Option<Form<'_>>
    ensures { option_map form_view result ≡ bound_form (text_at (codes "stream") (view value.now)) (get (codes "bound") (view value.now)) }
{
    let stream = value.get("stream").and_then(Value::as_str)?;
    let time = value.get("bound")?;
    Some(Form::Bound(stream, time))
}

fn close_by(value: &Value) -> Option<Form<'_>>
    ensures { option_map form_view result ≡ close_form (text_at (codes "stream") (view value.now)) (flag_at (codes "close") (view value.now)) }
{
    let stream = value.get("stream").and_then(Value::as_str)?;
    if value.get("close").and_then(Value::as_bool)? {
        Some(Form::Close(stream))
    } else {
        None
    }
}

fn side_by(value: &Value) -> Option<Form<'_>>
    ensures { option_map form_view result ≡ side_form (text_at (codes "side") (view value.now)) (get (codes "value") (view value.now)) }
{
    let side = value.get("side").and_then(Value::as_str)?;
    let payload = value.get("value")?;
    Some(Form::Side(side, payload))
}

fn packets_by(value: &Value) -> Option<Form<'_>>
    ensures { option_map form_view result ≡ packets_form (get (codes "at") (view value.now)) (members_at (codes "packets") (view value.now)) }
{
    let time = value.get("at")?;
    let packets = value.get("packets")?.as_object()?;
    if packets.is_empty() {
        None
    } else {
        Some(Form::Packets(time, packets))
    }
}
