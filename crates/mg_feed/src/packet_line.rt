ghost use Rattle.std.specs.Prelude.{◌≡◌, [], ◌∷◌, Some, IfSome, IsTrue, codes, option_and_then};
ghost use Rattle.json.specs.Token.{begin_object, end_object, key, string as text_token, number as number_token};
ghost use Rattle.serde_json.specs.Data.{number};
ghost use Rattle.serde_json.specs.View.{view, number_view};
ghost use Rattle.mg_feed.specs.Form.{packets, form_of, json_value};
ghost use Rattle.mg_feed.specs.Code.PacketLines.{IsPacketLine, NumberAt, ValueAt};

use crate::tokens::{MAX_DEPTH, value_by_tokens};
use crate::whole::whole_by;
use json::{Reader, Scratch, Token};
use serde_json::{Number, Value};
use std::alloc::Global;

/// A packet line of the usual form: an object with the keys `stream`, `ts` (a whole number) and `value`, in this order.
pub struct PacketLine<'a> {
    pub stream: &'a str,
    pub time: Value,
    pub value: Value,
}

// Written out, so that a proof about code that drops a line needn't ask which values it has.
impl<'a> Drop for PacketLine<'a> {
    fn drop(self) {
        let PacketLine {
            stream: _,
            time,
            value,
        } = self;
        drop(time);
        drop(value);
    }
}

/// Reads a packet line of the usual form from its tokens, without a JSON value of the whole line. Returns None for any other line,
/// and if memory runs out.
pub fn packet_line_of<'a>(
    alloc: Global,
    text: &'a [u8],
    scratch: &'a mut Scratch,
) -> Option<PacketLine<'a>>
    ensures { IfSome result (λ f. option_and_then form_of (json_value text.now)
        ≡ Some (packets (view f.time) (record { name = f.stream.now; value = view f.value } ∷ []))) }
{
    let Ok(text) = simdutf8::compat::from_utf8(text) else {
        return None;
    };
    let Ok(mut reader) = Reader::new(text, scratch) else {
        return None;
    };
    let packet_line = packet_line_by(alloc, &mut reader)?;
    Some(packet_line)
}

// Reads a whole line of the usual form from its tokens.
fn packet_line_by<'a>(alloc: Global, reader: &mut Reader<'a>) -> Option<PacketLine<'a>>
    ensures { IfSome result (λ f. IsPacketLine reader.old f.stream.now (view f.time) (view f.value)) }
{
    let stream = stream_by(reader)?;
    let time = time_by(reader)?;
    let value = value_by(alloc, reader)?;
    if !ends(reader) {
        return None;
    }
    Some(PacketLine {
        stream,
        time: Value::from(time),
        value,
    })
}

// Reads the beginning of an object and its first member, the stream's name.
fn stream_by<'a>(reader: &mut Reader<'a>) -> Option<&'a str>
    ensures { IfSome result (λ s. reader.old ≡ begin_object ∷ key (codes "stream") ∷ text_token s.now ∷ reader.new) }
{
    if !begins(reader) || !has_key(reader, "stream") {
        return None;
    }
    text_by(reader)
}

// Reads the key `ts` and the timestamp after it, a whole number.
fn time_by(reader: &mut Reader<'_>) -> Option<Number>
    ensures { IfSome result (λ n. NumberAt (codes "ts") reader.old (number (number_view n)) reader.new) }
{
    if !has_key(reader, "ts") {
        return None;
    }
    let text = number_by(reader)?;
    whole_by(text)
}

// Reads the key `value` and the value after it. The value lies in the line's object, so it may be one level less deep.
fn value_by(alloc: Global, reader: &mut Reader<'_>) -> Option<Value>
    ensures { IfSome result (λ v. ValueAt (codes "value") reader.old (view v) reader.new) }
{
    if !has_key(reader, "value") {
        return None;
    }
    value_by_tokens(alloc, reader, MAX_DEPTH - 1)
}

// Returns whether the next token begins an object.
fn begins(reader: &mut Reader<'_>) -> bool
    ensures { IsTrue result → reader.old ≡ begin_object ∷ reader.new }
{
    matches!(reader.next(), Some(Token::BeginObject))
}

// Returns whether the next token ends an object and is the last token.
fn ends(reader: &mut Reader<'_>) -> bool
    ensures { IsTrue result → reader.old ≡ end_object ∷ [] }
{
    matches!(reader.next(), Some(Token::EndObject)) && reader.next().is_none()
}

// Returns whether the next token is a key of this name.
fn has_key(reader: &mut Reader<'_>, name: &str) -> bool
    ensures { IsTrue result → reader.old ≡ key name.now ∷ reader.new }
{
    match reader.next() {
        Some(Token::Key(found)) => found == name,
        _ => false,
    }
}

// Reads the next token, if it is a text.
fn text_by<'a>(reader: &mut Reader<'a>) -> Option<&'a str>
    ensures { IfSome result (λ s. reader.old ≡ text_token s.now ∷ reader.new) }
{
    match reader.next() {
        Some(Token::String(text)) => Some(text),
        _ => None,
    }
}

// Reads the next token, if it is a number, and returns the number's text.
fn number_by<'a>(reader: &mut Reader<'a>) -> Option<&'a str>
    ensures { IfSome result (λ s. reader.old ≡ number_token s.now ∷ reader.new) }
{
    match reader.next() {
        Some(Token::Number(text)) => Some(text),
        _ => None,
    }
}
