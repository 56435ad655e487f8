ghost use Rattle.std.specs.Prelude.{◌≡◌, ◌++◌, ℕ, List, OnOk, OnErr, IfOk};
ghost use Rattle.serde_json.specs.Data.{string};
ghost use Rattle.serde_json.specs.View.{view};
ghost use Rattle.serde_json.specs.Written.{compact_text};
ghost use Rattle.mg_feed.specs.Output.{line_text, time_data};
ghost use Rattle.mg_feed.specs.Code.LineHead.{line_head, line_tail};

use crate::payload_text::{push_number, push_payload};
use crate::{push_bytes, whole_or_none};
use mg_time::Timestamp;
use mg_value::{MgText, Packet};
use serde_json::Value;
use std::alloc::{AllocError, Global};
use std::marker::Model;

/// Writes packets of one stream as lines. What all these lines begin with is made once. Contracts see a writer as its stream's name.
#[derive(Drop)]
pub struct LineWriter {
    name: MgText,
    head: Vec<u8>,
}

impl Model for LineWriter {
    ghost use Rattle.std.specs.Prelude.{◌≡◌, ℕ, List};
    ghost use Rattle.mg_feed.specs.Code.LineHead.{line_head};

    ghost Value = { List ℕ };

    ghost view = { λ w. w.name };

    ghost invariant = { λ w. w.head.items ≡ line_head w.name };
}

impl LineWriter {
    /// Makes a writer for the stream of a name.
    pub fn new(alloc: Global, name: &MgText) -> Result<LineWriter, AllocError>
        ensures { IfOk result (λ writer. writer ≡ name.now) }
    {
        let copy = name.try_clone(alloc)?;
        let head = head_of(alloc, name)?;
        Ok(LineWriter { name: copy, head })
    }

    /// Writes the line of a packet at the end of a text. After an `Err` the text is as it was.
    pub fn push_line(&self, text: &mut Vec<u8>, packet: &Packet) -> Result<(), AllocError>
        ensures line { OnOk result (text.new.items ≡ text.old.items ++ line_text self.now packet.now) }
        ensures unchanged { OnErr result (text.new.items ≡ text.old.items) }
    {
        let len = text.len();
        let pushed = push_with_head(&self.head, text, packet);
        whole_or_none(text, len, pushed)
    }
}

/// Returns the line of a packet of the stream with a name.
pub fn write_line(alloc: Global, name: &MgText, packet: &Packet) -> Result<Vec<u8>, AllocError>
    ensures { IfOk result (λ text. text.items ≡ line_text name.now packet.now) }
{
    let writer = LineWriter::new(alloc, name)?;
    let mut text = Vec::new(alloc);
    writer.push_line(&mut text, packet)?;
    Ok(text)
}

// Returns what the lines of a stream begin with, up to the timestamp.
fn head_of(alloc: Global, name: &MgText) -> Result<Vec<u8>, AllocError>
    ensures { IfOk result (λ head. head.items ≡ line_head name.now) }
{
    let quoted = text_value(alloc, name)?.to_string(alloc)?;
    let mut head = Vec::new(alloc);
    push_bytes(&mut head, b"{\"stream\":")?;
    push_bytes(&mut head, quoted.as_bytes())?;
    push_bytes(&mut head, b",\"ts\":")?;
    Ok(head)
}

// Returns a name as a JSON text.
fn text_value(alloc: Global, name: &MgText) -> Result<Value, AllocError>
    ensures { IfOk result (λ value. view value ≡ string name.now) }
{
    Ok(Value::String(String::from_str(alloc, name.as_str())?))
}

// Writes a line that begins with `head` at the end of a text. After an `Err` a part of the line may stand there.
fn push_with_head(head: &[u8], text: &mut Vec<u8>, packet: &Packet) -> Result<(), AllocError>
    ensures line { OnOk result (text.new.items ≡ text.old.items ++ (head.now ++ line_tail packet.now)) }
    ensures part { OnErr result ((part : List ℕ) × (text.new.items ≡ text.old.items ++ part)) }
{
    push_bytes(text, head)?;
    push_time(text, packet.at)?;
    push_bytes(text, b",\"value\":")?;
    push_payload(text, &packet.payload)?;
    push_bytes(text, b"}\n")?;
    Ok(())
}

// Puts a timestamp as JSON at the end of a text.
fn push_time(text: &mut Vec<u8>, at: Timestamp) -> Result<(), AllocError>
    ensures put { OnOk result (text.new.items ≡ text.old.items ++ compact_text (time_data at)) }
    ensures unchanged { OnErr result (text.new.items ≡ text.old.items) }
{
    if at == Timestamp::PRE_STREAM {
        push_bytes(text, b"\"PreStream\"")?;
    } else if at == Timestamp::POST_STREAM {
        push_bytes(text, b"\"PostStream\"")?;
    } else {
        push_number(text, at.raw())?;
    }
    Ok(())
}
