//! Timestamps and packets in the tables of tests: a timestamp as `print_text` writes it, a payload as its number.

use mg_settled::InputSet;
use mg_time::Timestamp;
use mg_value::{Packet, Payload};
use std::alloc::Global;
use std::sync::Arc;
use std::test::Fail;

/// Returns the timestamp with this text, which may be a special value that no packet carries.
pub fn time_of(alloc: Global, text: &str) -> Result<Timestamp, Fail> {
    if let Some(time) = Timestamp::read_text(text.as_bytes()) {
        return Ok(time);
    }
    for time in Timestamp::constants() {
        if text_of(alloc, time)?.as_str() == text {
            return Ok(time);
        }
    }
    Err(Fail::from("no timestamp"))
}

/// Returns the text of a timestamp.
pub fn text_of(alloc: Global, time: Timestamp) -> Result<String, Fail> {
    Ok(String::from_utf8(time.print_text(alloc)?)?)
}

// Makes a packet from the texts of a timestamp and of a number.
fn packet_with(alloc: Global, at: &str, number: &str) -> Result<Packet, Fail> {
    Ok(Packet {
        at: time_of(alloc, at)?,
        payload: Arc::new(alloc, Payload::Int(number.parse::<i64>()?))?,
    })
}

/// Reads a packet from a timestamp and a number with a blank between them.
pub fn packet_of(alloc: Global, text: &str) -> Result<Packet, Fail> {
    let (at, number) = text.split_once(' ').ok_or("no packet")?;
    packet_with(alloc, at, number)
}

/// Reads a packet from a number and a timestamp with `@` between them.
pub fn packet_at(alloc: Global, text: &str) -> Result<Packet, Fail> {
    let (number, at) = text.split_once('@').ok_or("no packet")?;
    packet_with(alloc, at, number)
}

/// Writes the number and the timestamp of a packet, as `packet_at` reads them. A payload that is no number is written as -2^63.
pub fn show_packet_at(alloc: Global, packet: &Packet) -> Result<String, Fail> {
    let at = text_of(alloc, packet.at)?;
    Ok(format!(in alloc; "{}@{}", number_of(packet), at.as_str())?)
}

// Writes the packet at a port, or `-` where there is none.
fn show_place(alloc: Global, place: Option<&Packet>) -> Result<String, Fail> {
    match place {
        None => Ok(String::from_str(alloc, "-")?),
        Some(packet) => show_packet_at(alloc, packet),
    }
}

/// Writes the packets at the ports of a set as `show_packet_at` does, with blanks between them. A port without a packet is written
/// as `-`.
pub fn show_set_at(alloc: Global, set: &InputSet) -> Result<String, Fail> {
    let mut shown = String::new(alloc);
    for port in 0..set.len() {
        if port > 0 {
            shown.push_str(" ")?;
        }
        shown.push_str(show_place(alloc, set.get(port))?.as_str())?;
    }
    Ok(shown)
}

fn number_of(packet: &Packet) -> i64 {
    match &*packet.payload {
        Payload::Int(number) => *number,
        _ => i64::MIN,
    }
}
