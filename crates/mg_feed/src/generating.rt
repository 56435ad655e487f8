ghost use Rattle.std.specs.Prelude.{◌≡◌, ◌<◌, ◌^◌, ◌+◌, ◌*◌, Some, IfOk, map, replicate, pos, decimal, codes, vec_len, length};
ghost use Rattle.mg_value.specs.Payload.{plain, int, text, items, entries};
ghost use Rattle.mg_value.specs.Plain.{item, no_items, entry, no_entries};
ghost use Rattle.mg_calc.specs.Given.{given};
ghost use Rattle.mg_feed.specs.Generated.{generated_value};

use crate::input_buffer::InputBuffer;
use itoa::Buffer;
use mg_time::Timestamp;
use mg_value::{Entry, Kind, MgText, Packet, Payload, PayloadList, RecordList};
use std::alloc::{AllocError, Global};
use std::sync::Arc;

impl InputBuffer {
    ghost use Rattle.std.specs.Prelude.{◌≡◌, ◌<◌, ◌≤◌, ◌%◌, List, OnOk, length};
    ghost use Rattle.mg_value.specs.Payload.{Plain};
    ghost use Rattle.mg_value.specs.Packet.{Stamped};
    ghost use Rattle.mg_settled.specs.Prefix.{appended};
    ghost use Rattle.mg_feed.specs.Accepted.{stepped};
    ghost use Rattle.mg_feed.specs.Generated.{generated_packet, generated_sides};
    ghost use Rattle.mg_feed.specs.Code.MadeSoFar.{AreMade};
    ghost use Rattle.mg_feed.specs.Seen.{input_buffer};

    /// Makes the packets from number `from` up to `to`, without it, and puts them at the ends of their streams.
    pub fn make_packets(&mut self, alloc: Global, from: u32, to: u32) -> Result<(), AllocError>
        requires { from ≤ to }
        ensures made { OnOk result ((gone : List (List (Stamped Plain))) → AreMade gone from (input_buffer self.old) → AreMade gone to (input_buffer self.new)) }
        ensures sides { OnOk result ((input_buffer self.new).given.sides ≡ (input_buffer self.old).given.sides) }
        ensures graph { (input_buffer self.new).graph ≡ (input_buffer self.old).graph }
    {
        let inputs = self.graph.kinds.len();
        if inputs == 0 {
            return Ok(());
        }
        for i in from..to {
            self.make_packet(alloc, i)?;
        }
        Ok(())
    }

    // Makes packet `i`, and puts it at the end of its stream.
    fn make_packet(&mut self, alloc: Global, i: u32) -> Result<(), AllocError>
        requires { 0 < length (input_buffer self.old).graph.kinds }
        ensures streams { OnOk result ((input_buffer self.new).given.streams
            ≡ stepped (i % length (input_buffer self.old).graph.kinds) (λ s. appended s (generated_packet (input_buffer self.old).graph.kinds i)) (input_buffer self.old).given.streams) }
        ensures sides { OnOk result ((input_buffer self.new).given.sides ≡ (input_buffer self.old).given.sides) }
        ensures graph { (input_buffer self.new).graph ≡ (input_buffer self.old).graph }
    {
        let count = self.graph.kinds.len() as u64;
        let number = u64::from(i);
        let place = (number % count) as u32;
        let round = (number / count) as u32;
        let packet = packet_of(alloc, self.kind(place), i, round)?;
        self.append(place, packet)?;
        Ok(())
    }

    /// Gives the number 1 as each side packet of the graph.
    pub fn give_sides(&mut self, alloc: Global) -> Result<(), AllocError>
        ensures sides { OnOk result ((input_buffer self.new).given.sides ≡ generated_sides (length (input_buffer self.old).graph.sides)) }
        ensures streams { OnOk result ((input_buffer self.new).given.streams ≡ (input_buffer self.old).given.streams) }
        ensures graph { OnOk result ((input_buffer self.new).graph ≡ (input_buffer self.old).graph) }
    {
        self.sides = ones(alloc, self.graph.sides.len())?;
        Ok(())
    }
}

// Returns `count` side packets, each the number 1.
fn ones(alloc: Global, count: usize) -> Result<Vec<Option<Arc<Payload>>>, AllocError>
    ensures sides { IfOk result (λ sides. map given sides.items ≡ replicate count (Some (int (pos 1)))) }
    ensures few { IfOk result (λ sides. vec_len sides < 2 ^ 32) }
{
    if count >= 1 << 32 {
        return Err(AllocError);
    }
    let mut sides = Vec::with_capacity(alloc, count)?;
    for _ in 0..count {
        sides.push(Some(Arc::new(alloc, Payload::Int(1))?))?;
    }
    Ok(sides)
}

// Makes packet `number`. `round` packets came to its stream before it.
fn packet_of(alloc: Global, kind: Kind, number: u32, round: u32) -> Result<Packet, AllocError>
    ensures { IfOk result (λ p. p ≡ record { at = 10 * round + 2 ^ 63; value = generated_value kind number round }) }
{
    let at = time_of(round);
    let value = value_of(alloc, kind, number, round)?;
    let payload = Arc::new(alloc, value)?;
    Ok(Packet { at, payload })
}

// Returns the timestamp 10 * `round`.
fn time_of(round: u32) -> Timestamp
    ensures { result ≡ 10 * round + 2 ^ 63 }
{
    match Timestamp::of_range(10 * i64::from(round)) {
        Some(at) => at,
        None => unreachable!(),
    }
}

// Makes the value of packet `number` for a stream of a kind.
fn value_of(alloc: Global, kind: Kind, number: u32, round: u32) -> Result<Payload, AllocError>
    ensures { IfOk result (λ value. plain value ≡ generated_value kind number round) }
{
    match kind {
        Kind::Any | Kind::Int => Ok(Payload::Int(i64::from(number))),
        Kind::Flag => Ok(Payload::Flag(round % 2 == 0)),
        Kind::Text => digits_of(alloc, number),
        Kind::Items => items_of(alloc, number),
        Kind::Record => record_of(alloc, number),
    }
}

// Makes a text of the digits of a number.
fn digits_of(alloc: Global, number: u32) -> Result<Payload, AllocError>
    ensures { IfOk result (λ value. plain value ≡ text (decimal number)) }
{
    let mut buffer = Buffer::new();
    Ok(Payload::Text(MgText::new(alloc, buffer.format(number))?))
}

// Makes a list whose only item is a number.
fn items_of(alloc: Global, number: u32) -> Result<Payload, AllocError>
    ensures { IfOk result (λ value. plain value ≡ items (item (int (pos number)) no_items)) }
{
    let mut values = Vec::new(alloc);
    values.push(Payload::Int(i64::from(number)))?;
    Ok(Payload::Items(PayloadList::from_vec(values)?))
}

// Makes a record with a number under the key `n`.
fn record_of(alloc: Global, number: u32) -> Result<Payload, AllocError>
    ensures { IfOk result (λ value. plain value ≡ entries (entry (codes "n") (int (pos number)) no_entries)) }
{
    let key = MgText::new(alloc, "n")?;
    let value = Payload::Int(i64::from(number));
    let mut entries = Vec::new(alloc);
    entries.push(Entry { key, value })?;
    Ok(Payload::Record(RecordList::from_vec(entries)?))
}
