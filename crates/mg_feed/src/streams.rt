ghost use Rattle.std.specs.Prelude.{◌≡◌, ◌≤◌, ◌<◌, ◌^◌, ◌||◌, ◌++◌, ◌+◌, ◌∷◌, [], OnOk, OnErr, map, max, unwrap_or, slice_get, vec_len, vec_capacity, length};
ghost use Rattle.mg_settled.specs.Prefix.{appended, raised, closed};
ghost use Rattle.mg_feed.specs.Accepted.{stepped, no_stream, has_some};
ghost use Rattle.mg_feed.specs.Given.{ended_streams, ended_stream};
ghost use Rattle.mg_feed.specs.View.{standings, all_taken, without_packets};
ghost use Rattle.mg_feed.specs.Code.Streams.{waiting, was_taken};
ghost use Rattle.mg_feed.specs.Code.Streams.{standing_now};

use crate::Standing;
use crate::feed_stream::FeedStream;
use mg_settled::Prefix;
use mg_time::Timestamp;
use mg_value::{BlockList, Packet};
use std::alloc::{AllocError, Global};
use std::mem;

/// The most packets that a stream holds. A packet more counts as out of memory.
pub const MOST_PACKETS: usize = (1 << 32) - 1;

/// Returns the standing of the stream at a place, or that of a closed stream if there is none.
pub fn standing_at(streams: &[FeedStream], place: u32) -> Standing
    ensures { result ≡ unwrap_or (slice_get (standings (map was_taken streams.now) (map waiting streams.now)) place) no_stream }
{
    match streams.get(place as usize) {
        Some(stream) => standing(stream),
        None => Standing {
            bound: Timestamp::DONE,
            begun: true,
        },
    }
}

// Returns the standing of a stream, by which its next packet is judged.
fn standing(stream: &FeedStream) -> Standing
    ensures { result ≡ standing_now stream.now }
{
    Standing {
        bound: stream.bound,
        begun: stream.taken || !stream.packets.is_empty(),
    }
}

/// Puts a packet at the end of the stream at a place.
pub fn append_at(streams: &mut [FeedStream], place: u32, packet: Packet) -> Result<(), AllocError>
    ensures good { OnOk result (map waiting streams.new ≡ stepped place (λ s. appended s packet) (map waiting streams.old)) }
    ensures unchanged { OnErr result (map waiting streams.new ≡ map waiting streams.old) }
    ensures taken { map was_taken streams.new ≡ map was_taken streams.old }
{
    let i = place as usize;
    if i < streams.len() {
        push_packet(&mut streams[i], packet)?;
    }
    Ok(())
}

// Puts a packet at the end of a stream.
fn push_packet(stream: &mut FeedStream, packet: Packet) -> Result<(), AllocError>
    ensures good { OnOk result (waiting stream.new ≡ appended (waiting stream.old) packet) }
    ensures unchanged { OnErr result (waiting stream.new ≡ waiting stream.old) }
    ensures taken { stream.new.taken ≡ stream.old.taken }
{
    if stream.packets.len() >= MOST_PACKETS {
        return Err(AllocError);
    }
    let next = packet.at.next_allowed();
    stream.packets.push(packet)?;
    stream.bound = next;
    Ok(())
}

/// Raises the bound of the stream at a place.
pub fn raise_at(streams: &mut [FeedStream], place: u32, bound: Timestamp)
    ensures raised { map waiting streams.new ≡ stepped place (λ s. raised s bound) (map waiting streams.old) }
    ensures taken { map was_taken streams.new ≡ map was_taken streams.old }
{
    let i = place as usize;
    if i < streams.len() {
        raise(&mut streams[i], bound);
    }
}

// Raises the bound of a stream.
fn raise(stream: &mut FeedStream, bound: Timestamp)
    ensures raised { waiting stream.new ≡ raised (waiting stream.old) bound }
    ensures taken { stream.new.taken ≡ stream.old.taken }
{
    let higher = greater(stream.bound, bound);
    stream.bound = higher;
}

/// Closes the stream at a place.
pub fn close_at(streams: &mut [FeedStream], place: u32)
    ensures closed { map waiting streams.new ≡ stepped place closed (map waiting streams.old) }
    ensures taken { map was_taken streams.new ≡ map was_taken streams.old }
{
    let i = place as usize;
    if i < streams.len() {
        streams[i].bound = Timestamp::DONE;
    }
}

// Returns the greater of two bounds.
fn greater(a: Timestamp, b: Timestamp) -> Timestamp
    ensures { result ≡ max a b }
{
    if a < b { b } else { a }
}

/// Takes the packets out of all streams, and puts a prefix for each stream into `prefixes`. A prefix has those packets and the
/// stream's bound, or Done if the input ended. `prefixes` has to be empty and to have room. The function takes no memory.
pub fn take_prefixes(
    alloc: Global,
    streams: &mut [FeedStream],
    ended: bool,
    mut prefixes: Vec<Prefix>,
) -> Vec<Prefix>
    requires empty { prefixes.items ≡ [] }
    requires room { length streams.old ≤ vec_capacity prefixes }
    ensures prefixes { result.items ≡ ended_streams ended (map waiting streams.old) }
    ensures waiting { map waiting streams.new ≡ map without_packets (map waiting streams.old) }
    ensures taken { map was_taken streams.new ≡ all_taken (map was_taken streams.old) (map waiting streams.old) }
{
    for i in 0..streams.len() {
        let prefix = take_prefix(alloc, &mut streams[i], ended);
        push_within(&mut prefixes, prefix);
    }
    prefixes
}

// Puts a prefix at the end of a list that has room for it.
fn push_within(prefixes: &mut Vec<Prefix>, prefix: Prefix)
    requires { vec_len prefixes.old < vec_capacity prefixes.old }
    ensures items { prefixes.new.items ≡ prefixes.old.items ++ prefix ∷ [] }
    ensures length { vec_len prefixes.new ≡ vec_len prefixes.old + 1 }
    ensures capacity { vec_capacity prefixes.old ≤ vec_capacity prefixes.new }
{
    let _ = prefixes.push(prefix);
}

// Takes the packets out of a stream, as a prefix with the stream's bound, or Done if the input ended.
fn take_prefix(alloc: Global, stream: &mut FeedStream, ended: bool) -> Prefix
    ensures prefix { result ≡ ended_stream ended (waiting stream.old) }
    ensures waiting { waiting stream.new ≡ without_packets (waiting stream.old) }
    ensures taken { stream.new.taken ≡ (stream.old.taken || has_some stream.old.packets.items) }
{
    let taken = stream.taken || !stream.packets.is_empty();
    let packets = mem::replace(&mut stream.packets, Vec::new(alloc));
    stream.taken = taken;
    let bound = if ended { Timestamp::DONE } else { stream.bound };
    prefix_of(packets, bound)
}

// Puts a prefix together from packets and a bound.
fn prefix_of(packets: Vec<Packet>, bound: Timestamp) -> Prefix
    requires { vec_len packets < 2 ^ 32 }
    ensures { result ≡ record { packets = packets.items; bound = bound } }
{
    match BlockList::from_vec(packets) {
        Ok(packets) => Prefix { packets, bound },
        Err(_) => unreachable!(),
    }
}
