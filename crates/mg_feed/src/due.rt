ghost use Rattle.std.specs.Prelude.{◌≡◌, ◌≤◌, ◌+◌, ℕ, Option, OnOk, map, vec_len, length};
ghost use Rattle.mg_settled.specs.Prefix.{appended};
ghost use Rattle.mg_feed.specs.Accepted.{stepped_at};
ghost use Rattle.mg_feed.specs.Code.Streams.{waiting, was_taken};
ghost use Rattle.mg_feed.specs.Code.Due.{packets_room, HasRoom, AllRoom, with_due};

use crate::feed_stream::FeedStream;
use crate::streams::MOST_PACKETS;
use mg_value::Packet;
use std::alloc::AllocError;

/// A packet, and the place of the input stream that it goes to, if it goes to one.
#[derive(Drop)]
pub struct Due {
    pub place: Option<u32>,
    pub packet: Packet,
}

/// Makes room in each packet's stream for as many further packets as there are in all, so that `lay` takes no memory.
pub fn make_room(streams: &mut [FeedStream], due: &[Due]) -> Result<(), AllocError>
    ensures kept { map waiting streams.new ≡ map waiting streams.old }
    ensures taken { map was_taken streams.new ≡ map was_taken streams.old }
    ensures room { OnOk result (AllRoom (length due.now) streams.new due.now) }
{
    for d in due {
        make_room_at(streams, d.place, due.len())?;
    }
    Ok(())
}

// Makes room for `packets` further packets in the stream at a place.
fn make_room_at(
    streams: &mut [FeedStream],
    place: Option<u32>,
    packets: usize,
) -> Result<(), AllocError>
    ensures kept { map waiting streams.new ≡ map waiting streams.old }
    ensures taken { map was_taken streams.new ≡ map was_taken streams.old }
    ensures room { OnOk result (HasRoom packets streams.new place) }
    ensures others { (p : Option ℕ) → HasRoom packets streams.old p → HasRoom packets streams.new p }
{
    if let Some(at) = place {
        let i = at as usize;
        if i < streams.len() {
            reserve(&mut streams[i], packets)?;
        }
    }
    Ok(())
}

// Makes room for `packets` further packets in a stream.
fn reserve(stream: &mut FeedStream, packets: usize) -> Result<(), AllocError>
    ensures kept { waiting stream.new ≡ waiting stream.old }
    ensures taken { stream.new.taken ≡ stream.old.taken }
    ensures room { OnOk result (vec_len stream.new.packets + packets ≤ packets_room stream.new) }
    ensures length { vec_len stream.new.packets ≡ vec_len stream.old.packets }
    ensures capacity { packets_room stream.old ≤ packets_room stream.new }
{
    if packets > MOST_PACKETS - stream.packets.len() {
        return Err(AllocError);
    }
    stream.packets.reserve(packets)?;
    Ok(())
}

/// Puts packets at the ends of their streams, which have room.
pub fn lay(streams: &mut [FeedStream], due: Vec<Due>)
    requires { AllRoom (vec_len due) streams.old due.items }
    ensures laid { map waiting streams.new ≡ with_due due.items (map waiting streams.old) }
    ensures taken { map was_taken streams.new ≡ map was_taken streams.old }
{
    for d in due {
        let Due { place, packet } = d;
        lay_at(streams, place, packet);
    }
}

// Puts a packet at the end of the stream at a place, which has room.
fn lay_at(streams: &mut [FeedStream], place: Option<u32>, packet: Packet)
    requires { HasRoom 1 streams.old place }
    ensures laid { map waiting streams.new ≡ stepped_at place (λ s. appended s packet) (map waiting streams.old) }
    ensures taken { map was_taken streams.new ≡ map was_taken streams.old }
    ensures room { (n : ℕ) (p : Option ℕ) → HasRoom (n + 1) streams.old p → HasRoom n streams.new p }
{
    if let Some(at) = place {
        let i = at as usize;
        if i < streams.len() {
            put(&mut streams[i], packet);
        }
    }
}

// Puts a packet at the end of a stream that has room.
fn put(stream: &mut FeedStream, packet: Packet)
    requires { vec_len stream.old.packets + 1 ≤ packets_room stream.old }
    ensures appended { waiting stream.new ≡ appended (waiting stream.old) packet }
    ensures taken { stream.new.taken ≡ stream.old.taken }
    ensures length { vec_len stream.new.packets ≡ vec_len stream.old.packets + 1 }
    ensures capacity { packets_room stream.old ≤ packets_room stream.new }
{
    let next = packet.at.next_allowed();
    let _ = stream.packets.push(packet);
    stream.bound = next;
}
