ghost use Rattle.std.specs.Prelude.{◌≡◌, ◌≢◌, Some, IfNone, ◌<◌, ◌≤◌, ◌+◌, ◌-◌, ◌↔◌, [], length, slice_get, option_map, option_copied, OnOk, OnErr, IfErr, IsErrAnd, IsOk, MatchResult};
ghost use Rattle.std.specs.VecDeque.{deque_len, deque_capacity};
ghost use Rattle.mg_time.specs.Time.{post_stream, done, IsAllowed};
ghost use Rattle.mg_value.specs.Payload.{Plain};
ghost use Rattle.mg_settled.specs.Prefix.{StreamPrefix, IsPrefix, empty_prefix, appended, raised, closed};
ghost use Rattle.mg_stream.specs.Queue.{StandsFor, IsLike, empty_queue, MayCome, count_of, rest_of, with_packet, raised_to, front_at, popped_at, cut_back, IsQueue};

use crate::{Refused, StreamFault};
use mg_time::Timestamp;
use mg_time::laws::done_is_greatest;
use mg_value::Packet;
use std::alloc::{AllocError, Global};
use std::collections::VecDeque;
use std::marker::Model;

// How many packets there is room for, at least, once the first one came.
const FIRST_ROOM: usize = 4;

/// The packets of a stream that wait at one input, in order (MediaPipe, Synchronization). Contracts see how many
/// packets are gone, those that wait, the bound, and for how many more there is room.
#[derive(Debug, Drop)]
pub struct Queue {
    packets: VecDeque<Packet>,
    gone: u64,
    bound: Timestamp,
}

impl Model for Queue {
    ghost use Rattle.mg_value.specs.Payload.{Plain};
    ghost use Rattle.mg_stream.specs.Queue.{Waiting, IsQueue};
    ghost use Rattle.mg_stream.specs.Codes.{waiting_code};

    ghost Value = { Waiting Plain };

    ghost coded = { waiting_code };

    ghost use Rattle.mg_stream.specs.QueueView.{queue_view};

    ghost view = { queue_view };

    ghost invariant = { λ q. IsQueue (queue_view q) };
}

impl Queue {
    /// A queue to which nothing came yet. It takes no memory.
    pub fn new(alloc: Global) -> Queue
        ensures empty { IsLike result empty_queue }
        ensures stands { StandsFor result empty_prefix }
    {
        Queue {
            packets: VecDeque::new(alloc),
            gone: 0,
            bound: Timestamp::PRE_STREAM,
        }
    }

    /// Makes room for `more` packets: that many appends take no memory. An error changes at most the room.
    pub fn reserve(&mut self, more: u32) -> Result<(), AllocError>
        ensures room { OnOk result (more ≤ self.new.spare) }
        ensures no_memory { OnErr result (self.old.spare < more) }
        ensures kept { self.old.spare ≤ self.new.spare }
        ensures unchanged { IsLike self.new self.old }
        ensures stands { (s : StreamPrefix Plain) → StandsFor self.old s → StandsFor self.new s }
    {
        self.packets.reserve(more as usize)
    }

    /// Puts a packet after those that wait, and moves the bound to what may follow it. If the packet is refused, it comes back,
    /// and the queue is as before.
    pub fn append(&mut self, packet: Packet) -> Result<(), Refused>
        ensures ok { OnOk result (IsLike self.new (with_packet self.old packet)) }
        ensures may_come { OnOk result (MayCome self.old packet.at) }
        ensures accepted { MayCome self.old packet.at → 0 < self.old.spare → IsOk result }

        // The first cause that holds is answered.
        ensures not_allowed { IsErrAnd result (λ r. r.cause ≡ StreamFault.NotAllowed) ↔ ¬ IsAllowed packet.at }
        ensures not_ascending { IsErrAnd result (λ r. r.cause ≡ StreamFault.NotAscending)
            ↔ (IsAllowed packet.at × (packet.at < self.old.bound)) }
        ensures not_alone { IsErrAnd result (λ r. r.cause ≡ StreamFault.NotAlone)
            ↔ ((self.old.bound ≤ packet.at) × (packet.at ≡ post_stream) × (0 < count_of self.old)) }
        ensures no_memory { IsErrAnd result (λ r. r.cause ≡ StreamFault.OutOfMemory) → self.old.spare ≡ 0 }

        // What a refusal leaves, and what room is left.
        ensures unchanged { OnErr result (IsLike self.new self.old) }
        ensures returned { IfErr result (λ r. r.packet ≡ packet) }
        ensures room { self.old.spare ≤ self.new.spare + 1 }
        ensures in_place { 0 < self.old.spare → OnOk result (self.new.spare + 1 ≡ self.old.spare) }
        ensures room_stays { OnErr result (self.new.spare ≡ self.old.spare) }

        ensures stands { (s : StreamPrefix Plain) → StandsFor self.old s
            → MatchResult result (λ _. StandsFor self.new (appended s packet)) (λ _. StandsFor self.new s) }
    {
        let cause = match self.cause_of(packet.at) {
            Some(cause) => cause,
            None => match make_room(&mut self.packets) {
                Ok(()) => {
                    let bound = packet.at.next_allowed();
                    self.packets.push_back_reserved(packet);
                    self.bound = bound;
                    return Ok(());
                }
                Err(_) => StreamFault::OutOfMemory,
            },
        };
        Err(Refused { packet, cause })
    }

    /// Puts a packet that may come after those that wait, and moves the bound to what may follow it. There must be room for the
    /// packet.
    #[inline(always)]
    pub fn put(&mut self, packet: Packet)
        requires may_come { MayCome self.old packet.at }
        requires room { 0 < self.old.spare }
        ensures { self.new ≡ record (with_packet self.old packet) { spare = self.old.spare - 1 } }
    {
        let bound = packet.at.next_allowed();
        self.packets.push_back_reserved(packet);
        self.bound = bound;
    }

    /// Raises the bound: no packet below it comes any more. A bound that isn't higher changes nothing.
    pub fn raise(&mut self, bound: Timestamp)
        ensures raised { self.new ≡ raised_to self.old bound }
        ensures stands { (s : StreamPrefix Plain) → StandsFor self.old s → StandsFor self.new (raised s bound) }
    {
        done_is_greatest(bound);
        if self.bound < bound {
            self.bound = bound;
        }
    }

    /// Takes back what came last: keeps the first `waiting` of the packets that wait and drops the others. Sets the bound to
    /// `bound`, where it stood then.
    pub fn cut_back(&mut self, waiting: u64, bound: Timestamp)
        requires { IsQueue (cut_back waiting bound self.old) }
        ensures { IsLike self.new (cut_back waiting bound self.old) }
    {
        self.packets.truncate(waiting as usize);
        self.bound = bound;
    }

    /// Closes the queue: no packet comes any more.
    pub fn close(&mut self)
        ensures closed { self.new ≡ record self.old { bound = done } }
        ensures stands { (s : StreamPrefix Plain) → StandsFor self.old s → StandsFor self.new (closed s) }
    {
        self.bound = Timestamp::DONE;
    }

    /// The timestamp of the first packet that waits, if one does.
    pub fn first(&self) -> Option<Timestamp>
        ensures first { result ≡ option_map (λ p. p.at) (slice_get self.now.packets 0) }
        // Of every queue: what waits, with the bound, is a prefix.
        ensures rest { IsPrefix (rest_of self.now) }
    {
        Some(self.packets.front()?.at)
    }

    /// Returns the packet at a place among those that wait, counted from 0, or `None` if fewer packets wait.
    pub fn get(&self, place: u64) -> Option<&Packet>
        ensures { option_copied result ≡ slice_get self.now.packets place }
    {
        self.packets.get(place as usize)
    }

    /// The lowest timestamp that a further packet may have.
    pub fn bound(&self) -> Timestamp
        ensures { result ≡ self.now.bound }
    {
        self.bound
    }

    /// How many packets wait.
    pub fn waiting(&self) -> u64
        ensures { result ≡ length self.now.packets }
    {
        self.packets.len() as u64
    }

    /// How many packets came, those that are gone included.
    pub fn count(&self) -> u64
        ensures { result ≡ count_of self.now }
    {
        self.gone + self.packets.len() as u64
    }

    /// Takes the first packet, if it stands at this timestamp. Otherwise changes nothing and returns `None`.
    pub fn pop_at(&mut self, at: Timestamp) -> Option<Packet>
        ensures packet { result ≡ front_at at self.old.packets }
        ensures popped { self.new ≡ popped_at at self.old }
        ensures stands { (s : StreamPrefix Plain) → StandsFor self.old s → StandsFor self.new s }
    {
        if self.first() != Some(at) {
            return None;
        }
        let packet = self.packets.pop_front();
        self.gone += 1;
        packet
    }

    /// Why a packet at this timestamp may not come, or `None` if it may.
    fn cause_of(&self, at: Timestamp) -> Option<StreamFault>
        ensures none { IfNone result (MayCome self.now at) }
        ensures not_allowed { (result ≡ Some StreamFault.NotAllowed) ↔ ¬ IsAllowed at }
        ensures not_ascending { (result ≡ Some StreamFault.NotAscending) ↔ (IsAllowed at × (at < self.now.bound)) }
        ensures not_alone { (result ≡ Some StreamFault.NotAlone)
            ↔ ((self.now.bound ≤ at) × (at ≡ post_stream) × (0 < count_of self.now)) }
        ensures no_memory { result ≢ Some StreamFault.OutOfMemory }
    {
        if !at.is_allowed() {
            Some(StreamFault::NotAllowed)
        } else if at < self.bound {
            Some(StreamFault::NotAscending)
        } else if at == Timestamp::POST_STREAM && self.count() > 0 {
            Some(StreamFault::NotAlone)
        } else {
            None
        }
    }
}

// Makes room for at least one more packet. A full queue gets room for as many more as it holds, and for `FIRST_ROOM` at least, so that
// packets are moved seldom.
fn make_room(packets: &mut VecDeque<Packet>) -> Result<(), AllocError>
    ensures ok { OnOk result (deque_len packets.new < deque_capacity packets.new) }
    ensures no_memory { OnErr result (deque_capacity packets.old ≤ deque_len packets.old) }
    ensures had { deque_len packets.old < deque_capacity packets.old → deque_capacity packets.new ≡ deque_capacity packets.old }
    ensures capacity { deque_capacity packets.old ≤ deque_capacity packets.new }
    ensures room_stays { OnErr result (deque_capacity packets.new ≡ deque_capacity packets.old) }
    ensures items { packets.new.items ≡ packets.old.items }
    ensures len { deque_len packets.new ≡ deque_len packets.old }
{
    let len = packets.len();
    if len < packets.capacity() {
        return Ok(());
    }
    packets.reserve_exact(len.max(FIRST_ROOM))
}
