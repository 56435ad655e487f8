ghost use Rattle.std.specs.Prelude.{◌≡◌, ◌≢◌, ℕ, Some, IfNone, ◌<◌, ◌≤◌, ◌+◌, ◌-◌, ◌^◌, ◌↔◌, [], ◌∷◌, length, replicate, min, max, slice_get, option_map, option_copied, OnOk, OnErr, IfOk, IfErr, IsErrAnd, IsOk, MatchResult};
ghost use Rattle.mg_time.specs.Time.{post_stream, done, IsAllowed};
ghost use Rattle.mg_value.specs.Payload.{Plain};
ghost use Rattle.mg_settled.specs.Prefix.{StreamPrefix, IsPrefix, appended, raised, closed};
ghost use Rattle.mg_stream.specs.Queue.{StandsFor, MayCome, count_of, rest_of, with_packet, raised_to, front_at, popped, popped_at};
ghost use Rattle.mg_stream.specs.Pool.{empty_backlog, queue_at, with_queue};

use crate::chain::{Chain, Entry, pop_first, push_last};
use crate::{Refused, StreamFault, Waits};
use mg_time::Timestamp;
use mg_time::laws::done_is_greatest;
use mg_value::Packet;
use slab::Slab;
use std::alloc::{AllocError, Global};
use std::marker::Model;

/// The packets that wait at all inputs of one node, in one block of memory (MediaPipe, Synchronization). The place of a packet that goes is
/// free for the next one at any port. Contracts see a queue per port, and for how many more packets there is room.
#[derive(Debug, Drop)]
pub struct Pool {
    entries: Slab<Entry>,
    chains: Vec<Chain>,
    // How many entries there may be before more memory is asked for.
    room: u32,
}

impl Model for Pool {
    ghost use Rattle.mg_value.specs.Payload.{Plain};
    ghost use Rattle.mg_stream.specs.Pool.{Pooled};
    ghost use Rattle.mg_stream.specs.PoolCodes.{pool_code};

    ghost Value = { Pooled Plain };

    ghost coded = { pool_code };

    ghost use Rattle.mg_stream.specs.PoolView.{pool_view, IsPool};

    ghost view = { pool_view };

    ghost invariant = { IsPool };
}

impl Pool {
    /// A pool of `ports` ports to which nothing came yet, without room for packets.
    pub fn new(alloc: Global, ports: u32) -> Result<Pool, AllocError>
        ensures { IfOk result (λ p. p ≡ record { ports = replicate ports empty_backlog; spare = 0 }) }
    {
        let mut chains = Vec::with_capacity(alloc, ports as usize)?;
        for _ in 0..ports {
            chains.push(Chain::EMPTY)?;
        }
        Ok(Pool {
            entries: Slab::new(alloc),
            chains,
            room: 0,
        })
    }

    /// How many ports there are.
    pub fn ports(&self) -> u32
        ensures ports { result ≡ length self.now.ports }
        // Of every pool: what waits at a port, with the bound, is a prefix.
        ensures rests { (port : ℕ) → IsPrefix (rest_of (queue_at self.now port)) }
    {
        self.chains.len() as u32
    }

    /// Makes room for `more` packets: that many appends take no memory, at whatever ports they come. On an error the pool is as before.
    pub fn reserve(&mut self, more: u32) -> Result<(), AllocError>
        ensures room { OnOk result (more ≤ self.new.spare) }
        ensures no_memory { OnErr result (self.old.spare < more) }
        ensures kept { self.old.spare ≤ self.new.spare }
        ensures had { more ≤ self.old.spare → self.new ≡ self.old }
        ensures ports { self.new.ports ≡ self.old.ports }
        ensures unchanged { OnErr result (self.new ≡ self.old) }
    {
        if more <= self.room - self.entries.len() as u32 {
            return Ok(());
        }
        if more > u32::MAX - self.entries.len() as u32 {
            return Err(AllocError);
        }
        self.entries.reserve(more as usize)?;
        self.room = capped(self.entries.capacity());
        Ok(())
    }

    /// Puts a packet after those that wait at a port, and moves the bound to what may follow it. If the packet is refused, it
    /// comes back, and the pool is as before.
    pub fn append(&mut self, port: u32, packet: Packet) -> Result<(), Refused>
        requires { port < length self.old.ports }
        ensures ok { OnOk result (self.new ≡ with_queue self.old port (record (with_packet (queue_at self.old port) packet) { spare = self.new.spare })) }
        ensures may_come { OnOk result (MayCome (queue_at self.old port) packet.at) }
        ensures accepted { MayCome (queue_at self.old port) packet.at → 0 < self.old.spare → IsOk result }

        // The first cause that holds is answered.
        ensures not_allowed { IsErrAnd result (λ r. r.cause ≡ StreamFault.NotAllowed) ↔ ¬ IsAllowed packet.at }
        ensures not_ascending { IsErrAnd result (λ r. r.cause ≡ StreamFault.NotAscending)
            ↔ (IsAllowed packet.at × (packet.at < (queue_at self.old port).bound)) }
        ensures not_alone { IsErrAnd result (λ r. r.cause ≡ StreamFault.NotAlone)
            ↔ (((queue_at self.old port).bound ≤ packet.at) × (packet.at ≡ post_stream) × (0 < count_of (queue_at self.old port))) }
        ensures no_memory { IsErrAnd result (λ r. r.cause ≡ StreamFault.OutOfMemory) → self.old.spare ≡ 0 }

        // What a refusal leaves, and what room is left.
        ensures unchanged { OnErr result (self.new ≡ self.old) }
        ensures returned { IfErr result (λ r. r.packet ≡ packet) }
        ensures room { self.old.spare ≤ self.new.spare + 1 }
        ensures in_place { 0 < self.old.spare → OnOk result (self.new.spare + 1 ≡ self.old.spare) }

        ensures stands { (s : StreamPrefix Plain) → StandsFor (queue_at self.old port) s
            → MatchResult result (λ _. StandsFor (queue_at self.new port) (appended s packet)) (λ _. StandsFor (queue_at self.new port) s) }
    {
        let cause = match self.cause_of(port, packet.at) {
            Some(cause) => cause,
            None => match self.reserve(1) {
                Ok(()) => {
                    self.put(port, packet);
                    return Ok(());
                }
                Err(_) => StreamFault::OutOfMemory,
            },
        };
        Err(Refused { packet, cause })
    }

    /// Puts a packet that may come after those that wait at a port, and moves the bound to what may follow it. If there is no
    /// memory, the packet is dropped, and the pool is as before.
    pub fn bring(&mut self, port: u32, packet: Packet) -> Result<(), AllocError>
        requires port { port < length self.old.ports }
        requires may_come { MayCome (queue_at self.old port) packet.at }
        ensures ok { OnOk result (self.new ≡ with_queue self.old port (record (with_packet (queue_at self.old port) packet) { spare = self.new.spare })) }
        ensures unchanged { OnErr result (self.new ≡ self.old) }
        ensures no_memory { OnErr result (self.old.spare ≡ 0) }
    {
        self.reserve(1)?;
        self.put(port, packet);
        Ok(())
    }

    /// Raises the bound of a port: no packet below it comes there any more. A bound that isn't higher changes nothing.
    pub fn raise(&mut self, port: u32, bound: Timestamp)
        requires { port < length self.old.ports }
        ensures raised { self.new ≡ with_queue self.old port (raised_to (queue_at self.old port) bound) }
        ensures stands { (s : StreamPrefix Plain) → StandsFor (queue_at self.old port) s → StandsFor (queue_at self.new port) (raised s bound) }
    {
        done_is_greatest(bound);
        let chain = self.chains[port as usize];
        self.chains[port as usize] = Chain {
            bound: later(chain.bound, bound),
            ..chain
        };
    }

    /// Closes a port: no packet comes there any more.
    pub fn close(&mut self, port: u32)
        requires { port < length self.old.ports }
        ensures closed { self.new ≡ with_queue self.old port (record (queue_at self.old port) { bound = done }) }
        ensures stands { (s : StreamPrefix Plain) → StandsFor (queue_at self.old port) s → StandsFor (queue_at self.new port) (closed s) }
    {
        let chain = self.chains[port as usize];
        self.chains[port as usize] = Chain {
            bound: Timestamp::DONE,
            ..chain
        };
    }

    /// The first packet that waits at a port.
    pub fn front(&self, port: u32) -> Option<&Packet>
        requires { port < length self.now.ports }
        ensures front { option_copied result ≡ slice_get (queue_at self.now port).packets 0 }
        // Of every port: what waits, with the bound, is a prefix.
        ensures rest { IsPrefix (rest_of (queue_at self.now port)) }
    {
        let chain = self.chains[port as usize];
        if chain.waiting == 0 {
            return None;
        }
        Some(&self.entries[chain.first].packet)
    }

    /// The timestamp of the first packet that waits at a port.
    pub fn first(&self, port: u32) -> Option<Timestamp>
        requires { port < length self.now.ports }
        ensures first { result ≡ option_map (λ p. p.at) (slice_get (queue_at self.now port).packets 0) }
        ensures rest { IsPrefix (rest_of (queue_at self.now port)) }
    {
        Some(self.front(port)?.at)
    }

    /// All packets that wait at a port, in order.
    pub fn waits(&self, port: u32) -> Waits<'_>
        requires { port < length self.now.ports }
        ensures { result ≡ (queue_at self.now port).packets }
    {
        let chain = self.chains[port as usize];
        Waits {
            entries: &self.entries,
            next: chain.first,
            left: chain.waiting,
        }
    }

    /// The lowest timestamp that a further packet may have at a port.
    pub fn bound(&self, port: u32) -> Timestamp
        requires { port < length self.now.ports }
        ensures { result ≡ (queue_at self.now port).bound }
    {
        self.chains[port as usize].bound
    }

    /// How many packets wait at a port.
    pub fn waiting(&self, port: u32) -> u64
        requires { port < length self.now.ports }
        ensures { result ≡ length (queue_at self.now port).packets }
    {
        self.chains[port as usize].waiting
    }

    /// How many packets came at a port, those that are gone included.
    pub fn count(&self, port: u32) -> u64
        requires { port < length self.now.ports }
        ensures { result ≡ count_of (queue_at self.now port) }
    {
        let chain = self.chains[port as usize];
        chain.gone + chain.waiting
    }

    /// Takes the first packet of a port, if it stands at this timestamp. Otherwise changes nothing and returns `None`.
    pub fn pop_at(&mut self, port: u32, at: Timestamp) -> Option<Packet>
        requires { port < length self.old.ports }
        ensures packet { result ≡ front_at at (queue_at self.old port).packets }
        ensures popped { self.new ≡ with_queue self.old port (popped_at at (queue_at self.old port)) }
        ensures stands { (s : StreamPrefix Plain) → StandsFor (queue_at self.old port) s → StandsFor (queue_at self.new port) s }
    {
        if self.first(port) != Some(at) {
            return None;
        }
        Some(self.take(port))
    }

    // Takes the first packet of a port. One must wait there.
    fn take(&mut self, port: u32) -> Packet
        requires port { port < length self.old.ports }
        requires waits { 0 < length (queue_at self.old port).packets }
        ensures packet { slice_get (queue_at self.old port).packets 0 ≡ Some result }
        ensures popped { self.new ≡ with_queue self.old port (popped (queue_at self.old port)) }
    {
        let mut chain = self.chains[port as usize];
        let packet = pop_first(&mut self.entries, &mut chain);
        self.chains[port as usize] = chain;
        packet
    }

    // Puts a packet that may come after those that wait at a port. There must be room for it.
    fn put(&mut self, port: u32, packet: Packet)
        requires port { port < length self.old.ports }
        requires may_come { MayCome (queue_at self.old port) packet.at }
        requires room { 0 < self.old.spare }
        ensures { self.new ≡ with_queue self.old port (record (with_packet (queue_at self.old port) packet) { spare = self.old.spare - 1 }) }
    {
        let mut chain = self.chains[port as usize];
        push_last(&mut self.entries, &mut chain, packet);
        self.chains[port as usize] = chain;
    }

    // Why a packet at this timestamp may not come at a port, or `None` if it may.
    fn cause_of(&self, port: u32, at: Timestamp) -> Option<StreamFault>
        requires { port < length self.now.ports }
        ensures none { IfNone result (MayCome (queue_at self.now port) at) }
        ensures not_allowed { (result ≡ Some StreamFault.NotAllowed) ↔ ¬ IsAllowed at }
        ensures not_ascending { (result ≡ Some StreamFault.NotAscending) ↔ (IsAllowed at × (at < (queue_at self.now port).bound)) }
        ensures not_alone { (result ≡ Some StreamFault.NotAlone)
            ↔ (((queue_at self.now port).bound ≤ at) × (at ≡ post_stream) × (0 < count_of (queue_at self.now port))) }
        ensures no_memory { result ≢ Some StreamFault.OutOfMemory }
    {
        if !at.is_allowed() {
            Some(StreamFault::NotAllowed)
        } else if at < self.bound(port) {
            Some(StreamFault::NotAscending)
        } else if at == Timestamp::POST_STREAM && self.count(port) > 0 {
            Some(StreamFault::NotAlone)
        } else {
            None
        }
    }
}

// The later of two timestamps.
fn later(a: Timestamp, b: Timestamp) -> Timestamp
    ensures { result ≡ max a b }
{
    if a < b { b } else { a }
}

// A capacity as a number of 32 bits, at most `u32::MAX`.
fn capped(capacity: usize) -> u32
    ensures { result ≡ min capacity (2 ^ 32 - 1) }
{
    if capacity < u32::MAX as usize {
        capacity as u32
    } else {
        u32::MAX
    }
}
