ghost use Rattle.std.specs.Prelude.{◌≡◌, ◌≢◌, ◌⊎◌, ℕ, Some, None, ◌<◌, ◌≤◌, ◌+◌, ◌↔◌, [], length, slice_get, option_map, OnOk, OnErr, IfErr, IsErrAnd, IsOk, IsSomeAnd, MatchResult};
ghost use Rattle.mg_time.specs.Time.{post_stream, done, IsAllowed};
ghost use Rattle.mg_value.specs.Payload.{Plain};
ghost use Rattle.mg_settled.specs.Prefix.{StreamPrefix, IsPrefix, empty_prefix, appended, raised, closed};
ghost use Rattle.mg_settled.specs.Loopback.{replies};
ghost use Rattle.mg_loopback.specs.declared.answered.Answered.{Answered};
ghost use Rattle.mg_stream.specs.declared.fault.StreamFault.{StreamFault};
ghost use Rattle.mg_stream.specs.Queue.{StandsFor, IsLike, MayCome, count_of, rest_of, with_packet, raised_to};
ghost use Rattle.mg_loopback.specs.Loopback.{queue_at, DifferOnlyAt, IsFresh, is_settled, next_reply, after_answer, told, reached};
ghost use Rattle.mg_loopback.specs.Standing.{StandsAfter, after_replies, main_stepped, loop_stepped};

use crate::Answered;
use crate::turn::{take_previous, told_at};
use mg_stream::{Queue, Refused};
use mg_time::Timestamp;
use mg_value::Packet;
use std::alloc::{AllocError, Global};
use std::marker::Model;

/// What waits at a loopback (MediaPipe, PreviousLoopbackCalculator): port 0 is LOOP, port 1 is MAIN. Contracts see the
/// two queues, and the timestamp of the packet of MAIN that was answered last.
#[derive(Debug, Drop)]
pub struct Loopback {
    looped: Queue,
    main: Queue,
    previous: Option<Timestamp>,
}

impl Model for Loopback {
    ghost use Rattle.mg_value.specs.Payload.{Plain};
    ghost use Rattle.mg_loopback.specs.Loopback.{Held};
    ghost use Rattle.mg_loopback.specs.Codes.{held_code};

    ghost Value = { Held Plain };

    ghost coded = { held_code };

    ghost view = { λ l. record { loop = l.looped; main = l.main; previous = l.previous } };
}

impl Loopback {
    /// A loopback to which nothing came yet. It takes no memory.
    pub fn new(alloc: Global) -> Loopback
        ensures empty { IsFresh result }
        ensures stands_after { StandsAfter 0 result empty_prefix empty_prefix }
    {
        Loopback {
            looped: Queue::new(alloc),
            main: Queue::new(alloc),
            previous: None,
        }
    }

    /// Makes room for `more` packets at a port: that many appends there take no memory. An error changes at most the room.
    pub fn reserve(&mut self, port: u32, more: u32) -> Result<(), AllocError>
        requires { port < 2 }
        ensures room { OnOk result (more ≤ (queue_at port self.new).spare) }
        ensures no_memory { OnErr result ((queue_at port self.old).spare < more) }
        ensures kept { (queue_at port self.old).spare ≤ (queue_at port self.new).spare }
        ensures unchanged { IsLike (queue_at port self.new) (queue_at port self.old) }
        ensures only { DifferOnlyAt port self.new self.old }
        ensures stands { (s : StreamPrefix Plain) → StandsFor (queue_at port self.old) s → StandsFor (queue_at port self.new) s }
        ensures stands_after { (k : ℕ) (main loop : StreamPrefix Plain) → StandsAfter k self.old main loop → StandsAfter k self.new main loop }
    {
        if port == 0 {
            self.looped.reserve(more)
        } else {
            self.main.reserve(more)
        }
    }

    /// Puts a packet after those that wait at a port. If the packet is refused, it comes back, and the loopback is as before.
    pub fn append(&mut self, port: u32, packet: Packet) -> Result<(), Refused>
        requires { port < 2 }
        ensures ok { OnOk result (IsLike (queue_at port self.new) (with_packet (queue_at port self.old) packet)) }
        ensures may_come { OnOk result (MayCome (queue_at port self.old) packet.at) }
        ensures accepted { MayCome (queue_at port self.old) packet.at → 0 < (queue_at port self.old).spare → IsOk result }

        // The first cause that holds is answered.
        ensures not_allowed { IsErrAnd result (λ r. r.cause ≡ StreamFault.NotAllowed) ↔ ¬ IsAllowed packet.at }
        ensures not_ascending { IsErrAnd result (λ r. r.cause ≡ StreamFault.NotAscending)
            ↔ (IsAllowed packet.at × (packet.at < (queue_at port self.old).bound)) }
        ensures not_alone { IsErrAnd result (λ r. r.cause ≡ StreamFault.NotAlone)
            ↔ (((queue_at port self.old).bound ≤ packet.at) × (packet.at ≡ post_stream) × (0 < count_of (queue_at port self.old))) }
        ensures no_memory { IsErrAnd result (λ r. r.cause ≡ StreamFault.OutOfMemory) → (queue_at port self.old).spare ≡ 0 }

        // What a refusal leaves, and what room is left.
        ensures unchanged { OnErr result (IsLike (queue_at port self.new) (queue_at port self.old)) }
        ensures returned { IfErr result (λ r. r.packet ≡ packet) }
        ensures room { (queue_at port self.old).spare ≤ (queue_at port self.new).spare + 1 }
        ensures only { DifferOnlyAt port self.new self.old }

        ensures stands { (s : StreamPrefix Plain) → StandsFor (queue_at port self.old) s
            → MatchResult result (λ _. StandsFor (queue_at port self.new) (appended s packet)) (λ _. StandsFor (queue_at port self.new) s) }
        ensures stands_after { (k : ℕ) (main loop : StreamPrefix Plain) → StandsAfter k self.old main loop
            → MatchResult result (λ _. StandsAfter k self.new (main_stepped port (appended main packet) main) (loop_stepped port (appended loop packet) loop))
            (λ _. StandsAfter k self.new main loop) }
    {
        if port == 0 {
            self.looped.append(packet)
        } else {
            self.main.append(packet)
        }
    }

    /// Raises the bound of a port: no packet below it comes there any more. A bound that isn't higher changes nothing.
    pub fn raise(&mut self, port: u32, bound: Timestamp)
        requires { port < 2 }
        ensures raised { queue_at port self.new ≡ raised_to (queue_at port self.old) bound }
        ensures only { DifferOnlyAt port self.new self.old }
        ensures stands { (s : StreamPrefix Plain) → StandsFor (queue_at port self.old) s → StandsFor (queue_at port self.new) (raised s bound) }
        ensures stands_after { (k : ℕ) (main loop : StreamPrefix Plain) → StandsAfter k self.old main loop
            → StandsAfter k self.new (main_stepped port (raised main bound) main) (loop_stepped port (raised loop bound) loop) }
    {
        if port == 0 {
            self.looped.raise(bound);
        } else {
            self.main.raise(bound);
        }
    }

    /// Closes a port: no packet comes there any more.
    pub fn close(&mut self, port: u32)
        requires { port < 2 }
        ensures closed { queue_at port self.new ≡ record (queue_at port self.old) { bound = done } }
        ensures only { DifferOnlyAt port self.new self.old }
        ensures stands { (s : StreamPrefix Plain) → StandsFor (queue_at port self.old) s → StandsFor (queue_at port self.new) (closed s) }
        ensures stands_after { (k : ℕ) (main loop : StreamPrefix Plain) → StandsAfter k self.old main loop
            → StandsAfter k self.new (main_stepped port (closed main) main) (loop_stepped port (closed loop) loop) }
    {
        if port == 0 {
            self.looped.close();
        } else {
            self.main.close();
        }
    }

    /// The timestamp of the first packet that waits at a port.
    pub fn first(&self, port: u32) -> Option<Timestamp>
        requires { port < 2 }
        ensures first { result ≡ option_map (λ p. p.at) (slice_get (queue_at port self.now).packets 0) }
        // Of every port: what waits, with the bound, is a prefix.
        ensures rest { IsPrefix (rest_of (queue_at port self.now)) }
    {
        self.queue(port).first()
    }

    /// The lowest timestamp that a further packet of a port may have.
    pub fn bound(&self, port: u32) -> Timestamp
        requires { port < 2 }
        ensures { result ≡ (queue_at port self.now).bound }
    {
        self.queue(port).bound()
    }

    /// How many packets wait at a port.
    pub fn waiting(&self, port: u32) -> u64
        requires { port < 2 }
        ensures { result ≡ length (queue_at port self.now).packets }
    {
        self.queue(port).waiting()
    }

    /// How many packets came at a port, those that are gone included.
    pub fn count(&self, port: u32) -> u64
        requires { port < 2 }
        ensures { result ≡ count_of (queue_at port self.now) }
    {
        self.queue(port).count()
    }

    /// Returns how far the answers so far tell the output stream. This is the time of the first packet of MAIN that waits, or
    /// MAIN's bound if none waits.
    pub fn out_bound(&self) -> Timestamp
        ensures reached { result ≡ reached self.now }
        ensures told { (k : ℕ) (main loop : StreamPrefix Plain) → StandsAfter k self.now main loop → result ≡ (after_replies k main loop).bound }
    {
        self.main.first().unwrap_or(self.main.bound())
    }

    /// Answers the next packet of MAIN, if its answer can be told. The packet leaves its queue, and so do the packets of LOOP
    /// at or below the time of the packet of MAIN before it. Otherwise nothing changes. The call takes no memory.
    pub fn answer(&mut self) -> Answered
        ensures answer { result ≡ told (next_reply self.old) }
        ensures left { self.new ≡ after_answer self.old }

        // When the answer isn't a packet.
        ensures not_yet { (result ≡ Answered.NotYet)
            ↔ ((self.old.main.packets ≡ []) ⊎ IsSomeAnd self.old.previous (λ t. self.old.loop.bound ≤ t)) }
        ensures silent { (t : ℕ) → (result ≡ Answered.Silent t) ↔ (next_reply self.old ≡ Some (record { at = t; value = None })) }
        ensures unchanged { result ≡ Answered.NotYet → self.new ≡ self.old }

        // In whole streams: the answer is the next one of theirs, one for each packet of MAIN that is gone.
        ensures next { (k : ℕ) (main loop : StreamPrefix Plain) → StandsAfter k self.old main loop → result ≡ told (slice_get (replies main loop) k) }
        ensures stands_after { (k : ℕ) (main loop : StreamPrefix Plain) → StandsAfter k self.old main loop → result ≢ Answered.NotYet → StandsAfter (k + 1) self.new main loop }
    {
        let Some(at) = self.main.first() else {
            return Answered::NotYet;
        };
        if !self.is_settled() {
            return Answered::NotYet;
        }
        let packet = take_previous(&mut self.looped, self.previous);
        drop(self.main.pop_at(at));
        self.previous = Some(at);
        told_at(at, packet)
    }

    fn queue(&self, port: u32) -> &Queue
        ensures { result.now ≡ queue_at port self.now }
    {
        if port == 0 { &self.looped } else { &self.main }
    }

    /// Whether the next packet of MAIN may be answered.
    fn is_settled(&self) -> bool
        ensures { result ≡ is_settled self.now }
    {
        match self.previous {
            None => true,
            Some(previous) => previous < self.looped.bound(),
        }
    }
}
