ghost use Rattle.std.specs.Prelude.{◌≡◌, ◌<◌, ◌≤◌, ◌+◌, ◌↔◌, ℕ, List, [], length, map, drop, replicate, slice_get, option_map, unwrap_or, Some, IfOk, IfErr, IfSome, OnOk, OnErr, IsErrAnd, IsSomeAnd, IsOk, IsTrue, IsSome, MatchResult};
ghost use Rattle.std.specs.Bool.{OnTrue, OnFalse};
ghost use Rattle.mg_time.specs.Time.{post_stream, done, IsAllowed};
ghost use Rattle.mg_value.specs.Payload.{Plain};
ghost use Rattle.mg_settled.specs.Prefix.{StreamPrefix, empty_prefix, appended, raised, closed};
ghost use Rattle.mg_settled.specs.Settled.{reach, settled_sets};
ghost use Rattle.mg_settled.specs.Left.{after_sets};
ghost use Rattle.mg_stream.specs.Queue.{StandsFor, MayCome, count_of, with_packet, raised_to};
ghost use Rattle.mg_stream.specs.Pool.{empty_backlog, queue_at, queues_of, with_queue, pool_len};
ghost use Rattle.mg_stream.specs.declared.fault.StreamFault as StreamFault;
ghost use Rattle.mg_policy.specs.declared.readiness.Readiness.TheVariants.{Ready};
ghost use Rattle.mg_policy.specs.Inbox.{HasPorts, rests, next_set, Tells, TellsOf, ShowsNext, StandAfter};

use crate::Readiness;
use crate::look::{least_time, look_at, reach_of};
use crate::taking::take_set;
use mg_settled::InputSet;
use mg_stream::{Pool, Refused, StreamFault};
use mg_time::Timestamp;
use mg_value::{Packet, Policy};
use std::alloc::{AllocError, Global};
use std::marker::Model;

/// The packets that wait at the inputs of a node, a queue for each port, and the node's input policy (MediaPipe, Synchronization, input
/// policies). Contracts see the policy and the pool: a queue per port, and the room of all.
#[derive(Debug, Drop)]
pub struct Inbox {
    pool: Pool,
    policy: Policy,
}

impl Model for Inbox {
    ghost use Rattle.mg_policy.specs.Inbox.{Gathered, HasPorts};
    ghost use Rattle.mg_policy.specs.Codes.{inbox_code};

    ghost Value = { Gathered };

    ghost coded = { inbox_code };

    ghost view = { λ i. record { policy = i.policy; pool = i.pool } };

    ghost invariant = { λ i. HasPorts i.policy i.pool };
}

impl Inbox {
    /// An inbox of `ports` ports to which nothing came yet, without room for packets.
    pub fn new(alloc: Global, ports: u32, policy: Policy) -> Result<Inbox, AllocError>
        requires { HasPorts policy (record { ports = replicate ports empty_backlog; spare = 0 }) }
        ensures inbox { IfOk result (λ i. i ≡ record { policy = policy; pool = record { ports = replicate ports empty_backlog; spare = 0 } }) }
        ensures stand { IfOk result (λ i. StandAfter policy 0 (queues_of i.pool) (replicate ports empty_prefix)) }
    {
        let pool = Pool::new(alloc, ports)?;
        Ok(Inbox { pool, policy })
    }

    /// How many ports there are.
    pub fn ports(&self) -> u32
        ensures { result ≡ length self.now.pool.ports }
    {
        self.pool.ports()
    }

    /// Makes room for `more` packets: that many appends take no memory, at whatever ports they come. On an error the inbox is as before.
    pub fn reserve(&mut self, more: u32) -> Result<(), AllocError>
        ensures room { OnOk result (more ≤ self.new.pool.spare) }
        ensures no_memory { OnErr result (self.old.pool.spare < more) }
        ensures kept { self.old.pool.spare ≤ self.new.pool.spare }
        ensures had { more ≤ self.old.pool.spare → self.new ≡ self.old }
        ensures ports { self.new ≡ record { policy = self.old.policy; pool = record { ports = self.old.pool.ports; spare = self.new.pool.spare } } }
        ensures unchanged { OnErr result (self.new ≡ self.old) }
    {
        self.pool.reserve(more)
    }

    /// Puts a packet after those that wait at a port, and moves the bound to what may follow it. If the packet is refused, it
    /// comes back, and the inbox is as before.
    pub fn append(&mut self, port: u32, packet: Packet) -> Result<(), Refused>
        requires { port < length self.old.pool.ports }
        ensures ok { OnOk result (self.new.pool
            ≡ with_queue self.old.pool port (record (with_packet (queue_at self.old.pool port) packet) { spare = self.new.pool.spare })) }
        ensures policy { self.new.policy ≡ self.old.policy }
        ensures may_come { OnOk result (MayCome (queue_at self.old.pool port) packet.at) }
        ensures accepted { MayCome (queue_at self.old.pool port) packet.at → 0 < self.old.pool.spare → IsOk result }

        // The first cause that holds is answered.
        ensures not_allowed { IsErrAnd result (λ r. r.cause ≡ StreamFault.NotAllowed) ↔ ¬ IsAllowed packet.at }
        ensures not_ascending { IsErrAnd result (λ r. r.cause ≡ StreamFault.NotAscending)
            ↔ (IsAllowed packet.at × (packet.at < (queue_at self.old.pool port).bound)) }
        ensures not_alone { IsErrAnd result (λ r. r.cause ≡ StreamFault.NotAlone)
            ↔ (((queue_at self.old.pool port).bound ≤ packet.at) × (packet.at ≡ post_stream) × (0 < count_of (queue_at self.old.pool port))) }
        ensures no_memory { IsErrAnd result (λ r. r.cause ≡ StreamFault.OutOfMemory) → self.old.pool.spare ≡ 0 }

        // What a refusal leaves, and what room is left.
        ensures unchanged { OnErr result (self.new ≡ self.old) }
        ensures returned { IfErr result (λ r. r.packet ≡ packet) }
        ensures room { self.old.pool.spare ≤ self.new.pool.spare + 1 }
        ensures in_place { 0 < self.old.pool.spare → OnOk result (self.new.pool.spare + 1 ≡ self.old.pool.spare) }

        ensures stands { (s : StreamPrefix Plain) → StandsFor (queue_at self.old.pool port) s
            → MatchResult result (λ _. StandsFor (queue_at self.new.pool port) (appended s packet)) (λ _. StandsFor (queue_at self.new.pool port) s) }
    {
        self.pool.append(port, packet)
    }

    /// Puts a packet that may come after those that wait at a port, and moves the bound to what may follow it. If there is no
    /// memory, the packet is dropped, and the inbox is as before.
    pub fn bring(&mut self, port: u32, packet: Packet) -> Result<(), AllocError>
        requires port { port < length self.old.pool.ports }
        requires may_come { MayCome (queue_at self.old.pool port) packet.at }
        ensures ok { OnOk result (self.new.pool
            ≡ with_queue self.old.pool port (record (with_packet (queue_at self.old.pool port) packet) { spare = self.new.pool.spare })) }
        ensures policy { self.new.policy ≡ self.old.policy }
        ensures unchanged { OnErr result (self.new ≡ self.old) }
        ensures no_memory { OnErr result (self.old.pool.spare ≡ 0) }
    {
        self.pool.bring(port, packet)
    }

    /// Raises the bound of a port: no packet below it comes there any more. A bound that isn't higher changes nothing.
    pub fn raise(&mut self, port: u32, bound: Timestamp)
        requires { port < length self.old.pool.ports }
        ensures raised { self.new ≡ record self.old { pool = with_queue self.old.pool port (raised_to (queue_at self.old.pool port) bound) } }
        ensures stands { (s : StreamPrefix Plain) → StandsFor (queue_at self.old.pool port) s → StandsFor (queue_at self.new.pool port) (raised s bound) }
    {
        self.pool.raise(port, bound);
    }

    /// Closes a port: no packet comes there any more.
    pub fn close(&mut self, port: u32)
        requires { port < length self.old.pool.ports }
        ensures closed { self.new ≡ record self.old { pool = with_queue self.old.pool port (record (queue_at self.old.pool port) { bound = done }) } }
        ensures stands { (s : StreamPrefix Plain) → StandsFor (queue_at self.old.pool port) s → StandsFor (queue_at self.new.pool port) (closed s) }
    {
        self.pool.close(port);
    }

    /// The timestamp of the first packet that waits at a port.
    pub fn first(&self, port: u32) -> Option<Timestamp>
        requires { port < length self.now.pool.ports }
        ensures { result ≡ option_map (λ p. p.at) (slice_get (queue_at self.now.pool port).packets 0) }
    {
        self.pool.first(port)
    }

    /// The lowest timestamp that a further packet may have at a port.
    pub fn bound(&self, port: u32) -> Timestamp
        requires { port < length self.now.pool.ports }
        ensures { result ≡ (queue_at self.now.pool port).bound }
    {
        self.pool.bound(port)
    }

    /// How many packets wait at a port.
    pub fn waiting(&self, port: u32) -> u64
        requires { port < length self.now.pool.ports }
        ensures { result ≡ length (queue_at self.now.pool port).packets }
    {
        self.pool.waiting(port)
    }

    /// How many packets came at a port, those that are gone included.
    pub fn count(&self, port: u32) -> u64
        requires { port < length self.now.pool.ports }
        ensures { result ≡ count_of (queue_at self.now.pool port) }
    {
        self.pool.count(port)
    }

    /// Returns how far the input sets reach: each set that isn't settled yet stands there or above. By default that is the
    /// least bound of the ports, or `DONE` if there is no port. Under Mux it is the time of SELECT's first packet that isn't
    /// settled, or SELECT's bound. By default this looks once at each port, and under Mux at SELECT's packets up to the first
    /// that isn't settled.
    pub fn low(&self) -> Timestamp
        ensures low { result ≡ reach self.now.policy (rests (queues_of self.now.pool)) }
        // The answer is the reach of all that came.
        ensures whole { (k : ℕ) (ss : List (StreamPrefix Plain)) → StandAfter self.now.policy k (queues_of self.now.pool) ss → result ≡ reach self.now.policy ss }
    {
        reach_of(&self.pool, self.policy)
    }

    /// Returns the time below which no further input set stands. This is the time of the next set, or how far the sets reach if
    /// there is none. By default this looks once at each port.
    pub fn horizon(&self) -> Timestamp
        ensures { result ≡ unwrap_or (option_map (λ e. e.at) (next_set self.now.policy (queues_of self.now.pool))) (reach self.now.policy (rests (queues_of self.now.pool))) }
    {
        match self.policy {
            Policy::Default => least_time(&self.pool),
            Policy::Mux => self.told_horizon(),
        }
    }

    // Returns the horizon by the inbox's readiness: the time of the next set, or how far the sets reach if there is none.
    fn told_horizon(&self) -> Timestamp
        ensures { result ≡ unwrap_or (option_map (λ e. e.at) (next_set self.now.policy (queues_of self.now.pool))) (reach self.now.policy (rests (queues_of self.now.pool))) }
    {
        match self.readiness() {
            Readiness::Ready { at } => at,
            Readiness::Close => self.low(),
            Readiness::NotReady => self.low(),
        }
    }

    /// Whether there is a next input set, and at which timestamp, or why there is none. Looks once at each port that the policy asks for.
    pub fn readiness(&self) -> Readiness
        ensures waits { Tells self.now.policy result (queues_of self.now.pool) }
        ensures whole { (k : ℕ) (ss : List (StreamPrefix Plain)) → StandAfter self.now.policy k (queues_of self.now.pool) ss → TellsOf self.now.policy k ss result }
    {
        let look = look_at(&self.pool, self.policy);
        if let Some(at) = look.next {
            return Readiness::Ready { at };
        }
        if look.ended {
            return Readiness::Close;
        }
        Readiness::NotReady
    }

    /// Takes the next input set, which must stand at `at`, into `into`. The set's packets leave the queues. Under Mux the
    /// packets of other ports before its time or at it leave too.
    pub fn claim_at(&mut self, at: Timestamp, into: &mut InputSet)
        requires places { length into.old ≡ length self.old.pool.ports }
        requires next { Tells self.old.policy (Ready at) (queues_of self.old.pool) }
        ensures shown { IsSomeAnd (next_set self.old.policy (queues_of self.old.pool)) (λ e. into.new ≡ e.set) }
        ensures left { rests (queues_of self.new.pool) ≡ after_sets self.old.policy 1 (rests (queues_of self.old.pool)) }
        ensures others { settled_sets self.old.policy (rests (queues_of self.new.pool)) ≡ drop 1 (settled_sets self.old.policy (rests (queues_of self.old.pool))) }

        // What stays: all that came is counted, and what goes leaves room for as much.
        ensures policy { self.new.policy ≡ self.old.policy }
        ensures ports { length self.new.pool.ports ≡ length self.old.pool.ports }
        ensures places { length into.new ≡ length into.old }
        ensures counts { map count_of (queues_of self.new.pool) ≡ map count_of (queues_of self.old.pool) }
        ensures room { self.new.pool.spare + pool_len self.new.pool ≡ self.old.pool.spare + pool_len self.old.pool }

        // In whole streams: the first set that isn't claimed yet.
        ensures whole { (k : ℕ) (ss : List (StreamPrefix Plain)) → StandAfter self.old.policy k (queues_of self.old.pool) ss
            → ((at : ℕ) × ShowsNext self.old.policy k ss at into.new) × StandAfter self.old.policy (k + 1) (queues_of self.new.pool) ss }
    {
        take_set(&mut self.pool, self.policy, at, into);
    }

    /// Takes the next input set into `into`, and returns whether there was one. The set's packets leave the queues. Under Mux
    /// the packets of other ports before its time or at it leave too. If there is no next set, nothing changes.
    pub fn claim(&mut self, into: &mut InputSet) -> bool
        requires { length into.old ≡ length self.old.pool.ports }
        ensures claimed { IsTrue result ↔ IsSome (next_set self.old.policy (queues_of self.old.pool)) }
        ensures shown { IfSome (next_set self.old.policy (queues_of self.old.pool)) (λ e. into.new ≡ e.set) }
        ensures left { OnTrue result (rests (queues_of self.new.pool) ≡ after_sets self.old.policy 1 (rests (queues_of self.old.pool))) }
        ensures others { settled_sets self.old.policy (rests (queues_of self.new.pool)) ≡ drop 1 (settled_sets self.old.policy (rests (queues_of self.old.pool))) }
        ensures unchanged { OnFalse result ((self.new ≡ self.old) × (into.new ≡ into.old)) }

        // What stays in any case: all that came is counted, and what goes leaves room for as much.
        ensures policy { self.new.policy ≡ self.old.policy }
        ensures ports { length self.new.pool.ports ≡ length self.old.pool.ports }
        ensures places { length into.new ≡ length into.old }
        ensures counts { map count_of (queues_of self.new.pool) ≡ map count_of (queues_of self.old.pool) }
        ensures room { self.new.pool.spare + pool_len self.new.pool ≡ self.old.pool.spare + pool_len self.old.pool }

        // In whole streams: the first set that isn't claimed yet, or none.
        ensures whole { (k : ℕ) (ss : List (StreamPrefix Plain)) → StandAfter self.old.policy k (queues_of self.old.pool) ss
            → OnTrue result (((at : ℕ) × ShowsNext self.old.policy k ss at into.new) × StandAfter self.old.policy (k + 1) (queues_of self.new.pool) ss) }
        ensures none { (k : ℕ) (ss : List (StreamPrefix Plain)) → StandAfter self.old.policy k (queues_of self.old.pool) ss
            → OnFalse result (length (settled_sets self.old.policy ss) ≡ k) }
    {
        let Some(at) = look_at(&self.pool, self.policy).next else {
            return false;
        };
        self.claim_at(at, into);
        true
    }
}
