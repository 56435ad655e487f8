ghost use Rattle.std.specs.Prelude.{◌≡◌, ◌<◌, ◌==◌, ◌++◌, ◌∷◌, ℕ, List, [], Some, None, IfOk, OnOk, false, length, slice_get, option_map, option_copied, replicate, map, OnErr, if◌then◌else◌};
ghost use Rattle.mg_time.specs.Time.{done, IsAllowed};
ghost use Rattle.mg_value.specs.Payload.{Plain};
ghost use Rattle.mg_settled.specs.Prefix.{StreamPrefix};
ghost use Rattle.mg_settled.specs.Settled.{port_of};
ghost use Rattle.mg_calc.specs.Equations.{stream_of};
ghost use Rattle.mg_free.specs.declared.node.FreeNode.{FreeNode as FreeNodeView};
ghost use Rattle.mg_free.specs.Free.{Flow, IsRestOf, nothing_laid, arrived};
ghost use Rattle.mg_free.specs.Code.Room.{rest_handed};
ghost use Rattle.mg_free.specs.Logs.{arrived_at, has_ended as have_ended, ending};
ghost use Rattle.mg_free.specs.Rounds.{Taken, output_so_far, free_inputs, next_arrivals, last_of, turn};
ghost use Rattle.mg_live.specs.Takes.{told, HasTaken, HasHanded, MayTurnIn, Did, piece_behind};
ghost use Rattle.mg_live.specs.Code.Counted.{HasCounted};

use crate::{Arrived, Streams};
use mg_free::{FreeLaw, FreeNode, FreeState};
use mg_settled::Prefix;
use mg_time::Timestamp;
use mg_value::Packet;
use std::alloc::{AllocError, Global};

/// What is kept of a free node while a graph runs. It is the node's state, how many packets have arrived at each port, its log, and
/// whether its output is closed. The state has the packets that weren't handed on yet.
#[derive(Drop)]
pub struct Taker {
    state: FreeState,
    counts: Vec<u64>,
    log: Vec<Arrived>,
    closed: bool,
}

// Returns `count` zeros.
fn zeros(alloc: Global, count: u32) -> Result<Vec<u64>, AllocError>
    ensures { IfOk result (λ zeros. zeros.items ≡ replicate count 0) }
{
    vec![in alloc; 0u64; count as usize]
}

// Returns how many ports, the first ones of a node, have to end before its output ends.
fn ending_ports(free: &FreeNode) -> u32
    ensures { (streams : List (StreamPrefix Plain)) → result ≡ length (ending free.now.law (free_inputs streams free.now)) }
{
    match free.law {
        FreeLaw::FirstCome { .. } => free.inputs.len(),
        FreeLaw::Limiter { .. } => free.inputs.len().min(1),
    }
}

// Whether a stream has ended.
fn is_done<S: Streams>(streams: &S, stream: u32) -> bool
    requires { (ss : List (StreamPrefix Plain)) × S.are streams.now ss × (stream < length ss) }
    ensures { (ss : List (StreamPrefix Plain)) → S.are streams.now ss → result ≡ ((stream_of ss stream).bound == done) }
{
    streams.bound(stream) == Timestamp::DONE
}

// Whether the streams have ended that have to end before the node's output ends.
fn has_ended<S: Streams>(free: &FreeNode, streams: &S) -> bool
    requires { (ss : List (StreamPrefix Plain)) × S.are streams.now ss × ((port stream : ℕ) → slice_get free.now.inputs port ≡ Some stream → stream < length ss) }
    ensures { (ss : List (StreamPrefix Plain)) → S.are streams.now ss → result ≡ have_ended free.now.law (free_inputs ss free.now) }
{
    let inputs = free.inputs.as_slice();
    for port in 0..ending_ports(free) {
        if !is_done(streams, inputs[port as usize]) {
            return false;
        }
    }
    true
}

impl Taker {
    /// Returns the taker of a free node that has taken nothing.
    pub fn new(alloc: Global, free: &FreeNode) -> Result<Taker, AllocError>
        ensures taken { IfOk result (λ taker. HasTaken free.now (record { log = []; closed = false }) taker) }
        ensures handed { IfOk result (λ taker. HasHanded free.now (record { log = []; closed = false }) taker) }
    {
        let taker = Taker::fresh(alloc, free)?;
        Ok(taker)
    }

    // Returns a taker that has counted nothing, with what is kept of a free node at first.
    fn fresh(alloc: Global, free: &FreeNode) -> Result<Taker, AllocError>
        ensures counted { IfOk result (λ taker. HasCounted free.now (record { log = []; closed = false }) taker) }
        ensures rest { IfOk result (λ taker. taker.state.rest ≡ nothing_laid) }
    {
        let state = FreeState::new(alloc, free)?;
        let counts = zeros(alloc, free.inputs.len())?;
        Ok(Taker {
            state,
            counts,
            log: Vec::new(alloc),
            closed: false,
        })
    }

    /// Gives the node its turn. The node takes the next packet of the last port that has a further packet. If no port has one, it
    /// closes its output, once the streams have ended that have to end first. Returns whether the node did something. The cost grows
    /// with the node's ports.
    pub fn turn<S: Streams>(&mut self, free: &FreeNode, streams: &S) -> Result<bool, AllocError>
        requires { MayTurnIn S.are S.has_from streams.now free.now self.old }
        ensures taken { (ss : List (StreamPrefix Plain)) (taken : Taken) → S.are streams.now ss → HasTaken free.now taken self.old
            → OnOk result (HasTaken free.now (turn ss free.now taken) self.new) }
        ensures did { (ss : List (StreamPrefix Plain)) (taken : Taken) → S.are streams.now ss → HasTaken free.now taken self.old
            → IfOk result (λ did. Did did taken (turn ss free.now taken)) }
        ensures handed { self.new.state.rest.handed ≡ self.old.state.rest.handed }
        ensures idle { IfOk result (λ did. did ≡ false → self.new ≡ self.old) }
    {
        let Some(port) = self.last_port(free, streams) else {
            return Ok(self.close_at_end(free, streams));
        };
        let Some(packet) = self.next_at(free, streams, port) else {
            unreachable!()
        };
        self.take(free, port, packet)?;
        Ok(true)
    }

    // Returns the last port at which a packet waits, if there is one.
    fn last_port<S: Streams>(&self, free: &FreeNode, streams: &S) -> Option<u32>
        requires { MayTurnIn S.are S.has_from streams.now free.now self.now }
        ensures { (ss : List (StreamPrefix Plain)) (taken : Taken) → S.are streams.now ss → HasTaken free.now taken self.now
            → result ≡ option_map (λ a. a.port) (last_of (next_arrivals ss free.now taken)) }
    {
        let mut port = free.inputs.len();
        'ports: while port > 0 {
            port -= 1;
            if self.next_at(free, streams, port).is_some() {
                return Some(port);
            }
        }
        None
    }

    // Returns the packet that arrives next at a port, if there is one.
    fn next_at<'s, S: Streams>(
        &self,
        free: &FreeNode,
        streams: &'s S,
        port: u32,
    ) -> Option<&'s Packet>
        requires port { port < length free.now.inputs }
        requires may { MayTurnIn S.are S.has_from streams.now free.now self.now }
        ensures { (ss : List (StreamPrefix Plain)) (taken : Taken) → S.are streams.now ss → HasTaken free.now taken self.now
            → option_copied result ≡ slice_get (port_of (free_inputs ss free.now) port).packets (length (arrived_at port taken.log)) }
    {
        let stream = free.inputs.as_slice()[port as usize];
        streams.packet(stream, self.counts[port as usize])
    }

    // Takes a packet that arrives at a port.
    fn take(&mut self, free: &FreeNode, port: u32, packet: &Packet) -> Result<(), AllocError>
        requires port { port < length free.now.inputs }
        requires some { (taken : Taken) × HasTaken free.now taken self.old }
        requires allowed { IsAllowed packet.now.at }
        ensures taken { (taken : Taken) → HasTaken free.now taken self.old
            → OnOk result (HasTaken free.now (record { log = taken.log ++ record { port = port; packet = packet.now } ∷ []; closed = taken.closed }) self.new) }
        ensures handed { self.new.state.rest.handed ≡ self.old.state.rest.handed }
    {
        self.note(free, port, packet)?;
        Ok(())
    }

    // Lets a packet arrive at a port, and notes that.
    fn note(&mut self, free: &FreeNode, port: u32, packet: &Packet) -> Result<(), AllocError>
        requires port { port < length free.now.inputs }
        requires some { (taken : Taken) × HasCounted free.now taken self.old }
        requires allowed { IsAllowed packet.now.at }
        ensures counted { (taken : Taken) → HasCounted free.now taken self.old
            → OnOk result (HasCounted free.now (record { log = taken.log ++ record { port = port; packet = packet.now } ∷ []; closed = taken.closed }) self.new) }
        ensures arrived { (flow : Flow Plain) → IsRestOf flow self.old.state.rest
            → OnOk result (IsRestOf (arrived self.old.state.law flow (record { port = port; packet = packet.now })) self.new.state.rest) }
        ensures handed { self.new.state.rest.handed ≡ self.old.state.rest.handed }
    {
        let _ = free;
        let _ = self.state.arrive(port, packet)?;
        self.log.push(Arrived {
            port,
            at: packet.at,
        })?;
        self.counts[port as usize] += 1;
        Ok(())
    }

    // Closes the output, if it is open and the streams have ended that have to end first. Returns whether it closed the output.
    fn close_at_end<S: Streams>(&mut self, free: &FreeNode, streams: &S) -> bool
        requires { MayTurnIn S.are S.has_from streams.now free.now self.old }
        ensures taken { (ss : List (StreamPrefix Plain)) (taken : Taken) → S.are streams.now ss → HasTaken free.now taken self.old
            → last_of (next_arrivals ss free.now taken) ≡ None → HasTaken free.now (turn ss free.now taken) self.new }
        ensures did { (ss : List (StreamPrefix Plain)) (taken : Taken) → S.are streams.now ss → HasTaken free.now taken self.old
            → last_of (next_arrivals ss free.now taken) ≡ None → Did result taken (turn ss free.now taken) }
        ensures handed { self.new.state.rest.handed ≡ self.old.state.rest.handed }
        ensures idle { result ≡ false → self.new ≡ self.old }
    {
        if self.closed || !has_ended(free, streams) {
            return false;
        }
        self.closed = true;
        true
    }

    /// Returns the log: the arrivals so far, in order.
    pub fn log(&self) -> &[Arrived]
        ensures items { result.now ≡ self.now.log.items }
        ensures told { (free : FreeNodeView) (taken : Taken) → HasTaken free taken self.now → result.now ≡ map told taken.log }
    {
        &self.log
    }

    /// Returns the packets that were laid on the output since the last call, with the bound as it is now, and keeps none of them. After an
    /// error the next call returns these packets too.
    pub fn hand_on(&mut self) -> Result<Prefix, AllocError>
        ensures piece { (free : FreeNodeView) (taken : Taken) → HasTaken free taken self.old → IfOk result (λ piece. piece ≡ piece_behind self.old.state.rest.handed (output_so_far free taken)) }
        ensures handed { (free : FreeNodeView) (taken : Taken) → HasTaken free taken self.old → OnOk result (HasHanded free taken self.new) }
        ensures taken { (free : FreeNodeView) (taken : Taken) → HasTaken free taken self.old → HasTaken free taken self.new }
        ensures unchanged { OnErr result (self.new.state.rest.handed ≡ self.old.state.rest.handed) }
    {
        let piece = self.hand_out()?;
        Ok(piece)
    }

    // Returns what was laid since the last call, with the bound of the output.
    fn hand_out(&mut self) -> Result<Prefix, AllocError>
        ensures piece { IfOk result (λ piece. piece ≡ record { packets = self.old.state.rest.piece.packets; bound = (if self.old.closed then done else self.old.state.rest.piece.bound) }) }
        ensures rest { IfOk result (λ _. self.new.state.rest ≡ rest_handed self.old.state.rest) }
        ensures others { (self.new.state.law ≡ self.old.state.law) × (self.new.counts ≡ self.old.counts) × (self.new.log ≡ self.old.log) × (self.new.closed ≡ self.old.closed) }
        ensures unchanged { OnErr result (self.new ≡ self.old) }
    {
        let piece = self.state.hand_on()?;
        Ok(Prefix {
            packets: piece.packets,
            bound: bound_of(piece.bound, self.closed),
        })
    }
}

// Returns the bound of an output, which is Done if it is closed.
fn bound_of(bound: Timestamp, closed: bool) -> Timestamp
    ensures { result ≡ (if closed then done else bound) }
{
    if closed { Timestamp::DONE } else { bound }
}
