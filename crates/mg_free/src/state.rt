ghost use Rattle.std.specs.Prelude.{◌≡◌, IfOk, OnOk, OnErr};
ghost use Rattle.mg_time.specs.Time.{IsAllowed};
ghost use Rattle.mg_value.specs.Payload.{Plain};
ghost use Rattle.mg_settled.specs.Prefix.{closed};
ghost use Rattle.mg_free.specs.Code.Room.{HasRoom, can_go_behind, lays_on, rest_laid, rest_passed, rest_arrived, rest_handed};
ghost use Rattle.mg_free.specs.Free.{Flow, is_laid, risen, arrived, nothing_laid, IsRestOf};

use crate::output::{self, no_packets};
use crate::{FreeLaw, FreeNode};
use mg_settled::Prefix;
use mg_time::Timestamp;
use mg_value::Packet;
use std::alloc::{AllocError, Global};
use std::marker::Model;
use std::mem;

/// The state of a free node (MediaPipe, Real-time Streams). Contracts see its law, the packets of its output that weren't handed on
/// yet, and the output's bound. They also see how many packets were handed on before, and how many are in flight.
#[derive(Drop)]
pub struct FreeState {
    alloc: Global,
    law: FreeLaw,
    piece: Prefix,
    handed: u64,
    in_flight: u32,
}

impl Model for FreeState {
    ghost use Rattle.mg_free.specs.Free.{FreeStanding};
    ghost use Rattle.mg_free.specs.Codes.{standing_code};

    ghost Value = { FreeStanding };

    ghost coded = { standing_code };

    ghost view = { λ s. record { law = s.law; rest = record { piece = s.piece; handed = s.handed; in_flight = s.in_flight } } };
}

impl FreeState {
    /// Returns the state of a free node at which nothing has arrived.
    pub fn new(alloc: Global, free: &FreeNode) -> Result<FreeState, AllocError>
        ensures { IfOk result (λ s. s ≡ record { law = free.now.law; rest = nothing_laid }) }
    {
        Ok(FreeState {
            alloc,
            law: free.law,
            piece: Prefix {
                packets: no_packets(alloc),
                bound: Timestamp::PRE_STREAM,
            },
            handed: 0,
            in_flight: 0,
        })
    }

    /// Takes a packet that arrives at a port, by the free law, and returns whether it was laid on the output. On an error the state
    /// stays, as if nothing had arrived.
    pub fn arrive(&mut self, port: u32, packet: &Packet) -> Result<bool, AllocError>
        requires { IsAllowed packet.now.at }

        // If the state keeps the rest of some flow, the free law for that flow says whether the packet is laid. The state then keeps
        // the rest of the flow after the arrival.
        ensures laid { (flow : Flow Plain) → IsRestOf flow self.old.rest → IfOk result (λ laid. laid ≡ is_laid self.old.law flow (record { port = port; packet = packet.now })) }
        ensures arrived { (flow : Flow Plain) → IsRestOf flow self.old.rest → OnOk result (IsRestOf (arrived self.old.law flow (record { port = port; packet = packet.now })) self.new.rest) }
        ensures law { self.new.law ≡ self.old.law }
        ensures handed { self.new.rest.handed ≡ self.old.rest.handed }
        ensures unchanged { OnErr result (self.new ≡ self.old) }
    {
        let laid = self.take_in(port, packet)?;
        Ok(laid)
    }

    /// Returns what was laid on the output since the last call, with the bound as it is now, and keeps no packet of it. If the packets
    /// in all are 2^64 or more, the call fails as if out of memory. On an error the state stays.
    pub fn hand_on(&mut self) -> Result<Prefix, AllocError>
        ensures piece { IfOk result (λ piece. piece ≡ self.old.rest.piece) }
        ensures rest { IfOk result (λ _. self.new.rest ≡ rest_handed self.old.rest) }
        ensures law { self.new.law ≡ self.old.law }
        ensures unchanged { OnErr result (self.new ≡ self.old) }
    {
        let Some(handed) = self.handed.checked_add(self.piece.packets.len() as u64) else {
            return Err(AllocError);
        };
        let packets = mem::replace(&mut self.piece.packets, no_packets(self.alloc));
        self.handed = handed;
        Ok(Prefix {
            packets,
            bound: self.piece.bound,
        })
    }

    /// Closes the output: nothing is laid any more.
    pub fn close(&mut self)
        ensures closed { self.new.rest ≡ record { piece = closed self.old.rest.piece; handed = self.old.rest.handed; in_flight = self.old.rest.in_flight } }
        ensures law { self.new.law ≡ self.old.law }
    {
        output::close(&mut self.piece);
    }

    // Takes a packet that arrives at a port, and returns whether it was laid on the output.
    fn take_in(&mut self, port: u32, packet: &Packet) -> Result<bool, AllocError>
        requires { IsAllowed packet.now.at }
        ensures laid { IfOk result (λ laid. laid ≡ lays_on self.old.law self.old.rest (record { port = port; packet = packet.now })) }
        ensures arrived { IfOk result (λ _. self.new.rest ≡ rest_arrived self.old.law self.old.rest (record { port = port; packet = packet.now })) }
        ensures law { self.new.law ≡ self.old.law }
        ensures unchanged { OnErr result (self.new ≡ self.old) }
    {
        if self.lays(port, packet) {
            self.lay(packet)?;
            Ok(true)
        } else {
            self.pass(port, packet.at);
            Ok(false)
        }
    }

    // Whether a packet at a time can still be laid on the output.
    fn can_follow(&self, at: Timestamp) -> bool
        ensures { result ≡ can_go_behind self.now.rest at }
    {
        output::can_follow(&self.piece, at) && !(at == Timestamp::POST_STREAM && self.handed > 0)
    }

    // Whether a packet that arrives at a port is laid.
    fn lays(&self, port: u32, packet: &Packet) -> bool
        ensures { result ≡ lays_on self.now.law self.now.rest (record { port = port; packet = packet.now }) }
    {
        match self.law {
            FreeLaw::FirstCome { .. } => self.can_follow(packet.at),
            FreeLaw::Limiter { most } => port == 0 && self.in_flight < most,
        }
    }

    // Lays a packet on the output; a Limiter then has one more in flight.
    fn lay(&mut self, packet: &Packet) -> Result<(), AllocError>
        requires few { HasRoom self.old.law self.old.rest.in_flight }
        ensures laid { IfOk result (λ _. self.new.rest ≡ rest_laid self.old.law self.old.rest packet.now) }
        ensures law { self.new.law ≡ self.old.law }
        ensures unchanged { OnErr result (self.new ≡ self.old) }
    {
        output::lay(self.alloc, &mut self.piece, packet)?;
        self.in_flight = risen(self.law, self.in_flight);
        Ok(())
    }

    // Takes a packet that isn't laid. FirstCome drops it. Limiter raises its output past a packet of the first port. A packet of
    // FINISHED leaves Limiter one packet less in flight, if any is.
    fn pass(&mut self, port: u32, at: Timestamp)
        requires { IsAllowed at }
        ensures passed { (value : Plain) → self.new.rest ≡ rest_passed self.old.law self.old.rest (record { port = port; packet = record { at = at; value = value } }) }
        ensures law { self.new.law ≡ self.old.law }
    {
        if let FreeLaw::Limiter { .. } = self.law {
            if port == 0 {
                output::raise(&mut self.piece, at.next_allowed());
            } else {
                self.in_flight = self.in_flight.saturating_sub(1);
            }
        }
    }
}

// Returns how many packets are in flight once a further one is laid.
fn risen(law: FreeLaw, in_flight: u32) -> u32
    requires { HasRoom law in_flight }
    ensures { result ≡ risen law in_flight }
{
    match law {
        FreeLaw::FirstCome { .. } => in_flight,
        FreeLaw::Limiter { .. } => in_flight + 1,
    }
}
