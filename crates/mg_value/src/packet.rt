ghost use Rattle.std.specs.Prelude.{◌≡◌, IfOk};

use crate::{BlockList, Payload};
use mg_time::Timestamp;
use std::alloc::AllocError;
use std::marker::Model;
use std::sync::Arc;

/// A packet of a stream: a shared value at a timestamp. Contracts see the timestamp and the plain payload.
#[derive(Debug, Drop)]
pub struct Packet {
    pub at: Timestamp,
    pub payload: Arc<Payload>,
}

impl Model for Packet {
    ghost use Rattle.std.specs.Arc.{arc_value};
    ghost use Rattle.mg_value.specs.Payload.{Plain, plain};
    ghost use Rattle.mg_value.specs.Packet.{Stamped};
    ghost use Rattle.mg_value.specs.Codes.{packet_code};

    ghost Value = { Stamped Plain };

    ghost coded = { packet_code };

    ghost view = { λ p. record { at = p.at; value = plain (arc_value p.payload) } };
}

/// A list of packets.
pub type PacketList = BlockList<Packet>;

impl Packet {
    /// Makes a second packet that shares the payload. A payload that can't be shared counts as out of memory.
    pub fn try_clone(&self) -> Result<Packet, AllocError>
        ensures { IfOk result (λ p. p ≡ self.now) }
    {
        let payload = Arc::try_clone(&self.payload)?;
        Ok(Packet {
            at: self.at,
            payload,
        })
    }
}
