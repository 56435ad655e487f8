ghost use Rattle.std.specs.Prelude.{◌≡◌, ◌<◌, ◌↔◌, length, replicate, slice_get, slice_set, unwrap_or, option_copied, IfOk, None, [], IsTrue};

use mg_value::Packet;
use std::alloc::{AllocError, Global};
use std::marker::Model;

/// What a calculator is shown at one time: for each input port a packet, or none (MediaPipe, Synchronization).
/// Contracts see the list of these, one per port.
#[derive(Debug, Drop)]
pub struct InputSet {
    places: Vec<Option<Packet>>,
}

impl Model for InputSet {
    ghost use Rattle.std.specs.Prelude.{List, Option, ◌<◌, ◌^◌, vec_len};
    ghost use Rattle.mg_value.specs.Payload.{Plain};
    ghost use Rattle.mg_value.specs.Packet.{Stamped};
    ghost use Rattle.mg_settled.specs.Codes.{set_code};

    ghost Value = { List (Option (Stamped Plain)) };

    ghost coded = { set_code };

    ghost view = { λ s. s.places.items };

    ghost invariant = { λ s. vec_len s.places < 2 ^ 32 };
}

impl InputSet {
    /// Makes a set of `ports` ports, all empty.
    pub fn new(alloc: Global, ports: u32) -> Result<InputSet, AllocError>
        ensures { IfOk result (λ s. s ≡ replicate ports None) }
    {
        let mut places = Vec::with_capacity(alloc, ports as usize)?;
        for _ in 0..ports {
            places.push(None)?;
        }
        Ok(InputSet { places })
    }

    /// How many ports there are.
    pub fn len(&self) -> u32
        ensures { result ≡ length self.now }
    {
        self.places.len() as u32
    }

    /// Whether there is no port.
    pub fn is_empty(&self) -> bool
        ensures { IsTrue result ↔ (self.now ≡ []) }
    {
        self.places.is_empty()
    }

    /// Returns the packet at a port, or None if there is no packet or no such port.
    pub fn get(&self, port: u32) -> Option<&Packet>
        ensures { option_copied result ≡ unwrap_or (slice_get self.now port) None }
    {
        self.places.get(port as usize)?.as_ref()
    }

    /// Puts a packet, or none, at a port, in place of what was there.
    pub fn put(&mut self, port: u32, packet: Option<Packet>)
        requires { port < length self.old }
        ensures { self.new ≡ slice_set self.old port packet }
    {
        self.places[port as usize] = packet;
    }
}
