ghost use Rattle.std.specs.Prelude.{◌≡◌, ◌↔◌, All, IsTrue, IfOk};
ghost use Rattle.mg_settled.specs.Prefix.{IsPrefix};
ghost use Rattle.mg_settled.specs.Code.Standing.{MayStand};

use mg_time::Timestamp;
use mg_time::laws::done_is_greatest;
use mg_value::{BlockList, PacketList};
use std::alloc::{AllocError, Global};
use std::marker::Model;

/// What is known of a stream so far: its first packets, and its bound, the lowest timestamp that a further packet
/// may have (MediaPipe, Synchronization).
#[derive(Debug, Drop)]
pub struct Prefix {
    pub packets: PacketList,
    pub bound: Timestamp,
}

impl Model for Prefix {
    ghost use Rattle.mg_value.specs.Payload.{Plain};
    ghost use Rattle.mg_settled.specs.Prefix.{StreamPrefix};
    ghost use Rattle.mg_settled.specs.Codes.{plain_prefix_code};

    ghost Value = { StreamPrefix Plain };

    ghost coded = { plain_prefix_code };

    ghost view = { λ p. record { packets = p.packets; bound = p.bound } };
}

/// A list of prefixes, as those of all streams of a graph, in the order of their numbers.
pub type PrefixList = BlockList<Prefix>;

impl Prefix {
    /// Makes a second prefix, whose packets share their payloads with this one's.
    pub fn try_clone(&self, alloc: Global) -> Result<Prefix, AllocError>
        ensures { IfOk result (λ p. p ≡ self.now) }
    {
        let mut packets = Vec::with_capacity(alloc, self.packets.len() as usize)?;
        for packet in self.packets.as_slice() {
            packets.push(packet.try_clone()?)?;
        }
        Ok(Prefix {
            packets: BlockList::from_vec(packets)?,
            bound: self.bound,
        })
    }

    /// Returns whether the prefix keeps the rule of streams. Its times are allowed and ascend up to its bound, and a packet at
    /// PostStream is the only one.
    pub fn is_prefix(&self) -> bool
        ensures { IsTrue result ↔ IsPrefix self.now }
    {
        done_is_greatest(self.bound);
        let packets = self.packets.as_slice();
        let mut lowest = Timestamp::PRE_STREAM;
        for packet in packets {
            if !may_stand(packet.at, lowest, packets.len()) {
                return false;
            }
            lowest = packet.at.next_allowed();
        }
        lowest <= self.bound
    }
}

/// Whether a packet may stand at a time in a stream of `count` packets, and isn't below `lowest`.
fn may_stand(at: Timestamp, lowest: Timestamp, count: usize) -> bool
    ensures { IsTrue result ↔ MayStand count lowest at }
{
    at.is_allowed() && lowest <= at && (at != Timestamp::POST_STREAM || count == 1)
}

/// Whether each prefix keeps the rule of streams, as `Prefix::is_prefix` tells.
pub fn are_prefixes(prefixes: &PrefixList) -> bool
    ensures { IsTrue result ↔ All IsPrefix prefixes.now }
{
    prefixes.as_slice().iter().all(|prefix| prefix.is_prefix())
}
