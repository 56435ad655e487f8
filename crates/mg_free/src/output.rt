//! How the output of a free node grows.
ghost use Rattle.std.specs.Prelude.{◌≡◌, ◌∷◌, ◌++◌, [], length, ◌<◌, ◌^◌, IfOk, IfErr, OnErr};
ghost use Rattle.mg_settled.specs.Prefix.{appended, closed, raised};
ghost use Rattle.mg_free.specs.Free.{can_follow as can_still_follow};

use mg_settled::Prefix;
use mg_time::Timestamp;
use mg_value::{BlockList, Packet, PacketList};
use std::alloc::{AllocError, AllocFailed, Global};
use std::mem;

// Returns the list of a vector's packets, fewer than 2^32.
fn list_of(packets: Vec<Packet>) -> PacketList
    requires { length packets.items < 2 ^ 32 }
    ensures { result ≡ packets.items }
{
    match BlockList::from_vec(packets) {
        Ok(list) => list,
        Err(_) => unreachable!(),
    }
}

/// Returns the empty list. It allocates nothing.
pub fn no_packets(alloc: Global) -> PacketList
    ensures { result ≡ [] }
{
    list_of(Vec::new(alloc))
}

// Returns a list with a further packet. Out of memory: the error gives the list back as it was.
fn with_packet(list: PacketList, packet: Packet) -> Result<PacketList, AllocFailed<PacketList>>
    ensures more { IfOk result (λ now. now ≡ list ++ packet ∷ []) }
    ensures same { IfErr result (λ e. e.value ≡ list) }
{
    if list.len() == u32::MAX {
        return Err(AllocFailed { value: list });
    }
    let mut packets = list.into_vec();
    match packets.push(packet) {
        Ok(()) => Ok(list_of(packets)),
        Err(_) => Err(AllocFailed {
            value: list_of(packets),
        }),
    }
}

/// Appends a packet to an output. On an error the output stays.
pub fn lay(alloc: Global, output: &mut Prefix, packet: &Packet) -> Result<(), AllocError>
    ensures laid { IfOk result (λ _. output.new ≡ appended output.old packet.now) }
    ensures unchanged { OnErr result (output.new ≡ output.old) }
{
    let further = packet.try_clone()?;
    let before = mem::replace(&mut output.packets, no_packets(alloc));
    match with_packet(before, further) {
        Ok(packets) => {
            output.packets = packets;
            output.bound = packet.at.next_allowed();
            Ok(())
        }
        Err(failed) => {
            output.packets = failed.value;
            Err(AllocError)
        }
    }
}

/// Raises an output to a bound, if its own is lower.
pub fn raise(output: &mut Prefix, bound: Timestamp)
    ensures { output.new ≡ raised output.old bound }
{
    if output.bound < bound {
        output.bound = bound;
    }
}

/// Closes an output: its bound is Done.
pub fn close(output: &mut Prefix)
    ensures { output.new ≡ closed output.old }
{
    output.bound = Timestamp::DONE;
}

/// Whether a packet at a time can still be laid on an output.
pub fn can_follow(output: &Prefix, at: Timestamp) -> bool
    ensures { result ≡ can_still_follow output.now at }
{
    output.bound <= at && !(at == Timestamp::POST_STREAM && !output.packets.is_empty())
}
