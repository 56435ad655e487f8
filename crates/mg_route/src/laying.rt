//! Why what a call emits can't be appended to an output (MediaPipe, Calculators and Synchronization).
ghost use Rattle.std.specs.Prelude.{◌≡◌, nat_lt, length};
ghost use Rattle.mg_value.specs.Payload.{Plain};
ghost use Rattle.mg_value.specs.Packet.{Stamped};
ghost use Rattle.mg_settled.specs.Prefix.{StreamPrefix};
ghost use Rattle.mg_calc.specs.Laying.{is_below_offset, is_bound_to_silence, laying_fault as the_laying_fault, with_packets};
ghost use Rattle.mg_route.specs.Reasons.{reason_of};

use mg_calc::{Cause, LaidPackets, Phase};
use mg_time::Timestamp;
use mg_value::Packet;

// Whether a packet at a time stands below the time that the node's offset promises.
fn is_below(offset: Option<i64>, phase: &Phase, at: Timestamp) -> bool
    ensures { result ≡ is_below_offset offset phase.now at }
{
    match (offset, phase) {
        (Some(offset), Phase::Process(set_at)) => at < set_at.shift(offset),
        _ => false,
    }
}

// Whether a node with this offset may emit nothing in this phase.
fn is_silent(offset: Option<i64>, phase: &Phase) -> bool
    ensures { result ≡ is_bound_to_silence offset phase.now }
{
    match (offset, phase) {
        (Some(_), Phase::Close) => true,
        _ => false,
    }
}

// Returns the first cause why a packet at a time can't be appended to an output with this bound, if there is one.
#[inline(always)]
fn laying_fault(
    offset: Option<i64>,
    phase: &Phase,
    bound: Timestamp,
    has_packets: bool,
    at: Timestamp,
) -> Option<Cause>
    ensures { (output : StreamPrefix Plain) (packet : Stamped Plain) → output.bound ≡ bound → nat_lt 0 (length output.packets) ≡ has_packets → packet.at ≡ at
        → result ≡ the_laying_fault offset phase.now output packet }
{
    if !at.is_allowed() {
        Some(Cause::NotAllowed)
    } else if is_below(offset, phase, at) {
        Some(Cause::BelowOffset)
    } else if is_silent(offset, phase) {
        Some(Cause::EmitsInClose)
    } else if at < bound {
        Some(Cause::NotAscending)
    } else if at == Timestamp::POST_STREAM && has_packets {
        Some(Cause::NotAlone)
    } else {
        None
    }
}

/// Returns the first cause why packets can't be appended to an output one after the other, if there is one. It depends on the output's
/// bound and on whether the output has packets, and on nothing else of it (MediaPipe, Calculators and Synchronization).
#[inline(always)]
pub fn packets_fault(
    offset: Option<i64>,
    phase: &Phase,
    bound: Timestamp,
    has_packets: bool,
    packets: &LaidPackets,
) -> Option<Cause>
    ensures { (output : StreamPrefix Plain) → output.bound ≡ bound → nat_lt 0 (length output.packets) ≡ has_packets
        → result ≡ reason_of (with_packets offset phase.now output packets.now) }
{
    let all = packets.as_slice();
    if all.len() == 1 {
        return packet_fault(offset, phase, bound, has_packets, &all[0]);
    }
    each_fault(offset, phase, bound, has_packets, packets)
}

// Returns the first cause why a packet can't be appended to an output, if there is one.
#[inline(always)]
fn packet_fault(
    offset: Option<i64>,
    phase: &Phase,
    bound: Timestamp,
    has_packets: bool,
    packet: &Packet,
) -> Option<Cause>
    ensures { (output : StreamPrefix Plain) → output.bound ≡ bound → nat_lt 0 (length output.packets) ≡ has_packets
        → result ≡ the_laying_fault offset phase.now output packet.now }
{
    laying_fault(offset, phase, bound, has_packets, packet.at)
}

// Goes through some packets, and returns the first cause against one of them.
#[inline(never)]
fn each_fault(
    offset: Option<i64>,
    phase: &Phase,
    bound: Timestamp,
    has_packets: bool,
    packets: &LaidPackets,
) -> Option<Cause>
    ensures { (output : StreamPrefix Plain) → output.bound ≡ bound → nat_lt 0 (length output.packets) ≡ has_packets
        → result ≡ reason_of (with_packets offset phase.now output packets.now) }
{
    let mut low = bound;
    let mut has_some = has_packets;
    for packet in packets.as_slice() {
        let fault = laying_fault(offset, phase, low, has_some, packet.at);
        if fault.is_some() {
            return fault;
        }
        low = packet.at.next_allowed();
        has_some = true;
    }
    None
}
