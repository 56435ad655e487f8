//! The parts of an answer: what leaves LOOP, and how the answer is told.
ghost use Rattle.std.specs.Prelude.{◌≡◌, option_map};
ghost use Rattle.mg_settled.specs.Settled.{packet_at};
ghost use Rattle.mg_loopback.specs.Loopback.{value_at, without, told_at};

use crate::Answered;
use mg_stream::Queue;
use mg_time::Timestamp;
use mg_value::Packet;

/// Takes the packets at or below a timestamp, and returns the one exactly at it.
fn take_up_to(queue: &mut Queue, at: Timestamp) -> Option<Packet>
    ensures packet { result ≡ packet_at at queue.old.packets }
    ensures left { queue.new ≡ without (Some at) queue.old }
{
    while let Some(first) = queue.first() {
        if at <= first {
            break;
        }
        drop(queue.pop_at(first));
    }
    queue.pop_at(at)
}

/// Takes the packets of LOOP at or below the time of the packet of MAIN that was answered last, if there was one. Returns the
/// packet of LOOP exactly at that time, if there is one.
pub(crate) fn take_previous(queue: &mut Queue, previous: Option<Timestamp>) -> Option<Packet>
    ensures value { option_map (λ p. p.value) result ≡ value_at previous queue.old.packets }
    ensures left { queue.new ≡ without previous queue.old }
{
    match previous {
        None => None,
        Some(previous) => take_up_to(queue, previous),
    }
}

/// The answer at a timestamp: the packet's payload with this timestamp, or nothing.
pub(crate) fn told_at(at: Timestamp, packet: Option<Packet>) -> Answered
    ensures { result ≡ told_at at (option_map (λ p. p.value) packet) }
{
    match packet {
        None => Answered::Silent { at },
        Some(packet) => Answered::Packet(Packet {
            at,
            payload: packet.payload,
        }),
    }
}
