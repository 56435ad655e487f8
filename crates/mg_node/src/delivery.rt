//! Bringing the packets of an output to a port.
ghost use Rattle.std.specs.Prelude.{◌≡◌, ◌<◌, ◌+◌, ◌-◌, ◌^◌, IfOk, false, length, nat_lt, is_ok, if◌then◌else◌};
ghost use Rattle.mg_stream.specs.Queue.{with_packet, count_of, MayCome};
ghost use Rattle.mg_node.specs.Ports.{ports_in, port_queue, with_port, with_room};
ghost use Rattle.mg_node.specs.Delivery.{missing, delivered, Delivers, AreOfOne};
ghost use Rattle.mg_node.specs.Code.Bringing.{BroughtAll};
ghost use Rattle.mg_node.specs.declared.delivered.Delivered as Delivered;

use crate::{Delivered, Intake};
use mg_stream::Queue;
use mg_value::Packet;
use std::alloc::AllocError;

/// Brings at most `most` packets of an output to a port that hasn't got them, and the bound once all are there.
pub(crate) fn deliver(output: &Queue, intake: &mut Intake, port: u32, most: u32) -> Delivered
    requires port { port < ports_in intake.old.waits }
    requires of_one { AreOfOne output.now (port_queue intake.old.waits port) }
    ensures moved { Delivers result output.now port most intake.old.waits intake.new.waits }
    ensures claimed { intake.new.claimed ≡ intake.old.claimed }
    ensures still { result ≡ Delivered.Moved 0 false → intake.new ≡ intake.old }
{
    let packets = match bring_all(output, intake, port, most) {
        Ok(packets) => packets,
        Err(packets) => return Delivered::OutOfMemory { packets },
    };
    let raised = raise_behind(output, intake, port);
    Delivered::Moved { packets, raised }
}

/// Brings at most `most` packets of an output to a port that hasn't got them, and returns how many came. Out of memory for the next packet:
/// the error is that number, too.
fn bring_all(output: &Queue, intake: &mut Intake, port: u32, most: u32) -> Result<u32, u32>
    requires port { port < ports_in intake.old.waits }
    requires of_one { AreOfOne output.now (port_queue intake.old.waits port) }
    ensures brought { BroughtAll result output.now port most intake.old.waits intake.new.waits }
    ensures claimed { intake.new.claimed ≡ intake.old.claimed }
    ensures still { IfOk result (λ n. n ≡ 0 → intake.new ≡ intake.old) }
{
    let first = first_missing(output, intake, port);
    let mut packets = 0;
    while packets < most {
        let Some(packet) = output.get(first + u64::from(packets)) else {
            return Ok(packets);
        };
        let Ok(()) = bring(packet, intake, port) else {
            return Err(packets);
        };
        packets += 1;
    }
    Ok(packets)
}

/// Returns the place of the first packet that a port hasn't got, among the packets that wait at an output.
fn first_missing(output: &Queue, intake: &Intake, port: u32) -> u64
    requires port { port < ports_in intake.now.waits }
    requires of_one { AreOfOne output.now (port_queue intake.now.waits port) }
    ensures first { result ≡ count_of (port_queue intake.now.waits port) - output.now.gone }
    ensures few { result + length (missing output.now (port_queue intake.now.waits port)) < 2 ^ 64 }
{
    let gone = output.count() - output.waiting();
    intake.count(port) - gone
}

/// Puts a packet after those that came to a port. The payload is shared.
fn bring(packet: &Packet, intake: &mut Intake, port: u32) -> Result<(), AllocError>
    requires port { port < ports_in intake.old.waits }
    requires may_come { MayCome (port_queue intake.old.waits port) packet.now.at }
    ensures came { intake.new.waits ≡ with_port intake.old.waits port
        (with_room (if is_ok result then with_packet (port_queue intake.old.waits port) packet.now else port_queue intake.old.waits port) (port_queue intake.new.waits port).spare) }
    ensures claimed { intake.new.claimed ≡ intake.old.claimed }
{
    let packet = packet.try_clone()?;
    intake.put(port, packet)
}

/// Raises a port to the bound of an output, if the port has all of the output's packets, and returns whether the port's bound rose.
fn raise_behind(output: &Queue, intake: &mut Intake, port: u32) -> bool
    requires port { port < ports_in intake.old.waits }
    requires of_one { AreOfOne output.now (port_queue intake.old.waits port) }
    ensures raised { intake.new.waits ≡ with_port intake.old.waits port (delivered output.now (port_queue intake.old.waits port) 0) }
    ensures rose { result ≡ nat_lt (port_queue intake.old.waits port).bound (port_queue intake.new.waits port).bound }
    ensures claimed { intake.new.claimed ≡ intake.old.claimed }
    ensures still { result ≡ false → intake.new ≡ intake.old }
{
    if intake.count(port) < output.count() {
        return false;
    }
    let before = intake.bound(port);
    intake.raise(port, output.bound());
    before < output.bound()
}
