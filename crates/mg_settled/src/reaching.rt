ghost use Rattle.std.specs.Prelude.{◌≡◌, ◌<◌, ◌^◌, length};
ghost use Rattle.mg_value.specs.Payload.{plain};
ghost use Rattle.mg_value.specs.declared.policy.Policy.TheVariants.{Mux};
ghost use Rattle.mg_settled.specs.Settled.{selected, is_settled, reach};

use crate::look::look_at;
use crate::rest::Rest;
use mg_time::Timestamp;
use mg_value::{Packet, Payload, Policy};

/// Returns how far the settled sets of a node reach, by what is left at its ports (MediaPipe, Synchronization). Each further
/// set stands there or above. What is left after settled sets were taken reaches as far as before. The call takes no memory.
pub fn reach(policy: Policy, rests: &[Rest<'_>]) -> Timestamp
    requires { length rests.now < 2 ^ 32 }
    ensures { result ≡ reach policy rests.now }
{
    match policy {
        Policy::Default => look_at(rests).low,
        Policy::Mux => mux_reach(rests),
    }
}

/// Returns the time of the first packet of SELECT that isn't settled, or SELECT's bound if all are settled. Returns Done if
/// there is no port.
fn mux_reach(rests: &[Rest<'_>]) -> Timestamp
    requires { length rests.now < 2 ^ 32 }
    ensures { result ≡ reach Mux rests.now }
{
    let Some(select) = rests.last() else {
        return Timestamp::DONE;
    };
    for packet in select.packets() {
        if !is_settled(rests, packet) {
            return packet.at;
        }
    }
    select.bound()
}

/// Whether a packet of SELECT is settled: it selects no port, or stands below the bound of the port that it selects.
pub(crate) fn is_settled(rests: &[Rest<'_>], packet: &Packet) -> bool
    requires { length rests.now < 2 ^ 32 }
    ensures { result ≡ is_settled rests.now packet.now }
{
    match selected(rests.len() as u32, &packet.payload) {
        None => true,
        Some(port) => packet.at < rests[port as usize].bound(),
    }
}

/// Returns the port that a payload selects, among `ports` ports. The last of these ports is SELECT.
pub(crate) fn selected(ports: u32, payload: &Payload) -> Option<u32>
    ensures { result ≡ selected ports (plain payload.now) }
{
    match payload {
        Payload::Int(number) if 0 <= *number && *number < ports as i64 - 1 => Some(*number as u32),
        _ => None,
    }
}
