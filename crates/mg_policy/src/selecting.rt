//! The mux policy's SELECT, the last port, and the ports that its packets select.
ghost use Rattle.std.specs.Prelude.{◌≡◌, ◌<◌, ◌+◌, ◌-◌, All, length};
ghost use Rattle.mg_value.specs.Payload.{plain};
ghost use Rattle.mg_value.specs.declared.policy.Policy.TheVariants.{Mux};
ghost use Rattle.mg_settled.specs.Prefix.{IsPrefix};
ghost use Rattle.mg_settled.specs.Settled.{is_settled, selected};
ghost use Rattle.mg_settled.specs.FirstSet.{chosen_port, is_shown};
ghost use Rattle.mg_stream.specs.Pool.{queues_of};
ghost use Rattle.mg_policy.specs.Inbox.{HasPorts, rests};

use mg_stream::Pool;
use mg_value::{Packet, Payload, Policy};

/// The port number of SELECT.
pub(crate) fn select_port(pool: &Pool) -> u32
    requires { HasPorts Mux pool.now }
    ensures number { result + 1 ≡ length pool.now.ports }
    ensures prefixes { All IsPrefix (rests (queues_of pool.now)) }
{
    pool.ports() - 1
}

/// Whether a packet of SELECT is settled: it selects no port, or stands below the bound of the port that it selects.
pub(crate) fn is_settled(pool: &Pool, packet: &Packet) -> bool
    ensures { result ≡ is_settled (rests (queues_of pool.now)) packet.now }
{
    match selected(pool.ports(), &packet.payload) {
        None => true,
        Some(port) => packet.at < pool.bound(port),
    }
}

/// Returns the port that a packet of SELECT with this payload selects. There are `ports` ports, and the last is SELECT. Returns
/// `None` if the payload isn't the number of another port.
fn selected(ports: u32, payload: &Payload) -> Option<u32>
    ensures { result ≡ selected ports (plain payload.now) }
{
    match payload {
        Payload::Int(number) if 0 <= *number && *number < ports as i64 - 1 => Some(*number as u32),
        _ => None,
    }
}

/// Returns the port that SELECT's first packet selects, if one waits and it selects a port. Returns `None` under the default
/// policy.
pub(crate) fn chosen_port(pool: &Pool, policy: Policy) -> Option<u32>
    requires { HasPorts policy pool.now }
    ensures { result ≡ chosen_port policy (rests (queues_of pool.now)) }
{
    match policy {
        Policy::Default => None,
        Policy::Mux => {
            let first = pool.front(select_port(pool))?;
            selected(pool.ports(), &first.payload)
        }
    }
}

/// Whether a set shows the packet of a port: by default of each port, under Mux of SELECT and of the port that is chosen.
pub(crate) fn is_shown(policy: Policy, ports: u32, chosen: Option<u32>, port: u32) -> bool
    requires { port < ports }
    ensures { result ≡ is_shown policy ports chosen port }
{
    match policy {
        Policy::Default => true,
        Policy::Mux => port + 1 == ports || chosen == Some(port),
    }
}
