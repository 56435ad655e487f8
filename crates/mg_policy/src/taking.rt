//! Taking a set: what leaves the queues with it.
ghost use Rattle.std.specs.Prelude.{◌≡◌, ◌<◌, ◌+◌, All, Some, None, length, map, slice_get, if◌then◌else◌};
ghost use Rattle.mg_settled.specs.Prefix.{IsPrefix};
ghost use Rattle.mg_settled.specs.Settled.{settled_sets, packet_at};
ghost use Rattle.mg_stream.specs.Queue.{rest_of};
ghost use Rattle.mg_stream.specs.Pool.{queue_at, queues_of, with_queue, backlog_of, queue_of, pool_len};
ghost use Rattle.mg_policy.specs.declared.readiness.Readiness.TheVariants.{Ready};
ghost use Rattle.mg_policy.specs.Inbox.{HasPorts, rests, Tells};
ghost use Rattle.mg_policy.specs.Code.Taking.{dropped_before, dropped_through};

use crate::selecting::{chosen_port, is_shown};
use mg_settled::InputSet;
use mg_stream::Pool;
use mg_time::Timestamp;
use mg_value::{Packet, Policy};

/// Takes the next set, which must stand at `at`, into `into`: from each port go the packets that stand there or before it.
pub(crate) fn take_set(pool: &mut Pool, policy: Policy, at: Timestamp, into: &mut InputSet)
    requires ports { HasPorts policy pool.old }
    requires places { length into.old ≡ length pool.old.ports }
    requires next { Tells policy (Ready at) (queues_of pool.old) }
    ensures prefixes { All IsPrefix (rests (queues_of pool.old)) }
    ensures set { slice_get (settled_sets policy (rests (queues_of pool.old))) 0 ≡ Some (record { at = at; set = into.new }) }
    ensures ports { pool.new.ports ≡ map (λ b. backlog_of (dropped_through at (queue_of 0 b))) pool.old.ports }
    ensures places { length into.new ≡ length into.old }
    ensures room { pool.new.spare + pool_len pool.new ≡ pool.old.spare + pool_len pool.old }
{
    let chosen = chosen_port(pool, policy);
    let ports = pool.ports();
    for port in 0..ports {
        let packet = take_through(pool, port, at);
        let shown = is_shown(policy, ports, chosen, port);
        into.put(port, where_shown(packet, shown));
    }
}

/// Returns the packet if it is shown, and otherwise `None`.
fn where_shown(packet: Option<Packet>, shown: bool) -> Option<Packet>
    ensures { result ≡ (if shown then packet else None) }
{
    if shown { packet } else { None }
}

/// Takes the packets of a port that stand at a time or before it, and returns the one at that time.
fn take_through(pool: &mut Pool, port: u32, at: Timestamp) -> Option<Packet>
    requires port { port < length pool.old.ports }
    requires rest { IsPrefix (rest_of (queue_at pool.old port)) }
    ensures packet { result ≡ packet_at at (queue_at pool.old port).packets }
    ensures pool { pool.new ≡ with_queue pool.old port (dropped_through at (queue_at pool.old port)) }
{
    drop_before(pool, port, at);
    pool.pop_at(port, at)
}

/// Drops the packets of a port that stand before a time.
fn drop_before(pool: &mut Pool, port: u32, at: Timestamp)
    requires { port < length pool.old.ports }
    ensures { pool.new ≡ with_queue pool.old port (dropped_before at (queue_at pool.old port)) }
{
    while let Some(first) = pool.first(port) {
        if first >= at {
            return;
        }
        let _ = pool.pop_at(port, first);
    }
}
