//! What one look at each port of a pool finds.
ghost use Rattle.std.specs.Prelude.{◌≡◌, ◌<◌, ◌↔◌, All, min, unwrap_or, IfNone, IsTrue};
ghost use Rattle.mg_time.specs.Time.{done};
ghost use Rattle.mg_value.specs.declared.policy.Policy.TheVariants.{Default, Mux};
ghost use Rattle.mg_settled.specs.Prefix.{IsPrefix};
ghost use Rattle.mg_settled.specs.Settled.{low, is_settled, reach};
ghost use Rattle.mg_settled.specs.FirstSet.{earliest, first_set_time};
ghost use Rattle.mg_stream.specs.Pool.{queues_of};
ghost use Rattle.mg_policy.specs.Inbox.{HasPorts, rests};

use crate::selecting::{is_settled, select_port};
use mg_stream::Pool;
use mg_time::Timestamp;
use mg_value::Policy;

/// What a look at the ports of a pool finds.
#[derive(Clone, Copy)]
pub(crate) struct Look {
    /// The time of the next set, if there is one.
    pub(crate) next: Option<Timestamp>,
    /// Whether the reach is the end of all times. It has no meaning if there is a next set.
    pub(crate) ended: bool,
}

/// Looks once at each port that the policy asks for.
pub(crate) fn look_at(pool: &Pool, policy: Policy) -> Look
    requires { HasPorts policy pool.now }
    ensures next { result.next ≡ first_set_time policy (rests (queues_of pool.now)) }
    ensures ended { IfNone result.next (IsTrue result.ended ↔ (reach policy (rests (queues_of pool.now)) ≡ done)) }
    ensures prefixes { All IsPrefix (rests (queues_of pool.now)) }
{
    match policy {
        Policy::Default => look_at_all(pool),
        Policy::Mux => look_at_select(pool),
    }
}

/// Looks at all ports.
fn look_at_all(pool: &Pool) -> Look
    ensures next { result.next ≡ first_set_time Default (rests (queues_of pool.now)) }
    ensures ended { IsTrue result.ended ↔ (reach Default (rests (queues_of pool.now)) ≡ done) }
    ensures prefixes { All IsPrefix (rests (queues_of pool.now)) }
{
    let times = times_of(pool);
    let ended = times.low == Timestamp::DONE;
    if times.earliest < times.low {
        return Look {
            next: Some(times.earliest),
            ended,
        };
    }
    Look { next: None, ended }
}

/// Looks at SELECT, and at the port that its first packet selects.
fn look_at_select(pool: &Pool) -> Look
    requires { HasPorts Mux pool.now }
    ensures next { result.next ≡ first_set_time Mux (rests (queues_of pool.now)) }
    ensures ended { IfNone result.next (IsTrue result.ended ↔ (reach Mux (rests (queues_of pool.now)) ≡ done)) }
    ensures prefixes { All IsPrefix (rests (queues_of pool.now)) }
{
    let select = select_port(pool);
    let Some(packet) = pool.front(select) else {
        return Look {
            next: None,
            ended: pool.bound(select) == Timestamp::DONE,
        };
    };
    if is_settled(pool, packet) {
        return Look {
            next: Some(packet.at),
            ended: false,
        };
    }
    Look {
        next: None,
        ended: false,
    }
}

/// How far the sets reach: each set that isn't settled yet stands there or above. Under Mux this looks at the packets of SELECT that are
/// settled, and at one more.
pub(crate) fn reach_of(pool: &Pool, policy: Policy) -> Timestamp
    requires { HasPorts policy pool.now }
    ensures { result ≡ reach policy (rests (queues_of pool.now)) }
{
    match policy {
        Policy::Default => times_of(pool).low,
        Policy::Mux => select_reach(pool),
    }
}

/// The time of the first packet of SELECT that isn't settled, or SELECT's bound.
fn select_reach(pool: &Pool) -> Timestamp
    requires { HasPorts Mux pool.now }
    ensures { result ≡ reach Mux (rests (queues_of pool.now)) }
{
    let select = select_port(pool);
    for packet in pool.waits(select) {
        if !is_settled(pool, packet) {
            return packet.at;
        }
    }
    pool.bound(select)
}

/// Returns the time of the next set under the default policy, or how far the sets reach if there is none. Looks once at each
/// port.
pub(crate) fn least_time(pool: &Pool) -> Timestamp
    ensures time { result ≡ unwrap_or (first_set_time Default (rests (queues_of pool.now))) (low (rests (queues_of pool.now))) }
    ensures prefixes { All IsPrefix (rests (queues_of pool.now)) }
{
    let times = times_of(pool);
    lesser(times.earliest, times.low)
}

/// The times that the default policy asks for.
#[derive(Clone, Copy)]
struct Times {
    /// The least timestamp of a packet that waits, and `DONE` if no packet waits.
    earliest: Timestamp,
    /// The least bound, and `DONE` if there is no port.
    low: Timestamp,
}

/// Finds the least timestamp that waits and the least bound, with one look at each port.
fn times_of(pool: &Pool) -> Times
    ensures earliest { result.earliest ≡ earliest (rests (queues_of pool.now)) }
    ensures low { result.low ≡ low (rests (queues_of pool.now)) }
    ensures prefixes { All IsPrefix (rests (queues_of pool.now)) }
{
    let mut earliest = Timestamp::DONE;
    let mut low = Timestamp::DONE;
    for port in 0..pool.ports() {
        let first = pool.first(port).unwrap_or(Timestamp::DONE);
        earliest = lesser(earliest, first);
        low = lesser(low, pool.bound(port));
    }
    Times { earliest, low }
}

/// The lesser of two timestamps.
fn lesser(a: Timestamp, b: Timestamp) -> Timestamp
    ensures { result ≡ min a b }
{
    if b < a { b } else { a }
}
