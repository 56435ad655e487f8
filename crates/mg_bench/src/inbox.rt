//! Input sets go through the inbox of a node, each with a packet at each port, while other packets wait at the first port.

ghost use Rattle.std.specs.Prelude.{◌≡◌, ◌<◌, length};

use crate::words::number;
use mg_policy::Inbox;
use mg_settled::InputSet;
use mg_time::Timestamp;
use mg_value::{Packet, Payload, Policy};
use std::alloc::{AllocError, Global};
use std::sync::Arc;
use std::test::Fail;

/// What is measured: an inbox of how many ports, how many sets, and how many packets that wait.
#[derive(Clone, Copy)]
struct Load {
    ports: u32,
    sets: u32,
    waiting: u32,
}

/// Reads the words for how much is measured, and returns how many sets were claimed.
pub fn run(rt: &HostRuntime) -> Result<u64, Fail> {
    let ports = number(rt, 1)?;
    let sets = number(rt, 2)?;
    let waiting = number(rt, 3)?;
    let count = claimed(
        rt.alloc(),
        Load {
            ports,
            sets,
            waiting,
        },
    )?;
    Ok(u64::from(count))
}

// Makes an inbox, and returns how many sets were claimed of it.
fn claimed(alloc: Global, load: Load) -> Result<u32, AllocError> {
    let payload = Arc::new(alloc, Payload::Int(7))?;
    let mut inbox = Inbox::new(alloc, load.ports, Policy::Default)?;
    claimed_of(alloc, &mut inbox, load, &payload)
}

// Puts the packets of each set into an inbox and claims the set. Returns how many sets were claimed.
fn claimed_of(
    alloc: Global,
    inbox: &mut Inbox,
    load: Load,
    payload: &Arc<Payload>,
) -> Result<u32, AllocError>
    requires { length inbox.old.pool.ports ≡ load.ports }
{
    let first = fill(inbox, load, payload)?;
    let mut set = InputSet::new(alloc, load.ports)?;
    let mut count: u32 = 0;
    for turn in 0..load.sets {
        put_all(inbox, first, load.ports, i64::from(turn), payload)?;
        if inbox.claim(&mut set) {
            count = count.saturating_add(1);
        }
    }
    Ok(count)
}

// Lets packets wait at the first port, later than all sets, if there are to be any. Returns the first port that takes part in the sets.
fn fill(inbox: &mut Inbox, load: Load, payload: &Arc<Payload>) -> Result<u32, AllocError>
    requires { length inbox.old.pool.ports ≡ load.ports }
    ensures { length inbox.new.pool.ports ≡ length inbox.old.pool.ports }
{
    if load.waiting == 0 || load.ports == 0 {
        return Ok(0);
    }
    for turn in 0..load.waiting {
        put(inbox, 0, i64::from(u32::MAX) + i64::from(turn), payload)?;
    }
    Ok(1)
}

// Puts a packet at each port of the inbox from a first one on.
fn put_all(
    inbox: &mut Inbox,
    first: u32,
    ports: u32,
    at: i64,
    payload: &Arc<Payload>,
) -> Result<(), AllocError>
    requires { length inbox.old.pool.ports ≡ ports }
    ensures { length inbox.new.pool.ports ≡ length inbox.old.pool.ports }
{
    for port in first..ports {
        put(inbox, port, at, payload)?;
    }
    Ok(())
}

// Puts a packet at a port of the inbox.
fn put(inbox: &mut Inbox, port: u32, at: i64, payload: &Arc<Payload>) -> Result<(), AllocError>
    requires { port < length inbox.old.pool.ports }
    ensures { length inbox.new.pool.ports ≡ length inbox.old.pool.ports }
{
    let at = Timestamp::of_range(at).unwrap_or(Timestamp::MIN);
    let payload = Arc::try_clone(payload)?;
    match inbox.append(port, Packet { at, payload }) {
        Ok(()) => Ok(()),
        Err(_) => Err(AllocError),
    }
}
