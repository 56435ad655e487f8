//! How many packets are held, at most `u64::MAX`.
ghost use Rattle.std.specs.Prelude.{◌≡◌, ◌-◌, ◌^◌, length, min, sum_by};
ghost use Rattle.mg_stream.specs.Pool.{pool_len};

use mg_policy::Inbox;
use mg_stream::Queue;

/// Returns how many packets some queues hold.
pub(crate) fn held_at(queues: &[Queue]) -> u64
    ensures { result ≡ min (sum_by (λ q. length q.packets) queues.now) (2 ^ 64 - 1) }
{
    let mut held: u64 = 0;
    for queue in queues {
        held = held.saturating_add(queue.waiting());
    }
    held
}

/// Returns how many packets wait in an inbox.
pub(crate) fn held_in(inbox: &Inbox) -> u64
    ensures { result ≡ min (pool_len inbox.now.pool) (2 ^ 64 - 1) }
{
    let mut held: u64 = 0;
    for port in 0..inbox.ports() {
        held = held.saturating_add(inbox.waiting(port));
    }
    held
}
