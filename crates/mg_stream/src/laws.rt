//! Laws of pools: each function does nothing, and its contract is the law.
ghost use Rattle.std.specs.Prelude.{◌≡◌, ◌≢◌, ◌<◌, ℕ, length};
ghost use Rattle.mg_value.specs.Payload.{Plain};
ghost use Rattle.mg_settled.specs.Prefix.{StreamPrefix};
ghost use Rattle.mg_stream.specs.Queue.{Waiting, StandsFor, IsLike};
ghost use Rattle.mg_stream.specs.Pool.{Pooled, queue_at, with_queue};

/// If a queue is put at a port of a pool, that port has it. Each other port keeps its queue but for the room, and stands for
/// the same prefixes as before.
pub fn a_step_stays_at_its_port()
    ensures here { (pool : Pooled Plain) (port : ℕ) (q : Waiting Plain) → port < length pool.ports → queue_at (with_queue pool port q) port ≡ q }
    ensures others { (pool : Pooled Plain) (port other : ℕ) (q : Waiting Plain) → other ≢ port → IsLike (queue_at (with_queue pool port q) other) (queue_at pool other) }
    ensures stand { (pool : Pooled Plain) (port other : ℕ) (q : Waiting Plain) (s : StreamPrefix Plain) → other ≢ port
        → StandsFor (queue_at pool other) s → StandsFor (queue_at (with_queue pool port q) other) s }
    ensures ports { (pool : Pooled Plain) (port : ℕ) (q : Waiting Plain) → length (with_queue pool port q).ports ≡ length pool.ports }
{}
