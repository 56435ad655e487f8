//! Queues of what was laid at the outputs of an engine.
ghost use Rattle.std.specs.Prelude.{◌≡◌, ◌<◌, ◌≤◌, ◌-◌, ◌++◌, ℕ, IfOk, OnOk, OnErr, length};
ghost use Rattle.mg_settled.specs.Prefix.{IsPrefix, Ascends, first_time};
ghost use Rattle.mg_stream.specs.Pool.{backlog_of};
ghost use Rattle.mg_stream.specs.Queue.{count_of, MayCome, IsLike, IsQueue, cut_back};
ghost use Rattle.mg_node.specs.Outputs.{without_first, kept_whole};
ghost use Rattle.mg_node.specs.Extending.{lengthened, MayLengthen};
ghost use Rattle.mg_node.specs.Code.QueueLaying.{appended};

use mg_settled::Prefix;
use mg_stream::Queue;
use mg_time::Timestamp;
use mg_value::Packet;
use std::alloc::{AllocError, Global};

/// Returns a queue with all packets of a prefix, and its bound. Payloads are shared.
pub(crate) fn queue_of(alloc: Global, prefix: &Prefix) -> Result<Queue, AllocError>
    requires { IsPrefix prefix.now }
    ensures { IfOk result (λ q. backlog_of q ≡ kept_whole prefix.now) }
{
    let mut queue = Queue::new(alloc);
    fill(&mut queue, prefix.packets.as_slice())?;
    queue.raise(prefix.bound);
    Ok(queue)
}

/// Puts packets after those of a queue. Payloads are shared.
fn fill(queue: &mut Queue, packets: &[Packet]) -> Result<(), AllocError>
    ensures gone { OnOk result (queue.new.gone ≡ queue.old.gone) }
    ensures packets { OnOk result (queue.new.packets ≡ queue.old.packets ++ packets.now) }
    ensures bound { (b : ℕ) → Ascends packets.now b → queue.old.bound ≤ first_time packets.now b → OnOk result (queue.new.bound ≤ b) }
    ensures above { (b : ℕ) → queue.old.bound ≤ b → OnOk result (queue.old.bound ≤ first_time packets.now b) }
    ensures grows { OnOk result (queue.old.bound ≤ queue.new.bound) }

    // Out of memory: what was there before is still there, perhaps with some of the further packets after it.
    ensures left { OnErr result (IsLike (cut_back (length queue.old.packets) queue.old.bound queue.new) queue.old) }
{
    for packet in packets {
        let Ok(()) = queue.append(packet.try_clone()?) else {
            return Err(AllocError);
        };
    }
    Ok(())
}

/// Puts the packets of a prefix after those of a queue, and raises the queue's bound to that of the prefix. Payloads are shared. Out of
/// memory: takes back the packets that came by then, and the queue is as before.
pub(crate) fn lengthen(queue: &mut Queue, more: &Prefix) -> Result<(), AllocError>
    requires { MayLengthen queue.old more.now }
    ensures longer { OnOk result (backlog_of queue.new ≡ lengthened (backlog_of queue.old) more.now) }
    ensures unchanged { OnErr result (backlog_of queue.new ≡ backlog_of queue.old) }
{
    let waiting = queue.waiting();
    let bound = queue.bound();
    let Ok(()) = fill(queue, more.packets.as_slice()) else {
        queue.cut_back(waiting, bound);
        return Err(AllocError);
    };
    queue.raise(more.bound);
    Ok(())
}

/// Takes back the last packets of a queue, which are those of a prefix, and sets the queue's bound.
pub(crate) fn shorten(queue: &mut Queue, more: &Prefix, bound: Timestamp)
    requires count { length more.now.packets ≤ length queue.old.packets }
    requires left { IsQueue (cut_back (length queue.old.packets - length more.now.packets) bound queue.old) }
    ensures { IsLike queue.new (cut_back (length queue.old.packets - length more.now.packets) bound queue.old) }
{
    let waiting = queue.waiting() - u64::from(more.packets.len());
    queue.cut_back(waiting, bound);
}

/// Gives up the first packets of a queue, until `got` packets are given up in all.
pub(crate) fn give_up(queue: &mut Queue, got: u64)
    requires { got ≤ count_of queue.old }
    ensures { backlog_of queue.new ≡ without_first got (backlog_of queue.old) }
{
    while queue.count() - queue.waiting() < got {
        let Some(first) = queue.first() else {
            return;
        };
        drop(queue.pop_at(first));
    }
}

/// Puts a packet that may come after those of an output. There must be room for it.
#[inline(always)]
pub(crate) fn append(output: &mut Queue, packet: Packet)
    requires may_come { MayCome output.old packet.at }
    requires room { 0 < output.old.spare }
    ensures { output.new ≡ appended output.old packet }
{
    output.put(packet);
}
