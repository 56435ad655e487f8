//! Looking at what an engine keeps of what it has laid.
ghost use Rattle.std.specs.Prelude.{◌≡◌, ◌-◌, ◌<◌, length, slice_index_or, option_copied};
ghost use Rattle.mg_stream.specs.Pool.{empty_backlog, backlog_of};
ghost use Rattle.mg_node.specs.Looking.{kept_packet};

use super::Engine;
use mg_calc::NodeCalculator;
use mg_stream::Queue;
use mg_value::Packet;

// How many packets of a queue are gone.
fn gone(queue: &Queue) -> u64
    ensures { result ≡ queue.now.gone }
{
    queue.count() - queue.waiting()
}

// The packet of a queue by its number, counted from 0 with those that are gone, if it waits.
fn packet_at(queue: &Queue, number: u64) -> Option<&Packet>
    ensures { option_copied result ≡ kept_packet (backlog_of queue.now) number }
{
    let gone = gone(queue);
    if number < gone {
        return None;
    }
    queue.get(number - gone)
}

impl<C: NodeCalculator> Engine<C> {
    /// Returns the packet of this number that was laid at an output, counted from 0. Returns `None` if the packet is given up, or wasn't
    /// laid yet.
    pub fn packet(&self, output: u32, number: u64) -> Option<&Packet>
        requires { output < length self.now.outputs }
        ensures { option_copied result ≡ kept_packet (slice_index_or self.now.outputs output empty_backlog) number }
    {
        packet_at(&self.outputs[output as usize], number)
    }
}
