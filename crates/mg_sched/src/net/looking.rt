//! A look at the streams of a net. Nothing here takes memory.
ghost use Rattle.std.specs.Prelude.{◌≡◌, ◌<◌, ◌≤◌, None, length, option_copied};
ghost use Rattle.mg_value.specs.Payload.{Plain};
ghost use Rattle.mg_stream.specs.Pool.{Backlog};
ghost use Rattle.mg_node.specs.Looking.{kept_packet};
ghost use Rattle.mg_sched.specs.StandsFor.{StandsForSome};
ghost use Rattle.mg_sched.specs.Code.Outputs.{HaveOutputs};
ghost use Rattle.mg_sched.specs.Looks.{IsOutputOf, IsOutputAmong};

use super::Net;
use super::trimming::output_of;
use mg_calc::{NodeCalculator, Plan};
use mg_node::Engine;
use mg_time::Timestamp;
use mg_value::Packet;

// Returns a stream's packet of this number, if it is laid and not given up.
fn packet_of<'a, C: NodeCalculator>(
    plan: &Plan,
    engines: &'a [Engine<C>],
    stream: u32,
    number: u64,
) -> Option<&'a Packet>
    requires stream { stream < length plan.now.streams }
    requires outputs { HaveOutputs plan.now engines.now }
    ensures { (output : Backlog Plain) → IsOutputAmong plan.now engines.now stream output → option_copied result ≡ kept_packet output number }
{
    let (place, output) = output_of(plan, stream);
    engines[place].packet(output, number)
}

// Returns the bound of a stream.
fn bound_of<C: NodeCalculator>(plan: &Plan, engines: &[Engine<C>], stream: u32) -> Timestamp
    requires stream { stream < length plan.now.streams }
    requires outputs { HaveOutputs plan.now engines.now }
    ensures { (output : Backlog Plain) → IsOutputAmong plan.now engines.now stream output → result ≡ output.bound }
{
    let (place, output) = output_of(plan, stream);
    engines[place].bound(output)
}

impl<C: NodeCalculator> Net<C> {
    /// Returns a stream's packet of this number, from 0 on, if it is laid and not given up. A stream that isn't there has no packets.
    pub fn packet(&self, stream: u32, number: u64) -> Option<&Packet>
        requires { StandsForSome C.laws self.now }
        ensures packet { (output : Backlog Plain) → IsOutputOf self.now stream output → option_copied result ≡ kept_packet output number }
        ensures past { length self.now.plan.streams ≤ stream → option_copied result ≡ None }
    {
        if stream < self.plan.streams.len() {
            packet_of(&self.plan, &self.engines, stream, number)
        } else {
            None
        }
    }

    /// Returns the bound of a stream: the lowest timestamp that a further packet of it may have.
    pub fn bound(&self, stream: u32) -> Timestamp
        requires stream { stream < length self.now.plan.streams }
        requires stands { StandsForSome C.laws self.now }
        ensures { (output : Backlog Plain) → IsOutputOf self.now stream output → result ≡ output.bound }
    {
        bound_of(&self.plan, &self.engines, stream)
    }
}
