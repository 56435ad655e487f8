//! How packets that all edges of their streams have got are given up. Nothing here takes memory.
ghost use Rattle.std.specs.Prelude.{◌≡◌, ◌<◌, ◌^◌, ℕ, false, length, min, Some, slice_index_or, if◌then◌else◌};
ghost use Rattle.std.specs.List.{fold};
ghost use Rattle.mg_node.specs.Job.{LoggedJob};
ghost use Rattle.mg_sched.specs.StandsFor.{StandsFor, StandsForSome};
ghost use Rattle.mg_sched.specs.Writers.{writer_at};
ghost use Rattle.mg_sched.specs.Code.Outputs.{LaidAt, HaveOutputs, LeadToPorts, AreLaid, AreWithin, AllGiven};
ghost use Rattle.mg_sched.specs.Trims.{came_of, Trims};

use super::Net;
use mg_calc::{Edge, NodeCalculator, Plan, Producer};
use mg_node::{Engine, Intake};

// Returns who writes a stream.
fn writer_of(plan: &Plan, stream: u32) -> Producer
    requires { stream < length plan.now.streams }
    ensures { writer_at plan.now stream ≡ Some result }
{
    plan.streams.as_slice()[stream as usize].producer
}

/// Returns the place of the engine that writes a stream, and the number of the output at which it does.
pub(super) fn output_of(plan: &Plan, stream: u32) -> (usize, u32)
    requires { stream < length plan.now.streams }
    ensures laid { LaidAt plan.now stream result.0 result.1 }
    ensures small { result.0 < 2 ^ 33 }
{
    match writer_of(plan, stream) {
        Producer::Input(input) => (plan.nodes.len() as usize + input as usize, 0),
        Producer::Node { node, port } => (node as usize, port),
    }
}

// Sets the number of each stream to how many packets are laid at its output.
fn set_laid<C: NodeCalculator>(got: &mut [u64], plan: &Plan, engines: &[Engine<C>])
    requires streams { length got.old ≡ length plan.now.streams }
    requires outputs { HaveOutputs plan.now engines.now }
    ensures laid { AreLaid engines.now (length plan.now.streams) got.new }
    ensures count { length got.new ≡ length got.old }
{
    for stream in 0..plan.streams.len() {
        let (place, output) = output_of(plan, stream);
        got[stream as usize] = engines[place].count(output);
    }
}

// Lowers the number of each stream to the fewest packets that came along one of its edges.
fn lower(got: &mut [u64], edges: &[Edge], intakes: &[Intake])
    requires { LeadToPorts (length got.old) edges.now intakes.now }
    ensures lowered { (stream : ℕ) → slice_index_or got.new stream 0 ≡ fold min (slice_index_or got.old stream 0) (came_of intakes.now edges.now stream) }
    ensures count { length got.new ≡ length got.old }
{
    for edge in edges {
        let came = intakes[edge.node as usize].count(edge.port);
        let stream = edge.stream as usize;
        got[stream] = got[stream].min(came);
    }
}

// Returns the number of a stream, or 0 if the stream is kept.
fn spared(number: u64, kept: bool) -> u64
    ensures { result ≡ (if kept then 0 else number) }
{
    if kept { 0 } else { number }
}

// Sets the number of each stream that is kept to 0.
fn spare(got: &mut [u64], kept: &[bool])
    requires { length got.old ≡ length kept.now }
    ensures spared { (stream : ℕ) → slice_index_or got.new stream 0 ≡ (if slice_index_or kept.now stream false then 0 else slice_index_or got.old stream 0) }
    ensures count { length got.new ≡ length got.old }
{
    for stream in 0..kept.len() {
        got[stream] = spared(got[stream], kept[stream]);
    }
}

// Gives up the first packets of each stream, as many in all as its number is.
fn give_up<C: NodeCalculator>(engines: &mut [Engine<C>], plan: &Plan, got: &[u64])
    requires streams { length got.now ≡ length plan.now.streams }
    requires outputs { HaveOutputs plan.now engines.old }
    requires within { AreWithin engines.old got.now }
    ensures { AllGiven C.laws got.now (length plan.now.streams) engines.old engines.new }
{
    for stream in 0..plan.streams.len() {
        let (place, output) = output_of(plan, stream);
        engines[place].give_up(output, got[stream as usize]);
    }
}

impl<C: NodeCalculator> Net<C> {
    /// Gives up the packets that have come along all edges of their streams. Of a stream without edges it gives up all packets that are
    /// laid. Of a stream that is kept it gives up none. It looks at each stream and each edge once, and the next sweep looks over the whole
    /// net.
    pub fn trim(&mut self)
        requires stands { StandsForSome C.laws self.old }
        ensures trims { Trims self.old self.new }

        // The net still stands for each job for which it stood.
        ensures stands { (job : LoggedJob C.laws) → StandsFor job self.old → StandsFor job self.new }
    {
        self.known = false;
        set_laid(&mut self.got, &self.plan, &self.engines);
        lower(&mut self.got, self.plan.edges.as_slice(), &self.intakes);
        spare(&mut self.got, &self.kept);
        give_up(&mut self.engines, &self.plan, &self.got);
    }
}
