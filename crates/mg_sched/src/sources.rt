//! Where the stream of an edge comes from.

ghost use Rattle.std.specs.Prelude.{◌≡◌, ◌<◌, length, Some};
ghost use Rattle.mg_calc.specs.Reaching.{producer_of};
ghost use Rattle.mg_sched.specs.Places.{source_of};

use mg_calc::{Edge, Plan, Producer};

/// Returns who writes the stream of an edge.
pub(crate) fn producer_of(plan: &Plan, edge: Edge) -> Producer
    requires { edge.stream < length plan.now.streams }
    ensures { producer_of plan.now edge.stream ≡ Some result }
{
    plan.streams.as_slice()[edge.stream as usize].producer
}

/// Returns the place of the engine that writes the stream of an edge.
pub(crate) fn source_of(plan: &Plan, edge: Edge) -> usize
    requires { edge.stream < length plan.now.streams }
    ensures { source_of plan.now edge ≡ Some result }
{
    match producer_of(plan, edge) {
        Producer::Input(input) => plan.nodes.len() as usize + input as usize,
        Producer::Node { node, .. } => node as usize,
    }
}
