//! Rounds: the outputs of the nodes give the streams of the next round, and with these the nodes go on.
ghost use Rattle.std.specs.Prelude.{◌≡◌, ◌<◌, ◌++◌, ◌∷◌, [], All, Some, if◌then◌else◌, length, slice_get, slice_set, IfOk, OnOk};
ghost use Rattle.mg_value.specs.Payload.{Plain};
ghost use Rattle.mg_settled.specs.Prefix.{StreamPrefix, IsPrefix};
ghost use Rattle.mg_settled.specs.Extension.{IsExtendedBy};
ghost use Rattle.mg_calc.specs.declared.plan_stream.PlanStream.{PlanStream};
ghost use Rattle.mg_calc.specs.Equations.{stream_of};
ghost use Rattle.mg_calc.specs.Plan.{HasNumbers, IsValid, InputsFit};
ghost use Rattle.mg_calc.specs.Rules.{Laws};
ghost use Rattle.mg_calc.specs.Shape.{IsServed, IsShapeOf, IsStated};
ghost use Rattle.mg_equations.specs.Code.Changes.{is_changed};
ghost use Rattle.mg_equations.specs.Code.Growing.{given_streams, IsGivenBy, MayGrow, AreChanged};
ghost use Rattle.mg_equations.specs.Code.Progress.{HasCome, HaveCome};

use crate::node::begun;
use crate::output::Output;
use crate::progress::Progress;
use mg_calc::{Inputs, Plan, PlanNode, Producer};
use mg_settled::{PrefixList, Rest};
use std::alloc::{AllocError, Global};

/// Returns the progress of all nodes once each has gone on from nothing to the given streams.
pub fn first_nodes(
    alloc: Global,
    plan: &Plan,
    inputs: &Inputs,
    streams: &[Output],
) -> Result<Vec<Progress>, AllocError>
    requires plan { IsValid plan.now }
    requires inputs { InputsFit plan.now inputs.now }
    requires unstated { All (λ node. IsStated node.law → ⊥) plan.now.nodes }
    requires streams { All IsPrefix streams.now }
    requires many { length streams.now ≡ length plan.now.streams }
    ensures { IfOk result (λ nodes. (laws : Laws) → HaveCome (record { plan = plan.now; inputs = inputs.now; laws = laws }) streams.now nodes.items) }
{
    let mut nodes = Vec::with_capacity(alloc, plan.nodes.len() as usize)?;
    for node in plan.nodes.as_slice() {
        nodes.push(first(alloc, plan, inputs, streams, node)?)?;
    }
    Ok(nodes)
}

// Returns the progress of a node once it has gone on from nothing to the given streams.
fn first(
    alloc: Global,
    plan: &Plan,
    inputs: &Inputs,
    streams: &[Output],
    node: &PlanNode,
) -> Result<Progress, AllocError>
    requires streams { All IsPrefix streams.now }
    requires known { All (λ i. i < length streams.now) node.now.inputs }
    requires ports { HasNumbers node.now }
    requires shape { IsShapeOf node.now.law node.now.shape }
    requires served { IsServed node.now.law }
    requires unstated { IsStated node.now.law → ⊥ }
    ensures { IfOk result (λ progress. (laws : Laws) → HasCome (record { plan = plan.now; inputs = inputs.now; laws = laws }) streams.now node.now progress) }
{
    let mut progress = Progress::begun(alloc, node, begun(alloc, plan, inputs, node)?)?;
    progress.go_on(alloc, node, streams)?;
    Ok(progress)
}

// Returns a stream as its producer gives it: a graph input, or a node at one of its outputs.
fn latest<'a>(inputs: &'a PrefixList, nodes: &'a [Progress], producer: Producer) -> Rest<'a>
    requires { (stream : StreamPrefix Plain) × IsGivenBy inputs.now nodes.now producer stream }
    ensures { (stream : StreamPrefix Plain) → IsGivenBy inputs.now nodes.now producer stream → result ≡ stream }
{
    match producer {
        Producer::Input(input) => Rest::of(&inputs.as_slice()[input as usize]),
        Producer::Node { node, port } => {
            nodes[node as usize].outcome.outputs[port as usize].rest(0)
        }
    }
}

// Makes a stream the one that its producer gives, by copying only what is new. Returns whether it has changed.
fn grow_one(
    plan: &Plan,
    inputs: &PrefixList,
    nodes: &[Progress],
    streams: &mut Vec<Output>,
    number: u32,
) -> Result<bool, AllocError>
    requires known { number < length plan.now.streams }
    requires below { number < length streams.old.items }
    requires given { (stream : PlanStream) → slice_get plan.now.streams number ≡ Some stream
        → IsGivenBy inputs.now nodes.now stream.producer (stream_of (given_streams inputs.now nodes.now) number) }
    requires extends { IsExtendedBy (stream_of streams.old.items number) (stream_of (given_streams inputs.now nodes.now) number) }
    ensures streams { OnOk result (streams.new.items ≡ slice_set streams.old.items number (stream_of (given_streams inputs.now nodes.now) number)) }
    ensures change { IfOk result (λ change. change ≡ is_changed (stream_of streams.old.items number) (stream_of (given_streams inputs.now nodes.now) number)) }
{
    let place = number as usize;
    let producer = plan.streams.as_slice()[place].producer;
    let later = latest(inputs, nodes, producer);
    streams[place].grow(&later)
}

// Notes a number, if it is to be noted.
fn note_if(noted: &mut Vec<u32>, number: u32, change: bool) -> Result<(), AllocError>
    ensures { OnOk result (noted.new.items ≡ noted.old.items ++ (if change then number ∷ [] else [])) }
{
    if change {
        noted.push(number)?;
    }
    Ok(())
}

/// Makes the streams those of the next round, by copying only what is new. These are the graph inputs and then the outputs of
/// each node. Looks only at the streams that are due. Returns those that have changed.
pub fn grow_due(
    alloc: Global,
    plan: &Plan,
    inputs: &PrefixList,
    nodes: &[Progress],
    due: &[u32],
    streams: &mut Vec<Output>,
) -> Result<Vec<u32>, AllocError>
    requires { MayGrow plan.now inputs.now nodes.now due.now streams.old.items }
    ensures streams { OnOk result (streams.new.items ≡ given_streams inputs.now nodes.now) }
    ensures changed { IfOk result (λ changed. AreChanged changed.items streams.old.items (given_streams inputs.now nodes.now)) }
{
    let mut changed = Vec::new(alloc);
    for number in due {
        let change = grow_one(plan, inputs, nodes, streams, *number)?;
        note_if(&mut changed, *number, change)?;
    }
    Ok(changed)
}
