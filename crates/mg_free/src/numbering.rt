//! The numbers of a plan's streams and nodes in its core.
ghost use Rattle.std.specs.Prelude.{◌≡◌, ◌++◌, IfOk, filter};
ghost use Rattle.std.specs.List.{flat_map};
ghost use Rattle.mg_calc.specs.Plan.{IsValidWithFree};
ghost use Rattle.mg_free.specs.Core.{core_numbers as the_core_numbers, entering as the_entering, core_streams};
ghost use Rattle.mg_free.specs.Code.Places.{ArePlaces, is_one_of};
ghost use Rattle.mg_free.specs.Code.Numbering.{IsNumberingOf};

use crate::kinds::is_free;
use crate::places::Places;
use mg_calc::{Plan, PlanNode};
use mg_value::NumberList;
use std::alloc::{AllocError, Global};

/// The numbers that a plan's streams and nodes have in the plan's core.
#[derive(Drop)]
pub struct Numbering {
    /// The plan's numbers of the core's nodes, in order.
    pub numbers: NumberList,
    /// For each stream of the plan its number in the core.
    pub streams: Places,
    /// For each node of the core its number there, by the plan's number.
    pub nodes: Places,
}

// Whether a node is free, if `free` is set, and otherwise whether it is a node of the core.
fn is_one(node: &PlanNode, free: bool) -> bool
    ensures { result ≡ is_one_of free node.now }
{
    if free { is_free(node) } else { !is_free(node) }
}

// Returns `before`, and after it the outputs of the free nodes if `free` is set, or of the core's nodes if it isn't.
fn with_outputs(before: Vec<u32>, nodes: &[PlanNode], free: bool) -> Result<Vec<u32>, AllocError>
    ensures { IfOk result (λ all. all.items ≡ before.items ++ flat_map (λ node. node.outputs) (filter (is_one_of free) nodes.now)) }
{
    let mut all = before;
    for node in nodes {
        if is_one(node, free) {
            all.extend_from_slice(node.outputs.as_slice())?;
        }
    }
    Ok(all)
}

// Returns the streams that enter the core from outside, by the plan's numbers, as a vector that can grow.
fn entering_so_far(alloc: Global, plan: &Plan) -> Result<Vec<u32>, AllocError>
    ensures { IfOk result (λ streams. streams.items ≡ the_entering plan.now) }
{
    let mut inputs = Vec::new(alloc);
    inputs.extend_from_slice(plan.inputs.as_slice())?;
    with_outputs(inputs, plan.nodes.as_slice(), true)
}

/// Returns the streams that enter the core from outside, by the plan's numbers: the graph inputs and the free nodes' outputs.
pub fn entering(alloc: Global, plan: &Plan) -> Result<NumberList, AllocError>
    ensures { IfOk result (λ streams. streams ≡ the_entering plan.now) }
{
    let streams = entering_so_far(alloc, plan)?;
    Ok(NumberList::from_vec(streams)?)
}

// Returns the places of the plan's streams in the order of the core.
fn stream_places(alloc: Global, plan: &Plan) -> Result<Places, AllocError>
    requires { IsValidWithFree plan.now }
    ensures { IfOk result (λ places. ArePlaces places (core_streams plan.now)) }
{
    let entering = entering_so_far(alloc, plan)?;
    let streams = with_outputs(entering, plan.nodes.as_slice(), false)?;
    let list = NumberList::from_vec(streams)?;
    Places::of(alloc, &list, plan.streams.len())
}

/// Returns the plan's numbers of the core's nodes, in order.
fn core_numbers(alloc: Global, plan: &Plan) -> Result<NumberList, AllocError>
    ensures { IfOk result (λ numbers. numbers ≡ the_core_numbers plan.now) }
{
    let nodes = plan.nodes.as_slice();
    let mut numbers = Vec::new(alloc);
    for number in 0..plan.nodes.len() {
        if !is_free(&nodes[number as usize]) {
            numbers.push(number)?;
        }
    }
    Ok(NumberList::from_vec(numbers)?)
}

impl Numbering {
    /// Returns the numbers of a plan's streams and nodes in its core.
    pub fn of(alloc: Global, plan: &Plan) -> Result<Numbering, AllocError>
        requires { IsValidWithFree plan.now }
        ensures { IfOk result (λ numbering. IsNumberingOf plan.now numbering) }
    {
        let streams = stream_places(alloc, plan)?;
        let numbers = core_numbers(alloc, plan)?;
        let nodes = Places::of(alloc, &numbers, plan.nodes.len())?;
        Ok(Numbering {
            numbers,
            streams,
            nodes,
        })
    }
}
