//! Splitting a plan into its core and its free nodes.
ghost use Rattle.std.specs.Prelude.{◌≡◌, IfOk, length, slice_index_or};
ghost use Rattle.mg_calc.specs.Plan.{IsValid, IsValidWithFree, numbers as the_numbers};
ghost use Rattle.mg_free.specs.Core.{core_of as the_core, free_node as the_free_node, free_nodes as the_free_nodes, entering as the_entering, stream_numbers as the_stream_numbers, split_of};
ghost use Rattle.mg_free.specs.Code.Numbering.{IsNumberingOf};

use crate::core_parts::{core_edges, core_nodes, core_order};
use crate::core_streams::core_streams;
use crate::kinds::free_law;
use crate::numbering::{Numbering, entering};
use crate::{FreeNode, FreeNodeList, FreePlan};
use mg_calc::{Plan, PlanNode, TryClone};
use mg_value::NumberList;
use std::alloc::{AllocError, Global};

// Returns the numbers below a count.
fn numbers(alloc: Global, count: u32) -> Result<NumberList, AllocError>
    ensures { IfOk result (λ numbers. numbers ≡ the_numbers count) }
{
    let mut numbers = Vec::with_capacity(alloc, count as usize)?;
    for number in 0..count {
        numbers.push(number)?;
    }
    Ok(NumberList::from_vec(numbers)?)
}

// Returns the numbers of the core's graph inputs.
fn core_inputs(alloc: Global, plan: &Plan) -> Result<NumberList, AllocError>
    ensures { IfOk result (λ inputs. inputs ≡ the_numbers (length (the_entering plan.now))) }
{
    let entering = entering(alloc, plan)?;
    numbers(alloc, entering.len())
}

// Returns the core of a plan.
fn core(alloc: Global, plan: &Plan, numbering: &Numbering) -> Result<Plan, AllocError>
    requires { IsNumberingOf plan.now numbering.now }
    ensures { IfOk result (λ core. core ≡ the_core plan.now) }
{
    let nodes = core_nodes(alloc, plan, numbering)?;
    let streams = core_streams(alloc, plan)?;
    let edges = core_edges(alloc, plan, numbering)?;
    let order = core_order(alloc, plan, numbering)?;
    let inputs = core_inputs(alloc, plan)?;
    let outputs = numbering.streams.of_all(alloc, plan.outputs.as_slice())?;
    let sides = plan.sides.try_clone(alloc)?;
    Ok(Plan {
        nodes,
        streams,
        edges,
        order,
        inputs,
        outputs,
        sides,
        limit: plan.limit,
        workers: plan.workers,
    })
}

// Returns the first number of a list, or 0 if the list is empty.
fn first_of(numbers: &NumberList) -> u32
    ensures { result ≡ slice_index_or numbers.now 0 0 }
{
    match numbers.get(0) {
        Some(number) => *number,
        None => 0,
    }
}

// Returns a node as a free node with the core's numbers of its streams, if it is free.
fn free_node(
    alloc: Global,
    plan: &Plan,
    numbering: &Numbering,
    number: u32,
    node: &PlanNode,
) -> Result<Option<FreeNode>, AllocError>
    requires { IsNumberingOf plan.now numbering.now }
    ensures { IfOk result (λ free. free ≡ the_free_node plan.now (number, node.now)) }
{
    let law = match free_law(&node.law) {
        Some(law) => law,
        None => return Ok(None),
    };
    let inputs = numbering.streams.of_all(alloc, node.inputs.as_slice())?;
    let outputs = numbering.streams.of_all(alloc, node.outputs.as_slice())?;
    let output = first_of(&outputs);
    Ok(Some(FreeNode {
        node: number,
        law,
        inputs,
        output,
    }))
}

// Returns the free nodes of a plan.
fn free_nodes(alloc: Global, plan: &Plan, numbering: &Numbering) -> Result<FreeNodeList, AllocError>
    requires { IsNumberingOf plan.now numbering.now }
    ensures { IfOk result (λ free. free ≡ the_free_nodes plan.now) }
{
    let nodes = plan.nodes.as_slice();
    let mut free = Vec::new(alloc);
    for number in 0..plan.nodes.len() {
        if let Some(node) = free_node(alloc, plan, numbering, number, &nodes[number as usize])? {
            free.push(node)?;
        }
    }
    Ok(FreeNodeList::from_vec(free)?)
}

// Returns for each stream of a plan its number in the core.
fn stream_numbers(
    alloc: Global,
    plan: &Plan,
    numbering: &Numbering,
) -> Result<NumberList, AllocError>
    requires { IsNumberingOf plan.now numbering.now }
    ensures { IfOk result (λ streams. streams ≡ the_stream_numbers plan.now) }
{
    let all = numbers(alloc, plan.streams.len())?;
    let streams = numbering.streams.of_all(alloc, all.as_slice())?;
    Ok(streams)
}

/// Splits a plan into its core and its free nodes. The core is a valid plan without the free nodes, whose outputs are its last graph
/// inputs. The other nodes keep their order, and have numbers of their own in the core.
pub fn split(alloc: Global, plan: &Plan) -> Result<FreePlan, AllocError>
    requires { IsValidWithFree plan.now }
    ensures split { IfOk result (λ split. split ≡ split_of plan.now) }
    ensures valid { IfOk result (λ split. IsValid split.core) }
{
    let numbering = Numbering::of(alloc, plan)?;
    let core = core(alloc, plan, &numbering)?;
    let streams = stream_numbers(alloc, plan, &numbering)?;
    let free = free_nodes(alloc, plan, &numbering)?;
    let Numbering { numbers, .. } = numbering;
    Ok(FreePlan {
        core,
        numbers,
        streams,
        free,
    })
}
