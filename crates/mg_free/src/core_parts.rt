//! The nodes, edges and order of a core.
ghost use Rattle.std.specs.Prelude.{◌≡◌, IfOk, map, filter};
ghost use Rattle.mg_free.specs.Core.{is_core, is_free_at as the_free_at, core_node as the_core_node, core_edge as the_core_edge, edges_of as the_edges, order_of as the_order};
ghost use Rattle.mg_free.specs.Code.Numbering.{IsNumberingOf};

use crate::kinds::is_free;
use crate::numbering::Numbering;
use mg_calc::{Edge, EdgeList, Plan, PlanNode, PlanNodeList, TryClone};
use mg_value::NumberList;
use std::alloc::{AllocError, Global};

// Whether a plan's node of a number is free; the collector isn't.
fn is_free_at(plan: &Plan, node: u32) -> bool
    ensures { result ≡ the_free_at plan.now node }
{
    match plan.nodes.get(node) {
        Some(node) => is_free(node),
        None => false,
    }
}

// Returns a node of the plan as it is in the core, with the core's numbers of its streams.
fn core_node(
    alloc: Global,
    plan: &Plan,
    numbering: &Numbering,
    node: &PlanNode,
) -> Result<PlanNode, AllocError>
    requires { IsNumberingOf plan.now numbering.now }
    ensures { IfOk result (λ now. now ≡ the_core_node plan.now node.now) }
{
    let inputs = numbering.streams.of_all(alloc, node.inputs.as_slice())?;
    let outputs = numbering.streams.of_all(alloc, node.outputs.as_slice())?;
    let mut now = node.try_clone(alloc)?;
    now.inputs = inputs;
    now.outputs = outputs;
    Ok(now)
}

/// Returns the nodes of the core, in the plan's order.
pub fn core_nodes(
    alloc: Global,
    plan: &Plan,
    numbering: &Numbering,
) -> Result<PlanNodeList, AllocError>
    requires { IsNumberingOf plan.now numbering.now }
    ensures { IfOk result (λ nodes. nodes ≡ map (the_core_node plan.now) (filter is_core plan.now.nodes)) }
{
    let mut nodes = Vec::new(alloc);
    for node in plan.nodes.as_slice() {
        if !is_free(node) {
            nodes.push(core_node(alloc, plan, numbering, node)?)?;
        }
    }
    Ok(PlanNodeList::from_vec(nodes)?)
}

// Returns an edge of the plan as it is in the core, with the core's numbers.
fn core_edge(plan: &Plan, numbering: &Numbering, edge: &Edge) -> Edge
    requires { IsNumberingOf plan.now numbering.now }
    ensures { result ≡ the_core_edge plan.now edge.now }
{
    Edge {
        stream: numbering.streams.at(edge.stream),
        node: numbering.nodes.at(edge.node),
        port: edge.port,
        back: edge.back,
    }
}

/// Returns the edges of the core: those of the plan that don't lead to a free node.
pub fn core_edges(alloc: Global, plan: &Plan, numbering: &Numbering) -> Result<EdgeList, AllocError>
    requires { IsNumberingOf plan.now numbering.now }
    ensures { IfOk result (λ edges. edges ≡ the_edges plan.now) }
{
    let mut edges = Vec::new(alloc);
    for edge in plan.edges.as_slice() {
        if !is_free_at(plan, edge.node) {
            edges.push(core_edge(plan, numbering, edge))?;
        }
    }
    Ok(EdgeList::from_vec(edges)?)
}

/// Returns the order of the core: the core's numbers of its nodes, as they stand in the plan's order.
pub fn core_order(
    alloc: Global,
    plan: &Plan,
    numbering: &Numbering,
) -> Result<NumberList, AllocError>
    requires { IsNumberingOf plan.now numbering.now }
    ensures { IfOk result (λ order. order ≡ the_order plan.now) }
{
    let mut order = Vec::new(alloc);
    for node in plan.order.as_slice() {
        if !is_free_at(plan, *node) {
            order.push(numbering.nodes.at(*node))?;
        }
    }
    Ok(NumberList::from_vec(order)?)
}
