//! What the engine of a node is made of.
ghost use Rattle.std.specs.Prelude.{◌≡◌, ◌<◌, map, replicate, IfOk, slice_index_or, vec_len, vec_capacity};
ghost use Rattle.mg_stream.specs.Pool.{backlog_of, empty_backlog};
ghost use Rattle.mg_calc.specs.Shape.{ParametersFit, IsShapeOf, IsServed};
ghost use Rattle.mg_node.specs.Job.{role_of as role_by};
ghost use Rattle.mg_node.specs.Fresh.{own_told, context_of};

use crate::{Context, Role};
use mg_calc::{Law, NodeCalculator, PlanNode};
use mg_route::{Builtin, Holder};
use mg_settled::InputSet;
use mg_stream::Queue;
use mg_value::NumberList;
use std::alloc::{AllocError, Global};

/// Returns the role of the engine of a node with this law.
pub(crate) fn role_of(law: &Law) -> Role
    ensures { result ≡ role_by law.now }
{
    match law {
        Law::Count { count, .. } => Role::Source { calls: *count },
        Law::SideOnce { .. } => Role::Source { calls: 1 },
        Law::Constants => Role::Source { calls: 0 },
        Law::Loopback => Role::Loop,
        _ => Role::Sets,
    }
}

/// Returns the first of some numbers, or 0 if there is none.
pub(crate) fn first_of(numbers: &NumberList) -> u32
    ensures { result ≡ slice_index_or numbers.now 0 0 }
{
    if numbers.is_empty() {
        return 0;
    }
    numbers.as_slice()[0]
}

/// Returns `count` outputs at which nothing was laid.
pub(crate) fn empty_outputs(alloc: Global, count: u32) -> Result<Vec<Queue>, AllocError>
    ensures items { IfOk result (λ v. map backlog_of v.items ≡ replicate count empty_backlog) }
    ensures len { IfOk result (λ v. vec_len v ≡ count) }
{
    let mut outputs = Vec::with_capacity(alloc, count as usize)?;
    for _ in 0..count {
        outputs.push_reserved(Queue::new(alloc));
    }
    Ok(outputs)
}

// Returns a context with a calculator that is made by a node's law and shape.
fn own_context<C: NodeCalculator>(alloc: Global, node: &PlanNode) -> Result<Context<C>, AllocError>
    requires ranges { ParametersFit node.now.law }
    requires of_law { IsShapeOf node.now.law node.now.shape }
    requires served { IsServed node.now.law }
    ensures { IfOk result (λ b. b ≡ context_of node.now (own_told node.now)) }
{
    let builtin = Builtin::new(alloc, &node.law, &node.shape)?;
    let set = InputSet::new(alloc, node.inputs.len())?;
    match Context::new(alloc, Holder::own(builtin), set) {
        Ok(context) => Ok(context),
        Err(_) => Err(AllocError),
    }
}

/// Returns `count` contexts with calculators that are made by a node's law and shape, with room for one more context.
pub(crate) fn own_contexts<C: NodeCalculator>(
    alloc: Global,
    node: &PlanNode,
    count: u32,
) -> Result<Vec<Context<C>>, AllocError>
    requires ranges { ParametersFit node.now.law }
    requires of_law { IsShapeOf node.now.law node.now.shape }
    requires served { IsServed node.now.law }
    ensures items { IfOk result (λ v. v.items ≡ replicate count (context_of node.now (own_told node.now))) }
    ensures len { IfOk result (λ v. vec_len v ≡ count) }
    ensures room { IfOk result (λ v. count < vec_capacity v) }
{
    let mut contexts = Vec::with_capacity(alloc, count as usize + 1)?;
    for _ in 0..count {
        contexts.push_reserved(own_context(alloc, node)?);
    }
    Ok(contexts)
}
