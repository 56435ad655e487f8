//! Tables of a plan.

ghost use Rattle.std.specs.Prelude.{◌≡◌, ◌+◌, map, length, replicate, false, IfOk, vec_len};
ghost use Rattle.mg_calc.specs.Plan.{IsValid, numbers};
ghost use Rattle.mg_sched.specs.Places.{first_edge};
ghost use Rattle.mg_sched.specs.Code.Tables.{AreOwnFeeders};

use mg_calc::Plan;
use std::alloc::{AllocError, Global};

/// Returns the number of the first edge into each node, and after these the number of the first edge into the collector.
pub(crate) fn first_edges(alloc: Global, plan: &Plan) -> Result<Vec<u32>, AllocError>
    requires { IsValid plan.now }
    ensures { IfOk result (λ v. v.items ≡ map (first_edge plan.now) (numbers (length plan.now.nodes + 1))) }
{
    let mut firsts = Vec::new(alloc);
    let mut first = 0;
    for node in plan.nodes.as_slice() {
        firsts.push(first)?;
        first += node.inputs.len();
    }
    firsts.push(first)?;
    Ok(firsts)
}

/// Returns for each node that is a source its number as a feeder. 2^32 nodes and graph inputs or more count as out of memory.
pub(crate) fn own_feeders(alloc: Global, plan: &Plan) -> Result<Vec<Option<u32>>, AllocError>
    ensures count { IfOk result (λ v. length v.items ≡ length plan.now.nodes) }
    ensures feeders { IfOk result (λ v. AreOwnFeeders plan.now v.items) }
{
    let mut next = plan.inputs.len();
    if next > u32::MAX - plan.nodes.len() {
        return Err(AllocError);
    }
    let mut own = Vec::new(alloc);
    for node in plan.nodes.as_slice() {
        if node.inputs.is_empty() {
            own.push(Some(next))?;
            next += 1;
        } else {
            own.push(None)?;
        }
    }
    Ok(own)
}

/// Returns a number for each stream, at first 0.
pub(crate) fn stream_numbers(alloc: Global, plan: &Plan) -> Result<Vec<u64>, AllocError>
    ensures { IfOk result (λ v. vec_len v ≡ length plan.now.streams) }
{
    vec![in alloc; 0u64; plan.streams.len() as usize]
}

/// Returns for each stream that it isn't kept: `trim` may give up its packets.
pub(crate) fn none_kept(alloc: Global, plan: &Plan) -> Result<Vec<bool>, AllocError>
    ensures { IfOk result (λ v. v.items ≡ replicate (length plan.now.streams) false) }
{
    vec![in alloc; false; plan.streams.len() as usize]
}
