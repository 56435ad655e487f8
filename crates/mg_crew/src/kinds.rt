use mg_calc::{Law, Plan, PlanNode};
use std::alloc::{AllocError, Global};

/// How many works of a node are done in one visit, at most, unless its calls are short and it has inputs.
pub(crate) const WORKS: u32 = 64;

// How many works of a node with inputs whose calls are short are done in one visit, at most.
const MANY: u32 = 256;

/// How a worker does the works of a node. No contract rests on it.
#[derive(Clone, Copy)]
pub(crate) enum NodeKind {
    /// Several works may run at once, so each is claimed by itself.
    Flies,
    /// Calls may take long, and other nodes wait for what comes of them. So a few works at a time are done, at most `WORKS` in a visit.
    Steps,
    /// At most so many works are done under one pair of turns.
    Together { most: u32 },
}

// Returns for each of `nodes` nodes whether it leads to other nodes. `starts` has the place from which each edge leads. `consumers` has the node
// to which it leads, or for the collector the number after those of all nodes.
fn leading(
    alloc: Global,
    nodes: u32,
    starts: &[u32],
    consumers: &[u32],
) -> Result<Vec<bool>, AllocError> {
    let mut leading = vec![in alloc; false; nodes as usize]?;
    for (start, consumer) in starts.iter().zip(consumers.iter()) {
        if *consumer >= nodes {
            continue;
        }
        if let Some(leads) = leading.get_mut(*start as usize) {
            *leads = true;
        }
    }
    Ok(leading)
}

// Whether the calls of a node may take long: whether its calculator is its author's own. Each law of the table does a set in less than a
// microsecond.
fn is_own(node: &PlanNode) -> bool {
    matches!(node.law, Law::Stated { .. })
}

// Returns how the works of a node are done. `leads` says whether the node leads to other nodes.
fn kind_of(node: &PlanNode, leads: bool) -> NodeKind {
    if node.in_flight > 1 {
        return NodeKind::Flies;
    }
    match (is_own(node), leads) {
        (true, true) => NodeKind::Steps,
        (true, false) => NodeKind::Together { most: WORKS },
        (false, _) if node.inputs.is_empty() => NodeKind::Together { most: WORKS },
        (false, _) => NodeKind::Together { most: MANY },
    }
}

/// Returns the kind of each node of a plan. `starts` has the place from which each edge leads. `consumers` has the node to which it leads, or for
/// the collector the number after those of all nodes.
pub(crate) fn kinds_of(
    alloc: Global,
    plan: &Plan,
    starts: &[u32],
    consumers: &[u32],
) -> Result<Vec<NodeKind>, AllocError> {
    let leading = leading(alloc, plan.nodes.len(), starts, consumers)?;
    let mut kinds = Vec::new(alloc);
    for (node, leads) in plan.nodes.as_slice().iter().zip(leading.iter()) {
        kinds.push(kind_of(node, *leads))?;
    }
    Ok(kinds)
}
