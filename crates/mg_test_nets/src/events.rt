//! The events of a plan by number.
use mg_calc::{Event, Plan};
use std::test::Fail;

// How many works of a node are numbered: no graph here has more.
const WORKS: u32 = 5;

/// Returns how many events of a plan are numbered: the deliveries, the events of nodes, and the event that relaxes.
pub(crate) fn event_count(plan: &Plan) -> u32 {
    plan.nodes
        .len()
        .saturating_mul(2 * WORKS + 2)
        .saturating_add(plan.edges.len())
        .saturating_add(1)
}

/// Returns the event of this number.
pub(crate) fn event_at(plan: &Plan, number: u32) -> Event {
    let edges = plan.edges.len();
    if number < edges {
        return Event::Deliver { edge: number };
    }
    let nodes = plan.nodes.len();
    if nodes == 0 {
        return Event::Relax;
    }
    let behind = number - edges;
    event_of_node(behind % nodes, behind / nodes)
}

// Returns the event of a node by its number among the node's events. A greater number gives the event that relaxes.
fn event_of_node(node: u32, kind: u32) -> Event {
    if kind < 2 * WORKS {
        return event_of_work(node, u64::from(kind / 2), kind % 2 == 0);
    }
    if kind == 2 * WORKS {
        return Event::Advance { node };
    }
    if kind == 2 * WORKS + 1 {
        return Event::Claim { node };
    }
    Event::Relax
}

fn event_of_work(node: u32, number: u64, performs: bool) -> Event {
    if performs {
        return Event::Perform { node, number };
    }
    Event::Commit { node, number }
}
