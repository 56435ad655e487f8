//! The making of the topological order, into which nodes are taken one after the other.

ghost use Rattle.std.specs.Prelude.{◌≡◌, ◌<◌, All, IfOk};
ghost use Rattle.mg_check.specs.Order.{IsBetween};
ghost use Rattle.mg_check.specs.Code.Taking.{IsAfter};

use crate::marks::marks_of;
use crate::ordering::Link;
use crate::waiting::{ready_of, waiting_of};
use std::alloc::{AllocError, Global};
use std::collections::BTreeSet;

/// The topological order so far, and what the nodes that aren't taken into it wait for.
#[derive(Drop)]
pub(crate) struct Taking {
    /// The nodes that are taken, in order.
    pub(crate) order: Vec<u32>,
    /// For each node whether it is taken.
    pub(crate) taken: Vec<bool>,
    /// For each node, how many links it waits for.
    pub(crate) waiting: Vec<usize>,
    /// The nodes that may be taken next.
    pub(crate) ready: BTreeSet<u32>,
}

/// Returns the order that has the sources alone, and what the other nodes wait for.
pub(crate) fn taken_first(
    alloc: Global,
    count: u32,
    sources: &[u32],
    links: &[Link],
) -> Result<Taking, AllocError>
    requires sources { All (λ n. n < count) sources.now }
    requires links { All (IsBetween count) links.now }
    ensures order { IfOk result (λ t. t.order.items ≡ sources.now) }
    ensures after { IfOk result (λ t. IsAfter count links.now sources.now t.taken.items t.waiting.items t.ready) }
{
    let order = Vec::from_slice(alloc, sources)?;
    let taken = marks_of(alloc, count, sources)?;
    let waiting = waiting_of(alloc, count, links, &taken)?;
    let ready = ready_of(alloc, count, &taken, &waiting)?;
    Ok(Taking {
        order,
        taken,
        waiting,
        ready,
    })
}
