//! The topological order of nodes, after `order_of` and `left_out` of `specs/Order.antt`.

ghost use Rattle.std.specs.Prelude.{◌≡◌, ◌<◌, All, IfOk};
ghost use Rattle.mg_check.specs.Order as orders;

use crate::marks::marks_of;
use crate::readers::readers_of;
use crate::taking::taken_first;
use crate::waiting::release;
use std::alloc::{AllocError, Global};

/// Two nodes: one reads, by an edge that isn't back, what the other writes.
#[derive(Clone, Copy, Debug, PartialEq, Eq)]
pub struct Link {
    /// The number of the node that writes.
    pub from: u32,
    /// The number of the node that reads.
    pub to: u32,
}

/// Returns the order of `count` nodes; the sources are the nodes without inputs. Each next node is the least of a tree
/// of those that wait for none. The function looks at each link once.
pub(crate) fn order_of(
    alloc: Global,
    count: u32,
    sources: &[u32],
    links: &[Link],
) -> Result<Vec<u32>, AllocError>
    requires sources { All (λ n. n < count) sources.now }
    requires links { All (orders.IsBetween count) links.now }
    ensures { IfOk result (λ order. order.items ≡ orders.order_of count sources.now links.now) }
{
    let readers = readers_of(alloc, count, links)?;
    let mut taking = taken_first(alloc, count, sources, links)?;
    for _ in 0..count {
        let Some(node) = taking.ready.pop_first() else {
            break;
        };
        taking.order.push(node)?;
        taking.taken[node as usize] = true;
        let row = readers[node as usize].as_slice();
        release(row, &taking.taken, &mut taking.waiting, &mut taking.ready)?;
    }
    Ok(taking.order)
}

/// Returns the nodes, of `count`, that an order leaves out, in the order of their numbers.
pub(crate) fn left_out(alloc: Global, count: u32, order: &[u32]) -> Result<Vec<u32>, AllocError>
    requires { All (λ n. n < count) order.now }
    ensures { IfOk result (λ out. out.items ≡ orders.left_out count order.now) }
{
    let marks = marks_of(alloc, count, order)?;
    let mut out = Vec::new(alloc);
    for number in 0..count {
        if !marks[number as usize] {
            out.push(number)?;
        }
    }
    Ok(out)
}
