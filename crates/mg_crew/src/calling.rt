//! How a worker that gives a turn back calls who waits for it.
ghost use Rattle.mg_crew.specs.Code.Places.{IsPlaceAt};
ghost use Rattle.mg_crew.specs.Code.Seats.{AreToolsOf};

use crate::putting::{Place, put};
use crate::shop::Shop;
use mg_calc::NodeCalculator;
use mg_edge::Gate;
use std::sync::Wait;

// Calls an edge or a node that waited: puts the node into the levels, or the node from which the edge leads. For an edge from a graph input
// it tells workers to bring packets from the graph inputs. Along this edge they bring them even if the input is throttled.
fn call<C: NodeCalculator, R: Wait, G: Gate>(
    rt: &R,
    shop: &Shop<'_, C, G>,
    place: &mut Place,
    number: u32,
)
    requires tools { AreToolsOf shop.now.net.now shop.now.tools.now }
    requires place { IsPlaceAt shop.now.tools.now.levels place.old }
    ensures place { IsPlaceAt shop.now.tools.now.levels place.new }
{
    let node = shop.tools.chart.place_of(number);
    if node < shop.net.nodes() {
        put(rt, shop.tools, place, node);
    } else {
        shop.tools.marks.late.set(number);
        shop.tools.marks.late_from.set(node);
        shop.tools.board.leave_inputs();
        shop.tools.board.tell();
    }
}

/// Calls all edges and nodes of a list, once the worker has given the turns back for which they wait.
pub(crate) fn call_waiting<C: NodeCalculator, R: Wait, G: Gate>(
    rt: &R,
    shop: &Shop<'_, C, G>,
    place: &mut Place,
    list: usize,
)
    requires tools { AreToolsOf shop.now.net.now shop.now.tools.now }
    requires place { IsPlaceAt shop.now.tools.now.levels place.old }
    ensures place { IsPlaceAt shop.now.tools.now.levels place.new }
{
    let mut cursor = shop.tools.waiting.take(list);
    for _ in rt.forever() {
        let Some(number) = cursor else {
            return;
        };
        cursor = shop.tools.waiting.next(number);
        call(rt, shop, place, number);
    }
}
