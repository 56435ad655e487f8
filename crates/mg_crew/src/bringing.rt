//! How a worker brings packets along the edges that lead from a node or from a graph input, one consumer after the other.
ghost use Rattle.std.specs.Prelude.{◌<◌, IfSome};
ghost use Rattle.mg_crew.specs.Code.Places.{IsPlaceAt};
ghost use Rattle.mg_crew.specs.Code.Seats.{AreToolsOf, IsWithoutWork, StaysAtWork};

use crate::calling::call_waiting;
use crate::putting::{Place, note_turns, put};
use crate::shop::{Came, Shop, Tools};
use crate::throttling::note;
use crate::working::bring;
use mg_calc::NodeCalculator;
use mg_edge::Gate;
use mg_turns::NetSeat;
use std::sync::Wait;

// What came of bringing packets to one consumer, along several edges.
#[derive(Drop)]
struct Stop {
    // Whether the worker had the consumer's turn, whether something came to the consumer, and whether another worker had its turn.
    had: bool,
    did: bool,
    out: bool,
}

impl Stop {
    fn new() -> Stop {
        Stop {
            had: false,
            did: false,
            out: false,
        }
    }

    // Notes what came of one edge.
    fn note(&mut self, came: &Came) {
        if came.left.is_some() {
            self.out = true;
        } else {
            self.had = true;
            self.did = self.did | came.did;
        }
    }
}

// Whether packets are to be brought along an edge: along any one, or if not `all`, along those that are late. The further edges to the consumer
// of a late edge are as late. If another worker was found to have the consumer's turn, none are to be brought.
fn is_due(tools: &Tools, edge: u32, all: bool, stop: &Stop) -> bool {
    let late = tools.marks.late.is_set(edge) && tools.marks.late.clear(edge);
    !stop.out && (all || late || stop.had)
}

// Brings packets along an edge if it is due. If that did anything at a node, notes how many packets wait there. The number is noted anew when
// the node is served.
fn wake<C: NodeCalculator, R: Wait, G: Gate>(
    rt: &R,
    shop: &Shop<'_, C, G>,
    seat: &mut NetSeat<C>,
    place: &mut Place,
    edge: u32,
    all: bool,
    stop: &mut Stop,
) -> Came
    requires at_work { IsWithoutWork C.laws shop.now.net.now shop.now.tools.now seat.old place.old }
    requires edge { edge < shop.now.tools.now.chart.from.edges }
    ensures { StaysAtWork C.laws shop.now.net.now shop.now.tools.now seat.old seat.new place.new }
{
    if !is_due(shop.tools, edge, all, stop) {
        return Came::nothing();
    }
    let came = bring(rt, shop, seat, edge);
    note_turns(shop.tools, place, &came);
    stop.note(&came);
    if !came.did || shop.tools.chart.consumer(edge) >= shop.net.nodes() {
        return came;
    }
    note(rt, shop, seat, place, edge);
    came
}

// Whether an edge is the last one from its place to its consumer, if `next` is the next edge from that place.
fn is_last(tools: &Tools, edge: u32, next: Option<u32>) -> bool
    requires edge { edge < tools.now.chart.from.edges }
    requires next { IfSome next (λ later. later < tools.now.chart.from.edges) }
{
    match next {
        Some(later) => tools.chart.consumer(later) != tools.chart.consumer(edge),
        None => true,
    }
}

// After the last edge to a consumer, puts the consumer into the levels if something came to it. Then calls who waits for its turn.
fn go_past<C: NodeCalculator, R: Wait, G: Gate>(
    rt: &R,
    shop: &Shop<'_, C, G>,
    place: &mut Place,
    edge: u32,
    next: Option<u32>,
    stop: &mut Stop,
)
    requires tools { AreToolsOf shop.now.net.now shop.now.tools.now }
    requires place { IsPlaceAt shop.now.tools.now.levels place.old }
    requires edge { edge < shop.now.tools.now.chart.from.edges }
    requires next { IfSome next (λ later. later < shop.now.tools.now.chart.from.edges) }
    ensures place { IsPlaceAt shop.now.tools.now.levels place.new }
{
    if !is_last(shop.tools, edge, next) {
        return;
    }
    let node = shop.tools.chart.consumer(edge);
    if stop.did && node < shop.net.nodes() {
        put(rt, shop.tools, place, node);
    }
    if stop.had {
        call_waiting(rt, shop, place, node as usize);
    }
    *stop = Stop::new();
}

// Returns the number of the list of who waits for a turn of the part at a place of the chart. There are `nodes` nodes.
fn list_of(nodes: u32, source: usize) -> usize {
    if source < nodes as usize {
        source
    } else {
        source.wrapping_add(nodes as usize).wrapping_add(1) / 2
    }
}

/// Brings packets along the edges that lead from a node, or from a graph input, by its place in the chart. `all` says whether it does so along
/// all of them, or only along those that are late.
pub(crate) fn wake_all<C: NodeCalculator, R: Wait, G: Gate>(
    rt: &R,
    shop: &Shop<'_, C, G>,
    seat: &mut NetSeat<C>,
    place: &mut Place,
    source: usize,
    all: bool,
) -> Came
    requires at_work { IsWithoutWork C.laws shop.now.net.now shop.now.tools.now seat.old place.old }
    requires source { source < shop.now.tools.now.chart.from.places }
    ensures { StaysAtWork C.laws shop.now.net.now shop.now.tools.now seat.old seat.new place.new }
{
    let mut came = Came::nothing();
    let mut stop = Stop::new();
    let mut cursor = shop.tools.chart.from.first(source);
    'edges: while let Some(edge) = cursor {
        let next = shop.tools.chart.from.next(edge);
        let more = wake(rt, shop, seat, place, edge, all, &mut stop);
        go_past(rt, shop, place, edge, next, &mut stop);
        came = came.and(&more);
        cursor = next;
    }
    call_waiting(rt, shop, place, list_of(shop.net.nodes(), source));
    came
}
