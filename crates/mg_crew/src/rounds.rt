//! What a worker does next: it brings packets from the graph inputs, and then takes a node from the levels.
ghost use Rattle.std.specs.Prelude.{◌<◌};
ghost use Rattle.mg_crew.specs.Code.Seats.{IsWithoutWork, StaysAtWork};

use crate::bringing::wake_all;
use crate::putting::{Place, take};
use crate::serving::serve;
use crate::shop::{Came, Shop, Tools};
use crate::throttling::is_throttled;
use mg_calc::NodeCalculator;
use mg_edge::Gate;
use mg_turns::NetSeat;
use std::sync::Wait;

// Serves all nodes, from the one with the highest number down.
fn serve_all<C: NodeCalculator, R: Wait, G: Gate>(
    rt: &R,
    shop: &Shop<'_, C, G>,
    seat: &mut NetSeat<C>,
    place: &mut Place,
) -> Came
    requires at_work { IsWithoutWork C.laws shop.now.net.now shop.now.tools.now seat.old place.old }
    ensures { StaysAtWork C.laws shop.now.net.now shop.now.tools.now seat.old seat.new place.new }
{
    let mut came = Came::nothing();
    for node in (0..shop.net.nodes()).rev() {
        shop.tools.marks.inside.set(node);
        let more = serve(rt, shop, seat, place, node);
        came = came.and(&more);
    }
    came
}

// Returns whether late edges lead from a graph input, and takes that mark away.
fn takes_late(tools: &Tools, input: usize) -> bool {
    match u32::try_from(input) {
        Ok(place) => tools.marks.late_from.clear(place),
        Err(_) => false,
    }
}

// Brings packets from a graph input, by its place in the chart. If the input is throttled, brings them only along edges that are late. So each
// consumer gets what the others have, whose full queues hold the input back.
fn feed_from<C: NodeCalculator, R: Wait, G: Gate>(
    rt: &R,
    shop: &Shop<'_, C, G>,
    seat: &mut NetSeat<C>,
    place: &mut Place,
    input: usize,
) -> Came
    requires at_work { IsWithoutWork C.laws shop.now.net.now shop.now.tools.now seat.old place.old }
    requires input { input < shop.now.tools.now.chart.from.places }
    ensures { StaysAtWork C.laws shop.now.net.now shop.now.tools.now seat.old seat.new place.new }
{
    let all = !is_throttled(rt, shop.tools, input);
    if !all && !takes_late(shop.tools, input) {
        return Came::nothing();
    }
    wake_all(rt, shop, seat, place, input, all)
}

// Brings packets from all graph inputs, and notes that there may be more unless nothing came of it.
fn feed_all<C: NodeCalculator, R: Wait, G: Gate>(
    rt: &R,
    shop: &Shop<'_, C, G>,
    seat: &mut NetSeat<C>,
    place: &mut Place,
) -> Came
    requires at_work { IsWithoutWork C.laws shop.now.net.now shop.now.tools.now seat.old place.old }
    ensures { StaysAtWork C.laws shop.now.net.now shop.now.tools.now seat.old seat.new place.new }
{
    let mut came = Came::nothing();
    for input in shop.net.nodes() as usize..shop.tools.chart.from.places() {
        let more = feed_from(rt, shop, seat, place, input);
        came = came.and(&more);
    }
    shop.tools.board.fed(&came);
    came
}

// Brings packets from the graph inputs, unless another worker does or none were left.
fn feed<C: NodeCalculator, R: Wait, G: Gate>(
    rt: &R,
    shop: &Shop<'_, C, G>,
    seat: &mut NetSeat<C>,
    place: &mut Place,
) -> Came
    requires at_work { IsWithoutWork C.laws shop.now.net.now shop.now.tools.now seat.old place.old }
    ensures { StaysAtWork C.laws shop.now.net.now shop.now.tools.now seat.old seat.new place.new }
{
    if !shop.tools.board.takes_inputs() {
        return Came::nothing();
    }
    feed_all(rt, shop, seat, place)
}

/// Brings packets from all graph inputs, and serves all nodes. If nothing came of it, and no other worker
/// did anything meanwhile, nothing is left to do.
pub(crate) fn look_over<C: NodeCalculator, R: Wait, G: Gate>(
    rt: &R,
    shop: &Shop<'_, C, G>,
    seat: &mut NetSeat<C>,
    place: &mut Place,
) -> Came
    requires at_work { IsWithoutWork C.laws shop.now.net.now shop.now.tools.now seat.old place.old }
    ensures { StaysAtWork C.laws shop.now.net.now shop.now.tools.now seat.old seat.new place.new }
{
    let fed = feed_all(rt, shop, seat, place);
    let served = serve_all(rt, shop, seat, place);
    fed.and(&served)
}

// Does what a worker does that has no node to serve: nothing, unless it has no seat at the levels. Then it serves all nodes.
fn go_round<C: NodeCalculator, R: Wait, G: Gate>(
    rt: &R,
    shop: &Shop<'_, C, G>,
    seat: &mut NetSeat<C>,
    place: &mut Place,
) -> Came
    requires at_work { IsWithoutWork C.laws shop.now.net.now shop.now.tools.now seat.old place.old }
    ensures { StaysAtWork C.laws shop.now.net.now shop.now.tools.now seat.old seat.new place.new }
{
    if place.seat.is_some() {
        Came::nothing()
    } else {
        look_over(rt, shop, seat, place)
    }
}

// Serves the next node, if there is one, and returns whether there was anything to do.
fn serve_next<C: NodeCalculator, R: Wait, G: Gate>(
    rt: &R,
    shop: &Shop<'_, C, G>,
    seat: &mut NetSeat<C>,
    place: &mut Place,
) -> bool
    requires at_work { IsWithoutWork C.laws shop.now.net.now shop.now.tools.now seat.old place.old }
    ensures { StaysAtWork C.laws shop.now.net.now shop.now.tools.now seat.old seat.new place.new }
{
    match take(rt, shop.tools, place) {
        Some(node) => {
            serve(rt, shop, seat, place, node);
            true
        }
        None => {
            let came = go_round(rt, shop, seat, place);
            !came.is_nothing()
        }
    }
}

/// Brings packets from the graph inputs, and serves the next node if there is one. Returns whether there was anything to do. The packets go
/// first, so that the nodes at the front of a graph have something to do while others serve those behind.
pub(crate) fn go_on<C: NodeCalculator, R: Wait, G: Gate>(
    rt: &R,
    shop: &Shop<'_, C, G>,
    seat: &mut NetSeat<C>,
    place: &mut Place,
) -> bool
    requires at_work { IsWithoutWork C.laws shop.now.net.now shop.now.tools.now seat.old place.old }
    ensures { StaysAtWork C.laws shop.now.net.now shop.now.tools.now seat.old seat.new place.new }
{
    let fed = feed(rt, shop, seat, place);
    let served = serve_next(rt, shop, seat, place);
    served | !fed.is_nothing()
}
