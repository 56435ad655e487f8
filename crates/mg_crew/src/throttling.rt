//! How workers hold feeders back while queues are full, and let them go.
ghost use Rattle.std.specs.Prelude.{◌<◌, All, Contains, length};
ghost use Rattle.mg_levels.specs.Levels.{order_of};
ghost use Rattle.mg_turns.specs.Parts.{nodes_in};
ghost use Rattle.mg_turns.specs.Calls.{key_of};
ghost use Rattle.mg_workers.specs.Shared.{IsShared, StaysShared};
ghost use Rattle.mg_crew.specs.Code.Places.{IsPlaceAt};
ghost use Rattle.mg_crew.specs.Code.Seats.{HasSources, IsWithoutWork, StaysAtWork};

use crate::putting::{Place, put};
use crate::shop::{Shop, Tools};
use crate::throttle::Throttle;
use mg_calc::NodeCalculator;
use mg_edge::Gate;
use mg_turns::{NetSeat, Tried};
use std::sync::Wait;

// Puts the source at place `k` of a list into the levels, if it is held.
fn put_held<R: Wait>(rt: &R, tools: &Tools, place: &mut Place, sources: &[u32], k: usize)
    requires place { IsPlaceAt tools.now.levels place.old }
    requires sources { All (λ node. Contains (order_of tools.now.levels) node) sources.now }
    ensures place { IsPlaceAt tools.now.levels place.new }
{
    if k >= sources.len() || !tools.marks.held.clear(sources[k]) {
        return;
    }
    put(rt, tools, place, sources[k]);
}

// Puts those of some sources into the levels that are held.
fn put_all_held<R: Wait>(rt: &R, tools: &Tools, place: &mut Place, sources: &[u32])
    requires place { IsPlaceAt tools.now.levels place.old }
    requires sources { All (λ node. Contains (order_of tools.now.levels) node) sources.now }
    ensures place { IsPlaceAt tools.now.levels place.new }
{
    for k in 0..sources.len() {
        put_held(rt, tools, place, sources, k);
    }
}

// Puts those sources into the levels that are held, reach a node and aren't throttled. If a source is throttled anew meanwhile, the worker
// that finds the full queue full no more lets it go.
fn put_let_go<R: Wait>(rt: &R, tools: &Tools, throttle: &Throttle, place: &mut Place, node: u32)
    requires place { IsPlaceAt tools.now.levels place.old }
    requires sources { HasSources tools.now }
    ensures place { IsPlaceAt tools.now.levels place.new }
{
    let (first, end) = (tools.chart.input_count(), tools.chart.feeder_count);
    let mut cursor = throttle.next_feeder(rt, node, first, end);
    'feeders: while let Some(feeder) = cursor {
        put_held(
            rt,
            tools,
            place,
            tools.chart.sources(),
            feeder.saturating_sub(first),
        );
        cursor = throttle.next_feeder(rt, node, feeder + 1, end);
    }
}

// Lets all feeders go that are held: puts the sources into the levels, and lets a worker bring packets from the graph inputs.
fn let_all_go<R: Wait>(rt: &R, tools: &Tools, place: &mut Place)
    requires place { IsPlaceAt tools.now.levels place.old }
    requires sources { HasSources tools.now }
    ensures place { IsPlaceAt tools.now.levels place.new }
{
    tools.board.leave_inputs();
    put_all_held(rt, tools, place, tools.chart.sources());
    tools.board.tell();
}

// Lets held feeders go that aren't throttled any more because a queue of a node isn't full any more. Puts the sources that
// reach the node into the levels, and lets a worker bring packets from the graph inputs.
fn let_go<R: Wait>(rt: &R, tools: &Tools, throttle: &Throttle, place: &mut Place, node: u32)
    requires place { IsPlaceAt tools.now.levels place.old }
    requires sources { HasSources tools.now }
    ensures place { IsPlaceAt tools.now.levels place.new }
{
    tools.board.leave_inputs();
    put_let_go(rt, tools, throttle, place, node);
    tools.board.tell();
}

/// Notes that a worker begins. The first one lets all feeders go, as all sources are held at first.
pub(crate) fn begin<R: Wait>(rt: &R, tools: &Tools, place: &mut Place)
    requires place { IsPlaceAt tools.now.levels place.old }
    requires sources { HasSources tools.now }
    ensures place { IsPlaceAt tools.now.levels place.new }
{
    if tools.board.begin() {
        let_all_go(rt, tools, place);
    }
}

// Returns how many packets wait at the end of an edge, or `None` if another worker has the turn there. That one notes it.
fn waiting<C: NodeCalculator, G: Gate>(
    shop: &Shop<'_, C, G>,
    seat: &mut NetSeat<C>,
    edge: u32,
) -> Option<u64>
    requires shared { IsShared C.laws shop.now.net.now seat.old }
    requires edge { edge < length (key_of shop.now.net.now).plan.edges }
    ensures { StaysShared C.laws shop.now.net.now seat.old seat.new }
{
    let tried = shop.net.try_waiting(seat, edge);
    match tried {
        Tried::Done(waiting) => Some(waiting),
        Tried::Busy { .. } => None,
    }
}

// Notes how many packets wait at the end of an edge, and returns whether its queue was full and isn't any more.
fn eases<C: NodeCalculator, R: Wait, G: Gate>(
    rt: &R,
    shop: &Shop<'_, C, G>,
    seat: &mut NetSeat<C>,
    edge: u32,
) -> bool
    requires shared { IsShared C.laws shop.now.net.now seat.old }
    requires edge { edge < length (key_of shop.now.net.now).plan.edges }
    ensures { StaysShared C.laws shop.now.net.now seat.old seat.new }
{
    let Some(throttle) = &shop.tools.throttle else {
        return false;
    };
    match waiting(shop, seat, edge) {
        Some(packets) => throttle.note(rt, edge, packets),
        None => false,
    }
}

// Lets feeders go on that were held by a queue of a node, if one `eased`: it was full and isn't any more.
fn ease<R: Wait>(rt: &R, tools: &Tools, place: &mut Place, node: u32, eased: bool)
    requires place { IsPlaceAt tools.now.levels place.old }
    requires sources { HasSources tools.now }
    ensures place { IsPlaceAt tools.now.levels place.new }
{
    let Some(throttle) = &tools.throttle else {
        return;
    };
    if eased {
        let_go(rt, tools, throttle, place, node);
    }
}

/// Notes how many packets wait at the end of an edge. If its queue was full and isn't any more, feeders go on that were held by it.
pub(crate) fn note<C: NodeCalculator, R: Wait, G: Gate>(
    rt: &R,
    shop: &Shop<'_, C, G>,
    seat: &mut NetSeat<C>,
    place: &mut Place,
    edge: u32,
)
    requires at_work { IsWithoutWork C.laws shop.now.net.now shop.now.tools.now seat.old place.old }
    requires edge { edge < shop.now.tools.now.chart.from.edges }
    ensures { StaysAtWork C.laws shop.now.net.now shop.now.tools.now seat.old seat.new place.new }
{
    let eased = eases(rt, shop, seat, edge);
    let node = shop.tools.chart.consumer(edge);
    ease(rt, shop.tools, place, node, eased);
}

// Notes anew how many packets wait at the end of an edge whose queue was full, and returns whether it isn't any more.
fn eases_if_full<C: NodeCalculator, R: Wait, G: Gate>(
    rt: &R,
    shop: &Shop<'_, C, G>,
    seat: &mut NetSeat<C>,
    edge: u32,
) -> bool
    requires shared { IsShared C.laws shop.now.net.now seat.old }
    requires edge { edge < length (key_of shop.now.net.now).plan.edges }
    ensures { StaysShared C.laws shop.now.net.now seat.old seat.new }
{
    let Some(throttle) = &shop.tools.throttle else {
        return false;
    };
    throttle.is_full(edge) && eases(rt, shop, seat, edge)
}

/// Notes how many packets wait at a node that worked, if its queues were full. If one isn't full any more, feeders go on that
/// were held by it.
pub(crate) fn note_worked<C: NodeCalculator, R: Wait, G: Gate>(
    rt: &R,
    shop: &Shop<'_, C, G>,
    seat: &mut NetSeat<C>,
    place: &mut Place,
    node: u32,
)
    requires at_work { IsWithoutWork C.laws shop.now.net.now shop.now.tools.now seat.old place.old }
    requires node { node < nodes_in (key_of shop.now.net.now) }
    ensures { StaysAtWork C.laws shop.now.net.now shop.now.tools.now seat.old seat.new place.new }
{
    let mut eased = false;
    let mut cursor = shop.tools.chart.into.first(node as usize);
    'edges: while let Some(edge) = cursor {
        eased |= eases_if_full(rt, shop, seat, edge);
        cursor = shop.tools.chart.into.next(edge);
    }
    ease(rt, shop.tools, place, node, eased);
}

/// Whether the feeder at a place of the chart is throttled.
pub(crate) fn is_throttled<R: Wait>(rt: &R, tools: &Tools, at: usize) -> bool {
    let Some(throttle) = &tools.throttle else {
        return false;
    };
    let Some(feeder) = tools.chart.feeder(at) else {
        return false;
    };
    !throttle.may_feed(rt, feeder)
}

/// Whether a node is a source that is throttled, which is held then until it is let go. Its mark is set before the limits are asked, so
/// that no worker that lets sources go passes it over.
pub(crate) fn is_held<R: Wait>(rt: &R, tools: &Tools, node: u32) -> bool {
    if tools.chart.feeder(node as usize).is_none() {
        return false;
    }
    tools.marks.held.set(node);
    if is_throttled(rt, tools, node as usize) {
        return true;
    }
    tools.marks.held.clear(node);
    false
}

/// Relaxes the limits of full queues, and returns whether some queue was full. If so it lets all feeders go that are held.
pub(crate) fn relax<R: Wait>(rt: &R, tools: &Tools, place: &mut Place) -> bool
    requires place { IsPlaceAt tools.now.levels place.old }
    requires sources { HasSources tools.now }
    ensures place { IsPlaceAt tools.now.levels place.new }
{
    let Some(throttle) = &tools.throttle else {
        return false;
    };
    if !throttle.relax(rt) {
        return false;
    }
    let_all_go(rt, tools, place);
    true
}
