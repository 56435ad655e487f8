//! How a worker serves a node.
ghost use Rattle.std.specs.Prelude.{◌<◌};
ghost use Rattle.mg_turns.specs.Parts.{nodes_in};
ghost use Rattle.mg_turns.specs.Calls.{key_of};
ghost use Rattle.mg_crew.specs.Code.Seats.{IsWithoutWork, StaysAtWork};

use crate::bringing::wake_all;
use crate::calling::call_waiting;
use crate::putting::{Place, leave, note_turns, take_up, tell_others};
use crate::shop::{Came, Shop};
use crate::throttling::{is_held, note_worked};
use crate::working::{raise, work_at};
use mg_calc::NodeCalculator;
use mg_edge::Gate;
use mg_turns::NetSeat;
use std::sync::Wait;

// Brings what a node laid along the edges that lead from it, and marks the node if not all of that could be brought.
fn bring_laid<C: NodeCalculator, R: Wait, G: Gate>(
    rt: &R,
    shop: &Shop<'_, C, G>,
    seat: &mut NetSeat<C>,
    place: &mut Place,
    node: u32,
) -> Came
    requires at_work { IsWithoutWork C.laws shop.now.net.now shop.now.tools.now seat.old place.old }
    requires node { node < nodes_in (key_of shop.now.net.now) }
    ensures { StaysAtWork C.laws shop.now.net.now shop.now.tools.now seat.old seat.new place.new }
{
    let came = wake_all(rt, shop, seat, place, node as usize, true);
    shop.tools.marks.behind.put(node, !came.is_all());
    came
}

// Does works of a node, unless it is a source that is throttled, and notes how many packets wait there then. As a work may take long, idle
// workers are first told of a node that was put into the levels.
fn work<C: NodeCalculator, R: Wait, G: Gate>(
    rt: &R,
    shop: &Shop<'_, C, G>,
    seat: &mut NetSeat<C>,
    place: &mut Place,
    node: u32,
) -> Came
    requires at_work { IsWithoutWork C.laws shop.now.net.now shop.now.tools.now seat.old place.old }
    requires node { node < nodes_in (key_of shop.now.net.now) }
    ensures { StaysAtWork C.laws shop.now.net.now shop.now.tools.now seat.old seat.new place.new }
{
    if is_held(rt, shop.tools, node) {
        return Came::nothing();
    }
    tell_others(shop.tools, place);
    let came = work_at(rt, shop, seat, place, node);
    note_turns(shop.tools, place, &came);
    if came.left.is_some() {
        return came;
    }
    note_worked(rt, shop, seat, place, node);
    came
}

// Does works of a node, raises the bounds of its outputs, and calls who waits for its turns. Then brings what was laid along the edges that
// lead from it. If another worker has a turn of the node, nothing is done.
fn go_through<C: NodeCalculator, R: Wait, G: Gate>(
    rt: &R,
    shop: &Shop<'_, C, G>,
    seat: &mut NetSeat<C>,
    place: &mut Place,
    node: u32,
) -> Came
    requires at_work { IsWithoutWork C.laws shop.now.net.now shop.now.tools.now seat.old place.old }
    requires node { node < nodes_in (key_of shop.now.net.now) }
    ensures { StaysAtWork C.laws shop.now.net.now shop.now.tools.now seat.old seat.new place.new }
{
    let worked = work(rt, shop, seat, place, node);
    if worked.left.is_some() {
        return worked;
    }
    let raised = raise(rt, shop, seat, node);
    note_turns(shop.tools, place, &raised);
    call_waiting(rt, shop, place, node as usize);
    let brought = bring_laid(rt, shop, seat, place, node);
    worked.and(&raised).and(&brought)
}

// Brings what a node laid in an earlier visit, if not all of that could be brought then.
fn catch_up<C: NodeCalculator, R: Wait, G: Gate>(
    rt: &R,
    shop: &Shop<'_, C, G>,
    seat: &mut NetSeat<C>,
    place: &mut Place,
    node: u32,
) -> Came
    requires at_work { IsWithoutWork C.laws shop.now.net.now shop.now.tools.now seat.old place.old }
    requires node { node < nodes_in (key_of shop.now.net.now) }
    ensures { StaysAtWork C.laws shop.now.net.now shop.now.tools.now seat.old seat.new place.new }
{
    if shop.tools.marks.behind.is_set(node) {
        bring_laid(rt, shop, seat, place, node)
    } else {
        Came::nothing()
    }
}

// Serves a node once all is brought that it laid before. So while another worker has a consumer's turn, however long that takes, no more
// waits to be brought than a node lays in one visit.
fn visit<C: NodeCalculator, R: Wait, G: Gate>(
    rt: &R,
    shop: &Shop<'_, C, G>,
    seat: &mut NetSeat<C>,
    place: &mut Place,
    node: u32,
) -> Came
    requires at_work { IsWithoutWork C.laws shop.now.net.now shop.now.tools.now seat.old place.old }
    requires node { node < nodes_in (key_of shop.now.net.now) }
    ensures { StaysAtWork C.laws shop.now.net.now shop.now.tools.now seat.old seat.new place.new }
{
    let late = catch_up(rt, shop, seat, place, node);
    if !late.is_all() {
        return late;
    }
    let came = go_through(rt, shop, seat, place, node);
    late.and(&came)
}

/// Serves a node. If there may be more to do, keeps the node to come back to. If another worker has a turn that this takes, the
/// node or the edge waits until that worker calls it.
pub(crate) fn serve<C: NodeCalculator, R: Wait, G: Gate>(
    rt: &R,
    shop: &Shop<'_, C, G>,
    seat: &mut NetSeat<C>,
    place: &mut Place,
    node: u32,
) -> Came
    requires at_work { IsWithoutWork C.laws shop.now.net.now shop.now.tools.now seat.old place.old }
    requires node { node < nodes_in (key_of shop.now.net.now) }
    ensures { StaysAtWork C.laws shop.now.net.now shop.now.tools.now seat.old seat.new place.new }
{
    take_up(shop.tools, node);
    let came = visit(rt, shop, seat, place, node);
    leave(rt, shop.tools, place, node, came.more);
    came
}
