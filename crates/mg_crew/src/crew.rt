//! Workers that run a net side by side.
ghost use Rattle.std.specs.Prelude.{◌≤◌, ◌^◌};
ghost use Rattle.std.specs.Thread.{IsSync, IsSend};
ghost use Rattle.mg_turns.specs.Calls.{view_of};
ghost use Rattle.mg_workers.specs.Shared.{StaysShared};
ghost use Rattle.mg_crew.specs.Code.Places.{HasPortion};
ghost use Rattle.mg_crew.specs.Code.Seats.{IsWithoutWork, StaysAtWork};

use crate::putting::{Place, split};
use crate::rounds::{go_on, look_over};
use crate::shop::Shop;
use crate::throttling::{begin, relax};
use mg_calc::NodeCalculator;
use mg_edge::Gate;
use mg_turns::NetSeat;
use std::sync::Wait;
use std::thread::{Threads, join};

// Waits, as a worker that found nothing to do, until there is something new, and returns whether there is. The last worker to
// find nothing relaxes the limits of full queues instead, or else looks over everything. If it finds nothing then, all workers
// end.
fn rest<C: NodeCalculator, R: Wait, G: Gate>(
    rt: &R,
    shop: &Shop<'_, C, G>,
    seat: &mut NetSeat<C>,
    place: &mut Place,
    seen: u64,
) -> bool
    requires at_work { IsWithoutWork C.laws shop.now.net.now shop.now.tools.now seat.old place.old }
    ensures { StaysAtWork C.laws shop.now.net.now shop.now.tools.now seat.old seat.new place.new }
{
    if !shop.tools.board.rest() {
        return shop.tools.board.wait(rt, seen);
    }
    if relax(rt, shop.tools, place) {
        shop.tools.board.settle(true);
        return true;
    }
    let came = look_over(rt, shop, seat, place);
    let found = !came.is_nothing();
    shop.tools.board.settle(found);
    found
}

// Works until no worker that has begun has anything to do. Returns the worker's seat.
fn work<C: NodeCalculator, R: Wait, G: Gate>(
    rt: &R,
    shop: &Shop<'_, C, G>,
    seat: NetSeat<C>,
    place: Place,
) -> NetSeat<C>
    requires at_work { IsWithoutWork C.laws shop.now.net.now shop.now.tools.now seat place }
    ensures { StaysShared C.laws shop.now.net.now seat result }
{
    let mut seat = seat;
    let mut place = place;
    begin(rt, shop.tools, &mut place);
    for _ in rt.forever() {
        let seen = shop.tools.board.news();
        if go_on(rt, shop, &mut seat, &mut place) {
            continue;
        }
        if !rest(rt, shop, &mut seat, &mut place, seen) {
            let turns = seat.misses().saturating_add(place.vain);
            shop.tools.board.note_vain(turns);
            return seat;
        }
    }
    unreachable!()
}

/// Runs a net by `workers` workers, at least one, each with a seat of its own. Returns a seat that has the portions of all of them.
#[cycle(crew)]
pub(crate) fn crew<C: NodeCalculator + Send, R: Threads + Wait + Sync, G: Gate + Sync>(
    rt: &R,
    shop: &Shop<'_, C, G>,
    seat: NetSeat<C>,
    place: Place,
    workers: u32,
) -> NetSeat<C>
    requires bounds { IsSend C.row × IsSync R.row × IsSync G.row }
    requires at_work { IsWithoutWork C.laws shop.now.net.now shop.now.tools.now seat place }
    requires portion { (workers ≤ (view_of seat).portion) × ((view_of seat).portion ≤ 2 ^ 32) }
    requires place { HasPortion workers place }
    ensures { StaysShared C.laws shop.now.net.now seat result }
{
    if workers <= 1 {
        return work(rt, shop, seat, place);
    }
    let mut mine = seat;
    let mut place = place;
    let (alloc, net, tools, gate) = (shop.alloc, shop.net, shop.tools, shop.gate);
    let theirs = mine.split(net, 1);
    let their_place = split(alloc, &tools.levels, &mut place);
    let others = workers - 1;
    let many = move || -> NetSeat<C>
        requires { IsSend C.row × IsSync R.row × IsSync G.row × IsWithoutWork C.laws net.now tools.now mine place
            × (others ≤ (view_of mine).portion) × ((view_of mine).portion ≤ 2 ^ 32) × HasPortion others place }
        ensures { StaysShared C.laws net.entry.now mine result }
    {
        let shop = Shop {
            alloc,
            net,
            tools,
            gate,
        };
        crew(rt, &shop, mine, place, others)
    };
    let one = move || -> NetSeat<C>
        requires { IsWithoutWork C.laws net.now tools.now theirs their_place }
        ensures { StaysShared C.laws net.entry.now theirs result }
    {
        let shop = Shop {
            alloc,
            net,
            tools,
            gate,
        };
        work(rt, &shop, theirs, their_place)
    };
    let (mut all, other) = join(rt, many, one);
    all.join(net, other);
    all
}
