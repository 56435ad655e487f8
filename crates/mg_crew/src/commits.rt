//! Brings works back that were claimed one by one.
ghost use Rattle.mg_turns.specs.Calls.{key_of};
ghost use Rattle.mg_workers.specs.Shared.{IsSharedWith, StaysShared};
ghost use Rattle.mg_crew.specs.Code.Seats.{FitsWork, FitsOutcome};

use crate::shop::Shop;
use mg_calc::NodeCalculator;
use mg_edge::Gate;
use mg_node::{Outcome, Work, perform};
use mg_turns::{NetSeat, SharedNet, TriedCommit, TriedShelf};
use std::sync::Wait;
use std::thread;

// Puts a work back into its window as it is, once the seat gets the turn of the node.
fn shelve<C: NodeCalculator, R: Wait>(
    rt: &R,
    net: &SharedNet<C>,
    seat: &mut NetSeat<C>,
    outcome: Outcome<C>,
)
    requires has { IsSharedWith C.laws net.now seat.old outcome.work }
    requires lawful { FitsOutcome C.laws (key_of net.now) outcome }
    ensures { StaysShared C.laws net.now seat.old seat.new }
{
    let mut outcome = outcome;
    for _ in rt.forever() {
        match net.try_shelve(seat, outcome) {
            TriedShelf::Shelved => return,
            TriedShelf::Busy { outcome: back, .. } => {
                outcome = back;
                thread::yield_now();
            }
        }
    }
    unreachable!()
}

// Commits a work, or puts it back into its window if there is no memory. Returns whether it is committed.
fn commit<C: NodeCalculator, R: Wait>(
    rt: &R,
    net: &SharedNet<C>,
    seat: &mut NetSeat<C>,
    outcome: Outcome<C>,
) -> bool
    requires has { IsSharedWith C.laws net.now seat.old outcome.work }
    requires lawful { FitsOutcome C.laws (key_of net.now) outcome }
    ensures { StaysShared C.laws net.now seat.old seat.new }
{
    let mut outcome = outcome;
    for _ in rt.forever() {
        match net.try_commit(seat, outcome) {
            TriedCommit::Laid(_) => return true,
            TriedCommit::Busy { outcome: back, .. } => {
                outcome = back;
                thread::yield_now();
            }
            TriedCommit::OutOfMemory(back) => {
                shelve(rt, net, seat, back);
                return false;
            }
        }
    }
    unreachable!()
}

/// Performs a work while the seat has no turn, and commits it, or puts it back into its window if there is no memory. Returns
/// whether it is committed.
pub(crate) fn finish<C: NodeCalculator, R: Wait, G: Gate>(
    rt: &R,
    shop: &Shop<'_, C, G>,
    seat: &mut NetSeat<C>,
    work: Work<C>,
) -> bool
    requires has { IsSharedWith C.laws shop.now.net.now seat.old work }
    requires lawful { FitsWork C.laws (key_of shop.now.net.now) work }
    ensures { StaysShared C.laws shop.now.net.now seat.old seat.new }
{
    match perform(shop.alloc, work, shop.gate) {
        Ok(performed) => commit(rt, shop.net, seat, Outcome::ran(performed)),
        Err(work) => {
            shelve(rt, shop.net, seat, Outcome::unrun(work));
            false
        }
    }
}
