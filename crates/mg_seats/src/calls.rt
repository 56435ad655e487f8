//! The calls on a shared net, each by one seat. A seat has a work only from a claim to the commit or the shelving of the work that the
//! claim gave.
ghost use Rattle.std.specs.Prelude.{◌≡◌, ◌<◌, true, Option, IfOk, OnErr, IfSome, OnSome};
ghost use Rattle.mg_route.specs.TableLaws.{table_laws};
ghost use Rattle.mg_node.specs.declared.claimed.Claimed.TheVariants as Claimed;
ghost use Rattle.mg_node.specs.Views.{WorkView};
ghost use Rattle.mg_node.specs.Job.{LoggedJob};
ghost use Rattle.mg_node.specs.Lawful.{LawfulWork, LawfulOutcome};
ghost use Rattle.mg_node.specs.Running.{SomeJobHas};
ghost use Rattle.mg_turns.specs.Parts.{nodes_in, Fits};
ghost use Rattle.mg_turns.specs.Sights.{has_after};
ghost use Rattle.mg_turns.specs.Calls.{key_of, view_of};
ghost use Rattle.mg_workers.specs.Shared.{IsShared, IsSharedWith, StaysShared};
ghost use Rattle.mg_seats.specs.Held.{IsSameWork};

use mg_edge::StillGate;
use mg_node::{Claimed, Delivered, Outcome, Work, perform};
use mg_route::LawBox;
use mg_turns::{NetSeat, SharedNet, Tried, TriedCommit, TriedShelf};
use std::alloc::Global;

/// Brings packets along an edge, and returns how many, and whether the bound rose. Returns `None` if there is no such edge, if
/// another seat has a turn, or if memory doesn't suffice.
#[tactic(auto, using(crate::proofs::Sharing::stays_shared, crate::proofs::Sharing::stays_itself))]
pub fn append(net: &SharedNet<LawBox>, seat: &mut NetSeat<LawBox>, edge: u32) -> Option<(u32, bool)>
    requires shared { IsShared table_laws net.now seat.old }
    ensures shared { StaysShared table_laws net.now seat.old seat.new }
{
    if edge as usize >= net.edges() {
        return None;
    }
    let tried = net.try_append(seat, edge);
    match tried {
        Tried::Done(Delivered::Moved { packets, raised }) => Some((packets, raised)),
        Tried::Done(Delivered::OutOfMemory { .. }) => None,
        Tried::Busy { .. } => None,
    }
}

/// Raises the bounds of a node's outputs, and returns whether one moved, or `None` if another seat has a turn.
#[tactic(auto, using(crate::proofs::Sharing::stays_shared))]
pub fn raise(net: &SharedNet<LawBox>, seat: &mut NetSeat<LawBox>, node: u32) -> Option<bool>
    requires shared { IsShared table_laws net.now seat.old }
    requires node { node < nodes_in (key_of net.now) }
    ensures shared { StaysShared table_laws net.now seat.old seat.new }
{
    let tried = net.try_raise(seat, node);
    match tried {
        Tried::Done(moved) => Some(moved),
        Tried::Busy { .. } => None,
    }
}

/// Does at most `most` works of a node under one pair of turns, and returns how many. Returns 0 if another seat has a turn.
#[tactic(auto, using(crate::proofs::Sharing::stays_shared))]
pub fn run(
    alloc: Global,
    net: &SharedNet<LawBox>,
    seat: &mut NetSeat<LawBox>,
    node: u32,
    most: u32,
) -> u32
    requires shared { IsShared table_laws net.now seat.old }
    requires node { node < nodes_in (key_of net.now) }
    ensures shared { StaysShared table_laws net.now seat.old seat.new }
{
    let tried = net.try_run(alloc, seat, node, most, &StillGate);
    match tried {
        Tried::Done(done) => done,
        Tried::Busy { .. } => 0,
    }
}

/// Why a claim gave no work.
#[derive(Clone, Copy)]
pub enum Idle {
    /// As many works of the node are in flight as may be.
    InFlightFull,
    /// Any other reason, also that another seat has a turn.
    Other,
}

// Returns the work that a claim gave, or why it gave none.
fn work_of(claimed: Claimed<LawBox>) -> Result<Work<LawBox>, Idle>
    ensures work { IfOk result (λ w. claimed ≡ Claimed.Work w) }
    ensures none { OnErr result ((had : Option WorkView) → has_after claimed had ≡ had) }
{
    match claimed {
        Claimed::Work(work) => Ok(work),
        Claimed::Answered => Err(Idle::Other),
        Claimed::NotReady => Err(Idle::Other),
        Claimed::InFlightFull => Err(Idle::InFlightFull),
        Claimed::Draining => Err(Idle::Other),
        Claimed::Ended => Err(Idle::Other),
        Claimed::OutOfMemory => Err(Idle::Other),
    }
}

/// Claims the next work of a node, or returns why the claim gave none.
pub fn claim(
    net: &SharedNet<LawBox>,
    seat: &mut NetSeat<LawBox>,
    node: u32,
) -> Result<Work<LawBox>, Idle>
    requires shared { IsShared table_laws net.now seat.old }
    requires node { node < nodes_in (key_of net.now) }
    ensures portion { (view_of seat.new).portion ≡ (view_of seat.old).portion }
    ensures work { IfOk result (λ w. IsSharedWith table_laws net.now seat.new w) }
    ensures free { OnErr result (IsShared table_laws net.now seat.new) }
    ensures lawful { IfOk result (λ w. (job : LoggedJob table_laws) → Fits job (key_of net.now) → LawfulWork job w) }
{
    match net.try_claim(seat, node) {
        Tried::Done(claimed) => work_of(claimed),
        Tried::Busy { .. } => Err(Idle::Other),
    }
}

/// Performs a work, and returns its outcome, or `None` when out of memory.
pub fn performed(alloc: Global, work: Work<LawBox>) -> Option<Outcome<LawBox>>
    requires { SomeJobHas table_laws work }
    ensures lawful { IfSome result (λ o. (job : LoggedJob table_laws) → LawfulWork job work → LawfulOutcome job o) }
    ensures same { IfSome result (λ o. IsSameWork work o.work) }
{
    match perform(alloc, work, &StillGate) {
        Ok(performed) => Some(Outcome::ran(performed)),
        Err(_) => None,
    }
}

/// Commits the work that a seat has, and returns how many sets or calls were laid. Returns `None` if another seat has the turn, or if
/// memory doesn't suffice. The work is lost then, and the seat still counts as having it.
pub fn commit(
    net: &SharedNet<LawBox>,
    seat: &mut NetSeat<LawBox>,
    outcome: Outcome<LawBox>,
) -> Option<u32>
    requires has { IsSharedWith table_laws net.now seat.old outcome.work }
    requires lawful { (job : LoggedJob table_laws) → Fits job (key_of net.now) → LawfulOutcome job outcome }
    ensures portion { (view_of seat.new).portion ≡ (view_of seat.old).portion }
    ensures free { OnSome result (IsShared table_laws net.now seat.new) }
{
    match net.try_commit(seat, outcome) {
        TriedCommit::Laid(laid) => Some(laid),
        TriedCommit::Busy { .. } => None,
        TriedCommit::OutOfMemory(_) => None,
    }
}

/// Puts the work that a seat has back into its window, and returns whether it did. If another seat has the turn, the work is lost, and
/// the seat still counts as having it.
pub fn shelve(net: &SharedNet<LawBox>, seat: &mut NetSeat<LawBox>, outcome: Outcome<LawBox>) -> bool
    requires has { IsSharedWith table_laws net.now seat.old outcome.work }
    requires lawful { (job : LoggedJob table_laws) → Fits job (key_of net.now) → LawfulOutcome job outcome }
    ensures portion { (view_of seat.new).portion ≡ (view_of seat.old).portion }
    ensures free { result ≡ true → IsShared table_laws net.now seat.new }
{
    match net.try_shelve(seat, outcome) {
        TriedShelf::Shelved => true,
        TriedShelf::Busy { .. } => false,
    }
}
