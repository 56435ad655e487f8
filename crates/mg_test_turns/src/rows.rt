//! Calls one after the other on two seats of one net.
ghost use Rattle.std.specs.Prelude.{◌≡◌, ◌^◌, IfOk, OnOk};
ghost use Rattle.mg_route.specs.TableLaws.{table_laws};
ghost use Rattle.mg_node.specs.Job.{LoggedJob};
ghost use Rattle.mg_node.specs.Lawful.{LawfulWork, LawfulOutcome};
ghost use Rattle.mg_turns.specs.Parts.{nodes_in, Fits};
ghost use Rattle.mg_turns.specs.Calls.{key_of, view_of};
ghost use Rattle.mg_workers.specs.Shared.{IsShared, IsSharedWith};
ghost use Rattle.mg_seats.specs.Held.{CameOf};

use crate::nets::{expect_last, let_go, shared_of};
use mg_calc::Phase;
use mg_node::{Outcome, Work};
use mg_route::LawBox;
use mg_seats::{Idle, Shared, append, claim, commit, performed, shelve, together};
use mg_turns::{NetSeat, SharedNet};
use mg_workers::Kept;
use std::alloc::Global;
use std::test::Fail;

// Returns a graph of one node that passes packets through.
fn passing() -> &'static str {
    r#"input_stream: "in" output_stream: "out"
node { calculator: "PassThroughCalculator" input_stream: "in" output_stream: "out" }"#
}

// Returns the shared net of `passing` over one packet at 5. It has one node.
fn one_node(alloc: Global) -> Result<Shared, Fail>
    ensures shared { IfOk result (λ r. IsShared table_laws r.net r.seat) }
    ensures whole { IfOk result (λ r. (view_of r.seat).portion ≡ 2 ^ 32) }
    ensures kept { IfOk result (λ r. CameOf table_laws 1 (key_of r.net) r.kept) }
    ensures one { IfOk result (λ r. nodes_in (key_of r.net) ≡ 1) }
{
    let shared = shared_of(alloc, passing(), r#"{"stream":"in","ts":5,"value":7}"#)?;
    if shared.net.nodes() != 1 {
        drop(shared);
        return Err(Fail::from("not one node"));
    }
    Ok(shared)
}

// Claims the node's one work for a seat: the set at 5.
fn work_at_five(net: &SharedNet<LawBox>, seat: &mut NetSeat<LawBox>) -> Result<Work<LawBox>, Fail>
    requires shared { IsShared table_laws net.now seat.old }
    requires one { nodes_in (key_of net.now) ≡ 1 }
    ensures portion { (view_of seat.new).portion ≡ (view_of seat.old).portion }
    ensures work { IfOk result (λ w. IsSharedWith table_laws net.now seat.new w) }
    ensures lawful { IfOk result (λ w. (job : LoggedJob table_laws) → Fits job (key_of net.now) → LawfulWork job w) }
{
    let Ok(work) = claim(net, seat, 0) else {
        return Err(Fail::from("no work"));
    };
    match work.phase() {
        Phase::Process(time) if time.raw() == 5 => Ok(work),
        _ => {
            drop(work);
            Err(Fail::from("not the set at 5"))
        }
    }
}

// Checks that a second seat gets no work meanwhile.
fn gets_none(net: &SharedNet<LawBox>, seat: &mut NetSeat<LawBox>) -> Result<(), Fail>
    requires shared { IsShared table_laws net.now seat.old }
    requires one { nodes_in (key_of net.now) ≡ 1 }
    ensures shared { OnOk result (IsShared table_laws net.now seat.new) }
    ensures portion { (view_of seat.new).portion ≡ (view_of seat.old).portion }
{
    match claim(net, seat, 0) {
        Err(Idle::InFlightFull) => Ok(()),
        Err(Idle::Other) => Err(Fail::from("not as many as may be")),
        Ok(work) => {
            drop(work);
            Err(Fail::from("one work twice"))
        }
    }
}

// Commits the work, or puts it back into its window, by the seat that has it.
fn comes_back(
    net: &SharedNet<LawBox>,
    seat: &mut NetSeat<LawBox>,
    outcome: Outcome<LawBox>,
    shelves: bool,
) -> Result<(), Fail>
    requires has { IsSharedWith table_laws net.now seat.old outcome.work }
    requires lawful { (job : LoggedJob table_laws) → Fits job (key_of net.now) → LawfulOutcome job outcome }
    ensures portion { (view_of seat.new).portion ≡ (view_of seat.old).portion }
    ensures free { OnOk result (IsShared table_laws net.now seat.new) }
{
    if shelves {
        if shelve(net, seat, outcome) {
            return Ok(());
        }
        return Err(Fail::from("not shelved"));
    }
    match commit(net, seat, outcome) {
        Some(1) => Ok(()),
        Some(_) => Err(Fail::from("not one set laid")),
        None => Err(Fail::from("not committed")),
    }
}

// Checks that a second seat gets no work while the first seat has one. Then performs the first seat's work and brings
// it back.
fn comes_round(
    alloc: Global,
    net: &SharedNet<LawBox>,
    seat: &mut NetSeat<LawBox>,
    second: &mut NetSeat<LawBox>,
    work: Work<LawBox>,
    shelves: bool,
) -> Result<(), Fail>
    requires has { IsSharedWith table_laws net.now seat.old work }
    requires lawful { (job : LoggedJob table_laws) → Fits job (key_of net.now) → LawfulWork job work }
    requires second { IsShared table_laws net.now second.old }
    requires one { nodes_in (key_of net.now) ≡ 1 }
    ensures portion { (view_of seat.new).portion ≡ (view_of seat.old).portion }
    ensures portion_too { (view_of second.new).portion ≡ (view_of second.old).portion }
    ensures free { OnOk result (IsShared table_laws net.now seat.new × IsShared table_laws net.now second.new) }
{
    match gets_none(net, second) {
        Ok(()) => {
            let Some(outcome) = performed(alloc, work) else {
                return Err(Fail::from("no memory"));
            };
            comes_back(net, seat, outcome, shelves)?;
            Ok(())
        }
        Err(fail) => {
            drop(work);
            Err(fail)
        }
    }
}

// Brings the packet to the node, and claims its work for one seat while another gets none. Then the work comes back.
fn goes_round(
    alloc: Global,
    net: &SharedNet<LawBox>,
    seat: &mut NetSeat<LawBox>,
    shelves: bool,
) -> Result<(), Fail>
    requires shared { IsShared table_laws net.now seat.old }
    requires whole { (view_of seat.old).portion ≡ 2 ^ 32 }
    requires one { nodes_in (key_of net.now) ≡ 1 }
    ensures shared { OnOk result (IsShared table_laws net.now seat.new) }
    ensures whole { OnOk result ((view_of seat.new).portion ≡ 2 ^ 32) }
{
    if append(net, seat, 0) != Some((1, true)) {
        return Err(Fail::from("not one packet and the bound"));
    }
    let work = work_at_five(net, seat)?;
    let mut second = seat.split(net, 1);
    match comes_round(alloc, net, seat, &mut second, work, shelves) {
        Ok(()) => {
            seat.join(net, second);
            Ok(())
        }
        Err(fail) => {
            drop(second);
            Err(fail)
        }
    }
}

// Shares the net, lets the work go out and come back, and checks the end.
fn one_work(alloc: Global, shelves: bool) -> Result<(), Fail> {
    let Shared {
        net,
        mut seat,
        kept,
    } = one_node(alloc)?;
    match goes_round(alloc, &net, &mut seat, shelves) {
        Ok(()) => ends(alloc, net, seat, kept),
        Err(fail) => {
            let_go(net, seat, kept);
            Err(fail)
        }
    }
}

// Checks that no turn was missed, and that the packet comes out.
fn ends(
    alloc: Global,
    net: SharedNet<LawBox>,
    seat: NetSeat<LawBox>,
    kept: Kept<LawBox>,
) -> Result<(), Fail>
    requires shared { IsShared table_laws net seat }
    requires whole { (view_of seat).portion ≡ 2 ^ 32 }
    requires kept { CameOf table_laws 1 (key_of net) kept }
{
    if seat.misses() != 0 {
        let_go(net, seat, kept);
        return Err(Fail::from("a turn was missed"));
    }
    expect_last(alloc, together(net, seat, kept), 1, "7@5")
}

#[test]
fn a_work_is_committed(rt: HostRuntime) -> Result<(), Fail> {
    one_work(rt.alloc(), false)
}

#[test]
fn a_work_is_shelved(rt: HostRuntime) -> Result<(), Fail> {
    one_work(rt.alloc(), true)
}
