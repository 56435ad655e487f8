//! A node after a source is served round by round. The calls of one seat on a shared net serve it, or the events of the net alone. A word
//! says what a round is made of, with a letter for each call: `s`, a number of sets of the source; `d`, a delivery to the node; `c`, a
//! claim of the node that finds nothing; `w`, a set of the node, claimed, performed and committed by itself; `h`, a set that is claimed and
//! put back; `r`, a number of sets of the node under one pair of turns; and `u`, the node's outputs are raised.
ghost use Rattle.mg_route.specs.TableLaws.{table_laws};
ghost use Rattle.std.specs.Prelude.{◌≡◌, OnSome};
ghost use Rattle.mg_turns.specs.Parts.{nodes_in};
ghost use Rattle.mg_turns.specs.Calls.{key_of};
ghost use Rattle.mg_workers.specs.Shared.{IsShared};
ghost use Rattle.mg_nets.specs.Driven.{IsDriven};

use crate::chain::chain;
use crate::words::{is, number, word};
use mg_calc::{Effect, Event};
use mg_nets::{Driver, act};
use mg_node::Outcome;
use mg_route::LawBox;
use mg_seats::{append, claim, commit, performed, raise, run as run_sets, shared_net, shelve};
use mg_turns::{NetSeat, SharedNet};
use std::alloc::Global;
use std::test::Fail;

/// What is measured.
#[derive(Drop)]
struct Load {
    rounds: u32,
    sets: u32,
    calls: String,
}

/// How many works were claimed of the source and of the node.
#[derive(Drop)]
struct Claims {
    source: u64,
    node: u64,
}

/// Reads the words for what is measured, and returns how much was done: works that were committed, and deliveries and raises that changed
/// something.
pub fn run(rt: &HostRuntime) -> Result<u64, Fail> {
    let load = load_of(rt)?;
    served(rt, &load)
}

// Reads the words after the word `turns`: rounds, sets, `seat` or `net`, and the calls of a round.
fn load_of(rt: &HostRuntime) -> Result<Load, Fail> {
    let rounds = number(rt, 2)?;
    let sets = number(rt, 3)?;
    match word(rt, 5) {
        Some(calls) => Ok(Load {
            rounds,
            sets,
            calls,
        }),
        None => Err(Fail::from("the calls of a round are missing")),
    }
}

// Makes all rounds, by one seat or by the net alone. Returns how much was done.
fn served(rt: &HostRuntime, load: &Load) -> Result<u64, Fail> {
    let packets = load.rounds.saturating_mul(load.sets).saturating_add(1);
    let driver = chain(rt.alloc(), 1, packets, 1_000_000)?;
    if is(rt, 4, "seat") {
        by_seat(rt.alloc(), driver, load)
    } else {
        by_net(driver, load)
    }
}

// Shares the net, and makes all rounds by one seat. Returns how much was done.
fn by_seat(alloc: Global, driver: Driver, load: &Load) -> Result<u64, Fail>
    requires { IsDriven table_laws driver.plan driver.inputs driver.net }
{
    let Driver { plan, inputs, net } = driver;
    drop(plan);
    drop(inputs);
    let mut shared = shared_net(alloc, net)?;
    let done = rounds_by_seat(alloc, &shared.net, &mut shared.seat, load);
    drop(shared);
    match done {
        Some(done) => Ok(done),
        None => Err(Fail::from("a call came to nothing")),
    }
}

// Makes all rounds by a seat.
fn rounds_by_seat(
    alloc: Global,
    net: &SharedNet<LawBox>,
    seat: &mut NetSeat<LawBox>,
    load: &Load,
) -> Option<u64>
    requires { IsShared table_laws net.now seat.old }
{
    if net.nodes() != 2 {
        return None;
    }
    let mut done = 0_u64;
    for _ in 0..load.rounds {
        let more = round_by_seat(alloc, net, seat, load)?;
        done = done.saturating_add(more);
    }
    Some(done)
}

// Makes one round by a seat.
fn round_by_seat(
    alloc: Global,
    net: &SharedNet<LawBox>,
    seat: &mut NetSeat<LawBox>,
    load: &Load,
) -> Option<u64>
    requires shared { IsShared table_laws net.now seat.old }
    requires two { nodes_in (key_of net.now) ≡ 2 }
    ensures shared { OnSome result (IsShared table_laws net.now seat.new) }
{
    let mut done = 0_u64;
    for call in load.calls.as_bytes() {
        let more = call_by_seat(alloc, net, seat, *call, load.sets)?;
        done = done.saturating_add(more);
    }
    Some(done)
}

// Makes one call of a round by a seat.
fn call_by_seat(
    alloc: Global,
    net: &SharedNet<LawBox>,
    seat: &mut NetSeat<LawBox>,
    call: u8,
    sets: u32,
) -> Option<u64>
    requires shared { IsShared table_laws net.now seat.old }
    requires two { nodes_in (key_of net.now) ≡ 2 }
    ensures shared { OnSome result (IsShared table_laws net.now seat.new) }
{
    match call {
        b's' => Some(u64::from(run_sets(alloc, net, seat, 0, sets))),
        b'd' => bring(net, seat),
        b'c' => find_nothing(net, seat),
        b'w' => work(alloc, net, seat),
        b'h' => put_back(net, seat),
        b'r' => Some(u64::from(run_sets(alloc, net, seat, 1, sets))),
        b'u' => lift(net, seat),
        _ => None,
    }
}

// Delivers to the node.
fn bring(net: &SharedNet<LawBox>, seat: &mut NetSeat<LawBox>) -> Option<u64>
    requires shared { IsShared table_laws net.now seat.old }
    ensures shared { IsShared table_laws net.now seat.new }
{
    match append(net, seat, 0) {
        Some((packets, _)) => Some(u64::from(packets > 0)),
        None => None,
    }
}

// Raises the node's outputs.
fn lift(net: &SharedNet<LawBox>, seat: &mut NetSeat<LawBox>) -> Option<u64>
    requires shared { IsShared table_laws net.now seat.old }
    requires two { nodes_in (key_of net.now) ≡ 2 }
    ensures shared { IsShared table_laws net.now seat.new }
{
    match raise(net, seat, 1) {
        Some(moved) => Some(u64::from(moved)),
        None => None,
    }
}

// Claims a work of the node, which finds none.
fn find_nothing(net: &SharedNet<LawBox>, seat: &mut NetSeat<LawBox>) -> Option<u64>
    requires shared { IsShared table_laws net.now seat.old }
    requires two { nodes_in (key_of net.now) ≡ 2 }
    ensures shared { OnSome result (IsShared table_laws net.now seat.new) }
{
    match claim(net, seat, 1) {
        Ok(work) => {
            drop(work);
            None
        }
        Err(_) => Some(0),
    }
}

// Claims a set of the node, performs and commits it.
fn work(alloc: Global, net: &SharedNet<LawBox>, seat: &mut NetSeat<LawBox>) -> Option<u64>
    requires shared { IsShared table_laws net.now seat.old }
    requires two { nodes_in (key_of net.now) ≡ 2 }
    ensures shared { OnSome result (IsShared table_laws net.now seat.new) }
{
    let Ok(work) = claim(net, seat, 1) else {
        return None;
    };
    let Some(outcome) = performed(alloc, work) else {
        return None;
    };
    let laid = commit(net, seat, outcome)?;
    Some(u64::from(laid))
}

// Claims a set of the node, and puts it back as it is.
fn put_back(net: &SharedNet<LawBox>, seat: &mut NetSeat<LawBox>) -> Option<u64>
    requires shared { IsShared table_laws net.now seat.old }
    requires two { nodes_in (key_of net.now) ≡ 2 }
    ensures shared { OnSome result (IsShared table_laws net.now seat.new) }
{
    let Ok(work) = claim(net, seat, 1) else {
        return None;
    };
    if shelve(net, seat, Outcome::unrun(work)) {
        Some(0)
    } else {
        None
    }
}

// Makes all rounds by the net alone. Returns how much was done.
fn by_net(driver: Driver, load: &Load) -> Result<u64, Fail>
    requires { IsDriven table_laws driver.plan driver.inputs driver.net }
{
    let mut driver = driver;
    let done = rounds_by_net(&mut driver, load);
    drop(driver);
    done
}

// Makes all rounds by the events of the net.
fn rounds_by_net(driver: &mut Driver, load: &Load) -> Result<u64, Fail>
    requires { IsDriven table_laws driver.old.plan driver.old.inputs driver.old.net }
{
    let mut claims = Claims { source: 0, node: 0 };
    let mut done = 0_u64;
    for _ in 0..load.rounds {
        let more = round_by_net(driver, &mut claims, load)?;
        done = done.saturating_add(more);
    }
    Ok(done)
}

// Makes one round by the events of the net.
fn round_by_net(driver: &mut Driver, claims: &mut Claims, load: &Load) -> Result<u64, Fail>
    requires { IsDriven table_laws driver.old.plan driver.old.inputs driver.old.net }
    ensures { IsDriven table_laws driver.new.plan driver.new.inputs driver.new.net }
{
    let mut done = 0_u64;
    for call in load.calls.as_bytes() {
        let more = call_by_net(driver, claims, *call, load.sets)?;
        done = done.saturating_add(more);
    }
    Ok(done)
}

// Makes the events of one call of a round. A set can't be put back by an event.
fn call_by_net(driver: &mut Driver, claims: &mut Claims, call: u8, sets: u32) -> Result<u64, Fail>
    requires { IsDriven table_laws driver.old.plan driver.old.inputs driver.old.net }
    ensures { IsDriven table_laws driver.new.plan driver.new.inputs driver.new.net }
{
    match call {
        b's' => works(driver, 0, &mut claims.source, sets),
        b'd' => make(driver, Event::Deliver { edge: 0 }),
        b'c' => make(driver, Event::Claim { node: 1 }),
        b'w' => works(driver, 1, &mut claims.node, 1),
        b'r' => works(driver, 1, &mut claims.node, sets),
        b'u' => make(driver, Event::Advance { node: 1 }),
        _ => Err(Fail::from("no such event")),
    }
}

// Claims, performs and commits a number of sets of a node.
fn works(driver: &mut Driver, node: u32, number: &mut u64, sets: u32) -> Result<u64, Fail>
    requires { IsDriven table_laws driver.old.plan driver.old.inputs driver.old.net }
    ensures { IsDriven table_laws driver.new.plan driver.new.inputs driver.new.net }
{
    let mut done = 0_u64;
    for _ in 0..sets {
        let more = work_by_net(driver, node, *number)?;
        *number = number.wrapping_add(1);
        done = done.saturating_add(more);
    }
    Ok(done)
}

// Claims, performs and commits the set of a node with a number.
fn work_by_net(driver: &mut Driver, node: u32, number: u64) -> Result<u64, Fail>
    requires { IsDriven table_laws driver.old.plan driver.old.inputs driver.old.net }
    ensures { IsDriven table_laws driver.new.plan driver.new.inputs driver.new.net }
{
    make(driver, Event::Claim { node })?;
    make(driver, Event::Perform { node, number })?;
    make(driver, Event::Commit { node, number })
}

// Makes an event, and returns 1 if it did anything, or else 0.
fn make(driver: &mut Driver, event: Event) -> Result<u64, Fail>
    requires { IsDriven table_laws driver.old.plan driver.old.inputs driver.old.net }
    ensures { IsDriven table_laws driver.new.plan driver.new.inputs driver.new.net }
{
    match act(driver, event)? {
        Effect::Did => Ok(1),
        Effect::Idle => Ok(0),
        Effect::OutOfMemory => Err(Fail::from("no memory")),
    }
}
