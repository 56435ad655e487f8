//! How a worker does works of a node, raises the bounds of its outputs, and brings packets along an edge.
ghost use Rattle.std.specs.Prelude.{◌≡◌, ◌<◌, Contains, length, IfOk, OnErr};
ghost use Rattle.mg_levels.specs.Levels.{order_of};
ghost use Rattle.mg_turns.specs.Parts.{nodes_in};
ghost use Rattle.mg_turns.specs.Calls.{key_of, view_of};
ghost use Rattle.mg_workers.specs.Shared.{IsShared, StaysShared, IsSharedWith};
ghost use Rattle.mg_crew.specs.Code.Places.{IsPlaceAt};
ghost use Rattle.mg_crew.specs.Code.Seats.{FitsWork, IsWithoutWork, StaysAtWork};

use crate::calling::call_waiting;
use crate::commits::finish;
use crate::kinds::{NodeKind, WORKS};
use crate::putting::{Place, put, tell_others};
use crate::shop::{Came, Shop, Tools};
use mg_calc::NodeCalculator;
use mg_edge::Gate;
use mg_node::{Claimed, Delivered, Work};
use mg_turns::{NetSeat, SharedNet, Tried};
use std::sync::Wait;

// How many works of a node whose calls may take long are done before the worker looks whether another one sleeps.
const STEP: u32 = 2;

// How many packets are brought along an edge under one pair of turns, at most. `try_append` has this number.
const PACKETS: u32 = 256;

// Does at most `most` works of a node under one pair of turns, and returns what came of it.
fn run<C: NodeCalculator, G: Gate>(
    shop: &Shop<'_, C, G>,
    seat: &mut NetSeat<C>,
    node: u32,
    most: u32,
) -> Came
    requires shared { IsShared C.laws shop.now.net.now seat.old }
    requires node { node < nodes_in (key_of shop.now.net.now) }
    ensures { StaysShared C.laws shop.now.net.now seat.old seat.new }
{
    let tried = shop.net.try_run(shop.alloc, seat, node, most, shop.gate);
    match tried {
        Tried::Done(done) => Came {
            did: done > 0,
            more: done >= most,
            left: None,
        },
        Tried::Busy { word } => Came::left_to(word),
    }
}

// Does works of a node whose calls may take long, a few under each pair of turns. Ends early if another worker sleeps and wasn't woken, which
// may then do what comes of these works. It also ends early if another worker has a turn of the node. Returns what came of it.
#[tactic(auto, using(crate::proofs::Sharing::stays_on))]
fn run_in_steps<C: NodeCalculator, G: Gate>(
    shop: &Shop<'_, C, G>,
    seat: &mut NetSeat<C>,
    node: u32,
) -> Came
    requires shared { IsShared C.laws shop.now.net.now seat.old }
    requires node { node < nodes_in (key_of shop.now.net.now) }
    ensures { StaysShared C.laws shop.now.net.now seat.old seat.new }
{
    let mut came = run(shop, seat, node, STEP);
    'steps: for _ in 1..WORKS / STEP {
        if !came.more || shop.tools.board.has_sleeper() {
            return came;
        }
        let further = run(shop, seat, node, STEP);
        if further.left.is_some() {
            return came;
        }
        came.more = further.more;
    }
    came
}

// Claims the next work of a node. If none is claimed the error says what came of the try.
fn claim<C: NodeCalculator>(
    net: &SharedNet<C>,
    seat: &mut NetSeat<C>,
    node: u32,
) -> Result<Work<C>, Came>
    requires shared { IsShared C.laws net.now seat.old }
    requires node { node < nodes_in (key_of net.now) }
    ensures portion { (view_of seat.new).portion ≡ (view_of seat.old).portion }
    ensures work { IfOk result (λ w. IsSharedWith C.laws net.now seat.new w) }
    ensures lawful { IfOk result (λ w. FitsWork C.laws (key_of net.now) w) }
    ensures none { OnErr result (StaysShared C.laws net.now seat.old seat.new) }
{
    match net.try_claim(seat, node) {
        Tried::Done(Claimed::Work(work)) => Ok(work),
        Tried::Done(Claimed::Answered) => Err(Came::if_worked(true)),
        Tried::Done(Claimed::NotReady) => Err(Came::nothing()),
        Tried::Done(Claimed::InFlightFull) => Err(Came::nothing()),
        Tried::Done(Claimed::Draining) => Err(Came::nothing()),
        Tried::Done(Claimed::Ended) => Err(Came::nothing()),
        Tried::Done(Claimed::OutOfMemory) => Err(Came::nothing()),
        Tried::Busy { word } => Err(Came::left_to(word)),
    }
}

// Puts a node into the levels, so that other workers do further works of it meanwhile, unless some work found no memory.
fn share_node<R: Wait>(rt: &R, tools: &Tools, place: &mut Place, node: u32)
    requires place { IsPlaceAt tools.now.levels place.old }
    requires node { Contains (order_of tools.now.levels) node }
    ensures place { IsPlaceAt tools.now.levels place.new }
{
    if !tools.board.is_short() {
        put(rt, tools, place, node);
        tell_others(tools, place);
    }
}

// Does one work of a node, and lets other workers do further ones meanwhile. Returns what came of it.
fn fly<C: NodeCalculator, R: Wait, G: Gate>(
    rt: &R,
    shop: &Shop<'_, C, G>,
    seat: &mut NetSeat<C>,
    place: &mut Place,
    node: u32,
) -> Came
    requires at_work { IsWithoutWork C.laws shop.now.net.now shop.now.tools.now seat.old place.old }
    requires node { node < nodes_in (key_of shop.now.net.now) }
    ensures { StaysAtWork C.laws shop.now.net.now shop.now.tools.now seat.old seat.new place.new }
{
    match claim(shop.net, seat, node) {
        Ok(work) => {
            share_node(rt, shop.tools, place, node);
            call_waiting(rt, shop, place, node as usize);
            let did = finish(rt, shop, seat, work);
            shop.tools.board.found_memory(did);
            Came::if_worked(did)
        }
        Err(came) => came,
    }
}

// Does works of a node, unless another worker has one of its turns, and returns what came of it.
fn try_work<C: NodeCalculator, R: Wait, G: Gate>(
    rt: &R,
    shop: &Shop<'_, C, G>,
    seat: &mut NetSeat<C>,
    place: &mut Place,
    node: u32,
) -> Came
    requires at_work { IsWithoutWork C.laws shop.now.net.now shop.now.tools.now seat.old place.old }
    requires node { node < nodes_in (key_of shop.now.net.now) }
    ensures { StaysAtWork C.laws shop.now.net.now shop.now.tools.now seat.old seat.new place.new }
{
    match shop.tools.chart.kind(node) {
        NodeKind::Flies => fly(rt, shop, seat, place, node),
        NodeKind::Steps => run_in_steps(shop, seat, node),
        NodeKind::Together { most } => run(shop, seat, node, most),
    }
}

// Lets a node wait for the turn that another worker had, and returns whether one was.
fn waits<R: Wait>(rt: &R, tools: &Tools, came: &Came, node: u32) -> bool {
    match came.left {
        Some(word) => {
            let number = tools.chart.edges().wrapping_add(node);
            tools.waiting.join(rt, word, number);
            true
        }
        None => false,
    }
}

/// Does works of a node, and returns what came of it. If another worker has one of its turns, the node waits for that turn. It is tried once
/// more then, as the worker may have given the turn back before it could see who waits.
pub(crate) fn work_at<C: NodeCalculator, R: Wait, G: Gate>(
    rt: &R,
    shop: &Shop<'_, C, G>,
    seat: &mut NetSeat<C>,
    place: &mut Place,
    node: u32,
) -> Came
    requires at_work { IsWithoutWork C.laws shop.now.net.now shop.now.tools.now seat.old place.old }
    requires node { node < nodes_in (key_of shop.now.net.now) }
    ensures { StaysAtWork C.laws shop.now.net.now shop.now.tools.now seat.old seat.new place.new }
{
    let came = try_work(rt, shop, seat, place, node);
    if !waits(rt, shop.tools, &came, node) {
        return came;
    }
    try_work(rt, shop, seat, place, node)
}

// Raises the bounds of a node's outputs, unless another worker has one of its turns, and returns what came of it.
fn try_raise<C: NodeCalculator, G: Gate>(
    shop: &Shop<'_, C, G>,
    seat: &mut NetSeat<C>,
    node: u32,
) -> Came
    requires shared { IsShared C.laws shop.now.net.now seat.old }
    requires node { node < nodes_in (key_of shop.now.net.now) }
    ensures { StaysShared C.laws shop.now.net.now seat.old seat.new }
{
    let tried = shop.net.try_raise(seat, node);
    match tried {
        Tried::Done(did) => Came::if_did(did),
        Tried::Busy { word } => Came::left_to(word),
    }
}

/// Raises the bounds of a node's outputs, and returns what came of it. If another worker has one of its turns, the node waits for that turn,
/// and is tried once more.
pub(crate) fn raise<C: NodeCalculator, R: Wait, G: Gate>(
    rt: &R,
    shop: &Shop<'_, C, G>,
    seat: &mut NetSeat<C>,
    node: u32,
) -> Came
    requires shared { IsShared C.laws shop.now.net.now seat.old }
    requires node { node < nodes_in (key_of shop.now.net.now) }
    ensures { StaysShared C.laws shop.now.net.now seat.old seat.new }
{
    let came = try_raise(shop, seat, node);
    if !waits(rt, shop.tools, &came, node) {
        return came;
    }
    try_raise(shop, seat, node)
}

// Brings packets along an edge, unless another worker has one of the two turns, and returns what came of it.
fn try_bring<C: NodeCalculator, G: Gate>(
    shop: &Shop<'_, C, G>,
    seat: &mut NetSeat<C>,
    edge: u32,
) -> Came
    requires shared { IsShared C.laws shop.now.net.now seat.old }
    requires edge { edge < length (key_of shop.now.net.now).plan.edges }
    ensures { StaysShared C.laws shop.now.net.now seat.old seat.new }
{
    let tried = shop.net.try_append(seat, edge);
    match tried {
        Tried::Done(Delivered::Moved { packets, raised }) => Came {
            did: packets > 0 || raised,
            more: packets >= PACKETS,
            left: None,
        },
        Tried::Done(Delivered::OutOfMemory { packets }) => Came::if_did(packets > 0),
        Tried::Busy { word } => Came::left_to(word),
    }
}

/// Brings packets along an edge, and returns what came of it. If another worker has one of the two turns, the edge waits for that turn, and
/// is tried once more.
pub(crate) fn bring<C: NodeCalculator, R: Wait, G: Gate>(
    rt: &R,
    shop: &Shop<'_, C, G>,
    seat: &mut NetSeat<C>,
    edge: u32,
) -> Came
    requires shared { IsShared C.laws shop.now.net.now seat.old }
    requires edge { edge < length (key_of shop.now.net.now).plan.edges }
    ensures { StaysShared C.laws shop.now.net.now seat.old seat.new }
{
    let came = try_bring(shop, seat, edge);
    let Some(word) = came.left else {
        return came;
    };
    shop.tools.waiting.join(rt, word, edge);
    try_bring(shop, seat, edge)
}
