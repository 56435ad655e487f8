//! The levels, as workers use them. A node is in them at most once, and not while a worker has it. A worker for whose seat there was no
//! memory does without them.

ghost use Rattle.std.specs.Prelude.{◌≡◌, ◌+◌, ℕ, Contains, IfSome, Some, None};
ghost use Rattle.mg_levels.specs.Levels.{order_of, IsSeatOf};
ghost use Rattle.mg_crew.specs.Code.Places.{IsPlaceAt, IsAnyOf, LeavesPortion, HasPortion};

use crate::shop::{Came, NodeMarks, Tools};
use mg_levels::{LevelSeat, Levels};
use std::alloc::Global;
use std::sync::Wait;

/// What a worker has to do with the levels. It has a seat at them, if there was memory for one. It may also keep a node, to
/// come back to once it has taken another one.
#[derive(Drop)]
pub(crate) struct Place {
    pub seat: Option<LevelSeat>,
    pub kept: Option<u32>,
    /// Whether the worker has put a node into the levels that idle workers weren't told of. Next it takes a node out itself, or tells them
    /// before it does a work.
    pub untold: bool,
    /// How many calls took turns and did nothing.
    pub vain: u64,
}

impl Place {
    /// Returns a place with this seat at the levels, and without a node.
    pub(crate) fn new(seat: LevelSeat) -> Place
        ensures { (result.seat ≡ Some seat) × (result.kept ≡ None) }
    {
        Place {
            seat: Some(seat),
            kept: None,
            untold: false,
            vain: 0,
        }
    }
}

// Splits a seat off for one more worker, if there is memory for it.
fn split_seat(alloc: Global, levels: &Levels, seat: &mut Option<LevelSeat>) -> Option<LevelSeat>
    requires seat { IsAnyOf levels.now seat.old }
    requires portion { LeavesPortion 2 seat.old }
    ensures seat { IsAnyOf levels.now seat.new }
    ensures portion { (left : ℕ) → LeavesPortion (left + 1) seat.old → LeavesPortion left seat.new }
    ensures other { IsAnyOf levels.now result }
{
    match seat {
        Some(seat) => match seat.split(alloc, levels, 1) {
            Ok(other) => Some(other),
            Err(_) => None,
        },
        None => None,
    }
}

/// Returns a place for one more worker, with a seat that is split off.
pub(crate) fn split(alloc: Global, levels: &Levels, place: &mut Place) -> Place
    requires place { IsPlaceAt levels.now place.old }
    requires portion { HasPortion 2 place.old }
    ensures place { IsPlaceAt levels.now place.new }
    ensures portion { (left : ℕ) → HasPortion (left + 1) place.old → HasPortion left place.new }
    ensures other { IsPlaceAt levels.now result }
{
    let seat = split_seat(alloc, levels, &mut place.seat);
    Place {
        seat,
        kept: None,
        untold: false,
        vain: 0,
    }
}

// Marks a node as inside, and returns whether it wasn't. If a worker has it, this notes that the worker is to put it in afterwards. The mark
// is tried once more then, as the worker may have left the node before it could see that.
fn enters(marks: &NodeMarks, node: u32) -> bool {
    if marks.inside.set(node) {
        return true;
    }
    marks.again.set(node);
    marks.inside.set(node)
}

// Puts a node into the levels, if there is a seat, and returns whether its level had room.
fn put_at<R: Wait>(rt: &R, tools: &Tools, seat: &mut Option<LevelSeat>, node: u32) -> bool
    requires seat { IsAnyOf tools.now.levels seat.old }
    requires node { Contains (order_of tools.now.levels) node }
    ensures seat { IsAnyOf tools.now.levels seat.new }
{
    match seat {
        Some(seat) => tools.levels.put(rt, seat, node),
        None => false,
    }
}

/// Counts a call that took turns, if it did nothing.
pub(crate) fn note_turns(_tools: &Tools, place: &mut Place, came: &Came)
    requires place { IsPlaceAt _tools.now.levels place.old }
    ensures place { IsPlaceAt _tools.now.levels place.new }
{
    if !came.did && came.left.is_none() {
        place.vain = place.vain.saturating_add(1);
    }
}

/// Tells idle workers of a node that was put into the levels, if they weren't told.
pub(crate) fn tell_others(tools: &Tools, place: &mut Place)
    requires place { IsPlaceAt tools.now.levels place.old }
    ensures place { IsPlaceAt tools.now.levels place.new }
{
    if place.untold {
        tools.board.tell();
        place.untold = false;
    }
}

// Puts a node that is marked as inside into the levels. If there is no seat or no room, the worker that looks over all nodes finds it. Idle
// workers are told once a worker has put in a second node before it takes one out itself, and at each further one.
fn put_in<R: Wait>(rt: &R, tools: &Tools, place: &mut Place, node: u32)
    requires place { IsPlaceAt tools.now.levels place.old }
    requires node { Contains (order_of tools.now.levels) node }
    ensures place { IsPlaceAt tools.now.levels place.new }
{
    if put_at(rt, tools, &mut place.seat, node) {
        tell_others(tools, place);
        place.untold = true;
    } else {
        tools.marks.inside.clear(node);
    }
}

/// Puts a node into the levels, unless it is in them or there is no seat. If a worker has it, that worker puts it in when it leaves it.
pub(crate) fn put<R: Wait>(rt: &R, tools: &Tools, place: &mut Place, node: u32)
    requires place { IsPlaceAt tools.now.levels place.old }
    requires node { Contains (order_of tools.now.levels) node }
    ensures place { IsPlaceAt tools.now.levels place.new }
{
    if place.seat.is_some() && enters(&tools.marks, node) {
        put_in(rt, tools, place, node);
    }
}

// Puts the node that a worker keeps, if there is one, into the levels.
fn put_kept<R: Wait>(rt: &R, tools: &Tools, place: &mut Place)
    requires place { IsPlaceAt tools.now.levels place.old }
    ensures place { IsPlaceAt tools.now.levels place.new }
{
    if let Some(node) = place.kept.take() {
        put_in(rt, tools, place, node);
    }
}

// Keeps a node, to which the worker comes back once it has taken another one. A node that it kept before goes into the levels.
fn keep<R: Wait>(rt: &R, tools: &Tools, place: &mut Place, node: u32)
    requires place { IsPlaceAt tools.now.levels place.old }
    requires node { Contains (order_of tools.now.levels) node }
    ensures place { IsPlaceAt tools.now.levels place.new }
{
    put_kept(rt, tools, place);
    place.kept = Some(node);
}

// Takes a node out of the levels, if there is one and the worker has a seat.
fn take_out<R: Wait>(rt: &R, tools: &Tools, place: &mut Place) -> Option<u32>
    requires place { IsPlaceAt tools.now.levels place.old }
    ensures place { IsPlaceAt tools.now.levels place.new }
    ensures node { IfSome result (λ node. Contains (order_of tools.now.levels) node) }
{
    place.untold = false;
    match &mut place.seat {
        Some(seat) => tools.levels.take(rt, seat),
        None => None,
    }
}

/// Takes a node out of the levels, puts the kept node into them, and returns the node that was taken. If no node could be
/// taken, returns the kept node.
pub(crate) fn take<R: Wait>(rt: &R, tools: &Tools, place: &mut Place) -> Option<u32>
    requires place { IsPlaceAt tools.now.levels place.old }
    ensures place { IsPlaceAt tools.now.levels place.new }
    ensures node { IfSome result (λ node. Contains (order_of tools.now.levels) node) }
{
    match take_out(rt, tools, place) {
        Some(node) => {
            put_kept(rt, tools, place);
            Some(node)
        }
        None => place.kept.take(),
    }
}

/// Takes up a node that is marked as inside, before the worker looks at it. From here on it is noted anew whether the node is to be put in
/// again. If several of its works may run at once, it may be put in at once.
pub(crate) fn take_up(tools: &Tools, node: u32) {
    if tools.chart.flies(node) {
        tools.marks.inside.clear(node);
    } else {
        tools.marks.again.clear(node);
    }
}

// Leaves a node that the worker alone had, and puts it in if it was to be put in meanwhile.
fn let_out<R: Wait>(rt: &R, tools: &Tools, place: &mut Place, node: u32)
    requires place { IsPlaceAt tools.now.levels place.old }
    requires node { Contains (order_of tools.now.levels) node }
    ensures place { IsPlaceAt tools.now.levels place.new }
{
    tools.marks.inside.clear(node);
    if tools.marks.again.clear(node) {
        put(rt, tools, place, node);
    }
}

/// Leaves a node that a worker has served. If there may be more to do the worker keeps the node. If several works of it may run at once, it
/// is put in instead.
pub(crate) fn leave<R: Wait>(rt: &R, tools: &Tools, place: &mut Place, node: u32, more: bool)
    requires place { IsPlaceAt tools.now.levels place.old }
    requires node { Contains (order_of tools.now.levels) node }
    ensures place { IsPlaceAt tools.now.levels place.new }
{
    match (tools.chart.flies(node), more) {
        (true, true) => put(rt, tools, place, node),
        (true, false) => {}
        (false, true) => keep(rt, tools, place, node),
        (false, false) => let_out(rt, tools, place, node),
    }
}
