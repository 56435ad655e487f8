//! The nodes that may run, for threads that share them: what is put in, taken out and left, and where a level is full.
ghost use Rattle.std.specs.Prelude.{◌≡◌, OnOk};
ghost use Rattle.mg_levels.specs.Balance.{whole};
ghost use Rattle.mg_levels.specs.Levels.{IsSeatOf, order_of, portion_of};

use crate::ready::is_distinct;
use mg_levels::{LeftList, LevelSeat, Levels};
use mg_value::NumberList;
use std::alloc::Global;
use std::sync::Wait;
use std::test::*;

// Returns `count` nodes in order, from the number `first` on.
fn nodes_from(alloc: Global, first: u32, count: u32) -> Result<NumberList, Fail> {
    let mut order = Vec::new(alloc);
    for place in 0..count {
        order.push(first.wrapping_add(place))?;
    }
    Ok(NumberList::from_vec(order).map_err(|_| "too many nodes")?)
}

// Puts a node into its level, if the order has it. Returns whether it was put in.
fn put<R: Wait>(
    rt: &R,
    levels: &Levels,
    seat: &mut LevelSeat,
    order: &NumberList,
    node: u32,
) -> bool
    requires of { IsSeatOf levels.now seat.old }
    requires order { order_of levels.now ≡ order.now }
    ensures { IsSeatOf levels.now seat.new × (portion_of seat.new ≡ portion_of seat.old) }
{
    if order.as_slice().contains(&node) {
        levels.put(rt, seat, node)
    } else {
        false
    }
}

// Returns the number of a node that was taken out, or `-` if none was.
fn shown(alloc: Global, node: Option<u32>) -> Result<String, Fail> {
    match node {
        None => Ok(String::from_str(alloc, "-")?),
        Some(node) => Ok(format!(in alloc; "{node}")?),
    }
}

// Returns the numbers of the nodes that were left, a space before each.
fn left_in(alloc: Global, left: &LeftList) -> Result<String, Fail> {
    let mut text = String::new(alloc);
    for node in left.as_slice() {
        write!(text, " {node}")?;
    }
    Ok(text)
}

// Puts two nodes in, splits a seat off, takes one node out, and joins the seat again. Returns what the calls answered.
fn in_and_out<R: Wait>(
    rt: &R,
    alloc: Global,
    levels: &Levels,
    seat: &mut LevelSeat,
    order: &NumberList,
) -> Result<String, Fail>
    requires of { IsSeatOf levels.now seat.old }
    requires order { order_of levels.now ≡ order.now }
    requires whole { portion_of seat.old ≡ whole }
    ensures of { OnOk result (IsSeatOf levels.now seat.new) }
    ensures whole { OnOk result (portion_of seat.new ≡ whole) }
{
    let first = put(rt, levels, seat, order, 1);
    let second = put(rt, levels, seat, order, 2);
    let other = seat.split(alloc, levels, 1)?;
    let taken = levels.take(rt, seat);
    seat.join(levels, other);
    let taken = shown(alloc, taken)?;
    Ok(format!(in alloc; "{first} {second} {}", taken.as_str())?)
}

// Closes the levels, and returns `came` followed by the nodes that were left.
fn closed<R: Wait>(
    rt: &R,
    alloc: Global,
    levels: Levels,
    seat: LevelSeat,
    came: &str,
) -> Result<String, Fail>
    requires of { IsSeatOf levels seat }
    requires whole { portion_of seat ≡ whole }
{
    let left = levels.close(rt, seat);
    let shown = left_in(alloc, &left);
    drop(left);
    let shown = shown?;
    Ok(format!(in alloc; "{came}{}", shown.as_str())?)
}

// Puts two of three nodes in and takes one out, so that the other is left. Returns what the calls answered.
fn three<R: Wait>(rt: &R, alloc: Global, order: &NumberList) -> Result<String, Fail> {
    if !is_distinct(order.as_slice()) {
        return Err(Fail::from("a node stands twice"));
    }
    let (levels, mut seat) = Levels::new(alloc, order)?;
    match in_and_out(rt, alloc, &levels, &mut seat, order) {
        Ok(came) => closed(rt, alloc, levels, seat, came.as_str()),
        Err(fail) => {
            drop(levels);
            drop(seat);
            Err(fail)
        }
    }
}

// Puts node 7 in `puts` times, and returns how often there was room.
fn put_often<R: Wait>(
    rt: &R,
    levels: &Levels,
    seat: &mut LevelSeat,
    order: &NumberList,
    puts: u32,
) -> u32
    requires of { IsSeatOf levels.now seat.old }
    requires order { order_of levels.now ≡ order.now }
    ensures { IsSeatOf levels.now seat.new }
{
    let mut came = 0u32;
    'puts: for _ in 0..puts {
        if put(rt, levels, seat, order, 7) {
            came = came.saturating_add(1);
        }
    }
    came
}

// Puts node 7 in `puts` times and another node once, and takes two nodes out. Returns what the calls answered.
fn one_and_many<R: Wait>(
    rt: &R,
    alloc: Global,
    order: &NumberList,
    puts: u32,
    node: u32,
) -> Result<String, Fail> {
    if !is_distinct(order.as_slice()) {
        return Err(Fail::from("a node stands twice"));
    }
    let (levels, mut seat) = Levels::new(alloc, order)?;
    let came = put_often(rt, &levels, &mut seat, order, puts);
    let late = put(rt, &levels, &mut seat, order, node);
    let taken = levels.take(rt, &mut seat);
    let next = levels.take(rt, &mut seat);
    drop(levels);
    drop(seat);
    let taken = shown(alloc, taken)?;
    let next = shown(alloc, next)?;
    Ok(format!(in alloc; "{came} {late} {} {}", taken.as_str(), next.as_str())?)
}

#[test]
fn what_is_put_in_is_taken_or_left(rt: HostRuntime) -> Result<(), Fail> {
    let order = nodes_from(rt.alloc(), 0, 3)?;
    let text = three(&rt, rt.alloc(), &order)?;
    assert_eq!(rt; text.as_str(), "true true 1 2");
    Ok(())
}

#[test]
fn a_level_has_room_for_four_entries_a_node(rt: HostRuntime) -> Result<(), Fail> {
    let alloc = rt.alloc();
    let one = nodes_from(alloc, 7, 1)?;
    let full = one_and_many(&rt, alloc, &one, 5, 7)?;
    assert_eq!(rt; full.as_str(), "4 false 7 7");
    let many = nodes_from(alloc, 7, 40)?;
    let last = one_and_many(&rt, alloc, &many, 1, 46)?;
    assert_eq!(rt; last.as_str(), "1 true 46 7");
    Ok(())
}
