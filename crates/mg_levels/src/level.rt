//! One level: a queue of places, and what a thread has done there.
ghost use Rattle.std.specs.Prelude.{◌≡◌, ◌+◌, ◌-◌, ◌<◌, ◌≤◌, [], ◌^◌, min, length, MatchBool, MatchOption, vec_capacity};
ghost use Rattle.crossbeam_queue.specs.Passes.{ruled_capacity};
ghost use Rattle.mg_levels.specs.Balance.{whole, share};
ghost use Rattle.mg_levels.specs.Hands.{hand_view, queue_id, hand_id, fresh, put_to, took_from, FoundFull, FoundEmpty, kept_hand, joined};
ghost use Rattle.mg_levels.specs.Places.{node_of};
ghost use Rattle.mg_levels.specs.Code.Drained.{Drained};

use crate::hand::{Hand, first_hand};
use crate::share::{Amount, Balance, Both, Cut, Puts, Share, Takes};
use crossbeam_queue::{Pass, RuledArrayQueue};
use mg_ready::Order;
use std::marker::Brand;
use std::sync::Wait;

/// A level's queue of places.
pub(crate) type Queue = RuledArrayQueue<u32, Share, Balance>;

/// Returns a count with one more, up to the greatest number of 64 bits.
fn one_more(count: u64) -> u64
    ensures { result ≡ min (count + 1) (2 ^ 64 - 1) }
{
    count.saturating_add(1)
}

/// Returns the sum of two counts, up to the greatest number of 64 bits.
fn sum_of(count: u64, more: u64) -> u64
    ensures { result ≡ min (count + more) (2 ^ 64 - 1) }
{
    count.saturating_add(more)
}

/// Puts a place into a level, unless the level is full. Returns whether it did.
pub(crate) fn put_at<R: Wait>(rt: &R, queue: &Queue, hand: &mut Hand, place: u32) -> bool
    requires id { hand_id hand.old ≡ queue_id queue.now }
    requires portion { 0 < (hand_view hand.old).portion }
    ensures id { hand_id hand.new ≡ hand_id hand.old }
    ensures put { MatchBool result (hand_view hand.new ≡ put_to (hand_view hand.old) place) (FoundFull (ruled_capacity queue.now) (hand_view hand.old) (hand_view hand.new)) }
{
    match queue.push_as::<Puts, R>(rt, &mut hand.pass, place) {
        Ok(()) => true,
        Err(_) => {
            hand.fulls = one_more(hand.fulls);
            false
        }
    }
}

/// Takes out of a level the place that was put in first, unless the level is empty.
pub(crate) fn take_at<R: Wait>(rt: &R, queue: &Queue, hand: &mut Hand) -> Option<u32>
    requires id { hand_id hand.old ≡ queue_id queue.now }
    requires portion { 0 < (hand_view hand.old).portion }
    ensures id { hand_id hand.new ≡ hand_id hand.old }
    ensures taken { MatchOption result (FoundEmpty (hand_view hand.old) (hand_view hand.new)) (λ place. hand_view hand.new ≡ took_from (hand_view hand.old) place) }
{
    match queue.pop_as::<Takes, R>(rt, &mut hand.pass) {
        Some(place) => Some(place),
        None => {
            hand.empties = one_more(hand.empties);
            None
        }
    }
}

/// Hands over a part of a hand's portion, `N.amount`, which the call picks.
fn cut<N: Amount>(queue: &Queue, hand: &mut Hand, _portion: u64) -> Pass<u32, Share>
    requires id { hand_id hand.old ≡ queue_id queue.now }
    requires portion { (_portion ≡ N.amount) × (0 < N.amount) × (N.amount < (hand_view hand.old).portion) }
    ensures hand { (hand_id hand.new ≡ hand_id hand.old) × (hand_view hand.new ≡ kept_hand (hand_view hand.old) N.amount) }
    ensures new { (result.table_id ≡ queue_id queue.now) × (result.me.1 ≡ []) × (result.me.0.client ≡ share N.amount [] []) }
{
    queue.another::<Cut<N>>(&mut hand.pass)
}

/// Makes a new hand with a part of a hand's portion.
pub(crate) fn cut_at(queue: &Queue, hand: &mut Hand, portion: u64) -> Hand
    requires id { hand_id hand.old ≡ queue_id queue.now }
    requires portion { (0 < portion) × (portion < (hand_view hand.old).portion) }
    ensures hand { (hand_id hand.new ≡ hand_id hand.old) × (hand_view hand.new ≡ kept_hand (hand_view hand.old) portion) }
    ensures new { (hand_id result ≡ queue_id queue.now) × (hand_view result ≡ fresh portion) }
{
    first_hand(cut::<Brand>(queue, hand, portion))
}

/// Takes another hand of the level into a hand: its portion, what it has done and its counts.
pub(crate) fn join_at(queue: &Queue, hand: &mut Hand, other: Hand)
    requires id { (hand_id hand.old ≡ queue_id queue.now) × (hand_id other ≡ queue_id queue.now) }
    requires portions { (0 < (hand_view hand.old).portion) × (0 < (hand_view other).portion) }
    ensures { (hand_id hand.new ≡ hand_id hand.old) × (hand_view hand.new ≡ joined (hand_view hand.old) (hand_view other)) }
{
    let Hand {
        pass,
        fulls,
        empties,
    } = other;
    queue.absorb::<Both>(&mut hand.pass, pass);
    hand.fulls = sum_of(hand.fulls, fulls);
    hand.empties = sum_of(hand.empties, empties);
}

/// Returns the node at a place of an order. Behind the last one the order begins again.
pub(crate) fn node_in(order: &Order, place: u32) -> u32
    requires { 0 < length order.now }
    ensures { result ≡ node_of order.now place }
{
    order.node_at(place % order.len())
}

/// Takes out all that is left at a level, and puts it into `left` as nodes. No other thread uses the level any more.
pub(crate) fn drain<R: Wait>(rt: &R, queue: &Queue, hand: Hand, order: &Order, left: &mut Vec<u32>)
    requires id { hand_id hand ≡ queue_id queue.now }
    requires whole { (hand_view hand).portion ≡ whole }
    requires order { 0 < length order.now }
    requires room { length left.old.items + ruled_capacity queue.now ≤ vec_capacity left.old }
    ensures room { vec_capacity left.new ≡ vec_capacity left.old }
    ensures left { Drained (ruled_capacity queue.now) order.now (hand_view hand) left.old.items left.new.items }
{
    let Hand { mut pass, .. } = hand;
    let count = queue.len_as::<Takes, R>(rt, &mut pass);
    for _done in 0..count {
        match queue.pop_as::<Takes, R>(rt, &mut pass) {
            Some(place) => left.push_reserved(node_in(order, place)),
            None => unreachable!(),
        }
    }
    queue.learn_as::<Takes>(&mut pass);
}
