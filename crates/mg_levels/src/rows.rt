//! What is done at all levels, one after the other.
ghost use Rattle.std.specs.Prelude.{◌≡◌, ℕ, ◌+◌, ◌<◌, ◌≤◌, ◌/◌, [], All, MatchOption, length, map, replicate, sum, vec_capacity};
ghost use Rattle.crossbeam_queue.specs.Passes.{ruled_capacity};
ghost use Rattle.mg_levels.specs.Balance.{whole};
ghost use Rattle.mg_levels.specs.Hands.{queue_id, hand_id, kept_hand, fresh};
ghost use Rattle.mg_levels.specs.Places.{FoundEmptyFrom, TookLast, times};
ghost use Rattle.mg_levels.specs.Code.Rows.{portions_in, views_in, joined_all, total_put, total_taken};

use crate::hand::Hand;
use crate::level::{Queue, cut_at, drain, join_at, take_at};
use mg_ready::Order;
use std::sync::Wait;

/// Takes a place out of the last level that isn't empty.
pub(crate) fn take_last<R: Wait>(rt: &R, queues: &[Queue], hands: &mut [Hand]) -> Option<u32>
    requires of { map hand_id hands.old ≡ map queue_id queues.now }
    requires portions { All (λ p. 0 < p) (portions_in hands.old) }
    ensures same { (map hand_id hands.new ≡ map hand_id hands.old) × (portions_in hands.new ≡ portions_in hands.old) }
    ensures taken { MatchOption result (FoundEmptyFrom 0 (views_in hands.old) (views_in hands.new)) (λ place. TookLast place (views_in hands.old) (views_in hands.new)) }
{
    for level in (0..queues.len()).rev() {
        if let Some(place) = take_at(rt, &queues[level], &mut hands[level]) {
            return Some(place);
        }
    }
    None
}

/// Hands over a part of the portion at each level, to new hands.
pub(crate) fn cut_all(queues: &[Queue], hands: &mut [Hand], portion: u64, into: &mut Vec<Hand>)
    requires of { map hand_id hands.old ≡ map queue_id queues.now }
    requires portions { (0 < portion) × All (λ p. portion < p) (portions_in hands.old) }
    requires room { (into.old.items ≡ []) × (length hands.old ≤ vec_capacity into.old) }
    ensures hands { (map hand_id hands.new ≡ map hand_id hands.old) × (views_in hands.new ≡ map (λ h. kept_hand h portion) (views_in hands.old)) }
    ensures new { (map hand_id into.new.items ≡ map queue_id queues.now) × (views_in into.new.items ≡ replicate (length hands.old) (fresh portion)) }
{
    for level in 0..queues.len() {
        into.push_reserved(cut_at(&queues[level], &mut hands[level], portion));
    }
}

/// Takes other hands into these, level by level.
pub(crate) fn join_all(queues: &[Queue], hands: &mut [Hand], mut others: Vec<Hand>)
    requires of { (map hand_id hands.old ≡ map queue_id queues.now) × (map hand_id others.items ≡ map queue_id queues.now) }
    requires portions { All (λ p. 0 < p) (portions_in hands.old) × All (λ p. 0 < p) (portions_in others.items) }
    ensures { (map hand_id hands.new ≡ map hand_id hands.old) × (views_in hands.new ≡ joined_all (views_in hands.old) (views_in others.items)) }
{
    while let Some(other) = others.pop() {
        let level = others.len();
        join_at(&queues[level], &mut hands[level], other);
    }
}

/// Takes out all that is left at all levels, and puts it into `left` as nodes.
pub(crate) fn drain_all<R: Wait>(
    rt: &R,
    queues: &[Queue],
    mut hands: Vec<Hand>,
    order: &Order,
    left: &mut Vec<u32>,
)
    requires of { map hand_id hands.items ≡ map queue_id queues.now }
    requires portions { All (λ p. p ≡ whole) (portions_in hands.items) }
    requires order { length queues.now ≡ (length order.now + 31) / 32 }
    requires room { (left.old.items ≡ []) × (sum (map ruled_capacity queues.now) ≤ vec_capacity left.old) }
    ensures few { length left.new.items ≤ sum (map ruled_capacity queues.now) }
    ensures left { (node : ℕ) → total_put order.now node (views_in hands.items) ≡ total_taken order.now node (views_in hands.items) + times node left.new.items }
{
    while let Some(hand) = hands.pop() {
        drain(rt, &queues[hands.len()], hand, order, left);
    }
}
