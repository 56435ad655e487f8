//! Raising outputs by what waits.
ghost use Rattle.std.specs.Prelude.{◌≡◌, ◌<◌, length, slice_set, slice_index_or, nat_lt, min, map};
ghost use Rattle.mg_stream.specs.Pool.{backlog_of};
ghost use Rattle.mg_stream.specs.Queue.{empty_queue, raised_to};
ghost use Rattle.mg_node.specs.Advances.{any_moved, until_phase, until_claimed as until_claimed_in, raised_by as raised_by_role, never_raised};

use crate::Role;
use crate::entry::Entry;
use crate::window::is_empty;
use mg_calc::{NodeCalculator, Phase};
use mg_stream::Queue;
use mg_time::Timestamp;
use std::collections::VecDeque;

fn is_below(output: &Queue, bound: Timestamp) -> bool
    ensures { result ≡ nat_lt output.now.bound bound }
{
    output.bound() < bound
}

/// Returns whether a bound is higher than the bound of at least one output.
#[tactic(auto, using(crate::proofs::Advancing::moved_here, crate::proofs::Advancing::moved_next, crate::proofs::Advancing::moved_none))]
pub(crate) fn moves_one(outputs: &[Queue], bound: Timestamp) -> bool
    ensures { result ≡ any_moved bound (map backlog_of outputs.now) }
{
    for i in 0..outputs.len() {
        if is_below(&outputs[i], bound) {
            return true;
        }
    }
    false
}

/// Raises all outputs to a bound.
#[inline(always)]
pub(crate) fn raise_all(outputs: &mut [Queue], bound: Timestamp)
    ensures { outputs.new ≡ map (λ q. raised_to q bound) outputs.old }
{
    if outputs.len() == 1 {
        raise_first(outputs, bound);
        return;
    }
    raise_each(outputs, bound);
}

// Raises the first output. Most nodes have a single one.
#[inline(always)]
fn raise_first(outputs: &mut [Queue], bound: Timestamp)
    requires { 0 < length outputs.old }
    ensures { outputs.new ≡ slice_set outputs.old 0 (raised_to (slice_index_or outputs.old 0 empty_queue) bound) }
{
    outputs[0].raise(bound);
}

// Raises outputs one after the other.
#[inline(never)]
fn raise_each(outputs: &mut [Queue], bound: Timestamp)
    ensures { outputs.new ≡ map (λ q. raised_to q bound) outputs.old }
{
    for output in outputs.iter_mut() {
        output.raise(bound);
    }
}

fn lesser(a: Timestamp, b: Timestamp) -> Timestamp
    ensures { result ≡ min a b }
{
    if a < b { a } else { b }
}

fn until(phase: Phase, time: Timestamp) -> Timestamp
    ensures { result ≡ until_phase phase time }
{
    match phase {
        Phase::Process(at) => lesser(at, time),
        _ => time,
    }
}

/// Returns the lesser of a time and the time of the first set that is claimed and not laid, if there is one.
#[tactic(auto, using(crate::proofs::Advancing::until_first, crate::proofs::Advancing::until_none))]
pub(crate) fn until_claimed<C: NodeCalculator>(
    window: &VecDeque<Entry<C>>,
    time: Timestamp,
) -> Timestamp
    ensures { result ≡ until_claimed_in window.now.items time }
{
    if is_empty(window) {
        return time;
    }
    until(window[0].phase(), time)
}

/// Returns whether the outputs of a node are never raised by what waits.
pub(crate) fn never_raises(role: Role, offset: Option<i64>) -> bool
    ensures { result ≡ never_raised role offset }
{
    match role {
        Role::Loop => false,
        _ => match offset {
            Some(_) => false,
            None => true,
        },
    }
}

/// Returns the bound to which a time raises the outputs of a node, if it does.
pub(crate) fn raised_by(role: Role, offset: Option<i64>, time: Timestamp) -> Option<Timestamp>
    ensures { result ≡ raised_by_role role offset time }
{
    match role {
        Role::Loop => Some(time),
        _ => match offset {
            Some(offset) => Some(time.shift(offset)),
            None => None,
        },
    }
}
