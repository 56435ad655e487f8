//! The works of an engine that were claimed and aren't laid.
ghost use Rattle.std.specs.Prelude.{◌≡◌, ℕ, ◌<◌, length, slice_get, slice_set, Some, None, [], true, false, is_some, option_and_then, IsSome, IsSomeAnd, IfSome, IfNone, OnOk, OnErr};
ghost use Rattle.std.specs.VecDeque.{deque_len, deque_capacity};
ghost use Rattle.mg_node.specs.Claims.{first_unrun as first_unrun_from, HandsOut};
ghost use Rattle.mg_node.specs.Shelves.{back, shelf_of, IsTakenOut};
ghost use Rattle.mg_node.specs.Commits.{committed_entry};
ghost use Rattle.mg_node.specs.Windows.{starts_ready};
ghost use Rattle.mg_node.specs.WindingUp.{FinishesFirst};

use crate::entry::Entry;
use crate::{Outcome, Performed, Work};
use mg_calc::{NodeCalculator, Phase};
use std::alloc::{AllocError, Global};
use std::collections::VecDeque;
use std::mem;

/// Returns the place of the first entry whose work came back unrun, if there is one.
#[tactic(auto, using(crate::proofs::Unrun::unrun_here, crate::proofs::Unrun::unrun_next, crate::proofs::Unrun::unrun_none))]
pub(crate) fn first_unrun<C: NodeCalculator>(window: &VecDeque<Entry<C>>) -> Option<usize>
    ensures { result ≡ first_unrun_from 0 window.now.items }
{
    for place in 0..window.len() {
        if window[place].is_unrun() {
            return Some(place);
        }
    }
    None
}

/// Hands out the work of an entry that came back unrun.
pub(crate) fn hand_out<C: NodeCalculator>(window: &mut VecDeque<Entry<C>>, place: usize) -> Work<C>
    requires { first_unrun_from 0 window.old.items ≡ Some place }
    ensures hands { HandsOut window.old.items window.new.items place result }
    ensures len { deque_len window.new ≡ deque_len window.old }
    ensures capacity { deque_capacity window.new ≡ deque_capacity window.old }
{
    window[place].hand_out()
}

/// Returns whether all that was claimed is laid.
pub(crate) fn is_empty<C: NodeCalculator>(window: &VecDeque<Entry<C>>) -> bool
    ensures none { result ≡ true → window.now.items ≡ [] }
    ensures some { result ≡ false → 0 < length window.now.items }
{
    window.is_empty()
}

/// Puts a work that came back into its place as it is.
pub(crate) fn put_back<C: NodeCalculator>(
    window: &mut VecDeque<Entry<C>>,
    place: usize,
    outcome: Outcome<C>,
)
    requires { place < length window.old.items }
    ensures items { window.new.items ≡ slice_set window.old.items place (back outcome) }
    ensures len { deque_len window.new ≡ deque_len window.old }
    ensures capacity { deque_capacity window.new ≡ deque_capacity window.old }
{
    window[place] = Entry::back(outcome);
}

/// Puts a work that came back into its place, committed if it was performed.
pub(crate) fn put_committed<C: NodeCalculator>(
    window: &mut VecDeque<Entry<C>>,
    place: usize,
    outcome: Outcome<C>,
)
    requires { place < length window.old.items }
    ensures items { window.new.items ≡ slice_set window.old.items place (committed_entry outcome) }
    ensures len { deque_len window.new ≡ deque_len window.old }
    ensures capacity { deque_capacity window.new ≡ deque_capacity window.old }
{
    window[place] = Entry::committed(outcome);
}

/// Takes the outcome at a place out of the window again. The entry stays, as that of a work that is out.
pub(crate) fn take_back<C: NodeCalculator>(
    window: &mut VecDeque<Entry<C>>,
    place: usize,
    phase: Phase,
) -> Outcome<C>
    requires place { place < length window.old.items }
    requires there { IsSomeAnd (slice_get window.old.items place) (λ e. is_some e.outcome ≡ true) }
    ensures outcome { option_and_then (λ e. e.outcome) (slice_get window.old.items place) ≡ Some result }
    ensures items { window.new.items ≡ slice_set window.old.items place (record { phase = phase; outcome = None; committed = false }) }
    ensures len { deque_len window.new ≡ deque_len window.old }
    ensures capacity { deque_capacity window.new ≡ deque_capacity window.old }
{
    let entry = mem::replace(&mut window[place], Entry::out(phase));
    entry.into_outcome()
}

/// Returns whether the first entry of a window is ready to be laid.
#[tactic(auto, using(crate::proofs::FrontSteps::ready_first, crate::proofs::FrontSteps::ready_none))]
pub(crate) fn is_ready<C: NodeCalculator>(window: &VecDeque<Entry<C>>) -> bool
    ensures { result ≡ starts_ready window.now.items }
{
    if is_empty(window) {
        return false;
    }
    window[0].is_ready()
}

/// Takes the work at a place, if it is performed and not committed. The entry stays, as that of a work that is out.
pub(crate) fn take_shelf<C: NodeCalculator>(
    window: &mut VecDeque<Entry<C>>,
    place: u64,
) -> Option<Performed<C>>
    ensures found { result ≡ option_and_then shelf_of (slice_get window.old.items place) }
    ensures taken { IsTakenOut result window.old.items window.new.items place }
    ensures len { deque_len window.new ≡ deque_len window.old }
    ensures capacity { deque_capacity window.new ≡ deque_capacity window.old }
{
    if place >= window.len() as u64 {
        return None;
    }
    let place = place as usize;
    if !window[place].is_shelf() {
        return None;
    }
    Some(window[place].take_shelf())
}

/// Returns the place of the first entry with a performed work that isn't committed, if there is one.
pub(crate) fn first_shelf<C: NodeCalculator>(window: &VecDeque<Entry<C>>) -> Option<usize>
    ensures within { IfSome result (λ place. place < length window.now.items) }
    ensures some { IfSome result (λ place. IsSome (option_and_then shelf_of (slice_get window.now.items place))) }
    ensures none { IfNone result ((place : ℕ) → option_and_then shelf_of (slice_get window.now.items place) ≡ None) }
{
    for place in 0..window.len() {
        if window[place].is_shelf() {
            return Some(place);
        }
    }
    None
}

/// Closes the calculator of the first entry's work, if the work came back and wasn't a performed Close. Out of memory: nothing has changed.
pub(crate) fn finish_first<C: NodeCalculator>(
    window: &mut VecDeque<Entry<C>>,
    alloc: Global,
) -> Result<(), AllocError>
    ensures finished { OnOk result (FinishesFirst C.laws window.old.items window.new.items) }
    ensures unchanged { OnErr result (window.new.items ≡ window.old.items) }
    ensures len { deque_len window.new ≡ deque_len window.old }
    ensures capacity { deque_capacity window.new ≡ deque_capacity window.old }
{
    if is_empty(window) {
        return Ok(());
    }
    window[0].finish(alloc)
}
