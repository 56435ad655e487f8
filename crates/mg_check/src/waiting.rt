//! How many links each node waits for while the topological order is made: those from nodes that aren't taken.

ghost use Rattle.std.specs.Prelude.{◌≡◌, ◌≤◌, ◌-◌, ◌==◌, ◌<◌, ◌&&◌, ◌||◌, ℕ, All, IfOk, OnOk, count_by, length, replicate, slice_index, slice_set, if◌then◌else◌};
ghost use Rattle.std.specs.BTreeSet.{contains};
ghost use Rattle.std.specs.Ordering.{nat_cmp};
ghost use Rattle.mg_check.specs.Order.{IsBetween};
ghost use Rattle.mg_check.specs.Code.Taking.{HasPassing, HasReleased, HasWaits, may_be_taken, is_marked};

use crate::ordering::Link;
use std::alloc::{AllocError, Global};
use std::collections::BTreeSet;

// Returns `count` zeros.
fn zeros(alloc: Global, count: usize) -> Result<Vec<usize>, AllocError>
    ensures { IfOk result (λ v. v.items ≡ replicate count 0) }
{
    vec![in alloc; 0; count]
}

// Returns 0 for a link that comes from a node that is taken, and otherwise 1.
fn waited_for(taken: bool) -> usize
    ensures { result ≡ (if taken then 0 else 1) }
{
    usize::from(!taken)
}

/// Returns for each of `count` nodes how many links it waits for.
pub(crate) fn waiting_of(
    alloc: Global,
    count: u32,
    links: &[Link],
    taken: &[bool],
) -> Result<Vec<usize>, AllocError>
    requires links { All (IsBetween count) links.now }
    requires taken { length taken.now ≡ count }
    ensures { IfOk result (λ v. HasWaits count links.now (is_marked taken.now) v.items) }
{
    let mut waiting = zeros(alloc, count as usize)?;
    for link in links {
        waiting[link.to as usize] += waited_for(taken[link.from as usize]);
    }
    Ok(waiting)
}

// Puts a node into the set, if it isn't taken and waits for none.
fn add_free(
    node: u32,
    taken: &[bool],
    waiting: &[usize],
    ready: &mut BTreeSet<u32>,
) -> Result<(), AllocError>
    requires taken { node < length taken.now }
    requires waiting { node < length waiting.now }
    ensures { OnOk result ((n : ℕ) → contains nat_cmp ready.new n ≡ (contains nat_cmp ready.old n || (n == node && may_be_taken taken.now waiting.now node))) }
{
    if !taken[node as usize] && waiting[node as usize] == 0 {
        ready.insert(node)?;
    }
    Ok(())
}

/// Returns the nodes, of `count`, that aren't taken and wait for none.
pub(crate) fn ready_of(
    alloc: Global,
    count: u32,
    taken: &[bool],
    waiting: &[usize],
) -> Result<BTreeSet<u32>, AllocError>
    requires taken { length taken.now ≡ count }
    requires waiting { length waiting.now ≡ count }
    ensures { IfOk result (λ ready. HasPassing count (may_be_taken taken.now waiting.now) ready) }
{
    let mut ready = BTreeSet::new(alloc);
    for node in 0..count {
        add_free(node, taken, waiting, &mut ready)?;
    }
    Ok(ready)
}

// Counts one link less that a node waits for, and puts the node into the set if it waits for no other.
fn release_one(
    node: u32,
    taken: &[bool],
    waiting: &mut [usize],
    ready: &mut BTreeSet<u32>,
) -> Result<(), AllocError>
    requires node { node < length waiting.old }
    requires taken { length taken.now ≡ length waiting.old }
    requires waits { 0 < slice_index waiting.old node }
    requires ready { HasPassing (length waiting.old) (may_be_taken taken.now waiting.old) ready.old }
    ensures waiting { waiting.new ≡ slice_set waiting.old node (slice_index waiting.old node - 1) }
    ensures ready { OnOk result (HasPassing (length waiting.old) (may_be_taken taken.now waiting.new) ready.new) }
{
    waiting[node as usize] -= 1;
    add_free(node, taken, waiting, ready)
}

/// Counts one link less for each reader of a node that was taken, and puts those into the set that wait for no other.
pub(crate) fn release(
    readers: &[u32],
    taken: &[bool],
    waiting: &mut [usize],
    ready: &mut BTreeSet<u32>,
) -> Result<(), AllocError>
    requires readers { All (λ n. n < length waiting.old) readers.now }
    requires taken { length taken.now ≡ length waiting.old }
    requires waits { (n : ℕ) → n < length waiting.old → count_by (λ m. m == n) readers.now ≤ slice_index waiting.old n }
    requires ready { HasPassing (length waiting.old) (may_be_taken taken.now waiting.old) ready.old }
    ensures len { length waiting.new ≡ length waiting.old }
    ensures waiting { OnOk result (HasReleased readers.now waiting.old waiting.new) }
    ensures ready { OnOk result (HasPassing (length waiting.old) (may_be_taken taken.now waiting.new) ready.new) }
{
    for node in readers {
        release_one(*node, taken, waiting, ready)?;
    }
    Ok(())
}
