//! Places in buckets of 32, and of each bucket those that are in as a doubly linked list by index, in falling order.

ghost use Rattle.std.specs.Prelude.{◌≡◌, ℕ, ◌+◌, ◌/◌, ◌^◌, ◌<◌, ◌≤◌, false, true, length, replicate, slice_set, slice_index, slice_index_or, vec_len, IfOk, MatchOption, max};
ghost use Rattle.mg_ready.specs.Code.Links.{top_of, slot_of, IsRoofOver, IsEmptyIn, IsGreatestIn};

use std::alloc::{AllocError, Global};
use std::marker::Model;

/// How many places a bucket has.
pub(crate) const BUCKET: usize = 32;

// The slots of a bucket: one below its places, which is always linked, and one for each place.
const STRIDE: usize = 33;

/// Which of some places are in. Each is linked with the next above and the next below that is in. Between two buckets
/// there is a slot that is always linked, so no walk leaves its bucket.
#[derive(Drop)]
pub(crate) struct Links {
    is_in: Vec<bool>,
    above: Vec<usize>,
    below: Vec<usize>,
}

impl Model for Links {
    ghost use Rattle.std.specs.Prelude.{List, Bool};
    ghost use Rattle.mg_ready.specs.Code.Links.{IsLinked};

    ghost Value = { List Bool };

    ghost view = { λ l. l.is_in.items };

    ghost invariant = { λ l. IsLinked l.is_in.items l.above.items l.below.items };
}

// Returns the slot of a place.
fn slot_of(place: u32) -> usize
    ensures { result ≡ slot_of place }
{
    let place = place as usize;
    place / BUCKET * STRIDE + place % BUCKET + 1
}

// Returns the slot above all places.
fn top_of(places: u32) -> usize
    ensures { result ≡ top_of places }
{
    (places as usize).div_ceil(BUCKET) * STRIDE
}

// Returns marks for `places` places. All places are out.
fn all_out(alloc: Global, places: u32) -> Result<Vec<bool>, AllocError>
    ensures { IfOk result (λ v. v.items ≡ replicate places false) }
{
    vec![in alloc; false; places as usize]
}

// Returns the links up of the slots to `top`, for a set without places.
fn links_up(alloc: Global, top: usize) -> Result<Vec<usize>, AllocError>
    requires { top < 2 ^ 40 }
    ensures len { IfOk result (λ v. vec_len v ≡ top + 1) }
    ensures links { IfOk result (λ v. (s : ℕ) → s ≤ top → slice_index v.items s ≡ s + 33) }
{
    let mut above = Vec::new(alloc);
    for slot in 0..top + 1 {
        above.push(slot + STRIDE)?;
    }
    Ok(above)
}

// Returns the links down of the slots to `top`, for a set without places.
fn links_down(alloc: Global, top: usize) -> Result<Vec<usize>, AllocError>
    requires { top < 2 ^ 40 }
    ensures len { IfOk result (λ v. vec_len v ≡ top + 1) }
    ensures links { IfOk result (λ v. (s : ℕ) → s ≤ top → slice_index v.items s + 33 ≡ max s 33) }
{
    let mut below = Vec::new(alloc);
    for slot in 0..top + 1 {
        below.push(slot.saturating_sub(STRIDE))?;
    }
    Ok(below)
}

impl Links {
    /// Returns a set over `places` places. No place is in it.
    pub(crate) fn new(alloc: Global, places: u32) -> Result<Links, AllocError>
        ensures { IfOk result (λ l. l ≡ replicate places false) }
    {
        let top = top_of(places);
        let is_in = all_out(alloc, places)?;
        let above = links_up(alloc, top)?;
        let below = links_down(alloc, top)?;
        Ok(Links {
            is_in,
            above,
            below,
        })
    }

    /// Whether a place is in.
    pub(crate) fn contains(&self, place: u32) -> bool
        requires { place < length self.now }
        ensures { result ≡ slice_index_or self.now place false }
    {
        self.is_in[place as usize]
    }

    // Returns the next linked slot above a slot, which is at most 33 steps away.
    fn roof_over(&self, slot: usize) -> usize
        requires small { slot < 2 ^ 34 }
        requires slot { slot < top_of (length self.now) }
        ensures { IsRoofOver self.now slot result }
    {
        let mut upper = slot / STRIDE * STRIDE + STRIDE;
        while self.below[upper] > slot {
            upper = self.below[upper];
        }
        upper
    }

    /// Puts a place in. It finds its neighbours in at most 32 steps.
    pub(crate) fn insert(&mut self, place: u32)
        requires place { place < length self.old }
        requires out { slice_index_or self.old place false ≡ false }
        ensures { self.new ≡ slice_set self.old place true }
    {
        let slot = slot_of(place);
        let upper = self.roof_over(slot);
        let lower = self.below[upper];
        self.above[slot] = upper;
        self.below[slot] = lower;
        self.above[lower] = slot;
        self.below[upper] = slot;
        self.is_in[place as usize] = true;
    }

    /// Takes a place out, in one step.
    pub(crate) fn remove(&mut self, place: u32)
        requires place { place < length self.old }
        requires there { slice_index_or self.old place false ≡ true }
        ensures { self.new ≡ slice_set self.old place false }
    {
        let slot = slot_of(place);
        let upper = self.above[slot];
        let lower = self.below[slot];
        self.above[lower] = upper;
        self.below[upper] = lower;
        self.is_in[place as usize] = false;
    }

    /// Returns the greatest place of a bucket that is in, if one is.
    pub(crate) fn greatest_of(&self, bucket: usize) -> Option<u32>
        requires small { bucket < 2 ^ 32 }
        requires bucket { bucket < (length self.now + 31) / 32 }
        ensures { MatchOption result (IsEmptyIn self.now bucket) (λ p. IsGreatestIn self.now bucket p) }
    {
        let floor = bucket * STRIDE;
        let slot = self.below[floor + STRIDE];
        if slot == floor {
            None
        } else {
            Some((bucket * BUCKET + (slot - floor - 1)) as u32)
        }
    }
}
