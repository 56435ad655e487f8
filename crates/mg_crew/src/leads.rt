ghost use Rattle.std.specs.Prelude.{◌≡◌, ◌<◌, ◌^◌, All, IfOk, IfSome, Some, None, length, replicate, slice_set, slice_index_or, vec_len};
ghost use Rattle.mg_sched.specs.Code.Agendas.{LeadOn};

use std::alloc::{AllocError, Global};
use std::marker::Model;

/// The edges of a plan in lists, one for each place at which edges have one of their ends.
#[derive(Drop)]
pub(crate) struct Leads {
    // The first edge of each place, and for each edge the next one of the same place.
    first: Vec<Option<u32>>,
    next: Vec<Option<u32>>,
}

impl Model for Leads {
    ghost use Rattle.std.specs.Prelude.{vec_len};
    ghost use Rattle.mg_sched.specs.Code.Agendas.{LeadOn};
    ghost use Rattle.mg_crew.specs.Code.Charts.{LeadsView};

    ghost Value = { LeadsView };

    ghost view = { λ l. record { places = vec_len l.first; edges = vec_len l.next } };

    ghost invariant = { λ l. LeadOn 0 (vec_len l.next) l.first.items l.next.items };
}

// The lists while they are made: they have the edges from some number on.
#[derive(Drop)]
struct Draft {
    first: Vec<Option<u32>>,
    next: Vec<Option<u32>>,
}

// Returns `count` entries without an edge.
fn nowhere(alloc: Global, count: usize) -> Result<Vec<Option<u32>>, AllocError>
    ensures items { IfOk result (λ v. v.items ≡ replicate count None) }
    ensures len { IfOk result (λ v. vec_len v ≡ count) }
{
    vec![in alloc; None; count]
}

// Puts an edge in front of the list of a place.
fn lead(draft: &mut Draft, place: usize, edge: u32)
    requires place { place < vec_len draft.old.first }
    requires edge { edge < vec_len draft.old.next }
    ensures places { vec_len draft.new.first ≡ vec_len draft.old.first }
    ensures edges { vec_len draft.new.next ≡ vec_len draft.old.next }
    ensures first { draft.new.first.items ≡ slice_set draft.old.first.items place (Some edge) }
    ensures next { draft.new.next.items ≡ slice_set draft.old.next.items edge (slice_index_or draft.old.first.items place None) }
{
    draft.next[edge as usize] = draft.first[place];
    draft.first[place] = Some(edge);
}

// Returns the place of an edge, where `ends` has the place of each.
fn end_of(ends: &[u32], edge: u32, _places: usize) -> usize
    requires there { edge < length ends.now }
    requires below { All (λ place. place < _places) ends.now }
    ensures { result < _places }
{
    ends[edge as usize] as usize
}

// Returns the lists of all edges, where `ends` has the place of each.
fn drafted(alloc: Global, places: usize, ends: &[u32]) -> Result<Draft, AllocError>
    requires below { All (λ place. place < places) ends.now }
    requires few { length ends.now < 2 ^ 32 }
    ensures places { IfOk result (λ d. vec_len d.first ≡ places) }
    ensures edges { IfOk result (λ d. vec_len d.next ≡ length ends.now) }
    ensures lead { IfOk result (λ d. LeadOn 0 (length ends.now) d.first.items d.next.items) }
{
    let first = nowhere(alloc, places)?;
    let next = nowhere(alloc, ends.len())?;
    let mut draft = Draft { first, next };
    for edge in (0..ends.len() as u32).rev() {
        let place = end_of(ends, edge, places);
        lead(&mut draft, place, edge);
    }
    Ok(draft)
}

impl Leads {
    /// Returns the lists of all edges for `places` places, where `ends` has the place of each edge.
    pub(crate) fn new(alloc: Global, places: usize, ends: &[u32]) -> Result<Leads, AllocError>
        requires below { All (λ place. place < places) ends.now }
        requires few { length ends.now < 2 ^ 32 }
        ensures places { IfOk result (λ l. l.places ≡ places) }
        ensures edges { IfOk result (λ l. l.edges ≡ length ends.now) }
    {
        let Draft { first, next } = drafted(alloc, places, ends)?;
        Ok(Leads { first, next })
    }

    /// Returns how many places there are.
    pub(crate) fn places(&self) -> usize
        ensures { result ≡ self.now.places }
    {
        self.first.len()
    }

    /// Returns the first edge of a place, if it has one.
    pub(crate) fn first(&self, place: usize) -> Option<u32>
        requires { place < self.now.places }
        ensures { IfSome result (λ edge. edge < self.now.edges) }
    {
        self.first[place]
    }

    /// Returns the next edge of the same place, if there is one.
    pub(crate) fn next(&self, edge: u32) -> Option<u32>
        requires { edge < self.now.edges }
        ensures { IfSome result (λ later. (edge < later) × (later < self.now.edges)) }
    {
        self.next[edge as usize]
    }
}
