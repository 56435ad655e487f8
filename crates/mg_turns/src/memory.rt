//! The memory that a table of parts takes, and how the parts go in and come out again.
ghost use Rattle.std.specs.Prelude.{◌≡◌, ◌≤◌, ◌*◌, ◌^◌, [], length, map, replicate, zero, vec_capacity, IfOk, Some};
ghost use Rattle.mg_turns.specs.Rule.{Ready};
ghost use Rattle.mg_turns.specs.Code.Stored.{somes};
ghost use Rattle.mg_turns.specs.Code.Ways.{way_of};

use crate::room::Room;
use crate::way::{Way, ways_of};
use crate::{Layout, Part};
use mg_calc::NodeCalculator;
use std::alloc::{AllocError, Global};

/// The memory for a table, taken before a part is moved.
#[derive(Drop)]
pub(crate) struct Rooms<C: NodeCalculator> {
    pub words: Vec<u64>,
    pub ways: Vec<Way>,
    pub slots: Vec<Option<Part<C>>>,
    // Room for the parts when they come back.
    pub room: Room<Part<C>>,
}

// Returns `size` words of 0.
fn free_words(alloc: Global, size: usize) -> Result<Vec<u64>, AllocError>
    ensures { IfOk result (λ w. w.items ≡ replicate size zero) }
{
    let mut words = Vec::with_capacity(alloc, size)?;
    for _ in 0..size {
        words.push_reserved(0);
    }
    Ok(words)
}

impl<C: NodeCalculator> Rooms<C> {
    /// Takes the memory for a table of the parts of a layout.
    pub fn new(alloc: Global, layout: &Layout<C>) -> Result<Rooms<C>, AllocError>
        requires ready { Ready layout.now }
        requires few { length layout.now.parts ≤ 2 ^ 32 }
        ensures words { IfOk result (λ r. r.words.items ≡ replicate (8 * length layout.now.parts) zero) }
        ensures ways { IfOk result (λ r. r.ways.items ≡ map (way_of layout.now.plan) layout.now.plan.edges) }
        ensures slots { IfOk result (λ r. (r.slots.items ≡ []) × (length layout.now.parts ≤ vec_capacity r.slots)) }
        ensures room { IfOk result (λ r. r.room.table.shared.key ≡ length layout.now.parts) }
    {
        let size = layout.parts.len();
        let words = free_words(alloc, 8 * size)?;
        let ways = ways_of(alloc, &layout.plan)?;
        let slots = Vec::with_capacity(alloc, size)?;
        let room = Room::new(alloc, size)?;
        Ok(Rooms {
            words,
            ways,
            slots,
            room,
        })
    }
}

/// Moves the parts into `slots`, which is empty and has room for all.
pub(crate) fn all_in<C: NodeCalculator>(
    slots: Vec<Option<Part<C>>>,
    parts: Vec<Part<C>>,
) -> Vec<Option<Part<C>>>
    requires { (slots.items ≡ []) × (length parts.items ≤ vec_capacity slots) }
    ensures { result.items ≡ map Some parts.items }
{
    let mut slots = slots;
    for part in parts {
        slots.push_reserved(Some(part));
    }
    slots
}

/// Moves the parts out of the slots that have one, into `parts`, which is empty and has room for all.
pub(crate) fn all_out<C: NodeCalculator>(
    slots: Vec<Option<Part<C>>>,
    parts: Vec<Part<C>>,
) -> Vec<Part<C>>
    requires { (length parts.items ≡ 0) × (length slots.items ≤ vec_capacity parts) }
    ensures { result.items ≡ somes slots.items }
{
    let mut parts = parts;
    for slot in slots {
        let Some(part) = slot else { continue };
        parts.push_reserved(part);
    }
    parts
}
