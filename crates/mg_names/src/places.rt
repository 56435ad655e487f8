ghost use Rattle.std.specs.Prelude.{◌≡◌, ◌&&◌, ◌==◌, ℕ, List, [], None, Some, OnOk, if◌then◌else◌};
ghost use Rattle.std.specs.Str.{bytes_eq};
ghost use Rattle.mg_names.specs.Code.Places.{kept_place, slot_at};

use std::alloc::{AllocError, Global};
use std::collections::BTreeMap;

/// A table of the places of ports by tag and index: for each tag a list with a place or none at each index. A look-up
/// takes as long as one in a tree of the tags.
#[derive(Debug, Drop)]
pub struct Places {
    tags: BTreeMap<Vec<u8>, Vec<Option<u32>>>,
}

fn set_slot(slots: &mut Vec<Option<u32>>, index: u8, place: u32) -> Result<(), AllocError>
    ensures { OnOk result ((other : ℕ) → slot_at slots.new.items other ≡ (if other == index then Some place else slot_at slots.old.items other)) }
{
    let at = usize::from(index);
    if slots.len() <= at {
        slots.resize(at + 1, None)?;
    }
    slots[at] = Some(place);
    Ok(())
}

impl Places {
    /// Returns an empty table.
    pub fn new(alloc: Global) -> Places
        ensures { (tag : List ℕ) (index : ℕ) → kept_place result tag index ≡ None }
    {
        Places {
            tags: BTreeMap::new(alloc),
        }
    }

    /// Returns the place of a tag and index, or none if the table has none.
    pub fn get(&self, tag: &[u8], index: u8) -> Option<u32>
        ensures { result ≡ kept_place self.now tag.now index }
    {
        match self.tags.get(tag) {
            None => None,
            Some(slots) => match slots.get(usize::from(index)) {
                None => None,
                Some(place) => *place,
            },
        }
    }

    /// Puts the place of a tag and index into the table, instead of a place that was there.
    pub fn put(
        &mut self,
        alloc: Global,
        tag: &[u8],
        index: u8,
        place: u32,
    ) -> Result<(), AllocError>
        ensures { OnOk result ((other : List ℕ) (at : ℕ) → kept_place self.new other at ≡ (if bytes_eq other tag.now && (at == index) then Some place else kept_place self.old other at)) }
    {
        match self.tags.get_mut(tag) {
            Some(slots) => set_slot(slots, index, place),
            None => {
                let mut slots = Vec::new(alloc);
                set_slot(&mut slots, index, place)?;
                self.tags.insert(Vec::from_slice(alloc, tag)?, slots)?;
                Ok(())
            }
        }
    }
}
