ghost use Rattle.std.specs.Prelude.{◌≡◌, ◌++◌, ◌∷◌, [], ℕ, List, OnOk, if◌then◌else◌};
ghost use Rattle.std.specs.Str.{bytes_eq};
ghost use Rattle.mg_check.specs.Code.Groups.{kept};

use std::alloc::{AllocError, Global};
use std::collections::BTreeMap;

/// A table of names, with the places that were added for each name, in the order in which they were added. A look-up
/// takes as long as one in a tree of the names.
#[derive(Debug, Drop)]
pub struct Groups {
    places: BTreeMap<Vec<u8>, Vec<u32>>,
}

fn push_place(places: &mut Vec<u32>, place: u32) -> Result<(), AllocError>
    ensures { OnOk result (places.new.items ≡ places.old.items ++ place ∷ []) }
{
    places.push(place)?;
    Ok(())
}

impl Groups {
    /// Returns a table without names.
    pub fn new(alloc: Global) -> Groups
        ensures { (name : List ℕ) → kept result name ≡ [] }
    {
        Groups {
            places: BTreeMap::new(alloc),
        }
    }

    /// Returns the places of a name, or none if none was added.
    pub fn get(&self, name: &[u8]) -> &[u32]
        ensures { result.now ≡ kept self.now name.now }
    {
        match self.places.get(name) {
            None => &[],
            Some(places) => places.as_slice(),
        }
    }

    /// Adds a place of a name, after those that it has.
    pub fn add(&mut self, alloc: Global, name: &[u8], place: u32) -> Result<(), AllocError>
        ensures { OnOk result ((other : List ℕ) → kept self.new other ≡ (if bytes_eq other name.now then kept self.old other ++ place ∷ [] else kept self.old other)) }
    {
        match self.places.get_mut(name) {
            Some(places) => push_place(places, place),
            None => {
                let mut places = Vec::new(alloc);
                push_place(&mut places, place)?;
                self.places.insert(Vec::from_slice(alloc, name)?, places)?;
                Ok(())
            }
        }
    }
}
