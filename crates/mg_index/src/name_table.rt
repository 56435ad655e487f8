ghost use Rattle.std.specs.Prelude.{◌≡◌, ◌++◌, ◌∷◌, [], ℕ, List, Bool, true, Some, OnOk, length, option_map, slice_get};
ghost use Rattle.std.specs.Cow.{cow_str_bytes};
ghost use Rattle.mg_index.specs.Places.{earlier};
ghost use Rattle.mg_index.specs.Tables.{kept_place, kept_names, IsTable};

use indexmap::IndexMap;
use std::alloc::{AllocError, Global};
use std::borrow::CowStr;

/// The names of a list of texts, in its order. The table has the place at which each name stands first, and the place
/// of the first name that stands again later. The names are borrowed, or the table's own, and a look-up takes the same
/// time however many names there are.
///
/// Texts that are no names are left out, but keep their places. The caller says which texts are names.
pub struct NameTable<'a> {
    places: IndexMap<CowStr<'a>, usize>,
    again: Option<usize>,
}

// Written out, so that a proof about code that drops a table needn't open it.
impl<'a> Drop for NameTable<'a> {
    fn drop(self) {
        let NameTable { places, again: _ } = self;
        drop(places);
    }
}

// Returns the earlier of two places; the first place may be missing.
fn earlier_of(place: Option<usize>, other: usize) -> usize
    ensures { Some result ≡ earlier place (Some other) }
{
    match place {
        None => other,
        Some(place) => { if place < other { place } else { other } }
    }
}

impl<'a> NameTable<'a> {
    /// Makes a table of no texts.
    pub fn new(alloc: Global) -> NameTable<'a>
        ensures { (is_name : List ℕ → Bool) → IsTable is_name result [] }
    {
        NameTable {
            places: IndexMap::new(alloc),
            again: None,
        }
    }

    /// Adds the name of the next text, which stands at `place`. A name that is there already keeps its first place.
    pub fn insert(&mut self, name: CowStr<'a>, place: usize) -> Result<(), AllocError>
        ensures { OnOk result ((is_name : List ℕ → Bool) (texts : List (List ℕ)) → is_name (cow_str_bytes name.entry) ≡ true → length texts ≡ place → IsTable is_name self.old texts → IsTable is_name self.new (texts ++ cow_str_bytes name.entry ∷ [])) }
    {
        if let Some(first) = self.get(name.as_str()) {
            self.again = Some(earlier_of(self.again, first));
            return Ok(());
        }
        self.places.insert(name, place)?;
        Ok(())
    }

    /// Returns the place at which a name stands first, or `None` if it isn't there.
    pub fn get(&self, name: &str) -> Option<usize>
        ensures { result ≡ kept_place self.now name.now }
    {
        self.places.get(name).copied()
    }

    /// Returns the place of the first name that stands again later, if one does.
    pub fn again(&self) -> Option<usize>
        ensures { result ≡ self.now.again }
    {
        self.again
    }

    /// Returns how many different names there are.
    pub fn len(&self) -> usize
        ensures { result ≡ length (kept_names self.now) }
    {
        self.places.len()
    }

    /// Returns the name of a number, in the order in which the names stand first.
    pub fn name(&self, number: usize) -> Option<&str>
        ensures { option_map (λ name. name.now) result ≡ slice_get (kept_names self.now) number }
    {
        match self.places.get_index(number) {
            None => None,
            Some((name, _)) => Some(name.as_str()),
        }
    }
}
