ghost use Rattle.std.specs.Prelude.{◌≡◌, IfOk, length, option_map, slice_get};
ghost use Rattle.mg_feed.specs.Graph.{place_of};
ghost use Rattle.mg_feed.specs.Code.Places.{Finds};

use mg_index::NameTable;
use mg_value::MgText;
use std::alloc::{AllocError, Global};
use std::borrow::CowStr;
use std::marker::Model;

/// A name, and the place of what it names.
#[derive(Drop)]
pub struct Placed {
    pub name: MgText,
    pub place: u32,
}

/// A table of names with their places. Contracts see it as the list of them.
pub struct Places {
    entries: Vec<Placed>,
    // Finds the number of the first entry that has a name. The table owns its names, since whoever makes a feed lends it a plan for
    // that one call.
    names: NameTable<'static>,
}

impl Model for Places {
    ghost use Rattle.std.specs.Prelude.{List};
    ghost use Rattle.mg_feed.specs.declared.places.Placed.{Placed};
    ghost use Rattle.mg_feed.specs.Code.Places.{Finds};

    ghost Value = { List Placed };

    ghost view = { λ p. p.entries.items };

    ghost invariant = { λ p. Finds p.names p.entries.items };
}

// Written out, so that a proof about code that drops a table needn't open it.
impl Drop for Places {
    fn drop(self) {
        let Places { entries, names } = self;
        drop(entries);
        drop(names);
    }
}

impl Places {
    /// Makes a table of entries. If a name stands twice, its first place is found.
    pub fn of(alloc: Global, entries: Vec<Placed>) -> Result<Places, AllocError>
        ensures { IfOk result (λ places. places ≡ entries.items) }
    {
        let names = table_of(alloc, &entries)?;
        Ok(Places { entries, names })
    }

    /// Returns how many names there are.
    pub fn len(&self) -> usize
        ensures { result ≡ length self.now }
    {
        self.entries.len()
    }

    /// Returns the place of a name, or None if it isn't in the table.
    #[tactic(auto, using(crate::proofs::Finding::place_there, crate::proofs::Finding::place_missing))]
    pub fn find(&self, name: &str) -> Option<u32>
        ensures { result ≡ place_of self.now name.now }
    {
        match self.names.get(name) {
            Some(number) => place_at(self.entries.as_slice(), number),
            None => None,
        }
    }
}

// Returns the place in the entry of a number.
fn place_at(entries: &[Placed], number: usize) -> Option<u32>
    ensures { result ≡ option_map (λ entry. entry.place) (slice_get entries.now number) }
{
    match entries.get(number) {
        Some(entry) => Some(entry.place),
        None => None,
    }
}

// Makes the table that finds the number of the first entry with a name.
fn table_of(alloc: Global, entries: &[Placed]) -> Result<NameTable<'static>, AllocError>
    ensures { IfOk result (λ names. Finds names entries.now) }
{
    let mut names = NameTable::new(alloc);
    for number in 0..entries.len() {
        let name = String::from_str(alloc, entries[number].name.as_str())?;
        names.insert(CowStr::Owned(name), number)?;
    }
    Ok(names)
}
