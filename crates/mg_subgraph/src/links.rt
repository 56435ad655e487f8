//! Which files of a library use which.
ghost use Rattle.std.specs.Prelude.{◌≡◌, ℕ, ◌<◌, ◌||◌, ◌==◌, false, true, IfOk, OnOk, map, length, ◌++◌, ◌∷◌, [], if◌then◌else◌, ◌≤◌, take};
ghost use Rattle.mg_config.specs.Config.{node_view};
ghost use Rattle.mg_subgraph.specs.Code.Places.{listed, flag_at, set_count, uses_at, AreLinks, AreWithin, AreClosed, IsReach};
ghost use Rattle.mg_subgraph.specs.Code.Views.{files_of};

use crate::library::Library;
use mg_config::NodeConfig;
use std::alloc::{AllocError, Global};

/// Places of files, each once, in the order in which they were found, and for each file whether its place is among them.
#[derive(Drop)]
struct Found {
    flags: Vec<bool>,
    places: Vec<usize>,
    ghost same: { (place : ℕ) → listed place places.items ≡ flag_at flags.items place },
    ghost once: { length places.items ≡ set_count flags.items },
}

impl Found {
    fn new(alloc: Global, count: usize) -> Result<Found, AllocError>
        ensures none { IfOk result (λ found. found.places.items ≡ []) }
        ensures len { IfOk result (λ found. length found.flags.items ≡ count) }
    {
        Ok(Found {
            flags: vec![in alloc; false; count]?,
            places: Vec::new(alloc),
        })
    }

    fn add(&mut self, place: usize) -> Result<(), AllocError>
        requires { place < length self.old.flags.items }
        ensures len { length self.new.flags.items ≡ length self.old.flags.items }
        ensures flags { OnOk result ((other : ℕ) → flag_at self.new.flags.items other ≡ ((other == place) || flag_at self.old.flags.items other)) }
        ensures places { OnOk result (self.new.places.items ≡ self.old.places.items ++ (if flag_at self.old.flags.items place then [] else place ∷ [])) }
    {
        if !self.flags[place] {
            self.places.push(place)?;
            self.flags[place] = true;
        }
        Ok(())
    }

    fn add_all(&mut self, places: &[usize]) -> Result<(), AllocError>
        requires { (place : ℕ) → listed place places.now ≡ true → place < length self.old.flags.items }
        ensures len { length self.new.flags.items ≡ length self.old.flags.items }
        ensures flags { OnOk result ((other : ℕ) → flag_at self.new.flags.items other ≡ (listed other places.now || flag_at self.old.flags.items other)) }
        ensures front { OnOk result ((n : ℕ) → n ≤ length self.old.places.items → take n self.new.places.items ≡ take n self.old.places.items) }
        ensures longer { OnOk result (length self.old.places.items ≤ length self.new.places.items) }
    {
        for place in places {
            self.add(*place)?;
        }
        Ok(())
    }
}

/// Returns the places of the files that nodes use directly, each once.
pub fn links_of(
    alloc: Global,
    library: &Library,
    nodes: &[NodeConfig],
) -> Result<Vec<usize>, AllocError>
    ensures { IfOk result (λ links. (place : ℕ) → listed place links.items ≡ uses_at (files_of library.now) (map node_view nodes.now) place) }
{
    let mut found = Found::new(alloc, library.files.len())?;
    for node in nodes {
        let Some(place) = library.find(node.calculator.as_str()) else {
            continue;
        };
        found.add(place)?;
    }
    Ok(found.places)
}

/// Returns for each file the places of the files that it uses directly.
pub fn all_links(alloc: Global, library: &Library) -> Result<Vec<Vec<usize>>, AllocError>
    ensures { IfOk result (λ links. AreLinks (files_of library.now) (map (λ list. list.items) links.items)) }
{
    let mut links = Vec::new(alloc);
    for file in library.files {
        links.push(links_of(alloc, library, file.nodes.as_slice())?)?;
    }
    Ok(links)
}

/// Returns for each file whether it is used, directly or not, if the files at `start` are used directly.
pub fn reach(alloc: Global, links: &[Vec<usize>], start: &[usize]) -> Result<Vec<bool>, AllocError>
    requires links { AreClosed (map (λ list. list.items) links.now) }
    requires start { AreWithin (map (λ list. list.items) links.now) start.now }
    ensures reach { IfOk result (λ flags. IsReach (map (λ list. list.items) links.now) start.now flags.items) }
    ensures len { IfOk result (λ flags. length flags.items ≡ length links.now) }
{
    let mut found = Found::new(alloc, links.len())?;
    found.add_all(start)?;
    let mut next = 0;
    while next < found.places.len() {
        let place = found.places[next];
        found.add_all(links[place].as_slice())?;
        next += 1;
    }
    Ok(found.flags)
}
