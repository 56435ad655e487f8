ghost use Rattle.std.specs.Prelude.{◌≡◌, ◌<◌, ℕ, OnOk, true, false};
ghost use Rattle.std.specs.List.Sorted.{IsNonDecreasing};
ghost use Rattle.mg_live.specs.Takes.{IsNoneOf};
ghost use Rattle.mg_live.specs.Due.{IsUndue};
ghost use Rattle.mg_live.specs.Code.Turned.{HasAllBelow};

use std::alloc::{AllocError, Global};

/// Which free nodes of a graph are due: these have their turns in the next round. The others have nothing to do.
#[derive(Drop)]
pub struct Due {
    // Whether all free nodes are due.
    all: bool,
    // The places of those that are due, if not all are. A place may stand here several times.
    pub(crate) places: Vec<u32>,
}

// Sets a list to the places below `count`.
fn fill(due: &mut Vec<u32>, count: u32) -> Result<(), AllocError>
    ensures { OnOk result (HasAllBelow count due.new.items) }
{
    due.clear();
    for place in 0..count {
        due.push(place)?;
    }
    Ok(())
}

impl Due {
    /// Returns that all free nodes are due.
    pub fn new(alloc: Global) -> Due
        ensures { (place : ℕ) → ¬ IsUndue result place }
    {
        Due {
            all: true,
            places: Vec::new(alloc),
        }
    }

    /// Makes all free nodes due.
    pub fn wake_all(&mut self)
        ensures { (place : ℕ) → ¬ IsUndue self.new place }
    {
        self.all = true;
    }

    /// Makes the free node at a place due, from 0 on. Out of memory: all free nodes are due then.
    pub fn wake(&mut self, place: u32)
        ensures woken { ¬ IsUndue self.new place }
        ensures others { (other : ℕ) → IsUndue self.new other → IsUndue self.old other }
    {
        if self.places.push(place).is_err() {
            self.all = true;
        }
    }

    /// Sorts the places of the free nodes that are due. If all are, these are the places below `count`.
    pub(crate) fn sort(&mut self, count: u32) -> Result<(), AllocError>
        ensures sorted { OnOk result (IsNonDecreasing self.new.places.items) }
        ensures due { OnOk result ((place : ℕ) → place < count → IsNoneOf self.new.places.items place → IsUndue self.old place) }
    {
        if self.all {
            fill(&mut self.places, count)?;
            return Ok(());
        }
        self.places.sort_unstable();
        Ok(())
    }

    /// Makes the free nodes at these places due, and no others.
    pub(crate) fn set(&mut self, places: &[u32]) -> Result<(), AllocError>
        ensures { OnOk result ((place : ℕ) → IsUndue self.new place → IsNoneOf places.now place) }
    {
        self.places.clear();
        self.places.extend_from_slice(places)?;
        self.all = false;
        Ok(())
    }
}
