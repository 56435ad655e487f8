//! Which engines of a net may have changed.
ghost use Rattle.std.specs.Prelude.{◌≡◌, ◌+◌, ℕ, [], Some, false, true, slice_get};
ghost use Rattle.mg_live.specs.Takes.{IsNoneOf};
ghost use Rattle.mg_drive.specs.Nets.{IsOfNode, IsUnmoved, HasNoted};

use mg_calc::Event;
use mg_sched::Hears;
use std::alloc::Global;

/// Notes which engines of a net may have changed, by their places in the net. While a net is swept, it hears the events.
#[derive(Drop)]
pub struct Moved {
    // Whether any engine may have changed.
    pub(crate) all: bool,
    // The places of the engines that may have changed, if not all may. A place may stand here several times.
    pub(crate) places: Vec<u32>,
}

// Returns whether a list ends with a place.
fn ends_with(places: &[u32], place: u32) -> bool
    ensures { result ≡ true → ¬ IsNoneOf places.now place }
{
    let count = places.len();
    if count == 0 {
        return false;
    }
    places[count - 1] == place
}

impl Moved {
    /// Returns notes by which any engine may have changed.
    pub fn new(alloc: Global) -> Moved
        ensures { result.all ≡ true }
    {
        Moved {
            all: true,
            places: Vec::new(alloc),
        }
    }

    /// Notes that any engine may have changed.
    pub fn note_all(&mut self)
        ensures { self.new.all ≡ true }
    {
        self.all = true;
    }

    /// Notes that no engine has changed.
    pub(crate) fn clear(&mut self)
        ensures none { (self.new.all ≡ false) × (self.new.places.items ≡ []) }
    {
        self.places.clear();
        self.all = false;
    }

    /// Notes that the engine at a place may have changed. Out of memory: any engine may have changed then.
    pub(crate) fn note(&mut self, place: u32)
        ensures noted { ¬ IsUnmoved self.new place }
        ensures others { (other : ℕ) → IsUnmoved self.new other → IsUnmoved self.old other }
    {
        if ends_with(&self.places, place) {
            return;
        }
        if self.places.push(place).is_err() {
            self.all = true;
        }
    }

    // Notes that the engine of a graph input may have changed. `first` is the place of the first graph input.
    fn note_input(&mut self, first: u32, input: u32)
        ensures noted { ¬ IsUnmoved self.new (first + input) }
        ensures others { (other : ℕ) → IsUnmoved self.new other → IsUnmoved self.old other }
    {
        match first.checked_add(input) {
            Some(place) => self.note(place),
            None => self.note_all(),
        }
    }

    /// Notes that the engines of some graph inputs may have changed. `first` is the place of the first graph input.
    pub(crate) fn note_inputs(&mut self, first: u32, inputs: &[u32])
        ensures noted { (i input : ℕ) → slice_get inputs.now i ≡ Some input → ¬ IsUnmoved self.new (first + input) }
        ensures others { (other : ℕ) → IsUnmoved self.new other → IsUnmoved self.old other }
    {
        for i in 0..inputs.len() {
            self.note_input(first, inputs[i]);
        }
    }
}

// Returns the node of an event, if the event is one of a node.
fn node_of(event: Event) -> Option<u32>
    ensures { (place : ℕ) → IsOfNode place event → result ≡ Some place }
{
    match event {
        Event::Advance { node } => Some(node),
        Event::Claim { node } => Some(node),
        Event::Perform { node, number: _ } => Some(node),
        Event::Commit { node, number: _ } => Some(node),
        Event::Deliver { edge: _ } => None,
        Event::Relax => None,
    }
}

impl Hears for Moved {
    ghost has_heard = { λ began now events. HasNoted began now events };

    fn hear(&mut self, event: Event) {
        if let Some(node) = node_of(event) {
            self.note(node);
        }
    }
}
