//! How a net goes on with further input.
ghost use Rattle.std.specs.Prelude.{◌≡◌, ◌-◌, ◌+◌, ◌<◌, ◌≤◌, List, IfOk, OnOk, OnErr, Some, length, slice_get, slice_set};
ghost use Rattle.mg_node.specs.Views.{EngineView};
ghost use Rattle.mg_node.specs.Job.{LoggedJob};
ghost use Rattle.mg_node.specs.Extending.{extended, MayExtend, WasExtended, SomeExtended};
ghost use Rattle.mg_sched.specs.StandsFor.{StandsFor};
ghost use Rattle.mg_sched.specs.Code.Made.{AtPlaces};
ghost use Rattle.mg_sched.specs.Code.Longer.{MayEach, AreLonger, IsBound, WereLonger, SomeLonger};
ghost use Rattle.mg_sched.specs.Extends.{GoesOnWith, MayGoOnWith, Extends, for_last};

use super::Net;
use crate::agenda::wake_last;
use mg_calc::{Inputs, NodeCalculator};
use mg_node::Engine;
use mg_settled::{Prefix, PrefixList};
use mg_time::Timestamp;
use std::alloc::{AllocError, Global};

// Returns the bounds of graph inputs, one for each piece. Their engines stand at the places from `from` on.
fn bounds_of<C: NodeCalculator>(
    alloc: Global,
    engines: &[Engine<C>],
    from: usize,
    pieces: &PrefixList,
) -> Result<Vec<Timestamp>, AllocError>
    requires within { from + length pieces.now ≤ length engines.now }
    requires may { MayEach C.laws from pieces.now engines.now }
    ensures count { IfOk result (λ v. length v.items ≡ length pieces.now) }
    ensures bounds { IfOk result (λ v. AtPlaces (IsBound from engines.now) v.items) }
{
    let mut bounds = Vec::with_capacity(alloc, pieces.len() as usize)?;
    for input in 0..pieces.len() {
        bounds.push(engines[from + input as usize].bound(0))?;
    }
    Ok(bounds)
}

// Extends the engine at a place.
pub(super) fn extend_at<C: NodeCalculator>(
    engines: &mut [Engine<C>],
    place: usize,
    piece: &Prefix,
) -> Result<(), AllocError>
    requires there { place < length engines.old }
    requires may { (engine : EngineView) → slice_get engines.old place ≡ Some engine → MayExtend C.laws engine piece.now }
    ensures extended { (engine : EngineView) → slice_get engines.old place ≡ Some engine → OnOk result (engines.new ≡ slice_set engines.old place (extended engine piece.now)) }
    ensures unchanged { OnErr result (engines.new ≡ engines.old) }
{
    engines[place].extend(piece)?;
    Ok(())
}

// Extends the engines from `from` on, each by its piece, as far as there is memory, and returns how many are extended.
fn extend_each<C: NodeCalculator>(
    engines: &mut [Engine<C>],
    from: usize,
    pieces: &PrefixList,
) -> u32
    requires within { from + length pieces.now ≤ length engines.old }
    requires may { MayEach C.laws from pieces.now engines.old }
    ensures count { result ≤ length pieces.now }
    ensures longer { AreLonger from pieces.now result engines.old engines.new }
{
    for input in 0..pieces.len() {
        let piece = &pieces.as_slice()[input as usize];
        let Ok(()) = extend_at(engines, from + input as usize, piece) else {
            return input;
        };
    }
    pieces.len()
}

// Takes a piece back from the engine at a place.
pub(super) fn shorten_at<C: NodeCalculator>(
    engines: &mut [Engine<C>],
    place: usize,
    piece: &Prefix,
    bound: Timestamp,
)
    requires there { place < length engines.old }
    requires some { (now : EngineView) → slice_get engines.old place ≡ Some now → SomeExtended C.laws piece.now bound now }
    ensures { (before now : EngineView) → slice_get engines.old place ≡ Some now → WasExtended C.laws piece.now bound before now → engines.new ≡ slice_set engines.old place before }
{
    engines[place].shorten(piece, bound);
}

// Takes the pieces back from the first `count` engines from `from` on.
fn shorten_each<C: NodeCalculator>(
    engines: &mut [Engine<C>],
    from: usize,
    pieces: &PrefixList,
    bounds: &[Timestamp],
    count: u32,
)
    requires pieces { count ≤ length pieces.now }
    requires bounds { count ≤ length bounds.now }
    requires some { SomeLonger C.laws from pieces.now bounds.now count engines.old }
    ensures { (before : List EngineView) → WereLonger C.laws from pieces.now bounds.now count before engines.old → engines.new ≡ before }
{
    let mut left = count;
    while left > 0 {
        left -= 1;
        let piece = &pieces.as_slice()[left as usize];
        shorten_at(engines, from + left as usize, piece, bounds[left as usize]);
    }
}

// Extends the last engines, each by its piece. If one of them can't be extended, takes back the pieces that were laid before. Whether there
// is memory for all pieces shows only while they are laid.
fn extend_last<C: NodeCalculator>(
    alloc: Global,
    engines: &mut [Engine<C>],
    pieces: &PrefixList,
) -> Result<(), AllocError>
    requires room { length pieces.now ≤ length engines.old }
    requires may { MayEach C.laws (length engines.old - length pieces.now) pieces.now engines.old }
    ensures longer { OnOk result (AreLonger (length engines.old - length pieces.now) pieces.now (length pieces.now) engines.old engines.new) }
    ensures unchanged { OnErr result (engines.new ≡ engines.old) }
{
    let from = engines.len() - pieces.len() as usize;
    let bounds = bounds_of(alloc, engines, from, pieces)?;
    let done = extend_each(engines, from, pieces);
    if done < pieces.len() {
        shorten_each(engines, from, pieces, bounds.as_slice(), done);
        return Err(AllocError);
    }
    Ok(())
}

impl<C: NodeCalculator> Net<C> {
    /// Goes on with further input. The packets of each piece go after those of its graph input, and the greater bound stands. Payloads are
    /// shared. Out of memory: nothing changes. It costs a step for each graph input, and one for each packet.
    pub fn extend(&mut self, more: &Inputs) -> Result<(), AllocError>
        requires may { MayGoOnWith C.laws more.now self.old }
        ensures extends { OnOk result (Extends more.now self.old self.new) }
        ensures unchanged { OnErr result (self.new ≡ self.old) }

        // A net that stands for a job then stands for every job that goes on from it with this input.
        ensures stands { (first later : LoggedJob C.laws) → GoesOnWith more.now first later → StandsFor first self.old → OnOk result (StandsFor later self.new) }
    {
        self.extend_last(&more.streams)?;
        Ok(())
    }

    // Goes on with further input of the last graph inputs alone, a piece for each of them. The graph inputs before them get nothing, and
    // cost nothing.
    fn extend_last(&mut self, pieces: &PrefixList) -> Result<(), AllocError>
        requires may { MayGoOnWith C.laws (for_last (length self.old.plan.inputs) pieces.now) self.old }
        ensures extends { OnOk result (Extends (for_last (length self.old.plan.inputs) pieces.now) self.old self.new) }
        ensures unchanged { OnErr result (self.new ≡ self.old) }

        // A net that stands for a job then stands for every job that goes on from it with this input.
        ensures stands { (first later : LoggedJob C.laws) → GoesOnWith (for_last (length self.old.plan.inputs) pieces.now) first later → StandsFor first self.old → OnOk result (StandsFor later self.new) }
    {
        let known = self.known;
        self.known = false;
        extend_last(self.alloc, &mut self.engines, pieces)?;
        wake_last(&mut self.agenda, pieces.len());
        self.known = known;
        Ok(())
    }
}
