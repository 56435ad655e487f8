//! How a net goes on with further input of some graph inputs alone.
ghost use Rattle.std.specs.Prelude.{◌≡◌, ◌+◌, ◌<◌, ◌≤◌, ℕ, List, IfOk, OnOk, OnErr, Some, length, slice_get};
ghost use Rattle.mg_calc.specs.declared.inputs.Inputs.{Inputs as Given};
ghost use Rattle.mg_node.specs.Views.{EngineView};
ghost use Rattle.mg_node.specs.Job.{LoggedJob};
ghost use Rattle.mg_sched.specs.StandsFor.{StandsFor};
ghost use Rattle.mg_sched.specs.Code.Made.{AtPlaces};
ghost use Rattle.mg_sched.specs.Code.LongerAt.{HaveEngines, MayEachAt, AreLongerAt, IsBoundAt, WereLongerAt, SomeLongerAt};
ghost use Rattle.mg_sched.specs.Extends.{AreRising, GoesOnWith, ComesAt, MayGoOnAt, Extends};

use super::Net;
use super::extending::{extend_at, shorten_at};
use crate::agenda::wake_some;
use mg_calc::NodeCalculator;
use mg_node::Engine;
use mg_settled::PrefixList;
use mg_time::Timestamp;
use std::alloc::{AllocError, Global};

// Returns the bounds of some graph inputs.
fn bounds_at<C: NodeCalculator>(
    alloc: Global,
    engines: &[Engine<C>],
    from: usize,
    inputs: &[u32],
    pieces: &PrefixList,
) -> Result<Vec<Timestamp>, AllocError>
    requires there { HaveEngines from inputs.now engines.now }
    requires many { length pieces.now ≡ length inputs.now }
    requires may { MayEachAt C.laws from inputs.now pieces.now engines.now }
    ensures count { IfOk result (λ v. length v.items ≡ length inputs.now) }
    ensures bounds { IfOk result (λ v. AtPlaces (IsBoundAt from inputs.now engines.now) v.items) }
{
    let _ = pieces;
    let mut bounds = Vec::with_capacity(alloc, inputs.len())?;
    for i in 0..inputs.len() {
        bounds.push(engines[from + inputs[i] as usize].bound(0))?;
    }
    Ok(bounds)
}

// Extends the engines of some graph inputs, each by its piece, as far as there is memory, and returns how many are extended.
fn extend_each_at<C: NodeCalculator>(
    engines: &mut [Engine<C>],
    from: usize,
    inputs: &[u32],
    pieces: &PrefixList,
) -> usize
    requires there { HaveEngines from inputs.now engines.old }
    requires many { length pieces.now ≡ length inputs.now }
    requires rising { AreRising inputs.now }
    requires may { MayEachAt C.laws from inputs.now pieces.now engines.old }
    ensures count { result ≤ length inputs.now }
    ensures longer { AreLongerAt from inputs.now pieces.now result engines.old engines.new }
{
    for i in 0..inputs.len() {
        let piece = &pieces.as_slice()[i];
        let Ok(()) = extend_at(engines, from + inputs[i] as usize, piece) else {
            return i;
        };
    }
    inputs.len()
}

// Takes the pieces back from the engines of the first `count` of some graph inputs.
fn shorten_each_at<C: NodeCalculator>(
    engines: &mut [Engine<C>],
    from: usize,
    inputs: &[u32],
    pieces: &PrefixList,
    bounds: &[Timestamp],
    count: usize,
)
    requires inputs { count ≤ length inputs.now }
    requires pieces { count ≤ length pieces.now }
    requires bounds { count ≤ length bounds.now }
    requires some { SomeLongerAt C.laws from inputs.now pieces.now bounds.now count engines.old }
    ensures { (before : List EngineView) → WereLongerAt C.laws from inputs.now pieces.now bounds.now count before engines.old → engines.new ≡ before }
{
    let mut left = count;
    while left > 0 {
        left -= 1;
        let piece = &pieces.as_slice()[left];
        shorten_at(engines, from + inputs[left] as usize, piece, bounds[left]);
    }
}

// Extends the engines of some graph inputs, each by its piece. If one of them can't be extended, takes back the pieces that were laid
// before. Whether there is memory for all pieces shows only while they are laid.
fn extend_some<C: NodeCalculator>(
    alloc: Global,
    engines: &mut [Engine<C>],
    from: usize,
    inputs: &[u32],
    pieces: &PrefixList,
) -> Result<(), AllocError>
    requires there { HaveEngines from inputs.now engines.old }
    requires many { length pieces.now ≡ length inputs.now }
    requires rising { AreRising inputs.now }
    requires may { MayEachAt C.laws from inputs.now pieces.now engines.old }
    ensures longer { OnOk result (AreLongerAt from inputs.now pieces.now (length inputs.now) engines.old engines.new) }
    ensures unchanged { OnErr result (engines.new ≡ engines.old) }
{
    let bounds = bounds_at(alloc, engines, from, inputs, pieces)?;
    let done = extend_each_at(engines, from, inputs, pieces);
    if done < inputs.len() {
        shorten_each_at(engines, from, inputs, pieces, bounds.as_slice(), done);
        return Err(AllocError);
    }
    Ok(())
}

impl<C: NodeCalculator> Net<C> {
    /// Goes on with further input of some graph inputs alone, by their numbers, which rise. Each of them has a piece. The other graph
    /// inputs get nothing new, and cost nothing.
    pub fn extend_some(&mut self, inputs: &[u32], pieces: &PrefixList) -> Result<(), AllocError>
        requires may { MayGoOnAt C.laws inputs.now pieces.now self.old }
        ensures extends { (more : Given) (first later : LoggedJob C.laws) → ComesAt inputs.now pieces.now first.job.inputs.streams more → GoesOnWith more first later → StandsFor first self.old → OnOk result (Extends more self.old self.new) }
        ensures unchanged { OnErr result (self.new ≡ self.old) }

        // A net that stands for a job then stands for every job that goes on from it with this input.
        ensures stands { (more : Given) (first later : LoggedJob C.laws) → ComesAt inputs.now pieces.now first.job.inputs.streams more → GoesOnWith more first later → StandsFor first self.old → OnOk result (StandsFor later self.new) }
    {
        let known = self.known;
        self.known = false;
        let from = self.plan.nodes.len();
        extend_some(self.alloc, &mut self.engines, from as usize, inputs, pieces)?;
        wake_some(&mut self.agenda, from, inputs);
        self.known = known;
        Ok(())
    }
}
