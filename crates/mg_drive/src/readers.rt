//! Which free nodes read what an engine of a core lays.
ghost use Rattle.std.specs.Prelude.{◌≡◌, ◌+◌, ◌<◌, ℕ, Some, IfOk, OnOk, length, slice_get, option_map};
ghost use Rattle.mg_calc.specs.declared.plan_stream.Producer.{Producer as Writer};
ghost use Rattle.mg_free.specs.declared.node.FreeNode.{FreeNode as FreeNodeView};
ghost use Rattle.mg_sched.specs.Places.{place_of};
ghost use Rattle.mg_sched.specs.Writers.{writer_at};
ghost use Rattle.mg_live.specs.Takes.{IsNoneOf};
ghost use Rattle.mg_live.specs.Due.{IsUndue};
ghost use Rattle.mg_drive.specs.Nets.{IsUnmoved};
ghost use Rattle.mg_drive.specs.Code.Readers.{AreNoReaders, AreReadersOf, AreReaders, HasReader, ReadersGrow};

use crate::Moved;
use mg_calc::{Plan, Producer};
use mg_free::{FreeNode, FreeNodeList};
use mg_live::Due;
use std::alloc::{AllocError, Global};

/// For each engine of a core the free nodes that read one of its streams, by their places among the free nodes.
#[derive(Drop)]
pub(crate) struct Readers {
    // How many nodes the core has. The engine of the first graph input stands at this place.
    pub(crate) first: u32,
    by_place: Vec<Vec<u32>>,
}

// Returns an empty list for each of `count` places.
fn no_readers(alloc: Global, count: usize) -> Result<Vec<Vec<u32>>, AllocError>
    ensures { IfOk result (λ readers. AreNoReaders count readers.items) }
{
    let mut readers = Vec::with_capacity(alloc, count)?;
    for place in 0..count {
        let _ = place;
        readers.push(Vec::new(alloc))?;
    }
    Ok(readers)
}

// Returns the place of the engine that writes a stream of a core.
fn writer_place(core: &Plan, stream: u32) -> usize
    requires { stream < length core.now.streams }
    ensures { option_map (place_of core.now) (writer_at core.now stream) ≡ Some result }
{
    match core.streams.as_slice()[stream as usize].producer {
        Producer::Input(input) => core.nodes.len() as usize + input as usize,
        Producer::Node { node, .. } => node as usize,
    }
}

// Adds a reader at a place, if there is such a place.
fn add_at(by_place: &mut [Vec<u32>], place: usize, reader: u32) -> Result<(), AllocError>
    ensures grows { OnOk result (ReadersGrow by_place.old by_place.new) }
    ensures added { OnOk result (HasReader by_place.new place reader) }
{
    if place < by_place.len() {
        by_place[place].push(reader)?;
    }
    Ok(())
}

// Adds a free node to the readers of the stream, if the core has such a stream.
fn add_stream(
    by_place: &mut [Vec<u32>],
    core: &Plan,
    stream: u32,
    reader: u32,
) -> Result<(), AllocError>
    ensures grows { OnOk result (ReadersGrow by_place.old by_place.new) }
    ensures added { OnOk result ((writer : Writer) → writer_at core.now stream ≡ Some writer → HasReader by_place.new (place_of core.now writer) reader) }
{
    if stream < core.streams.len() {
        add_at(by_place, writer_place(core, stream), reader)?;
    }
    Ok(())
}

// Adds a free node to the readers of some streams.
fn add_reader(
    by_place: &mut [Vec<u32>],
    core: &Plan,
    streams: &[u32],
    reader: u32,
) -> Result<(), AllocError>
    ensures grows { OnOk result (ReadersGrow by_place.old by_place.new) }
    ensures added { OnOk result (AreReadersOf core.now streams.now reader by_place.new) }
{
    for i in 0..streams.len() {
        add_stream(by_place, core, streams[i], reader)?;
    }
    Ok(())
}

// Adds a free node to the readers of each stream that it reads.
fn add_free(
    by_place: &mut [Vec<u32>],
    core: &Plan,
    free: &FreeNode,
    reader: u32,
) -> Result<(), AllocError>
    ensures grows { OnOk result (ReadersGrow by_place.old by_place.new) }
    ensures added { OnOk result (AreReadersOf core.now free.now.inputs reader by_place.new) }
{
    add_reader(by_place, core, free.inputs.as_slice(), reader)?;
    Ok(())
}

// Adds each free node to the readers of each stream that it reads. There are `count` free nodes.
fn add_all(
    by_place: &mut [Vec<u32>],
    core: &Plan,
    frees: &[FreeNode],
    count: u32,
) -> Result<(), AllocError>
    requires { count ≡ length frees.now }
    ensures long { OnOk result (length by_place.new ≡ length by_place.old) }
    ensures each { OnOk result ((reader : ℕ) (free : FreeNodeView) → slice_get frees.now reader ≡ Some free → AreReadersOf core.now free.inputs reader by_place.new) }
{
    for reader in 0..count {
        add_free(by_place, core, &frees[reader as usize], reader)?;
    }
    Ok(())
}

// Makes due the free nodes of a list, by their places among the free nodes.
fn wake_each(due: &mut Due, readers: &[u32])
    ensures woken { (reader : ℕ) → IsUndue due.new reader → IsNoneOf readers.now reader }
    ensures others { (other : ℕ) → IsUndue due.new other → IsUndue due.old other }
{
    for i in 0..readers.len() {
        due.wake(readers[i]);
    }
}

impl Readers {
    /// Returns the readers of a core's engines.
    pub(crate) fn new(
        alloc: Global,
        core: &Plan,
        frees: &FreeNodeList,
    ) -> Result<Readers, AllocError>
        ensures { IfOk result (AreReaders core.now frees.now) }
    {
        let first = core.nodes.len();
        let count = first as usize + core.inputs.len() as usize;
        let mut by_place = no_readers(alloc, count)?;
        add_all(&mut by_place, core, frees.as_slice(), frees.len())?;
        Ok(Readers { first, by_place })
    }

    // Makes due the readers of the engine at a place, if there is such a place.
    fn wake_at(&self, due: &mut Due, place: u32)
        ensures woken { (reader : ℕ) → HasReader self.now.by_place.items place reader → place < length self.now.by_place.items → ¬ IsUndue due.new reader }
        ensures others { (other : ℕ) → IsUndue due.new other → IsUndue due.old other }
    {
        if (place as usize) < self.by_place.len() {
            wake_each(due, &self.by_place[place as usize]);
        }
    }

    /// Makes due the readers of all engines that may have changed. It costs a step for each place that is noted, and one for each reader
    /// there.
    pub(crate) fn wake(&self, due: &mut Due, moved: &Moved)
        ensures woken { (place reader : ℕ) → HasReader self.now.by_place.items place reader → place < length self.now.by_place.items → IsUndue due.new reader → IsUnmoved moved.now place }
        ensures others { (other : ℕ) → IsUndue due.new other → IsUndue due.old other }
    {
        if moved.all {
            due.wake_all();
            return;
        }
        for i in 0..moved.places.len() {
            self.wake_at(due, moved.places[i]);
        }
    }
}
