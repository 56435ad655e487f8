//! The nodes that read a stream.
ghost use Rattle.std.specs.Prelude.{◌≡◌, ◌<◌, ◌++◌, ◌∷◌, [], All, length, replicate, slice_index_or, IfOk, OnOk};
ghost use Rattle.std.specs.List.{flat_map};
ghost use Rattle.mg_calc.specs.Plan.{IsValid};
ghost use Rattle.mg_equations.specs.Code.Readers.{HasReaders, IsAdded};

use mg_calc::Plan;
use mg_value::NumberList;
use std::alloc::{AllocError, Global};
use std::marker::Model;

/// The nodes that read a stream, by their numbers: once for each port at which they read it.
#[derive(Debug, Drop)]
pub struct Readers {
    nodes: Vec<u32>,
}

impl Model for Readers {
    ghost use Rattle.std.specs.Prelude.{List, ℕ};

    ghost Value = { List ℕ };

    ghost view = { λ r. r.nodes.items };
}

impl Readers {
    // Returns no readers.
    fn new(alloc: Global) -> Readers
        ensures { result ≡ [] }
    {
        Readers {
            nodes: Vec::new(alloc),
        }
    }

    // Adds a reader.
    fn add(&mut self, node: u32) -> Result<(), AllocError>
        ensures { OnOk result (self.new ≡ self.old ++ node ∷ []) }
    {
        self.nodes.push(node)?;
        Ok(())
    }

    // Returns the numbers of the readers.
    fn as_slice(&self) -> &[u32]
        ensures { result.now ≡ self.now }
    {
        self.nodes.as_slice()
    }
}

// Returns `count` streams without readers.
fn no_readers(alloc: Global, count: u32) -> Result<Vec<Readers>, AllocError>
    ensures { IfOk result (λ readers. readers.items ≡ replicate count []) }
{
    let mut readers = Vec::with_capacity(alloc, count as usize)?;
    for _ in 0..count {
        readers.push(Readers::new(alloc))?;
    }
    Ok(readers)
}

// Adds a node to the readers of each of its input streams.
fn add_reader(readers: &mut Vec<Readers>, inputs: &NumberList, node: u32) -> Result<(), AllocError>
    requires { All (λ s. s < length readers.old.items) inputs.now }
    ensures { OnOk result (IsAdded inputs.now node readers.old.items readers.new.items) }
{
    for input in inputs.as_slice() {
        readers[*input as usize].add(node)?;
    }
    Ok(())
}

/// Returns for each stream of a plan the nodes that read it.
pub fn readers_of(alloc: Global, plan: &Plan) -> Result<Vec<Readers>, AllocError>
    requires { IsValid plan.now }
    ensures { IfOk result (λ readers. HasReaders plan.now (length plan.now.nodes) readers.items) }
{
    let mut readers = no_readers(alloc, plan.streams.len())?;
    for number in 0..plan.nodes.len() {
        let node = &plan.nodes.as_slice()[number as usize];
        add_reader(&mut readers, &node.inputs, number)?;
    }
    Ok(readers)
}

/// Returns the nodes that read any of these streams, as often as they read one.
pub fn readers_among(
    alloc: Global,
    readers: &[Readers],
    streams: &[u32],
) -> Result<Vec<u32>, AllocError>
    requires { All (λ s. s < length readers.now) streams.now }
    ensures { IfOk result (λ nodes. nodes.items ≡ flat_map (λ s. slice_index_or readers.now s []) streams.now) }
{
    let mut nodes = Vec::new(alloc);
    for stream in streams {
        nodes.extend_from_slice(readers[*stream as usize].as_slice())?;
    }
    Ok(nodes)
}
