//! What a net tells of how far it has come.
ghost use Rattle.std.specs.Prelude.{◌≡◌, ◌<◌, ◌-◌, ◌^◌, ◌++◌, length, map, min, sum_by, slice_index_or, IfOk, OnOk};
ghost use Rattle.std.specs.List.{flat_map, filter_map};
ghost use Rattle.mg_stream.specs.Pool.{empty_backlog};
ghost use Rattle.mg_node.specs.Outputs.{packets_kept};
ghost use Rattle.mg_node.specs.Ports.{waiting_in};
ghost use Rattle.mg_sched.specs.Reports.{held_in, node_engines, input_engines, backlog_end, stream_ends_of, report_of};

use super::Net;
use crate::report::Report;
use mg_calc::{NodeCalculator, NodeFaultList};
use mg_node::{Engine, Intake};
use mg_settled::{StreamEnd, StreamEndList};
use mg_value::{BlockList, CountList};
use std::alloc::{AllocError, Global};

// Returns how many packets engines keep.
fn kept_by<C: NodeCalculator>(engines: &[Engine<C>]) -> u64
    ensures { result ≡ min (sum_by packets_kept engines.now) (2 ^ 64 - 1) }
{
    let mut held: u64 = 0;
    for engine in engines {
        held = held.saturating_add(engine.held());
    }
    held
}

// Returns how many packets wait at intakes.
fn waiting_at(intakes: &[Intake]) -> u64
    ensures { result ≡ min (sum_by (λ i. waiting_in i.waits) intakes.now) (2 ^ 64 - 1) }
{
    let mut held: u64 = 0;
    for intake in intakes {
        held = held.saturating_add(intake.held());
    }
    held
}

// Returns for each engine how many sets it has laid.
fn sets_of<C: NodeCalculator>(alloc: Global, engines: &[Engine<C>]) -> Result<CountList, AllocError>
    ensures { IfOk result (λ l. l ≡ map (λ e. e.laid) engines.now) }
{
    let mut sets = Vec::with_capacity(alloc, engines.len())?;
    for engine in engines {
        sets.push(engine.laid())?;
    }
    Ok(BlockList::from_vec(sets)?)
}

// Returns the faults of engines.
fn faults_of<C: NodeCalculator>(
    alloc: Global,
    engines: &[Engine<C>],
) -> Result<NodeFaultList, AllocError>
    ensures { IfOk result (λ l. l ≡ filter_map (λ e. e.fault) engines.now) }
{
    let mut faults = Vec::new(alloc);
    for engine in engines {
        if let Some(fault) = engine.fault() {
            faults.push(fault)?;
        }
    }
    Ok(BlockList::from_vec(faults)?)
}

// Returns how far the stream at an output has come.
fn end_at<C: NodeCalculator>(engine: &Engine<C>, output: u32) -> StreamEnd
    requires { output < length engine.now.outputs }
    ensures { result ≡ backlog_end (slice_index_or engine.now.outputs output empty_backlog) }
{
    StreamEnd {
        packets: engine.count(output),
        bound: engine.bound(output),
    }
}

// Appends how far the streams of an engine have come.
fn tell_ends<C: NodeCalculator>(
    ends: &mut Vec<StreamEnd>,
    engine: &Engine<C>,
) -> Result<(), AllocError>
    ensures { OnOk result (ends.new.items ≡ ends.old.items ++ stream_ends_of engine.now) }
{
    for output in 0..engine.outputs() {
        ends.push(end_at(engine, output))?;
    }
    Ok(())
}

// Appends how far the streams of each engine have come.
fn tell_all<C: NodeCalculator>(
    ends: &mut Vec<StreamEnd>,
    engines: &[Engine<C>],
) -> Result<(), AllocError>
    ensures { OnOk result (ends.new.items ≡ ends.old.items ++ flat_map stream_ends_of engines.now) }
{
    for engine in engines {
        tell_ends(ends, engine)?;
    }
    Ok(())
}

// Returns how far the streams of the graph inputs have come, and those of the nodes.
fn streams_of<C: NodeCalculator>(
    alloc: Global,
    inputs: &[Engine<C>],
    nodes: &[Engine<C>],
) -> Result<StreamEndList, AllocError>
    ensures { IfOk result (λ l. l ≡ flat_map stream_ends_of inputs.now ++ flat_map stream_ends_of nodes.now) }
{
    let mut ends = Vec::new(alloc);
    tell_all(&mut ends, inputs)?;
    tell_all(&mut ends, nodes)?;
    Ok(BlockList::from_vec(ends)?)
}

impl<C: NodeCalculator> Net<C> {
    /// Returns how many packets are in the net, in its engines and its intakes. A number past 64 bits is returned as `u64::MAX`.
    pub fn held(&self) -> u64
        ensures { result ≡ min (held_in self.now) (2 ^ 64 - 1) }
    {
        kept_by(&self.engines).saturating_add(waiting_at(&self.intakes))
    }

    // Returns the engines of the nodes, and those of the graph inputs.
    fn engine_parts(&self) -> (&[Engine<C>], &[Engine<C>])
        ensures nodes { result.0.now ≡ node_engines self.now }
        ensures inputs { result.1.now ≡ input_engines self.now }
    {
        let count = (self.plan.nodes.len() as usize).min(self.engines.len());
        self.engines.split_at(count)
    }

    /// Returns how far the net has come: the sets of its nodes, its streams, and the faults of its nodes.
    pub fn report(&self, alloc: Global) -> Result<Report, AllocError>
        ensures { IfOk result (λ r. r ≡ report_of self.now) }
    {
        let (nodes, inputs) = self.engine_parts();
        let sets = sets_of(alloc, nodes)?;
        let streams = streams_of(alloc, inputs, nodes)?;
        let faults = faults_of(alloc, nodes)?;
        Ok(Report {
            sets,
            streams,
            faults,
        })
    }
}
