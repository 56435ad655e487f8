//! The solution of a job: rounds from nothing on, up to the first that changes nothing.
ghost use Rattle.std.specs.Prelude.{◌≡◌, ◌<◌, ◌^◌, All, nat_lt, length, map, replicate, IfOk};
ghost use Rattle.std.specs.List.{range_with_len, filter_map, enumerate_from};
ghost use Rattle.mg_settled.specs.Prefix.{empty_prefix};
ghost use Rattle.mg_calc.specs.Equations.{IsSolution};
ghost use Rattle.mg_calc.specs.Meaning.{counts, faults};
ghost use Rattle.mg_calc.specs.Plan.{IsValid, InputsFit};
ghost use Rattle.mg_calc.specs.Rules.{Laws};
ghost use Rattle.mg_calc.specs.Shape.{IsStated};
ghost use Rattle.mg_equations.specs.Code.Progress.{outcomes};
ghost use Rattle.mg_equations.specs.Code.Rounds.{numbered_fault};

use crate::output::Output;
use crate::progress::Progress;
use crate::readers::readers_of;
use crate::round::{first_nodes, grow_due};
use crate::round_nodes::RoundNodes;
use mg_calc::{Inputs, NodeFault, NodeFaultList, Plan};
use mg_settled::PrefixList;
use mg_value::{BlockList, CountList};
use std::alloc::{AllocError, Global};

/// The solution of a job, with the counts and the faults of its nodes.
#[derive(Debug, Drop)]
pub struct Streams {
    /// The prefix of each stream.
    pub prefixes: PrefixList,
    /// For each node how many sets it was shown; for a source, how often it was called. For a loopback, how many packets of
    /// MAIN it answered. The set or call that failed is included.
    pub sets: CountList,
    /// The faults, in node order.
    pub faults: NodeFaultList,
}

/// Solves the equations of a graph for these inputs. Each law of the graph is one of the table, so what becomes of the graph is
/// the same whatever the stated laws are.
///
/// Streams are computed in rounds, and no user-supplied calculator is called. A round computes only the nodes that read a
/// stream that the round before has changed, each node from where it stood. It looks only at these nodes and at the streams
/// that they write. So all rounds together read each packet once at each port. Payloads are shared.
pub fn solve(alloc: Global, plan: &Plan, inputs: &Inputs) -> Result<Streams, AllocError>
    requires plan { IsValid plan.now }
    requires inputs { InputsFit plan.now inputs.now }
    requires unstated { All (λ node. IsStated node.law → ⊥) plan.now.nodes }
    ensures solution { IfOk result (λ s. (laws : Laws) → IsSolution (record { plan = plan.now; inputs = inputs.now; laws = laws }) s.prefixes) }
    ensures sets { IfOk result (λ s. (laws : Laws) → s.sets ≡ counts (record { plan = plan.now; inputs = inputs.now; laws = laws }) s.prefixes) }
    ensures faults { IfOk result (λ s. (laws : Laws) → s.faults ≡ faults (record { plan = plan.now; inputs = inputs.now; laws = laws }) s.prefixes) }
{
    let readers = readers_of(alloc, plan)?;
    let mut streams = nothing_known(alloc, plan.streams.len())?;
    let mut going = RoundNodes::begun(alloc, first_nodes(alloc, plan, inputs, &streams)?)?;
    let mut due = all_streams(alloc, plan.streams.len())?;
    'rounds: loop {
        let changed = grow_due(
            alloc,
            plan,
            &inputs.streams,
            &going.nodes,
            &due,
            &mut streams,
        )?;
        if !has_change(&changed) {
            return told(alloc, streams, &going.nodes);
        }
        due = going.take(alloc, plan, &streams, &readers, &changed)?;
    }
}

// Returns the numbers of `count` streams.
fn all_streams(alloc: Global, count: u32) -> Result<Vec<u32>, AllocError>
    ensures { IfOk result (λ streams. streams.items ≡ range_with_len 0 count) }
{
    let mut streams = Vec::with_capacity(alloc, count as usize)?;
    for number in 0..count {
        streams.push(number)?;
    }
    Ok(streams)
}

// Returns `count` streams about which nothing is known.
fn nothing_known(alloc: Global, count: u32) -> Result<Vec<Output>, AllocError>
    ensures { IfOk result (λ streams. streams.items ≡ replicate count empty_prefix) }
{
    let mut streams = Vec::with_capacity(alloc, count as usize)?;
    for _ in 0..count {
        streams.push(Output::new(alloc))?;
    }
    Ok(streams)
}

// Whether any stream has changed.
fn has_change(changed: &[u32]) -> bool
    ensures { result ≡ nat_lt 0 (length changed.now) }
{
    !changed.is_empty()
}

// Returns the faults of the nodes that have failed, in node order.
fn fault_list(alloc: Global, nodes: &[Progress]) -> Result<NodeFaultList, AllocError>
    requires { length nodes.now < 2 ^ 32 }
    ensures { IfOk result (λ list. list ≡ filter_map numbered_fault (enumerate_from 0 (map (λ outcome. outcome.fault) (outcomes nodes.now)))) }
{
    let mut list = Vec::new(alloc);
    let mut node = 0;
    for progress in nodes {
        if let Some(failure) = &progress.outcome.fault {
            list.push(NodeFault {
                node,
                phase: failure.phase,
                cause: failure.cause,
            })?;
        }
        node += 1;
    }
    Ok(BlockList::from_vec(list)?)
}

// Returns how many sets or calls each node has taken, in node order.
fn count_list(alloc: Global, nodes: &[Progress]) -> Result<CountList, AllocError>
    ensures { IfOk result (λ list. list ≡ map (λ outcome. outcome.taken) (outcomes nodes.now)) }
{
    let mut counts = Vec::with_capacity(alloc, nodes.len())?;
    for progress in nodes {
        counts.push(progress.outcome.taken)?;
    }
    Ok(BlockList::from_vec(counts)?)
}

// Returns the streams as a list of prefixes.
fn prefix_list(alloc: Global, streams: Vec<Output>) -> Result<PrefixList, AllocError>
    ensures { IfOk result (λ list. list ≡ streams.items) }
{
    let mut prefixes = Vec::with_capacity(alloc, streams.len())?;
    for stream in streams {
        prefixes.push(stream.into_prefix()?)?;
    }
    Ok(BlockList::from_vec(prefixes)?)
}

// Returns the streams, with the counts and the faults of the nodes.
fn told(alloc: Global, streams: Vec<Output>, nodes: &[Progress]) -> Result<Streams, AllocError>
    requires { length nodes.now < 2 ^ 32 }
    ensures prefixes { IfOk result (λ s. s.prefixes ≡ streams.items) }
    ensures sets { IfOk result (λ s. s.sets ≡ map (λ outcome. outcome.taken) (outcomes nodes.now)) }
    ensures faults { IfOk result (λ s. s.faults ≡ filter_map numbered_fault (enumerate_from 0 (map (λ outcome. outcome.fault) (outcomes nodes.now)))) }
{
    Ok(Streams {
        prefixes: prefix_list(alloc, streams)?,
        sets: count_list(alloc, nodes)?,
        faults: fault_list(alloc, nodes)?,
    })
}
