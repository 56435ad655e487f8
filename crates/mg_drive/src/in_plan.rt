//! The outcomes of a plan with free nodes, which are made of those of its core.
ghost use Rattle.std.specs.Prelude.{◌≡◌, ◌<◌, ◌++◌, List, All, Some, map, length, filter, slice_get, IfOk, OnOk};
ghost use Rattle.mg_value.specs.Payload.{Plain};
ghost use Rattle.mg_settled.specs.Prefix.{StreamPrefix};
ghost use Rattle.mg_calc.specs.Plan.{IsValidWithFree};
ghost use Rattle.mg_calc.specs.Equations.{Job, stream_of};
ghost use Rattle.mg_free.specs.declared.node.FreeNode.{FreeNode as FreeNodeView};
ghost use Rattle.mg_free.specs.Core.{is_free as the_free, is_core, split_of};
ghost use Rattle.mg_free.specs.Rounds.{Taken};
ghost use Rattle.mg_live.specs.Takes.{HaveTaken};
ghost use Rattle.mg_answer.specs.Outcomes.{TellsOf};
ghost use Rattle.mg_answer.specs.Report.{asked_arrivals};
ghost use Rattle.mg_settled.specs.Ends.{end_of};
ghost use Rattle.mg_drive.specs.Batches.{OutcomesFit};
ghost use Rattle.mg_drive.specs.Live.{LiveTells, renumbered_fault, sets_by, lines_at, arrivals_text};
ghost use Rattle.mg_drive.specs.Code.Live.{AreNumbersOf};

use mg_answer::{Outcomes, Reporting, put_arrival};
use mg_calc::{NodeFault, NodeFaultList, Plan, PlanNode};
use mg_free::is_free;
use mg_live::LiveNodes;
use mg_settled::StreamEnd;
use mg_value::{BlockList, NumberList};
use std::alloc::{AllocError, Global};

/// A plan with free nodes, and how its numbers and those of its core go together: `nodes` has the plan's number of each node of the core,
/// and `streams` the core's number of each stream of the plan.
#[derive(Clone, Copy)]
pub struct InPlan<'p> {
    pub plan: &'p Plan,
    pub nodes: &'p NumberList,
    pub streams: &'p NumberList,
}

// Returns the faults of a core's nodes with the plan's numbers of these nodes. `numbers` has the plan's number of each node of the core.
fn faults_in(
    alloc: Global,
    numbers: &[u32],
    faults: &[NodeFault],
) -> Result<NodeFaultList, AllocError>
    requires { All (λ fault. fault.node < length numbers.now) faults.now }
    ensures { IfOk result (λ now. now ≡ map (renumbered_fault numbers.now) faults.now) }
{
    let mut now = Vec::with_capacity(alloc, faults.len())?;
    for fault in faults {
        now.push(NodeFault {
            node: numbers[fault.node as usize],
            phase: fault.phase,
            cause: fault.cause,
        })?;
    }
    Ok(NodeFaultList::from_vec(now)?)
}

// Returns for each node of a plan how many sets it was shown, or, if it is free, how many packets arrived at it.
fn sets_of(
    alloc: Global,
    nodes: &[PlanNode],
    sets: &[u64],
    live: &LiveNodes,
) -> Result<BlockList<u64>, AllocError>
    requires free { length live.now.takers.items ≡ length (filter the_free nodes.now) }
    requires core { length sets.now ≡ length (filter is_core nodes.now) }
    ensures { (takens : List Taken) → HaveTaken live.now.free takens live.now.takers.items → IfOk result (λ now. now ≡ sets_by nodes.now sets.now (map (λ taken. length taken.log) takens)) }
{
    let mut now = Vec::with_capacity(alloc, nodes.len())?;
    let mut free = 0;
    let mut core = 0;
    for node in nodes {
        if is_free(node) {
            now.push(live.log(free).len() as u64)?;
            free += 1;
        } else {
            now.push(sets[core])?;
            core += 1;
        }
    }
    Ok(BlockList::from_vec(now)?)
}

// Returns how far each stream of a plan has come. `streams` has the core's number of each, and `ends` tells how far the core's streams have
// come.
fn ends_of(alloc: Global, streams: &[u32], ends: &[StreamEnd]) -> Result<Vec<StreamEnd>, AllocError>
    requires { All (λ stream. stream < length ends.now) streams.now }
    ensures { (prefixes : List (StreamPrefix Plain)) → ends.now ≡ map end_of prefixes → IfOk result (λ now. now.items ≡ map (λ stream. end_of (stream_of prefixes stream)) streams.now) }
{
    let mut now = Vec::with_capacity(alloc, streams.len())?;
    for stream in streams {
        now.push(ends[*stream as usize])?;
    }
    Ok(now)
}

impl<'p> InPlan<'p> {
    /// Returns the outcomes of the plan: those of its core, by the plan's numbers. If `report` asks for the arrivals, the outcomes also
    /// have the lines of all arrivals at free nodes.
    pub fn outcomes(
        &self,
        alloc: Global,
        report: Reporting,
        core: &Outcomes,
        live: &LiveNodes,
    ) -> Result<Outcomes, AllocError>
        requires valid { IsValidWithFree self.now.plan.now }
        requires numbers { AreNumbersOf self.now.plan.now self.now.nodes.now self.now.streams.now }
        requires free { live.now.free ≡ (split_of self.now.plan.now).free }
        requires long { length live.now.free ≡ length live.now.takers.items }
        requires tells { OutcomesFit (split_of self.now.plan.now).core core.now }
        ensures { (job : Job) (streams : List (StreamPrefix Plain)) (takens : List Taken) → job.plan ≡ (split_of self.now.plan.now).core → TellsOf job streams core.now
            → HaveTaken live.now.free takens live.now.takers.items → IfOk result (LiveTells report self.now.plan.now job streams live.now.free takens) }
    {
        let faults = faults_in(alloc, self.nodes.as_slice(), core.faults.as_slice())?;
        let sets = sets_of(
            alloc,
            self.plan.nodes.as_slice(),
            core.sets.as_slice(),
            live,
        )?;
        let ends = ends_of(alloc, self.streams.as_slice(), core.ends.as_slice())?;
        let arrivals = asked_lines(alloc, report, live)?;
        Ok(Outcomes {
            faults,
            sets,
            ends,
            arrivals,
        })
    }
}

// Returns the lines of all arrivals at free nodes if they are asked for, and otherwise nothing.
fn asked_lines(alloc: Global, report: Reporting, live: &LiveNodes) -> Result<Vec<u8>, AllocError>
    requires { length live.now.free ≡ length live.now.takers.items }
    ensures { (takens : List Taken) → HaveTaken live.now.free takens live.now.takers.items → IfOk result (λ lines. lines.items ≡ asked_arrivals report (arrivals_text live.now.free takens)) }
{
    if report.arrivals {
        arrival_lines(alloc, live)
    } else {
        Ok(Vec::new(alloc))
    }
}

// Returns the lines of all arrivals at free nodes, node by node.
fn arrival_lines(alloc: Global, live: &LiveNodes) -> Result<Vec<u8>, AllocError>
    requires { length live.now.free ≡ length live.now.takers.items }
    ensures { (takens : List Taken) → HaveTaken live.now.free takens live.now.takers.items → IfOk result (λ lines. lines.items ≡ arrivals_text live.now.free takens) }
{
    let mut lines = Vec::new(alloc);
    for place in 0..live.len() {
        put_arrivals(&mut lines, live, place)?;
    }
    Ok(lines)
}

// Puts the lines of the arrivals at a free node, by its place among the free nodes, at a text's end.
fn put_arrivals(text: &mut Vec<u8>, live: &LiveNodes, place: usize) -> Result<(), AllocError>
    requires free { place < length live.now.free }
    requires takers { place < length live.now.takers.items }
    ensures { (takens : List Taken) (free : FreeNodeView) (taken : Taken) → HaveTaken live.now.free takens live.now.takers.items → slice_get live.now.free place ≡ Some free
        → slice_get takens place ≡ Some taken → OnOk result (text.new.items ≡ text.old.items ++ lines_at (free, taken)) }
{
    let node = live.node(place);
    let log = live.log(place);
    for arrived in log {
        put_arrival(text, node, arrived.port, arrived.at)?;
    }
    Ok(())
}
