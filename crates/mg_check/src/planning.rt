ghost use Rattle.std.specs.Prelude.{◌≡◌, ◌≢◌, ◌≤◌, None, Some, IfOk, IfErr, OnOk, length, map};
ghost use Rattle.mg_config.specs.Config.{graph_view};
ghost use Rattle.mg_check.specs.DraftView.{drafts_view};
ghost use Rattle.mg_subgraph.specs.Refusals.{port_names};
ghost use Rattle.mg_check.specs.Names.{number_among};
ghost use Rattle.mg_check.specs.Joining.{join_refusal};
ghost use Rattle.mg_check.specs.Planning as planning;
ghost use Rattle.mg_check.specs.Code.Refusing.{ArePlanNames, AreShown, AreWired};

use crate::counting::range_of;
use crate::draft::Draft;
use crate::fault::CheckFault;
use crate::gathering::port_texts;
use crate::judging::check_wiring;
use crate::names::{Names, numbers_of};
use crate::nodes::nodes_of;
use crate::plan_names::{PlanNames, check_names, plan_names_of};
use crate::sides::sides_of;
use crate::streams::streams_of;
use crate::wiring::{Wiring, wire};
use mg_calc::{Plan, PlanStreamList, SideList};
use mg_config::GraphConfig;
use mg_names::PortMap;
use mg_value::{BlockList, NumberList};
use std::alloc::{AllocError, Global};

fn limit_of(size: i32) -> i32
    ensures { result ≡ planning.limit_of size }
{
    if size == 0 { 100 } else { size }
}

fn workers_of(threads: i32) -> u32
    ensures { result ≡ planning.workers_of threads }
{
    if threads < 0 {
        0
    } else if threads > 64 {
        64
    } else {
        threads as u32
    }
}

/// The parts of a plan that are made before its nodes: streams, side packets, and the numbers of the graph's inputs and outputs.
#[derive(Drop)]
struct Shown {
    streams: PlanStreamList,
    sides: SideList,
    inputs: NumberList,
    outputs: NumberList,
}

fn outputs_of(alloc: Global, streams: &Names, outputs: &PortMap) -> Result<NumberList, AllocError>
    ensures { IfOk result (λ numbers. numbers ≡ map (number_among streams.now) (port_names outputs.now)) }
{
    let texts = port_texts(alloc, outputs)?;
    numbers_of(alloc, streams, texts.as_slice())
}

fn shown_of(
    alloc: Global,
    graph: &GraphConfig,
    drafts: &[Draft],
    plan_names: &PlanNames,
    wiring: &Wiring,
) -> Result<Shown, AllocError>
    requires plan_names { ArePlanNames plan_names.now (graph_view graph.now) (drafts_view drafts.now) }
    requires wiring { AreWired wiring.now (graph_view graph.now) (drafts_view drafts.now) }
    ensures { IfOk result (λ shown. AreShown shown (graph_view graph.now) (drafts_view drafts.now)) }
{
    let streams = streams_of(
        alloc,
        &plan_names.streams,
        wiring.mets.as_slice(),
        wiring.writers.as_slice(),
    )?;
    let sides = sides_of(alloc, graph, drafts)?;
    let inputs = range_of(alloc, 0, graph.inputs.len())?;
    let outputs = outputs_of(alloc, &plan_names.streams, &graph.outputs)?;
    Ok(Shown {
        streams,
        sides,
        inputs,
        outputs,
    })
}

/// How the nodes of a graph are joined: the names of its streams and side packets, and how the streams are wired.
#[derive(Drop)]
struct Joined<'a> {
    plan_names: PlanNames<'a>,
    wiring: Wiring,
}

fn join<'a>(
    alloc: Global,
    graph: &'a GraphConfig,
    drafts: &[Draft<'a>],
) -> Result<Joined<'a>, CheckFault>
    requires { length drafts.now ≤ 4096 }
    ensures plan_names { IfOk result (λ joined. ArePlanNames joined.plan_names (graph_view graph.now) (drafts_view drafts.now)) }
    ensures wiring { IfOk result (λ joined. AreWired joined.wiring (graph_view graph.now) (drafts_view drafts.now)) }
    ensures ok { OnOk result (join_refusal (graph_view graph.now) (drafts_view drafts.now) ≡ None) }
    ensures err { IfErr result (λ fault. fault ≢ CheckFault.OutOfMemory → join_refusal (graph_view graph.now) (drafts_view drafts.now) ≡ Some fault) }
{
    let plan_names = plan_names_of(alloc, graph, drafts)?;
    check_names(alloc, graph, drafts, &plan_names)?;
    let wiring = wire(alloc, graph, drafts, &plan_names.streams)?;
    check_wiring(alloc, graph, drafts, &plan_names, &wiring)?;
    Ok(Joined { plan_names, wiring })
}

fn plan_of(
    alloc: Global,
    graph: &GraphConfig,
    drafts: Vec<Draft>,
    joined: Joined,
) -> Result<Plan, AllocError>
    requires plan_names { ArePlanNames joined.plan_names (graph_view graph.now) (drafts_view drafts.items) }
    requires wiring { AreWired joined.wiring (graph_view graph.now) (drafts_view drafts.items) }
    ensures { IfOk result (λ plan. plan ≡ planning.plan_of (graph_view graph.now) (drafts_view drafts.entry.items)) }
{
    let Joined { plan_names, wiring } = joined;
    let shown = shown_of(alloc, graph, drafts.as_slice(), &plan_names, &wiring)?;
    let nodes = nodes_of(
        alloc,
        &plan_names.streams,
        &plan_names.sides,
        graph.inputs.len(),
        drafts,
    )?;
    let edges = BlockList::from_vec(wiring.edges)?;
    let order = BlockList::from_vec(wiring.order)?;
    Ok(Plan {
        nodes,
        streams: shown.streams,
        edges,
        order,
        inputs: shown.inputs,
        outputs: shown.outputs,
        sides: shown.sides,
        limit: limit_of(graph.max_queue_size),
        workers: workers_of(graph.num_threads),
    })
}

/// Returns the plan of a graph whose nodes have these drafts, or the first refusal of how they are joined.
pub(crate) fn plan_with<'a>(
    alloc: Global,
    graph: &'a GraphConfig,
    drafts: Vec<Draft<'a>>,
) -> Result<Plan, CheckFault>
    requires { length drafts.items ≤ 4096 }
    ensures ok { OnOk result (join_refusal (graph_view graph.now) (drafts_view drafts.entry.items) ≡ None) }
    ensures plan { IfOk result (λ plan. plan ≡ planning.plan_of (graph_view graph.now) (drafts_view drafts.entry.items)) }
    ensures err { IfErr result (λ fault. fault ≢ CheckFault.OutOfMemory → join_refusal (graph_view graph.now) (drafts_view drafts.entry.items) ≡ Some fault) }
{
    let joined = join(alloc, graph, drafts.as_slice())?;
    Ok(plan_of(alloc, graph, drafts, joined)?)
}
