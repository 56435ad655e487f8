//! The checks of a graph that is wired: kinds, back edges, cycles and counts.
ghost use Rattle.std.specs.Prelude.{◌≡◌, ◌≢◌, ◌≤◌, None, Some, IfErr, IfSome, OnOk, All, ◌<◌, length, position};
ghost use Rattle.mg_config.specs.Config.{graph_view};
ghost use Rattle.mg_check.specs.DraftView.{drafts_view};
ghost use Rattle.mg_check.specs.Joining as joining;
ghost use Rattle.mg_check.specs.Order as orders;
ghost use Rattle.mg_check.specs.Code.Refusing.{wiring_refusal, clash_by, count_refusal, ArePlanNames, AreWired};

use crate::draft::Draft;
use crate::fault::{CheckFault, Many};
use crate::inferred::Inferred;
use crate::meeting::clash_in;
use crate::names::Names;
use crate::ordering::left_out;
use crate::plan_names::PlanNames;
use crate::wiring::Wiring;
use mg_config::GraphConfig;
use mg_value::{BlockList, MgText};
use std::alloc::Global;

fn check_kinds(alloc: Global, streams: &Names, mets: &[Inferred]) -> Result<(), CheckFault>
    ensures ok { OnOk result (clash_by streams.now mets.now ≡ None) }
    ensures err { IfErr result (λ fault. fault ≢ CheckFault.OutOfMemory → clash_by streams.now mets.now ≡ Some fault) }
{
    let Some(place) = clash_in(mets) else {
        return Ok(());
    };
    if place >= streams.len() as usize {
        return Ok(());
    }
    let Some(name) = streams.get(place as u32) else {
        return Ok(());
    };
    Err(CheckFault::KindClash {
        name: MgText::new(alloc, name)?,
    })
}

fn misplaced_in(drafts: &[Draft]) -> Option<usize>
    ensures found { result ≡ position (λ draft. draft.misplaced) drafts.now }
    ensures within { IfSome result (λ node. node < length drafts.now) }
{
    drafts.iter().position(|draft| draft.misplaced)
}

fn check_back(drafts: &[Draft]) -> Result<(), CheckFault>
    requires { length drafts.now ≤ 4096 }
    ensures ok { OnOk result (joining.back_edge_misplaced (drafts_view drafts.now) ≡ None) }
    ensures err { IfErr result (λ fault. joining.back_edge_misplaced (drafts_view drafts.now) ≡ Some fault) }
{
    match misplaced_in(drafts) {
        Some(node) => Err(CheckFault::BackEdgeMisplaced { node: node as u32 }),
        None => Ok(()),
    }
}

fn check_cycle(alloc: Global, count: u32, order: &[u32]) -> Result<(), CheckFault>
    requires { All (λ n. n < count) order.now }
    ensures ok { OnOk result (joining.cycle_of (orders.left_out count order.now) ≡ None) }
    ensures err { IfErr result (λ fault. fault ≢ CheckFault.OutOfMemory → joining.cycle_of (orders.left_out count order.now) ≡ Some fault) }
{
    let nodes = left_out(alloc, count, order)?;
    if nodes.is_empty() {
        return Ok(());
    }
    Err(CheckFault::Cycle {
        nodes: BlockList::from_vec(nodes)?,
    })
}

fn check_counts(edges: usize, outputs: u32) -> Result<(), CheckFault>
    ensures ok { OnOk result (count_refusal edges outputs ≡ None) }
    ensures err { IfErr result (λ fault. count_refusal edges outputs ≡ Some fault) }
{
    if edges > 16384 {
        return Err(CheckFault::TooMany { what: Many::Edges });
    }
    if outputs > 256 {
        return Err(CheckFault::TooMany {
            what: Many::Outputs,
        });
    }
    Ok(())
}

/// Refuses a graph, by its wiring, for kinds that clash, a misplaced back edge, a cycle, or too many edges or outputs, in this order.
pub(crate) fn check_wiring(
    alloc: Global,
    graph: &GraphConfig,
    drafts: &[Draft],
    plan_names: &PlanNames,
    wiring: &Wiring,
) -> Result<(), CheckFault>
    requires nodes { length drafts.now ≤ 4096 }
    requires plan_names { ArePlanNames plan_names.now (graph_view graph.now) (drafts_view drafts.now) }
    requires wiring { AreWired wiring.now (graph_view graph.now) (drafts_view drafts.now) }
    ensures ok { OnOk result (wiring_refusal (graph_view graph.now) (drafts_view drafts.now) ≡ None) }
    ensures err { IfErr result (λ fault. fault ≢ CheckFault.OutOfMemory → wiring_refusal (graph_view graph.now) (drafts_view drafts.now) ≡ Some fault) }
{
    check_kinds(alloc, &plan_names.streams, wiring.mets.as_slice())?;
    check_back(drafts)?;
    check_cycle(alloc, drafts.len() as u32, wiring.order.as_slice())?;
    check_counts(wiring.edges.as_slice().len(), graph.outputs.len())
}
