ghost use Rattle.std.specs.Prelude.{◌≡◌, ◌≢◌, None, Some, IfOk, IfErr, OnOk};
ghost use Rattle.mg_config.specs.Config.{graph_view};
ghost use Rattle.mg_check.specs.DraftView.{drafts_view};
ghost use Rattle.mg_check.specs.Joining as joining;
ghost use Rattle.mg_check.specs.Code.Refusing.{name_refusal, ArePlanNames};

use crate::draft::Draft;
use crate::fault::CheckFault;
use crate::gathering::{read_texts, side_texts, stream_texts, taken_texts};
use crate::names::{Names, missing_in};
use mg_config::GraphConfig;
use mg_value::MgText;
use std::alloc::{AllocError, Global};

/// The names of a graph's streams, and of its side packets.
#[derive(Drop)]
pub(crate) struct PlanNames<'a> {
    pub(crate) streams: Names<'a>,
    pub(crate) sides: Names<'a>,
}

/// Returns the names of a graph's streams and side packets, or refuses a stream, or else a side packet, that has two producers.
pub(crate) fn plan_names_of<'a>(
    alloc: Global,
    graph: &'a GraphConfig,
    drafts: &[Draft<'a>],
) -> Result<PlanNames<'a>, CheckFault>
    ensures ok { IfOk result (λ plan_names. ArePlanNames plan_names (graph_view graph.now) (drafts_view drafts.now)) }
    ensures err { IfErr result (λ fault. fault ≢ CheckFault.OutOfMemory → joining.two_producers (graph_view graph.now) (drafts_view drafts.now) ≡ Some fault) }
{
    let texts = stream_texts(alloc, graph, drafts)?;
    let streams = Names::of(alloc, texts.as_slice())?;
    let texts = side_texts(alloc, graph, drafts)?;
    let sides = Names::of(alloc, texts.as_slice())?;
    Ok(PlanNames { streams, sides })
}

fn check_streams(
    alloc: Global,
    graph: &GraphConfig,
    drafts: &[Draft],
    plan_names: &PlanNames,
) -> Result<(), CheckFault>
    requires { ArePlanNames plan_names.now (graph_view graph.now) (drafts_view drafts.now) }
    ensures ok { OnOk result (joining.no_producer (graph_view graph.now) (drafts_view drafts.now) ≡ None) }
    ensures err { IfErr result (λ fault. fault ≢ CheckFault.OutOfMemory → joining.no_producer (graph_view graph.now) (drafts_view drafts.now) ≡ Some fault) }
{
    let texts = read_texts(alloc, graph, drafts)?;
    match missing_in(&plan_names.streams, texts.as_slice()) {
        Some(name) => Err(CheckFault::NoProducer {
            name: MgText::new(alloc, name)?,
        }),
        None => Ok(()),
    }
}

fn check_sides(
    alloc: Global,
    graph: &GraphConfig,
    drafts: &[Draft],
    plan_names: &PlanNames,
) -> Result<(), CheckFault>
    requires { ArePlanNames plan_names.now (graph_view graph.now) (drafts_view drafts.now) }
    ensures ok { OnOk result (joining.side_missing (graph_view graph.now) (drafts_view drafts.now) ≡ None) }
    ensures err { IfErr result (λ fault. fault ≢ CheckFault.OutOfMemory → joining.side_missing (graph_view graph.now) (drafts_view drafts.now) ≡ Some fault) }
{
    let texts = taken_texts(alloc, graph, drafts)?;
    match missing_in(&plan_names.sides, texts.as_slice()) {
        Some(name) => Err(CheckFault::SideMissing {
            name: MgText::new(alloc, name)?,
        }),
        None => Ok(()),
    }
}

/// Refuses a graph if a stream that is read, or else a side packet that is taken, has no producer.
pub(crate) fn check_names(
    alloc: Global,
    graph: &GraphConfig,
    drafts: &[Draft],
    plan_names: &PlanNames,
) -> Result<(), CheckFault>
    requires { ArePlanNames plan_names.now (graph_view graph.now) (drafts_view drafts.now) }
    ensures ok { OnOk result (name_refusal (graph_view graph.now) (drafts_view drafts.now) ≡ None) }
    ensures err { IfErr result (λ fault. fault ≢ CheckFault.OutOfMemory → name_refusal (graph_view graph.now) (drafts_view drafts.now) ≡ Some fault) }
{
    check_streams(alloc, graph, drafts, plan_names)?;
    check_sides(alloc, graph, drafts, plan_names)
}
