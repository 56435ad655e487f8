//! Deliveries to the cell's intake, and of its outputs to the collector's.
ghost use Rattle.std.specs.Prelude.{◌≡◌, length, IfOk, OnOk};
ghost use Rattle.mg_calc.specs.Equations.{IsJob};
ghost use Rattle.mg_route.specs.TableLaws.{table_laws};
ghost use Rattle.mg_node.specs.Lawful.{LawfulEngine, of_input};
ghost use Rattle.mg_test_cells.specs.Cell.{IsCell, KeepsAll, job_of};

use crate::cell::Cell;
use mg_calc::{Edge, Inputs, Plan};
use mg_node::{Delivered, Engine};
use mg_route::LawBox;
use std::alloc::Global;
use std::test::Fail;

// Returns the engine of a graph input. It lasts for one delivery, which doesn't change it.
fn feed_of(alloc: Global, plan: &Plan, inputs: &Inputs, input: u32) -> Result<Engine<LawBox>, Fail>
    requires job { IsJob (record { plan = plan.now; inputs = inputs.now; laws = table_laws }) }
    ensures lawful { IfOk result (λ e. LawfulEngine (job_of table_laws plan.now inputs.now) (of_input input) e) }
    ensures first { IfOk result (λ e. e.first ≡ input) }
    ensures one { IfOk result (λ e. length e.outputs ≡ 1) }
    ensures keeps { IfOk result KeepsAll }
{
    if input >= plan.inputs.len() {
        return Err(Fail::from("no graph input"));
    }
    let prefix = inputs.streams.get(input).ok_or("no graph input")?;
    Ok(Engine::of_input(alloc, plan, input, prefix)?)
}

/// Delivers at most `most` packets of a graph input to a port of the node.
pub(crate) fn deliver(
    alloc: Global,
    cell: &mut Cell,
    port: u32,
    most: u32,
) -> Result<Delivered, Fail>
    requires { IsCell table_laws cell.old.plan cell.old.inputs cell.old.engine cell.old.intake cell.old.sink }
    ensures { OnOk result (IsCell table_laws cell.new.plan cell.new.inputs cell.new.engine cell.new.intake cell.new.sink) }
{
    let node = cell.plan.nodes.get(0).ok_or("no node")?;
    let stream = *node.inputs.get(port).ok_or("no such port")?;
    let feed = feed_of(alloc, &cell.plan, &cell.inputs, stream)?;
    let edge = Edge {
        stream,
        node: 0,
        port,
        back: false,
    };
    let delivered = feed.deliver(edge, &mut cell.intake, most);
    drop(feed);
    Ok(delivered)
}

/// Delivers at most `most` packets of the node's outputs to a port of the collector.
pub(crate) fn deliver_out(cell: &mut Cell, port: u32, most: u32) -> Result<Delivered, Fail>
    requires { IsCell table_laws cell.old.plan cell.old.inputs cell.old.engine cell.old.intake cell.old.sink }
    ensures { OnOk result (IsCell table_laws cell.new.plan cell.new.inputs cell.new.engine cell.new.intake cell.new.sink) }
{
    let node = cell.plan.nodes.get(0).ok_or("no node")?;
    let first = *node.outputs.get(0).ok_or("no output")?;
    let stream = *cell.plan.outputs.get(port).ok_or("no such port")?;
    if stream < first || stream - first >= cell.engine.outputs() {
        return Err(Fail::from("another node's stream"));
    }
    let edge = Edge {
        stream,
        node: cell.plan.nodes.len(),
        port,
        back: false,
    };
    Ok(cell.engine.deliver(edge, &mut cell.sink, most))
}
