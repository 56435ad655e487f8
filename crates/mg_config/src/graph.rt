ghost use Rattle.std.specs.Prelude.{◌≡◌, ◌≢◌, ◌≤◌, ℕ, List, Ok, Err, IfOk, IfErr, map};
ghost use Rattle.mg_text.specs.Tree.{depth};
ghost use Rattle.mg_text.specs.View.{field_view, fields_view, view};
ghost use Rattle.mg_text.specs.Answer.{max_depth};
ghost use Rattle.mg_text.specs.Canonical.{AreSpelled};
ghost use Rattle.mg_names.specs.declared.fault.NameFault.TheVariants as NameFault;
ghost use Rattle.mg_config.specs.Config as config;
ghost use Rattle.mg_config.specs.Sound.{IsSound, IsPrintable};

use crate::calculators::check_calculators;
use crate::check::check;
use crate::fault::ConfigFault;
use crate::node::NodeConfig;
use crate::nodes::nodes_named;
use crate::ports::{PortPair, pair_named};
use crate::schema::Message;
use crate::value::{number_named, text_named};
use mg_names::PortMap;
use mg_text::{Field, Tree};
use mg_value::{BlockList, MgText};
use std::alloc::{AllocError, Global};

/// The nodes of a graph, in the order of the text.
pub type NodeList = BlockList<NodeConfig>;

/// A graph (MediaPipe, calculator.proto: CalculatorGraphConfig). A text that is absent is empty, and a number that is
/// absent is 0.
#[derive(Debug, Drop)]
pub struct GraphConfig {
    /// The name by which other graphs use this graph as a subgraph.
    pub type_name: MgText,
    pub nodes: NodeList,
    /// The streams that come in.
    pub inputs: PortMap,
    /// The streams that go out.
    pub outputs: PortMap,
    /// The side packets that come in.
    pub input_sides: PortMap,
    /// The side packets that go out.
    pub output_sides: PortMap,
    /// How many packets a queue holds before its feeder is throttled; below 0 there is no limit, and for 0 a plan takes 100.
    pub max_queue_size: i32,
    /// How many workers run the graph.
    pub num_threads: i32,
}

fn graph_with(
    alloc: Global,
    fields: &[Field],
    streams: PortPair,
    sides: PortPair,
    nodes: NodeList,
) -> Result<GraphConfig, AllocError>
    ensures { IfOk result (λ graph. config.graph_view graph ≡ config.graph_with (map field_view fields.now) streams sides (map config.node_view nodes)) }
{
    let type_name = text_named(alloc, fields, b"type")?;
    Ok(GraphConfig {
        type_name,
        nodes,
        inputs: streams.inputs,
        outputs: streams.outputs,
        input_sides: sides.inputs,
        output_sides: sides.outputs,
        max_queue_size: number_named(fields, b"max_queue_size"),
        num_threads: number_named(fields, b"num_threads"),
    })
}

/// Returns the graph of fields in which `check` and `check_calculators` found no fault. An error is the fault of the
/// first text or list that spells no port or back edge.
fn graph_of(alloc: Global, fields: &[Field]) -> Result<GraphConfig, ConfigFault>
    ensures ok { IfOk result (λ graph. config.graph_of (map field_view fields.now) ≡ Ok (config.graph_view graph)) }
    ensures err { IfErr result (λ fault. fault ≢ ConfigFault.OutOfMemory → config.graph_of (map field_view fields.now) ≡ Err fault) }
{
    let streams = pair_named(alloc, fields, "input_stream", "output_stream")?;
    let sides = pair_named(alloc, fields, "input_side_packet", "output_side_packet")?;
    let nodes = nodes_named(alloc, fields)?;
    Ok(graph_with(alloc, fields, streams, sides, nodes)?)
}

fn read_fields(alloc: Global, fields: &[Field]) -> Result<GraphConfig, ConfigFault>
    ensures ok { IfOk result (λ graph. config.config_of (fields_view fields.now) ≡ Ok (config.graph_view graph)) }
    ensures err { IfErr result (λ fault. fault ≢ ConfigFault.OutOfMemory → config.config_of (fields_view fields.now) ≡ Err fault) }
{
    check(alloc, Message::Graph, fields)?;
    check_calculators(alloc, fields)?;
    graph_of(alloc, fields)
}

/// Returns the configuration of a file's fields, or its first fault (MediaPipe, calculator.proto:
/// CalculatorGraphConfig). Faults of fields come first, in the order of the text. Then come nodes whose calculator is
/// absent or empty. Last come texts and lists that spell no port or back edge, first among the graph's lists and then
/// among each node's. Their order is that in which `write` writes them.
pub fn read(alloc: Global, tree: &Tree) -> Result<GraphConfig, ConfigFault>
    ensures ok { IfOk result (λ graph. config.config_of (view tree.now) ≡ Ok (config.graph_view graph)) }
    ensures err { IfErr result (λ fault. fault ≢ ConfigFault.OutOfMemory → config.config_of (view tree.now) ≡ Err fault) }

    // Out of memory is a fault of its own, and never the cause of a refusal of ports.
    ensures cause { (path : List ℕ) → result ≢ Err (ConfigFault.BadPort path NameFault.OutOfMemory) }

    // A configuration that was read can be written and read back, and printed if the fields can be printed.
    ensures sound { IfOk result (λ graph. IsSound (config.graph_view graph)) }
    ensures printable { IfOk result (λ graph. AreSpelled (view tree.now) → depth (view tree.now) ≤ max_depth → IsPrintable (config.graph_view graph)) }
{
    read_fields(alloc, tree.as_slice())
}
