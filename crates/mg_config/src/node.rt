ghost use Rattle.std.specs.Prelude.{◌≡◌, ◌≢◌, Ok, Err, IfOk, IfErr, map, codes};
ghost use Rattle.mg_text.specs.Tree.{none};
ghost use Rattle.mg_text.specs.View.{field_view, view};
ghost use Rattle.mg_config.specs.Values.{text_in};
ghost use Rattle.mg_config.specs.Config as config;

use crate::fault::ConfigFault;
use crate::mark::Mark;
use crate::marks::marks_named;
use crate::options::options_of;
use crate::ports::{PortPair, pair_named};
use crate::value::{message_named, number_named, text_named};
use mg_names::PortMap;
use mg_text::{Field, Tree};
use mg_value::{BlockList, MgText};
use std::alloc::{AllocError, Global};

/// The back edges among a node's inputs, in the order of the text.
pub type MarkList = BlockList<Mark>;

/// A node of a graph (MediaPipe, calculator.proto: CalculatorGraphConfig.Node). A text that is absent is empty, and a
/// number that is absent is 0.
#[derive(Debug, Drop)]
pub struct NodeConfig {
    /// The node's name, which may be empty.
    pub name: MgText,
    /// The calculator that works at the node, or the type of the subgraph that the node uses. It is never empty if the
    /// configuration was read.
    pub calculator: MgText,
    /// The streams that the node reads.
    pub inputs: PortMap,
    /// The streams that the node writes.
    pub outputs: PortMap,
    /// The side packets that the node reads.
    pub input_sides: PortMap,
    /// The side packets that the node writes.
    pub output_sides: PortMap,
    /// The fields of `options` and `node_options`, in the order of the text.
    pub options: Tree,
    /// The inputs that are back edges.
    pub back_marks: MarkList,
    /// The name of the input stream handler, which asks for an input policy. The name is empty if none is given.
    pub handler: MgText,
    /// How many input sets the node may work on at once.
    pub max_in_flight: i32,
    /// A size of buffers that the graph's author hints at. It has no effect.
    pub buffer_size_hint: i32,
}

/// The texts and the options of a node.
#[derive(Drop)]
pub struct NodeTexts {
    pub name: MgText,
    pub calculator: MgText,
    pub handler: MgText,
    pub options: Tree,
}

fn texts_of(alloc: Global, no_fields: &Tree, fields: &[Field]) -> Result<NodeTexts, AllocError>
    requires { view no_fields.now ≡ none }
    ensures name { IfOk result (λ texts. texts.name ≡ text_in (codes "name") (map field_view fields.now)) }
    ensures calculator { IfOk result (λ texts. texts.calculator ≡ text_in (codes "calculator") (map field_view fields.now)) }
    ensures handler { IfOk result (λ texts. texts.handler ≡ config.handler_in (map field_view fields.now)) }
    ensures options { IfOk result (λ texts. view texts.options ≡ config.options_in (map field_view fields.now)) }
{
    let name = text_named(alloc, fields, b"name")?;
    let calculator = text_named(alloc, fields, b"calculator")?;
    let handler = message_named(fields, b"input_stream_handler");
    let handler = text_named(alloc, handler, b"input_stream_handler")?;
    let options = options_of(alloc, no_fields, fields)?;
    Ok(NodeTexts {
        name,
        calculator,
        handler,
        options,
    })
}

fn node_with(
    alloc: Global,
    no_fields: &Tree,
    fields: &[Field],
    streams: PortPair,
    sides: PortPair,
    back_marks: MarkList,
) -> Result<NodeConfig, AllocError>
    requires { view no_fields.now ≡ none }
    ensures { IfOk result (λ node. config.node_view node ≡ config.node_with (map field_view fields.now) streams sides back_marks) }
{
    let texts = texts_of(alloc, no_fields, fields)?;
    Ok(NodeConfig {
        name: texts.name,
        calculator: texts.calculator,
        inputs: streams.inputs,
        outputs: streams.outputs,
        input_sides: sides.inputs,
        output_sides: sides.outputs,
        options: texts.options,
        back_marks,
        handler: texts.handler,
        max_in_flight: number_named(fields, b"max_in_flight"),
        buffer_size_hint: number_named(fields, b"buffer_size_hint"),
    })
}

/// Returns the node of fields in which no fault was found. An error is the fault of the first text or list that spells
/// no port or back edge. A node without options shares `no_fields`.
pub(crate) fn node_of(
    alloc: Global,
    no_fields: &Tree,
    fields: &[Field],
) -> Result<NodeConfig, ConfigFault>
    requires { view no_fields.now ≡ none }
    ensures ok { IfOk result (λ node. config.node_of (map field_view fields.now) ≡ Ok (config.node_view node)) }
    ensures err { IfErr result (λ fault. fault ≢ ConfigFault.OutOfMemory → config.node_of (map field_view fields.now) ≡ Err fault) }
{
    let streams = pair_named(alloc, fields, "input_stream", "output_stream")?;
    let sides = pair_named(alloc, fields, "input_side_packet", "output_side_packet")?;
    let back_marks = marks_named(alloc, fields)?;
    Ok(node_with(alloc, no_fields, fields, streams, sides, back_marks)?)
}
