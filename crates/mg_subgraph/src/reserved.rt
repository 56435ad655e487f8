//! The check that names don't have the form of the names that expansion makes.
ghost use Rattle.std.specs.Prelude.{◌≡◌, ◌≢◌, None, Some, IfErr, OnOk, map, find, not, position, option_copied, length};
ghost use Rattle.std.specs.List.{list_any, prefix_len};
ghost use Rattle.mg_names.specs.Grammar as grammar;
ghost use Rattle.mg_config.specs.Config.{node_view, graph_view};
ghost use Rattle.mg_subgraph.specs.Names as names;
ghost use Rattle.mg_subgraph.specs.Library.{used_files};
ghost use Rattle.mg_subgraph.specs.Library as uses;
ghost use Rattle.mg_subgraph.specs.Code.Judged as judged;
ghost use Rattle.mg_subgraph.specs.Refusals as refusals;
ghost use Rattle.mg_subgraph.specs.Code.Views.{files_of};

use crate::fault::ExpandFault;
use crate::library::Library;
use mg_config::{GraphConfig, NodeConfig};
use mg_names::PortMap;
use mg_value::MgText;
use std::alloc::{AllocError, Global};

fn is_digit(byte: u8) -> bool
    ensures { result ≡ grammar.is_digit byte }
{
    byte.is_ascii_digit()
}

fn first_other(bytes: &[u8]) -> Option<usize>
    ensures { result ≡ position (λ byte. not (grammar.is_digit byte)) bytes.now }
{
    bytes.iter().position(|byte| !is_digit(*byte))
}

/// Returns how many digits stand before the first byte that is no digit.
fn digit_count(bytes: &[u8]) -> usize
    ensures { result ≡ prefix_len grammar.is_digit bytes.now }
{
    first_other(bytes).unwrap_or(bytes.len())
}

/// Whether a name begins with `s`, one digit or more, and `__`.
fn is_reserved(name: &[u8]) -> bool
    ensures { result ≡ names.is_reserved name.now }
{
    let Some((b's', rest)) = name.split_first() else {
        return false;
    };
    let count = digit_count(rest);
    count > 0 && matches!(rest.split_at(count).1, [b'_', b'_', ..])
}

fn reserved_port(ports: &PortMap) -> Option<&MgText>
    ensures { option_copied result ≡ find names.is_reserved (refusals.port_names ports.now) }
{
    for i in 0..ports.len() {
        let Some(port) = ports.get(i) else {
            unreachable!()
        };
        if is_reserved(port.name.as_bytes()) {
            return Some(&port.name);
        }
    }
    None
}

fn reserved_among<'a>(
    inputs: &'a PortMap,
    outputs: &'a PortMap,
    input_sides: &'a PortMap,
    output_sides: &'a PortMap,
) -> Option<&'a MgText>
    ensures { option_copied result ≡ judged.reserved_at inputs.now outputs.now input_sides.now output_sides.now }
{
    reserved_port(inputs)
        .or(reserved_port(outputs))
        .or(reserved_port(input_sides))
        .or(reserved_port(output_sides))
}

fn reserved_in_node(node: &NodeConfig) -> Option<&MgText>
    ensures { option_copied result ≡ judged.reserved_in_node (node_view node.now) }
{
    if is_reserved(node.name.as_bytes()) {
        return Some(&node.name);
    }
    reserved_among(
        &node.inputs,
        &node.outputs,
        &node.input_sides,
        &node.output_sides,
    )
}

fn reserved_in_nodes(nodes: &[NodeConfig]) -> Option<&MgText>
    ensures { option_copied result ≡ refusals.first_some judged.reserved_in_node (map node_view nodes.now) }
{
    for node in nodes {
        if let Some(name) = reserved_in_node(node) {
            return Some(name);
        }
    }
    None
}

fn reserved_in_graph(graph: &GraphConfig) -> Option<&MgText>
    ensures { option_copied result ≡ judged.reserved_in_graph (graph_view graph.now) }
{
    reserved_among(
        &graph.inputs,
        &graph.outputs,
        &graph.input_sides,
        &graph.output_sides,
    )
    .or(reserved_in_nodes(graph.nodes.as_slice()))
}

fn reserved_in_files<'a>(files: &'a [GraphConfig], used: &[bool]) -> Option<&'a MgText>
    requires { length used.now ≡ length files.now }
    ensures { option_copied result ≡ refusals.first_some judged.reserved_in_graph (judged.flagged used.now (map graph_view files.now)) }
{
    for (place, file) in files.iter().enumerate() {
        if !used[place] {
            continue;
        }
        if let Some(name) = reserved_in_graph(file) {
            return Some(name);
        }
    }
    None
}

fn is_subgraph(library: &Library, node: &NodeConfig) -> bool
    ensures { result ≡ uses.is_subgraph (files_of library.now) (node_view node.now) }
{
    library.find(node.calculator.as_str()).is_some()
}

/// Returns whether one of the nodes uses a file of the library.
pub(crate) fn has_subgraph(library: &Library, nodes: &[NodeConfig]) -> bool
    ensures { result ≡ list_any (λ node. uses.is_subgraph (files_of library.now) (node_view node)) nodes.now }
{
    nodes.iter().any(|node| is_subgraph(library, node))
}

/// Refuses a graph with a subgraph node if it, or else a file that it uses, has a name of the form that expansion makes.
pub fn check_reserved(
    alloc: Global,
    main: &GraphConfig,
    library: &Library,
    used: &[bool],
) -> Result<(), ExpandFault>
    requires len { length used.now ≡ length library.now.files.now }
    requires used { judged.flagged used.now (files_of library.now) ≡ used_files (graph_view main.now) (files_of library.now) }
    ensures ok { OnOk result (refusals.reserved_name (graph_view main.now) (files_of library.now) ≡ None) }
    ensures err { IfErr result (λ fault. fault ≢ ExpandFault.OutOfMemory → refusals.reserved_name (graph_view main.now) (files_of library.now) ≡ Some fault) }
{
    if !has_subgraph(library, main.nodes.as_slice()) {
        return Ok(());
    }
    match reserved_in_graph(main).or(reserved_in_files(library.files, used)) {
        None => Ok(()),
        Some(name) => Err(ExpandFault::ReservedName {
            name: name.try_clone(alloc)?,
        }),
    }
}
