//! The checks of subgraph nodes: they have no fields that only calculators have, and connect only ports that their files have.
ghost use Rattle.std.specs.Prelude.{◌≡◌, ◌≢◌, [], None, Some, IfOk, IfErr, OnOk, map, codes, option_map, option_copied, not, length};
ghost use Rattle.std.specs.Option.{option_or};
ghost use Rattle.mg_config.specs.Config.{node_view, graph_view};
ghost use Rattle.std.specs.Str.{bytes_eq};
ghost use Rattle.mg_text.specs.View.{view};
ghost use Rattle.mg_subgraph.specs.Code.Judged.{flagged, judge_of};
ghost use Rattle.mg_subgraph.specs.Refusals as refusals;
ghost use Rattle.mg_subgraph.specs.Code.Views.{files_of};

use crate::fault::ExpandFault;
use crate::library::Library;
use mg_config::{GraphConfig, NodeConfig, NodeList};
use mg_names::{Port, PortMap};
use mg_text::Tree;
use mg_value::MgText;
use std::alloc::{AllocError, Global};

/// A rule that all subgraph nodes have to keep.
#[derive(Clone, Copy, Debug)]
pub enum Check {
    /// No subgraph node has a field that only calculators have.
    Fields,
    /// No subgraph node connects a port that its file hasn't.
    Ports,
}

fn has_options(options: &Tree) -> bool
    ensures { result ≡ refusals.has_fields (view options.now) }
{
    !options.as_slice().is_empty()
}

fn is_set(text: &MgText) -> bool
    ensures { result ≡ not (bytes_eq text.now []) }
{
    !text.as_bytes().is_empty()
}

fn is_given(number: i32) -> bool
    ensures { result ≡ not (refusals.is_zero number) }
{
    number != 0
}

/// Returns the name of the first field of a node that only calculators have, or none if the node has no such field.
fn bad_field(node: &NodeConfig) -> Option<&'static str>
    ensures { option_copied result ≡ refusals.bad_field_of (node_view node.now) }
{
    if has_options(&node.options) {
        Some("options")
    } else if !node.back_marks.is_empty() {
        Some("input_stream_info")
    } else if is_set(&node.handler) {
        Some("input_stream_handler")
    } else if is_given(node.max_in_flight) {
        Some("max_in_flight")
    } else {
        None
    }
}

/// Returns the first of the given ports whose tag and index none of the other ports has, if there is one.
fn port_beyond<'a>(given: &'a PortMap, ports: &PortMap) -> Option<&'a Port>
    ensures { option_copied result ≡ refusals.port_beyond given.now ports.now }
{
    for i in 0..given.len() {
        let Some(port) = given.get(i) else {
            unreachable!()
        };
        if ports.find(port.tag.as_bytes(), port.index).is_none() {
            return Some(port);
        }
    }
    None
}

fn missing_port<'a>(node: &'a NodeConfig, file: &GraphConfig) -> Option<&'a Port>
    ensures { option_copied result ≡ refusals.missing_port (node_view node.now) (graph_view file.now) }
{
    port_beyond(&node.inputs, &file.inputs)
        .or(port_beyond(&node.outputs, &file.outputs))
        .or(port_beyond(&node.input_sides, &file.input_sides))
        .or(port_beyond(&node.output_sides, &file.output_sides))
}

fn copy_of(alloc: Global, port: &Port) -> Result<Port, AllocError>
    ensures { IfOk result (λ copy. copy ≡ port.now) }
{
    Ok(Port {
        tag: port.tag.try_clone(alloc)?,
        index: port.index,
        name: port.name.try_clone(alloc)?,
    })
}

fn check_fields(alloc: Global, owner: &str, n: u32, node: &NodeConfig) -> Result<(), ExpandFault>
    ensures ok { OnOk result (refusals.bad_field_of (node_view node.now) ≡ None) }
    ensures err { IfErr result (λ fault. fault ≢ ExpandFault.OutOfMemory → option_map (ExpandFault.BadField owner.now n) (refusals.bad_field_of (node_view node.now)) ≡ Some fault) }
{
    match bad_field(node) {
        None => Ok(()),
        Some(field) => Err(ExpandFault::BadField {
            owner: MgText::new(alloc, owner)?,
            node: n,
            field: MgText::new(alloc, field)?,
        }),
    }
}

fn check_ports(
    alloc: Global,
    owner: &str,
    n: u32,
    node: &NodeConfig,
    file: &GraphConfig,
) -> Result<(), ExpandFault>
    ensures ok { OnOk result (refusals.no_such_port_at owner.now n (node_view node.now) (graph_view file.now) ≡ None) }
    ensures err { IfErr result (λ fault. fault ≢ ExpandFault.OutOfMemory → refusals.no_such_port_at owner.now n (node_view node.now) (graph_view file.now) ≡ Some fault) }
{
    match missing_port(node, file) {
        None => Ok(()),
        Some(port) => Err(ExpandFault::NoSuchPort {
            owner: MgText::new(alloc, owner)?,
            node: n,
            port: copy_of(alloc, port)?,
        }),
    }
}

fn check_node(
    alloc: Global,
    check: Check,
    owner: &str,
    n: u32,
    node: &NodeConfig,
    file: &GraphConfig,
) -> Result<(), ExpandFault>
    ensures ok { OnOk result (judge_of check owner.now n (node_view node.now) (graph_view file.now) ≡ None) }
    ensures err { IfErr result (λ fault. fault ≢ ExpandFault.OutOfMemory → judge_of check owner.now n (node_view node.now) (graph_view file.now) ≡ Some fault) }
{
    match check {
        Check::Fields => check_fields(alloc, owner, n, node),
        Check::Ports => check_ports(alloc, owner, n, node, file),
    }
}

fn check_nodes(
    alloc: Global,
    check: Check,
    library: &Library,
    owner: &str,
    nodes: &NodeList,
) -> Result<(), ExpandFault>
    ensures ok { OnOk result (refusals.node_fault (files_of library.now) (judge_of check owner.now) 0 (map node_view nodes.now) ≡ None) }
    ensures err { IfErr result (λ fault. fault ≢ ExpandFault.OutOfMemory → refusals.node_fault (files_of library.now) (judge_of check owner.now) 0 (map node_view nodes.now) ≡ Some fault) }
{
    for n in 0..nodes.len() {
        let Some(node) = nodes.get(n) else {
            unreachable!()
        };
        let Some(place) = library.find(node.calculator.as_str()) else {
            continue;
        };
        check_node(alloc, check, owner, n, node, &library.files[place])?;
    }
    Ok(())
}

fn check_files(
    alloc: Global,
    check: Check,
    library: &Library,
    used: &[bool],
) -> Result<(), ExpandFault>
    requires { length used.now ≡ length library.now.files.now }
    ensures ok { OnOk result (refusals.first_some (refusals.fault_in (judge_of check) (files_of library.now)) (flagged used.now (files_of library.now)) ≡ None) }
    ensures err { IfErr result (λ fault. fault ≢ ExpandFault.OutOfMemory → refusals.first_some (refusals.fault_in (judge_of check) (files_of library.now)) (flagged used.now (files_of library.now)) ≡ Some fault) }
{
    for (place, file) in library.files.iter().enumerate() {
        if !used[place] {
            continue;
        }
        check_nodes(alloc, check, library, file.type_name.as_str(), &file.nodes)?;
    }
    Ok(())
}

/// Refuses the first subgraph node that breaks a rule, in the graph, which is called `main`, and then in the files that it uses.
pub fn check_subgraphs(
    alloc: Global,
    check: Check,
    main: &GraphConfig,
    library: &Library,
    used: &[bool],
) -> Result<(), ExpandFault>
    requires { length used.now ≡ length library.now.files.now }
    ensures ok { OnOk result (option_or (refusals.node_fault (files_of library.now) (judge_of check (codes "main")) 0 (graph_view main.now).nodes) (refusals.first_some (refusals.fault_in (judge_of check) (files_of library.now)) (flagged used.now (files_of library.now))) ≡ None) }
    ensures err { IfErr result (λ fault. fault ≢ ExpandFault.OutOfMemory → option_or (refusals.node_fault (files_of library.now) (judge_of check (codes "main")) 0 (graph_view main.now).nodes) (refusals.first_some (refusals.fault_in (judge_of check) (files_of library.now)) (flagged used.now (files_of library.now))) ≡ Some fault) }
{
    check_nodes(alloc, check, library, "main", &main.nodes)?;
    check_files(alloc, check, library, used)
}
