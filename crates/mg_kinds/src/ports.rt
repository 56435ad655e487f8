ghost use Rattle.std.specs.Prelude.{◌≡◌, ◌==◌, IfOk};
ghost use Rattle.mg_config.specs.Config.{node_view};
ghost use Rattle.mg_kinds.specs.Ports as table;
ghost use Rattle.mg_kinds.specs.Kinds as kinds;
ghost use Rattle.std.specs.List.{list_all};
ghost use Rattle.mg_names.specs.Ports.{has_port as has_it};

use crate::kind::{CalculatorKind, inputs_of, lanes_of, outputs_of, side_outputs_of, sides_of};
use crate::port_order::in_order;
use crate::row::{Row, ports_in};
use mg_calc::{PortKind, PortKindList, TryClone};
use mg_config::NodeConfig;
use mg_names::PortMap;
use mg_value::BlockList;
use std::alloc::{AllocError, Global};

/// The ports of a calculator: its input streams, its output streams and the side packets that it takes.
#[derive(Debug, Drop)]
pub struct Ports {
    pub inputs: PortKindList,
    pub outputs: PortKindList,
    pub sides: PortKindList,
}

/// Returns whether a node's ports have one of this tag and index.
#[tactic(auto, using(crate::proofs::PortLists::has_place))]
pub fn has_port(ports: &PortMap, tag: &[u8], index: u8) -> bool
    ensures { result ≡ has_it tag.now index ports.now }
{
    ports.find(tag, index).is_some()
}

fn has_all(ports: &PortMap, wanted: &[PortKind]) -> bool
    ensures { result ≡ list_all (λ p. has_it p.tag p.index ports.now) wanted.now }
{
    wanted
        .iter()
        .all(|port| has_port(ports, port.tag.as_bytes(), port.index))
}

/// Returns whether a node's ports are just the wanted ones, by tag and index.
pub fn has_just(ports: &PortMap, wanted: &PortKindList) -> bool
    ensures { result ≡ table.has_just ports.now wanted.now }
{
    ports.len() == wanted.len() && has_all(ports, wanted.as_slice())
}

fn fitting(alloc: Global, ports: &PortMap, row: Row) -> Result<Option<PortKindList>, AllocError>
    ensures { IfOk result (λ list. list ≡ table.fitting ports.now row) }
{
    if row.count > 64 {
        return Ok(None);
    }
    let list = ports_in(alloc, row)?;
    if has_just(ports, &list) {
        Ok(Some(list))
    } else {
        Ok(None)
    }
}

fn passed_ports(alloc: Global, node: &NodeConfig) -> Result<Option<Ports>, AllocError>
    ensures { IfOk result (λ found. found ≡ kinds.passed_ports (node_view node.now)) }
{
    let inputs = in_order(alloc, &node.inputs)?;
    let fits = !node.inputs.is_empty()
        && has_just(&node.outputs, &inputs)
        && node.input_sides.is_empty()
        && node.output_sides.is_empty();
    if !fits {
        return Ok(None);
    }
    let outputs = inputs.try_clone(alloc)?;
    Ok(Some(Ports {
        inputs,
        outputs,
        sides: BlockList::from_vec(Vec::new(alloc))?,
    }))
}

fn side_ports(
    alloc: Global,
    kind: CalculatorKind,
    node: &NodeConfig,
) -> Result<Option<PortKindList>, AllocError>
    ensures { IfOk result (λ found. found ≡ kinds.side_ports kind (node_view node.now)) }
{
    let row = side_outputs_of(kind, node);
    if fitting(alloc, &node.output_sides, row)?.is_none() {
        return Ok(None);
    }
    fitting(alloc, &node.input_sides, sides_of(kind))
}

fn rowed_ports(
    alloc: Global,
    kind: CalculatorKind,
    node: &NodeConfig,
) -> Result<Option<Ports>, AllocError>
    ensures { IfOk result (λ found. found ≡ kinds.rowed_ports kind (node_view node.now)) }
{
    if lanes_of(kind, node) == 0 {
        return Ok(None);
    }
    let Some(inputs) = fitting(alloc, &node.inputs, inputs_of(kind, node))? else {
        return Ok(None);
    };
    let Some(outputs) = fitting(alloc, &node.outputs, outputs_of(kind, node))? else {
        return Ok(None);
    };
    let Some(sides) = side_ports(alloc, kind, node)? else {
        return Ok(None);
    };
    Ok(Some(Ports {
        inputs,
        outputs,
        sides,
    }))
}

/// Returns the ports that a calculator has at a node, or none if the node's streams and side packets don't fit it.
pub fn kind_ports(
    alloc: Global,
    kind: CalculatorKind,
    node: &NodeConfig,
) -> Result<Option<Ports>, AllocError>
    ensures { IfOk result (λ found. found ≡ kinds.kind_ports kind (node_view node.now)) }
{
    match kind {
        CalculatorKind::PassThrough => passed_ports(alloc, node),
        _ => rowed_ports(alloc, kind, node),
    }
}
