//! Copies of nodes, and of the lists of ports that graphs and nodes have.
ghost use Rattle.std.specs.Prelude.{◌≡◌, IfOk};
ghost use Rattle.mg_config.specs.Config.{node_view};

use mg_config::{Mark, MarkList, NodeConfig};
use mg_names::PortMap;
use mg_value::{BlockList, MgText};
use std::alloc::{AllocError, Global};

/// The four lists of ports that a graph or a node has.
#[derive(Debug, Drop)]
pub struct PortLists {
    pub inputs: PortMap,
    pub outputs: PortMap,
    pub input_sides: PortMap,
    pub output_sides: PortMap,
}

/// Two lists of ports.
#[derive(Debug, Drop)]
struct TwoLists {
    first: PortMap,
    second: PortMap,
}

fn two_of(alloc: Global, first: &PortMap, second: &PortMap) -> Result<TwoLists, AllocError>
    ensures { IfOk result (λ two. two ≡ record { first = first.now; second = second.now }) }
{
    let first = first.try_clone(alloc)?;
    let second = second.try_clone(alloc)?;
    Ok(TwoLists { first, second })
}

/// Returns copies of four lists of ports.
pub fn lists_of(
    alloc: Global,
    inputs: &PortMap,
    outputs: &PortMap,
    input_sides: &PortMap,
    output_sides: &PortMap,
) -> Result<PortLists, AllocError>
    ensures { IfOk result (λ lists. lists ≡ record { inputs = inputs.now; outputs = outputs.now; input_sides = input_sides.now; output_sides = output_sides.now }) }
{
    let ends = two_of(alloc, inputs, outputs)?;
    let sides = two_of(alloc, input_sides, output_sides)?;
    Ok(PortLists {
        inputs: ends.first,
        outputs: ends.second,
        input_sides: sides.first,
        output_sides: sides.second,
    })
}

fn marks_of(alloc: Global, marks: &[Mark]) -> Result<MarkList, AllocError>
    ensures { IfOk result (λ copies. copies ≡ marks.now) }
{
    let mut copies = Vec::new(alloc);
    for mark in marks {
        let tag = mark.tag.try_clone(alloc)?;
        copies.push(Mark {
            tag,
            index: mark.index,
        })?;
    }
    Ok(BlockList::from_vec(copies)?)
}

/// The texts of a node.
#[derive(Debug, Drop)]
struct Texts {
    name: MgText,
    calculator: MgText,
    handler: MgText,
}

fn texts_of(alloc: Global, node: &NodeConfig) -> Result<Texts, AllocError>
    ensures { IfOk result (λ texts. texts ≡ record { name = node.now.name; calculator = node.now.calculator; handler = node.now.handler }) }
{
    Ok(Texts {
        name: node.name.try_clone(alloc)?,
        calculator: node.calculator.try_clone(alloc)?,
        handler: node.handler.try_clone(alloc)?,
    })
}

/// Returns a copy of a node.
pub fn copy_of(alloc: Global, node: &NodeConfig) -> Result<NodeConfig, AllocError>
    ensures { IfOk result (λ copy. node_view copy ≡ node_view node.now) }
{
    let Texts {
        name,
        calculator,
        handler,
    } = texts_of(alloc, node)?;
    let PortLists {
        inputs,
        outputs,
        input_sides,
        output_sides,
    } = lists_of(
        alloc,
        &node.inputs,
        &node.outputs,
        &node.input_sides,
        &node.output_sides,
    )?;
    let options = node.options.try_clone()?;
    let back_marks = marks_of(alloc, node.back_marks.as_slice())?;
    Ok(NodeConfig {
        name,
        calculator,
        inputs,
        outputs,
        input_sides,
        output_sides,
        options,
        back_marks,
        handler,
        max_in_flight: node.max_in_flight,
        buffer_size_hint: node.buffer_size_hint,
    })
}
