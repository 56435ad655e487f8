//! The fields that a configuration is written as.
ghost use Rattle.std.specs.Prelude.{◌≡◌, ◌≤◌, [], ◌∷◌, ◌++◌, Ok, OnOk, IfOk, map, codes};
ghost use Rattle.mg_text.specs.Tree.{depth};
ghost use Rattle.mg_text.specs.View.{field_view, view};
ghost use Rattle.mg_text.specs.Answer.{max_depth};
ghost use Rattle.mg_text.specs.Canonical.{AreSpelled};
ghost use Rattle.mg_config.specs.Config.{node_view, graph_view, config_of};
ghost use Rattle.mg_config.specs.Written as written;
ghost use Rattle.mg_config.specs.Sound.{IsSound, IsPrintable};

use crate::fields::{
    put, put_handler, put_message, put_number, put_options, put_ports, put_string, put_text,
};
use crate::graph::GraphConfig;
use crate::mark::Mark;
use crate::node::NodeConfig;
use mg_names::{PortMap, print_tag_index};
use mg_text::{Field, Scalar, Tree, TreeValue};
use mg_value::MgText;
use std::alloc::{AllocError, Global};

fn put_mark(alloc: Global, out: &mut Vec<Field>, mark: &Mark) -> Result<(), AllocError>
    ensures { OnOk result (map field_view out.new.items ≡ map field_view out.old.items ++ written.mark_entry mark.now ∷ []) }
{
    let mut fields = Vec::new(alloc);
    let text = print_tag_index(alloc, &mark.tag, mark.index)?;
    put_string(alloc, &mut fields, "tag_index", text)?;
    let yes = MgText::new(alloc, "true")?;
    put(
        alloc,
        &mut fields,
        "back_edge",
        TreeValue::Scalar(Scalar::Word(yes)),
    )?;
    put_message(alloc, out, "input_stream_info", fields)?;
    Ok(())
}

fn put_marks(alloc: Global, out: &mut Vec<Field>, marks: &[Mark]) -> Result<(), AllocError>
    ensures { OnOk result (map field_view out.new.items ≡ map field_view out.old.items ++ written.mark_fields marks.now) }
{
    for mark in marks {
        put_mark(alloc, out, mark)?;
    }
    Ok(())
}

fn put_lists(
    alloc: Global,
    out: &mut Vec<Field>,
    inputs: &PortMap,
    outputs: &PortMap,
    input_sides: &PortMap,
    output_sides: &PortMap,
) -> Result<(), AllocError>
    ensures { OnOk result (map field_view out.new.items ≡ map field_view out.old.items ++ written.list_fields inputs.now outputs.now input_sides.now output_sides.now) }
{
    put_ports(alloc, out, "input_stream", inputs)?;
    put_ports(alloc, out, "output_stream", outputs)?;
    put_ports(alloc, out, "input_side_packet", input_sides)?;
    put_ports(alloc, out, "output_side_packet", output_sides)?;
    Ok(())
}

fn put_ends(alloc: Global, out: &mut Vec<Field>, node: &NodeConfig) -> Result<(), AllocError>
    ensures { OnOk result (map field_view out.new.items ≡ map field_view out.old.items ++ written.node_ends (node_view node.now)) }
{
    put_marks(alloc, out, node.back_marks.as_slice())?;
    put_handler(alloc, out, &node.handler)?;
    put_number(alloc, out, "max_in_flight", node.max_in_flight)?;
    put_number(alloc, out, "buffer_size_hint", node.buffer_size_hint)?;
    put_options(alloc, out, &node.options)?;
    Ok(())
}

fn node_fields(alloc: Global, node: &NodeConfig) -> Result<Vec<Field>, AllocError>
    ensures { IfOk result (λ fields. map field_view fields.items ≡ written.node_fields (node_view node.now)) }
{
    let mut fields = Vec::new(alloc);
    put_text(alloc, &mut fields, "name", &node.name)?;
    put_text(alloc, &mut fields, "calculator", &node.calculator)?;
    put_lists(
        alloc,
        &mut fields,
        &node.inputs,
        &node.outputs,
        &node.input_sides,
        &node.output_sides,
    )?;
    put_ends(alloc, &mut fields, node)?;
    Ok(fields)
}

fn put_nodes(alloc: Global, out: &mut Vec<Field>, nodes: &[NodeConfig]) -> Result<(), AllocError>
    ensures { OnOk result (map field_view out.new.items ≡ map field_view out.old.items ++ map (λ node. written.node_entry (node_view node)) nodes.now) }
{
    for node in nodes {
        let fields = node_fields(alloc, node)?;
        put_message(alloc, out, "node", fields)?;
    }
    Ok(())
}

fn put_numbers(alloc: Global, out: &mut Vec<Field>, graph: &GraphConfig) -> Result<(), AllocError>
    ensures { OnOk result (map field_view out.new.items ≡ map field_view out.old.items ++ (written.number_field (codes "max_queue_size") graph.now.max_queue_size ++ written.number_field (codes "num_threads") graph.now.num_threads)) }
{
    put_number(alloc, out, "max_queue_size", graph.max_queue_size)?;
    put_number(alloc, out, "num_threads", graph.num_threads)?;
    Ok(())
}

fn graph_fields(alloc: Global, graph: &GraphConfig) -> Result<Vec<Field>, AllocError>
    ensures { IfOk result (λ fields. map field_view fields.items ≡ written.graph_fields (graph_view graph.now)) }
{
    let mut fields = Vec::new(alloc);
    put_text(alloc, &mut fields, "type", &graph.type_name)?;
    put_lists(
        alloc,
        &mut fields,
        &graph.inputs,
        &graph.outputs,
        &graph.input_sides,
        &graph.output_sides,
    )?;
    put_numbers(alloc, &mut fields, graph)?;
    put_nodes(alloc, &mut fields, graph.nodes.as_slice())?;
    Ok(fields)
}

/// Returns the fields of a configuration: a graph's type, its lists of ports, its numbers and its nodes. The fields of
/// a node are its name, its calculator, its lists of ports, its back edges, its handler, its numbers and its options.
/// Empty texts, empty options and numbers that are 0 aren't written.
pub fn write(alloc: Global, config: &GraphConfig) -> Result<Tree, AllocError>
    ensures tree { IfOk result (λ tree. view tree ≡ written.tree_of (graph_view config.now)) }
    // If the configuration is sound, it is read back from the fields. If it can be printed too, so can they.
    ensures read_back { IfOk result (λ tree. IsSound (graph_view config.now) → config_of (view tree) ≡ Ok (graph_view config.now)) }
    ensures spelled { IfOk result (λ tree. IsSound (graph_view config.now) → IsPrintable (graph_view config.now) → AreSpelled (view tree)) }
    ensures shallow { IfOk result (λ tree. IsPrintable (graph_view config.now) → depth (view tree) ≤ max_depth) }
{
    let fields = graph_fields(alloc, config)?;
    Tree::new(alloc, fields)
}
