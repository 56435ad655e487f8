//! The names of the streams and side packets of a whole graph: of all that are written, and of all that are read.
ghost use Rattle.std.specs.Prelude.{◌≡◌, ◌++◌, IfOk, OnOk};
ghost use Rattle.std.specs.List.{flat_map};
ghost use Rattle.mg_config.specs.Config.{graph_view};
ghost use Rattle.mg_subgraph.specs.Refusals.{port_names};
ghost use Rattle.mg_kinds.specs.Kinds.{names_of};
ghost use Rattle.mg_check.specs.DraftView.{draft_view, drafts_view};
ghost use Rattle.mg_check.specs.Joining as joining;
ghost use Rattle.mg_check.specs.Code.Parts.{part_names};

use crate::draft::Draft;
use crate::part::Part;
use mg_config::GraphConfig;
use mg_names::PortMap;
use std::alloc::{AllocError, Global};

fn add_texts<'a>(out: &mut Vec<&'a str>, texts: &[&'a str]) -> Result<(), AllocError>
    ensures { OnOk result (names_of out.new.items ≡ names_of out.old.items ++ names_of texts.now) }
{
    for text in texts {
        out.push(*text)?;
    }
    Ok(())
}

fn add_ports<'a>(out: &mut Vec<&'a str>, ports: &'a PortMap) -> Result<(), AllocError>
    ensures { OnOk result (names_of out.new.items ≡ names_of out.old.items ++ port_names ports.now) }
{
    for i in 0..ports.len() {
        let Some(port) = ports.get(i) else {
            unreachable!()
        };
        out.push(port.name.as_str())?;
    }
    Ok(())
}

fn add_part<'a>(out: &mut Vec<&'a str>, draft: &Draft<'a>, part: Part) -> Result<(), AllocError>
    ensures { OnOk result (names_of out.new.items ≡ names_of out.old.items ++ part_names part (draft_view draft.now)) }
{
    match part {
        Part::Inputs => add_texts(out, draft.inputs.as_slice()),
        Part::Outputs => add_texts(out, draft.outputs.as_slice()),
        Part::Sides => add_texts(out, draft.sides.as_slice()),
        Part::SideOutputs => add_texts(out, draft.side_outputs.as_slice()),
    }
}

fn add_parts<'a>(out: &mut Vec<&'a str>, drafts: &[Draft<'a>], part: Part) -> Result<(), AllocError>
    ensures { OnOk result (names_of out.new.items ≡ names_of out.old.items ++ flat_map (part_names part) (drafts_view drafts.now)) }
{
    for draft in drafts {
        add_part(out, draft, part)?;
    }
    Ok(())
}

/// Returns the names at ports, in order.
pub(crate) fn port_texts<'a>(alloc: Global, ports: &'a PortMap) -> Result<Vec<&'a str>, AllocError>
    ensures { IfOk result (λ texts. names_of texts.items ≡ port_names ports.now) }
{
    let mut texts = Vec::new(alloc);
    add_ports(&mut texts, ports)?;
    Ok(texts)
}

/// Returns the names at ports of the graph, and then those that the drafts have as this part.
fn texts_behind<'a>(
    alloc: Global,
    ports: &'a PortMap,
    drafts: &[Draft<'a>],
    part: Part,
) -> Result<Vec<&'a str>, AllocError>
    ensures { IfOk result (λ texts. names_of texts.items ≡ port_names ports.now ++ flat_map (part_names part) (drafts_view drafts.now)) }
{
    let mut texts = port_texts(alloc, ports)?;
    add_parts(&mut texts, drafts, part)?;
    Ok(texts)
}

/// Returns the names that the drafts have as this part, and then those at ports of the graph.
fn texts_before<'a>(
    alloc: Global,
    ports: &'a PortMap,
    drafts: &[Draft<'a>],
    part: Part,
) -> Result<Vec<&'a str>, AllocError>
    ensures { IfOk result (λ texts. names_of texts.items ≡ flat_map (part_names part) (drafts_view drafts.now) ++ port_names ports.now) }
{
    let mut texts = Vec::new(alloc);
    add_parts(&mut texts, drafts, part)?;
    add_ports(&mut texts, ports)?;
    Ok(texts)
}

/// Returns the names of all streams: of the graph inputs, and then of the outputs of each node.
pub(crate) fn stream_texts<'a>(
    alloc: Global,
    graph: &'a GraphConfig,
    drafts: &[Draft<'a>],
) -> Result<Vec<&'a str>, AllocError>
    ensures { IfOk result (λ texts. names_of texts.items ≡ joining.stream_names (graph_view graph.now) (drafts_view drafts.now)) }
{
    texts_behind(alloc, &graph.inputs, drafts, Part::Outputs)
}

/// Returns the names of the streams that are read: at the inputs of each node, and then as graph outputs.
pub(crate) fn read_texts<'a>(
    alloc: Global,
    graph: &'a GraphConfig,
    drafts: &[Draft<'a>],
) -> Result<Vec<&'a str>, AllocError>
    ensures { IfOk result (λ texts. names_of texts.items ≡ joining.read_names (graph_view graph.now) (drafts_view drafts.now)) }
{
    texts_before(alloc, &graph.outputs, drafts, Part::Inputs)
}

/// Returns the names of all side packets: of the graph's input side packets, and then of those that each node writes.
pub(crate) fn side_texts<'a>(
    alloc: Global,
    graph: &'a GraphConfig,
    drafts: &[Draft<'a>],
) -> Result<Vec<&'a str>, AllocError>
    ensures { IfOk result (λ texts. names_of texts.items ≡ joining.side_names (graph_view graph.now) (drafts_view drafts.now)) }
{
    texts_behind(alloc, &graph.input_sides, drafts, Part::SideOutputs)
}

/// Returns the names of the side packets that are taken: by each node, and then as outputs of the graph.
pub(crate) fn taken_texts<'a>(
    alloc: Global,
    graph: &'a GraphConfig,
    drafts: &[Draft<'a>],
) -> Result<Vec<&'a str>, AllocError>
    ensures { IfOk result (λ texts. names_of texts.items ≡ joining.taken_names (graph_view graph.now) (drafts_view drafts.now)) }
{
    texts_before(alloc, &graph.output_sides, drafts, Part::Sides)
}
