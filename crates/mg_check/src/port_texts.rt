//! The names at the ports of a node, in the order of the ports that its calculator has.
ghost use Rattle.std.specs.Prelude.{◌≡◌, IfOk};
ghost use Rattle.mg_config.specs.Config.{node_view};
ghost use Rattle.mg_kinds.specs.Kinds.{names_of};
ghost use Rattle.mg_check.specs.Drafts.{name_at, names_at};
ghost use Rattle.mg_check.specs.Code.Judged.{AreTexts};

use mg_calc::PortKind;
use mg_config::NodeConfig;
use mg_kinds::{Ports, in_order};
use mg_names::PortMap;
use std::alloc::{AllocError, Global};

/// The names at the ports of a node: its input streams, its output streams, the side packets that it takes, and those
/// that it writes.
#[derive(Drop)]
pub struct PortTexts<'a> {
    pub inputs: Vec<&'a str>,
    pub outputs: Vec<&'a str>,
    pub sides: Vec<&'a str>,
    pub side_outputs: Vec<&'a str>,
}

fn text_at<'a>(given: &'a PortMap, port: &PortKind) -> &'a str
    ensures { result.now ≡ name_at given.now port.now }
{
    match given.find(port.tag.as_bytes(), port.index) {
        None => "",
        Some(place) => match given.get(place) {
            Some(found) => found.name.as_str(),
            None => "",
        },
    }
}

fn texts_at<'a>(
    alloc: Global,
    given: &'a PortMap,
    ports: &[PortKind],
) -> Result<Vec<&'a str>, AllocError>
    ensures { IfOk result (λ texts. names_of texts.items ≡ names_at given.now ports.now) }
{
    let mut texts = Vec::new(alloc);
    for port in ports {
        texts.push(text_at(given, port))?;
    }
    Ok(texts)
}

/// Returns the names at the ports of a node whose calculator has these ports.
pub fn port_texts<'a>(
    alloc: Global,
    node: &'a NodeConfig,
    ports: &Ports,
) -> Result<PortTexts<'a>, AllocError>
    ensures { IfOk result (λ texts. AreTexts texts (node_view node.now) ports.now) }
{
    let inputs = texts_at(alloc, &node.inputs, ports.inputs.as_slice())?;
    let outputs = texts_at(alloc, &node.outputs, ports.outputs.as_slice())?;
    let sides = texts_at(alloc, &node.input_sides, ports.sides.as_slice())?;
    let written = in_order(alloc, &node.output_sides)?;
    let side_outputs = texts_at(alloc, &node.output_sides, written.as_slice())?;
    Ok(PortTexts {
        inputs,
        outputs,
        sides,
        side_outputs,
    })
}
