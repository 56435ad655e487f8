//! The nodes of a file under the names that they get where a node uses the file.
ghost use Rattle.std.specs.Prelude.{◌≡◌, ℕ, None, Some, ◌++◌, IfOk, map, option_map, option_copied, find, length, nat_lt, slice_get, if◌then◌else◌};
ghost use Rattle.mg_names.specs.declared.port.Port.{Port};
ghost use Rattle.mg_config.specs.Config.{NodeView, GraphView, node_view, graph_view};
ghost use Rattle.mg_names.specs.Ports.{is_at};
ghost use Rattle.mg_subgraph.specs.Code.Index.{IsIndex};
ghost use Rattle.mg_subgraph.specs.Code.Judged.{AreNames};
ghost use Rattle.mg_subgraph.specs.Names as names;
ghost use Rattle.mg_subgraph.specs.Refusals.{port_names, first_twice, shared_name};

use crate::shared::{FileNames, port_at};
use mg_config::{GraphConfig, NodeConfig};
use mg_index::NameTable;
use mg_names::{Port, PortMap};
use mg_value::MgText;
use std::alloc::{AllocError, Global};

/// The ports of a file, with a table of the names there, and the ports of a node that uses the file. A binding is for
/// streams or for side packets.
#[derive(Drop)]
struct Binding<'a> {
    names: &'a NameTable<'a>,
    inputs: &'a PortMap,
    outputs: &'a PortMap,
    given_in: &'a PortMap,
    given_out: &'a PortMap,
    ghost placed: { IsIndex names.now (port_names inputs.now ++ port_names outputs.now) },
    ghost once: { first_twice (port_names inputs.now ++ port_names outputs.now) ≡ None },
}

/// The new names that a file's nodes, streams and side packets get where a node uses the file.
#[derive(Drop)]
pub struct Use<'a> {
    prefix: MgText,
    streams: Binding<'a>,
    sides: Binding<'a>,
}

fn prefixed(alloc: Global, prefix: &MgText, name: &MgText) -> Result<MgText, AllocError>
    ensures { IfOk result (λ text. text ≡ prefix.now ++ name.now) }
{
    Ok(MgText::from_string(format!(in alloc; "{}{}", prefix.as_str(), name.as_str())?))
}

/// Returns the name at the given port with the tag and index of `port`, if there is such a given port.
fn name_at<'a>(given: &'a PortMap, port: &Port) -> Option<&'a MgText>
    ensures { option_copied result ≡ option_map (λ outer. outer.name) (find (is_at port.now.tag port.now.index) given.now) }
{
    match given.find(port.tag.as_bytes(), port.index) {
        None => None,
        Some(i) => match given.get(i) {
            None => None,
            Some(outer) => Some(&outer.name),
        },
    }
}

impl<'a> Binding<'a> {
    ghost use Rattle.mg_subgraph.specs.Code.Bindings.{new_name};

    /// Returns the name at the node's port with the tag and index of the file's port at a place, if the node connects that port.
    fn name_beside(&self, place: usize) -> Option<&'a MgText>
        ensures { (port : Port) → slice_get (self.now.inputs.now ++ self.now.outputs.now) place ≡ Some port
            → option_copied result ≡ option_map (λ outer. outer.name) (find (is_at port.tag port.index) (if nat_lt place (length self.now.inputs.now) then self.now.given_in.now else self.now.given_out.now)) }
    {
        let Some(port) = port_at(self.inputs, self.outputs, place) else {
            return None;
        };
        if place < self.inputs.len() as usize {
            name_at(self.given_in, port)
        } else {
            name_at(self.given_out, port)
        }
    }

    fn outer_name(&self, name: &str) -> Option<&'a MgText>
        ensures { option_copied result ≡ names.joined_name self.now.given_in.now self.now.given_out.now self.now.inputs.now self.now.outputs.now name.now }
    {
        match self.names.get(name) {
            None => None,
            Some(place) => self.name_beside(place),
        }
    }

    fn new_name(&self, alloc: Global, prefix: &MgText, name: &MgText) -> Result<MgText, AllocError>
        ensures { IfOk result (λ text. text ≡ new_name self.now prefix.now name.now) }
    {
        match self.outer_name(name.as_str()) {
            Some(outer) => outer.try_clone(alloc),
            None => prefixed(alloc, prefix, name),
        }
    }

    fn new_names(
        &self,
        alloc: Global,
        prefix: &MgText,
        ports: &PortMap,
    ) -> Result<Vec<MgText>, AllocError>
        ensures { IfOk result (λ names. names.items ≡ map (λ port. new_name self.now prefix.now port.name) ports.now) }
    {
        let mut names = Vec::new(alloc);
        for i in 0..ports.len() {
            let Some(port) = ports.get(i) else {
                unreachable!()
            };
            names.push(self.new_name(alloc, prefix, &port.name)?)?;
        }
        Ok(names)
    }

    fn renamed(&self, alloc: Global, prefix: &MgText, ports: PortMap) -> Result<PortMap, AllocError>
        ensures { IfOk result (λ map. map ≡ names.renamed_ports (new_name self.now prefix.now) ports) }
    {
        let names = self.new_names(alloc, prefix, &ports)?;
        Ok(ports.with_names(names))
    }
}

impl<'a> Use<'a> {
    ghost use Rattle.mg_subgraph.specs.Code.Bindings.{IsUse, new_name};

    /// Returns the new names where the node with the number `n` uses a file.
    pub fn new(
        alloc: Global,
        n: usize,
        node: &'a NodeConfig,
        file: &'a GraphConfig,
        names: &'a FileNames<'a>,
    ) -> Result<Use<'a>, AllocError>
        requires names { AreNames names.now (graph_view file.now) }
        requires once { shared_name (graph_view file.now) ≡ None }
        ensures { IfOk result (λ used. IsUse used n (node_view node.now) (graph_view file.now)) }
    {
        let prefix = MgText::from_string(format!(in alloc; "s{n}__")?);
        Ok(Use {
            prefix,
            streams: Binding {
                names: &names.streams,
                inputs: &file.inputs,
                outputs: &file.outputs,
                given_in: &node.inputs,
                given_out: &node.outputs,
            },
            sides: Binding {
                names: &names.sides,
                inputs: &file.input_sides,
                outputs: &file.output_sides,
                given_in: &node.input_sides,
                given_out: &node.output_sides,
            },
        })
    }

    fn node_name(&self, alloc: Global, name: MgText) -> Result<MgText, AllocError>
        ensures { IfOk result (λ text. (n : ℕ) → self.now.prefix ≡ names.prefix n → text ≡ names.node_name n name) }
    {
        if name.as_bytes().is_empty() {
            return Ok(name);
        }
        prefixed(alloc, &self.prefix, &name)
    }

    fn with_name(&self, alloc: Global, node: NodeConfig) -> Result<NodeConfig, AllocError>
        ensures { IfOk result (λ new. (n : ℕ) → self.now.prefix ≡ names.prefix n → node_view new ≡ record (node_view node) { name = names.node_name n node.name }) }
    {
        let name = self.node_name(alloc, node.name)?;
        Ok(NodeConfig { name, ..node })
    }

    fn with_streams(&self, alloc: Global, node: NodeConfig) -> Result<NodeConfig, AllocError>
        ensures { IfOk result (λ new. node_view new ≡ record (node_view node) { inputs = names.renamed_ports (new_name self.now.streams self.now.prefix) node.inputs; outputs = names.renamed_ports (new_name self.now.streams self.now.prefix) node.outputs }) }
    {
        let inputs = self.streams.renamed(alloc, &self.prefix, node.inputs)?;
        let outputs = self.streams.renamed(alloc, &self.prefix, node.outputs)?;
        Ok(NodeConfig {
            inputs,
            outputs,
            ..node
        })
    }

    fn with_sides(&self, alloc: Global, node: NodeConfig) -> Result<NodeConfig, AllocError>
        ensures { IfOk result (λ new. node_view new ≡ record (node_view node) { input_sides = names.renamed_ports (new_name self.now.sides self.now.prefix) node.input_sides; output_sides = names.renamed_ports (new_name self.now.sides self.now.prefix) node.output_sides }) }
    {
        let input_sides = self.sides.renamed(alloc, &self.prefix, node.input_sides)?;
        let output_sides = self.sides.renamed(alloc, &self.prefix, node.output_sides)?;
        Ok(NodeConfig {
            input_sides,
            output_sides,
            ..node
        })
    }

    /// Returns a node of the file under its new names.
    pub fn renamed(&self, alloc: Global, inner: NodeConfig) -> Result<NodeConfig, AllocError>
        ensures { IfOk result (λ new. (n : ℕ) (node : NodeView) (file : GraphView) → IsUse self.now n node file → node_view new ≡ names.renamed n node file (node_view inner)) }
    {
        let node = self.with_name(alloc, inner)?;
        let node = self.with_streams(alloc, node)?;
        let node = self.with_sides(alloc, node)?;
        Ok(node)
    }
}
