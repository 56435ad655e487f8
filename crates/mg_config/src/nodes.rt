//! The nodes that the fields of a graph tell of.
ghost use Rattle.std.specs.Prelude.{◌≡◌, ◌≢◌, [], Ok, Err, IfOk, IfErr, map, codes};
ghost use Rattle.mg_text.specs.Tree.{none};
ghost use Rattle.mg_text.specs.View.{field_view, view};
ghost use Rattle.mg_config.specs.Values.{messages_in};
ghost use Rattle.mg_config.specs.Path as paths;
ghost use Rattle.mg_config.specs.Config as config;

use crate::fault::ConfigFault;
use crate::graph::NodeList;
use crate::node::{NodeConfig, node_of};
use crate::path::within_numbered;
use crate::value::{fields_of_value, has_name};
use mg_text::{Field, Tree};
use mg_value::BlockList;
use std::alloc::Global;

/// Returns the node of the message with the number `k`, from 0 on; a fault has that message in its path.
fn node_at(
    alloc: Global,
    no_fields: &Tree,
    k: usize,
    fields: &[Field],
) -> Result<NodeConfig, ConfigFault>
    requires { view no_fields.now ≡ none }
    ensures ok { IfOk result (λ node. paths.result_within (paths.numbered (codes "node") k) (config.node_of (map field_view fields.now)) ≡ Ok (config.node_view node)) }
    ensures err { IfErr result (λ fault. fault ≢ ConfigFault.OutOfMemory → paths.result_within (paths.numbered (codes "node") k) (config.node_of (map field_view fields.now)) ≡ Err fault) }
{
    match node_of(alloc, no_fields, fields) {
        Ok(node) => Ok(node),
        Err(fault) => Err(within_numbered(alloc, "node", k, fault)),
    }
}

/// Returns the nodes that the fields of a graph tell of, in order. The nodes without options share one list of no fields.
pub fn nodes_named(alloc: Global, fields: &[Field]) -> Result<NodeList, ConfigFault>
    ensures ok { IfOk result (λ nodes. config.nodes_from 0 (messages_in (codes "node") (map field_view fields.now)) ≡ Ok (map config.node_view nodes)) }
    ensures err { IfErr result (λ fault. fault ≢ ConfigFault.OutOfMemory → config.nodes_from 0 (messages_in (codes "node") (map field_view fields.now)) ≡ Err fault) }
{
    let no_fields = Tree::new(alloc, Vec::new(alloc))?;
    let nodes = nodes_sharing(alloc, &no_fields, fields)?;
    Ok(nodes)
}

/// Returns the nodes that the fields of a graph tell of, in order. A node without options shares `no_fields`.
fn nodes_sharing(alloc: Global, no_fields: &Tree, fields: &[Field]) -> Result<NodeList, ConfigFault>
    requires { view no_fields.now ≡ none }
    ensures ok { IfOk result (λ nodes. config.nodes_from 0 (messages_in (codes "node") (map field_view fields.now)) ≡ Ok (map config.node_view nodes)) }
    ensures err { IfErr result (λ fault. fault ≢ ConfigFault.OutOfMemory → config.nodes_from 0 (messages_in (codes "node") (map field_view fields.now)) ≡ Err fault) }
{
    let mut nodes = Vec::new(alloc);
    let mut k: usize = 0;
    for field in fields {
        if !has_name(field, b"node") {
            continue;
        }
        let node = node_at(alloc, no_fields, k, fields_of_value(&field.value))?;
        nodes.push(node)?;
        k += 1;
    }
    Ok(BlockList::from_vec(nodes)?)
}
