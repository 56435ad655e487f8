//! The expanded nodes of a graph.
ghost use Rattle.std.specs.Prelude.{◌≡◌, ℕ, ◌<◌, ◌++◌, ◌∷◌, [], true, None, Some, IfOk, OnOk, map, length, slice_get};
ghost use Rattle.mg_config.specs.Config.{NodeView, GraphView, node_view, graph_view};
ghost use Rattle.mg_subgraph.specs.Library.{file_of};
ghost use Rattle.mg_subgraph.specs.Names.{renamed};
ghost use Rattle.mg_subgraph.specs.Expanded as expansion;
ghost use Rattle.mg_subgraph.specs.Code.Judged.{AreFileNames, AreUnshared};
ghost use Rattle.mg_subgraph.specs.Refusals.{shared_name};
ghost use Rattle.mg_subgraph.specs.Code.Bindings.{IsUse};
ghost use Rattle.mg_subgraph.specs.Code.Sizes.{nodes_at, AreSizes, AreGrounded};
ghost use Rattle.mg_subgraph.specs.Code.Views.{files_of};

use crate::copying::copy_of;
use crate::library::Library;
use crate::renaming::Use;
use crate::shared::FileNames;
use mg_config::NodeConfig;
use std::alloc::{AllocError, Global};

/// A library whose files have been judged, with the names at their ports. For each file it has the number of nodes that
/// the file expands to, if that is known.
#[derive(Drop)]
pub struct Judged<'a> {
    pub library: &'a Library<'a>,
    pub names: &'a [FileNames<'a>],
    pub sizes: &'a [Option<u32>],
    ghost counted: { length sizes.now ≡ length library.now.files.now },
    ghost named: { AreFileNames (map graph_view library.now.files.now) names.now },
    ghost sized: { AreSizes (map graph_view library.now.files.now) sizes.now },
}

/// Whether the file at a place is known to expand to no nodes, so that a node that uses it costs no work.
fn is_empty(judged: &Judged, place: usize) -> bool
    requires { place < length judged.now.library.now.files.now }
    ensures { result ≡ true → slice_get judged.now.sizes.now place ≡ Some (Some 0) }
{
    match judged.sizes[place] {
        None => false,
        Some(size) => size == 0,
    }
}

/// Appends nodes of a file under the names that they get where it is used.
fn rename_all(
    alloc: Global,
    out: &mut Vec<NodeConfig>,
    used: &Use,
    nodes: Vec<NodeConfig>,
) -> Result<(), AllocError>
    ensures { OnOk result ((n : ℕ) (node : NodeView) (file : GraphView) → IsUse used.now n node file → map node_view out.new.items ≡ map node_view out.old.items ++ map (renamed n node file) (map node_view nodes.items)) }
{
    for node in nodes {
        out.push(used.renamed(alloc, node)?)?;
    }
    Ok(())
}

#[cycle(expanding)]
fn expand_file(
    alloc: Global,
    out: &mut Vec<NodeConfig>,
    judged: &Judged,
    n: usize,
    node: &NodeConfig,
    place: usize,
) -> Result<(), AllocError>
    requires place { place < length judged.now.library.now.files.now }
    requires grounded { AreGrounded (files_of judged.now.library.now) (nodes_at (files_of judged.now.library.now) place) }
    requires unshared { AreUnshared (files_of judged.now.library.now) (nodes_at (files_of judged.now.library.now) place) }
    requires own { (file : GraphView) → slice_get (files_of judged.now.library.now) place ≡ Some file → shared_name file ≡ None }
    ensures { OnOk result ((file : GraphView) → slice_get (files_of judged.now.library.now) place ≡ Some file
        → map node_view out.new.items ≡ map node_view out.old.items ++ map (renamed n (node_view node.now) file) (expansion.expanded (files_of judged.now.library.now) file.nodes)) }
{
    if is_empty(judged, place) {
        return Ok(());
    }
    let file = &judged.library.files[place];
    let nodes = expanded(alloc, judged, file.nodes.as_slice())?;
    let used = Use::new(alloc, n, node, file, &judged.names[place])?;
    rename_all(alloc, out, &used, nodes)
}

#[cycle(expanding)]
fn expand_node(
    alloc: Global,
    out: &mut Vec<NodeConfig>,
    judged: &Judged,
    n: usize,
    node: &NodeConfig,
) -> Result<(), AllocError>
    requires grounded { AreGrounded (files_of judged.now.library.now) (node_view node.now ∷ []) }
    requires unshared { AreUnshared (files_of judged.now.library.now) (node_view node.now ∷ []) }
    ensures { OnOk result (map node_view out.new.items ≡ map node_view out.old.items ++ expansion.replaced (expansion.expanded (files_of judged.now.library.now)) n (node_view node.now) (file_of (files_of judged.now.library.now) node.now.calculator)) }
{
    match judged.library.find(node.calculator.as_str()) {
        None => Ok(out.push(copy_of(alloc, node)?)?),
        Some(place) => expand_file(alloc, out, judged, n, node, place),
    }
}

/// Returns the expanded nodes of a list of nodes.
#[cycle(expanding)]
pub fn expanded(
    alloc: Global,
    judged: &Judged,
    nodes: &[NodeConfig],
) -> Result<Vec<NodeConfig>, AllocError>
    requires grounded { AreGrounded (files_of judged.now.library.now) (map node_view nodes.now) }
    requires unshared { AreUnshared (files_of judged.now.library.now) (map node_view nodes.now) }
    ensures { IfOk result (λ out. map node_view out.items ≡ expansion.expanded (files_of judged.now.library.now) (map node_view nodes.now)) }
{
    let mut out = Vec::new(alloc);
    for (n, node) in nodes.iter().enumerate() {
        expand_node(alloc, &mut out, judged, n, node)?;
    }
    Ok(out)
}
