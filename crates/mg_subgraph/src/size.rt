//! How many nodes there are after expansion. The nodes of each file are counted once, and a count stops at one more than the limit.
ghost use Rattle.std.specs.Prelude.{◌≡◌, ◌≢◌, ◌+◌, ◌≤◌, ◌<◌, [], ◌∷◌, None, Some, IfOk, IfErr, OnOk, map, length, min, nat_lt, vec_len};
ghost use Rattle.mg_config.specs.Config.{node_view, graph_view};
ghost use Rattle.mg_subgraph.specs.Expanded.{replaced, expanded};
ghost use Rattle.mg_subgraph.specs.Library.{file_of};
ghost use Rattle.mg_subgraph.specs.Refusals.{max_nodes, recursive, too_many_nodes};
ghost use Rattle.mg_subgraph.specs.Code.Sizes.{counted, nodes_at, AreSizes, AreGrounded};
ghost use Rattle.mg_subgraph.specs.Code.Views.{files_of};

use crate::fault::ExpandFault;
use crate::library::Library;
use mg_config::{GraphConfig, NodeConfig, NodeList};
use std::alloc::{AllocError, Global};

/// How many nodes a graph may have after expansion.
const MAX_NODES: u32 = 4096;

/// Returns whether there are more nodes than a graph may have.
pub(crate) fn is_large(nodes: &NodeList) -> bool
    ensures { result ≡ nat_lt max_nodes (length nodes.now) }
{
    nodes.len() > MAX_NODES
}

/// Returns the sum of two counts, or one more than the limit if the sum is above the limit.
fn sum(first: u32, second: u32) -> u32
    requires first { first ≤ max_nodes + 1 }
    requires second { second ≤ max_nodes + 1 }
    ensures { result ≡ min (first + second) (max_nodes + 1) }
{
    let both = first + second;
    if both > MAX_NODES {
        MAX_NODES + 1
    } else {
        both
    }
}

#[cycle(sizes)]
fn file_size(library: &Library, sizes: &mut [Option<u32>], place: usize) -> u32
    requires place { place < length library.now.files.now }
    requires room { length sizes.old ≡ length library.now.files.now }
    requires grounded { AreGrounded (files_of library.now) (nodes_at (files_of library.now) place) }
    requires sizes { AreSizes (files_of library.now) sizes.old }
    ensures size { result ≡ counted (expanded (files_of library.now) (nodes_at (files_of library.now) place)) }
    ensures sizes { AreSizes (files_of library.now) sizes.new }
{
    if let Some(size) = sizes[place] {
        return size;
    }
    let size = nodes_size(library, sizes, library.files[place].nodes.as_slice());
    sizes[place] = Some(size);
    size
}

#[cycle(sizes)]
fn node_size(library: &Library, sizes: &mut [Option<u32>], node: &NodeConfig) -> u32
    requires room { length sizes.old ≡ length library.now.files.now }
    requires grounded { AreGrounded (files_of library.now) (node_view node.now ∷ []) }
    requires sizes { AreSizes (files_of library.now) sizes.old }
    ensures size { result ≡ counted (replaced (expanded (files_of library.now)) 0 (node_view node.now) (file_of (files_of library.now) node.now.calculator)) }
    ensures sizes { AreSizes (files_of library.now) sizes.new }
{
    match library.find(node.calculator.as_str()) {
        None => 1,
        Some(place) => file_size(library, sizes, place),
    }
}

/// Returns how many nodes a list of nodes expands to, or one more than the limit if they are more than the limit.
#[cycle(sizes)]
fn nodes_size(library: &Library, sizes: &mut [Option<u32>], nodes: &[NodeConfig]) -> u32
    requires room { length sizes.old ≡ length library.now.files.now }
    requires grounded { AreGrounded (files_of library.now) (map node_view nodes.now) }
    requires sizes { AreSizes (files_of library.now) sizes.old }
    ensures size { result ≡ counted (expanded (files_of library.now) (map node_view nodes.now)) }
    ensures sizes { AreSizes (files_of library.now) sizes.new }
{
    let mut total = 0;
    for node in nodes {
        total = sum(total, node_size(library, sizes, node));
    }
    total
}

/// Returns for each file that was counted the number of nodes that it expands to, or refuses a graph that expands to too many.
pub fn sizes_of(
    alloc: Global,
    main: &GraphConfig,
    library: &Library,
) -> Result<Vec<Option<u32>>, ExpandFault>
    requires { recursive (graph_view main.now) (files_of library.now) ≡ None }
    ensures sizes { IfOk result (λ sizes. AreSizes (files_of library.now) sizes.items) }
    ensures len { IfOk result (λ sizes. vec_len sizes ≡ length library.now.files.now) }
    ensures ok { OnOk result (too_many_nodes (graph_view main.now) (files_of library.now) ≡ None) }
    ensures err { IfErr result (λ fault. fault ≢ ExpandFault.OutOfMemory → too_many_nodes (graph_view main.now) (files_of library.now) ≡ Some fault) }
{
    let mut sizes = vec![in alloc; None; library.files.len()]?;
    if nodes_size(library, &mut sizes, main.nodes.as_slice()) > MAX_NODES {
        return Err(ExpandFault::TooManyNodes);
    }
    Ok(sizes)
}
