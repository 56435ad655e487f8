ghost use Rattle.std.specs.Prelude.{◌≡◌, ◌≢◌, None, Some, Ok, Err, IfOk, IfErr, OnOk, map, length, vec_len, All};
ghost use Rattle.std.specs.Option.{option_or};
ghost use Rattle.mg_config.specs.Config.{graph_view};
ghost use Rattle.mg_config.specs.Sound.{IsSound, IsPrintable};
ghost use Rattle.mg_subgraph.specs.Expansion.{expansion_of};
ghost use Rattle.mg_subgraph.specs.Expanded.{expanded as expanded_nodes};
ghost use Rattle.mg_subgraph.specs.Library.{used_files};
ghost use Rattle.mg_subgraph.specs.Code.Judged.{flagged, AreFileNames, AreUnshared};
ghost use Rattle.mg_subgraph.specs.Refusals as refusals;
ghost use Rattle.mg_subgraph.specs.Code.Sizes.{AreSizes, AreGrounded};
ghost use Rattle.mg_subgraph.specs.Code.Views.{files_of};

use crate::copying::{PortLists, lists_of};
use crate::expanding::{Judged, expanded};
use crate::fault::ExpandFault;
use crate::library::Library;
use crate::nodes::{Check, check_subgraphs};
use crate::reserved::{check_reserved, has_subgraph};
use crate::shared::{FileNames, check_shared, names_of};
use crate::size::{is_large, sizes_of};
use crate::used::used_by;
use mg_config::GraphConfig;
use mg_value::BlockList;
use std::alloc::{AllocError, Global};

/// For each file whether it is used, and the number of nodes that it expands to, if that is known.
#[derive(Drop)]
struct Survey {
    used: Vec<bool>,
    sizes: Vec<Option<u32>>,
}

fn survey_of(alloc: Global, main: &GraphConfig, library: &Library) -> Result<Survey, ExpandFault>
    ensures used { IfOk result (λ survey. flagged survey.used.items (files_of library.now) ≡ used_files (graph_view main.now) (files_of library.now)) }
    ensures flags { IfOk result (λ survey. length survey.used.items ≡ length library.now.files.now) }
    ensures sizes { IfOk result (λ survey. AreSizes (files_of library.now) survey.sizes.items) }
    ensures counts { IfOk result (λ survey. vec_len survey.sizes ≡ length library.now.files.now) }
    ensures recursive { OnOk result (refusals.recursive (graph_view main.now) (files_of library.now) ≡ None) }
    ensures few { OnOk result (refusals.too_many_nodes (graph_view main.now) (files_of library.now) ≡ None) }
    ensures err { IfErr result (λ fault. fault ≢ ExpandFault.OutOfMemory → option_or (refusals.recursive (graph_view main.now) (files_of library.now)) (refusals.too_many_nodes (graph_view main.now) (files_of library.now)) ≡ Some fault) }
{
    let used = used_by(alloc, main, library)?;
    let sizes = sizes_of(alloc, main, library)?;
    Ok(Survey { used, sizes })
}

fn judge_names<'a>(
    alloc: Global,
    main: &GraphConfig,
    library: &Library<'a>,
    used: &[bool],
) -> Result<Vec<FileNames<'a>>, ExpandFault>
    requires len { length used.now ≡ length library.now.files.now }
    requires used { flagged used.now (files_of library.now) ≡ used_files (graph_view main.now) (files_of library.now) }
    ensures names { IfOk result (λ names. AreFileNames (files_of library.now) names.items) }
    ensures reserved { OnOk result (refusals.reserved_name (graph_view main.now) (files_of library.now) ≡ None) }
    ensures shared { OnOk result (refusals.port_shared (graph_view main.now) (files_of library.now) ≡ None) }
    ensures err { IfErr result (λ fault. fault ≢ ExpandFault.OutOfMemory → option_or (refusals.reserved_name (graph_view main.now) (files_of library.now)) (refusals.port_shared (graph_view main.now) (files_of library.now)) ≡ Some fault) }
{
    check_reserved(alloc, main, library, used)?;
    let names = names_of(alloc, library.files)?;
    check_shared(alloc, library.files, used, names.as_slice())?;
    Ok(names)
}

fn judge_nodes(
    alloc: Global,
    main: &GraphConfig,
    library: &Library,
    used: &[bool],
) -> Result<(), ExpandFault>
    requires len { length used.now ≡ length library.now.files.now }
    requires used { flagged used.now (files_of library.now) ≡ used_files (graph_view main.now) (files_of library.now) }
    ensures fields { OnOk result (refusals.bad_field (graph_view main.now) (files_of library.now) ≡ None) }
    ensures ports { OnOk result (refusals.no_such_port (graph_view main.now) (files_of library.now) ≡ None) }
    ensures err { IfErr result (λ fault. fault ≢ ExpandFault.OutOfMemory → option_or (refusals.bad_field (graph_view main.now) (files_of library.now)) (refusals.no_such_port (graph_view main.now) (files_of library.now)) ≡ Some fault) }
{
    check_subgraphs(alloc, Check::Fields, main, library, used)?;
    check_subgraphs(alloc, Check::Ports, main, library, used)
}

fn build(alloc: Global, main: &GraphConfig, judged: &Judged) -> Result<GraphConfig, AllocError>
    requires grounded { AreGrounded (files_of judged.now.library.now) (graph_view main.now).nodes }
    requires unshared { AreUnshared (files_of judged.now.library.now) (graph_view main.now).nodes }
    ensures { IfOk result (λ graph. graph_view graph ≡ record (graph_view main.now) { nodes = expanded_nodes (files_of judged.now.library.now) (graph_view main.now).nodes }) }
{
    let type_name = main.type_name.try_clone(alloc)?;
    let PortLists {
        inputs,
        outputs,
        input_sides,
        output_sides,
    } = lists_of(
        alloc,
        &main.inputs,
        &main.outputs,
        &main.input_sides,
        &main.output_sides,
    )?;
    let nodes = expanded(alloc, judged, main.nodes.as_slice())?;
    Ok(GraphConfig {
        type_name,
        nodes: BlockList::from_vec(nodes)?,
        inputs,
        outputs,
        input_sides,
        output_sides,
        max_queue_size: main.max_queue_size,
        num_threads: main.num_threads,
    })
}

fn expand_in(
    alloc: Global,
    main: &GraphConfig,
    library: &Library,
) -> Result<GraphConfig, ExpandFault>
    ensures ok { IfOk result (λ graph. expansion_of (graph_view main.now) (files_of library.now) ≡ Ok (graph_view graph)) }
    ensures err { IfErr result (λ fault. fault ≢ ExpandFault.OutOfMemory → expansion_of (graph_view main.now) (files_of library.now) ≡ Err fault) }
{
    let Survey { used, sizes } = survey_of(alloc, main, library)?;
    let names = judge_names(alloc, main, library, used.as_slice())?;
    judge_nodes(alloc, main, library, used.as_slice())?;
    let judged = Judged {
        library,
        names: names.as_slice(),
        sizes: sizes.as_slice(),
    };
    Ok(build(alloc, main, &judged)?)
}

/// Returns the graph with the nodes of library files in the place of the nodes that use them (MediaPipe, Graphs:
/// subgraphs). A node whose calculator is the type of a file uses that file. A name at a port of the file that the node
/// connects becomes the name at the node's port of the same tag and index. Every other name of the file that isn't
/// empty gets the prefix `s<n>__`; n is the number of the node. The function looks for refusals in the order of
/// `ExpandFault`. The graph and the files stay as they are.
pub fn expand(
    alloc: Global,
    main: &GraphConfig,
    library: &[GraphConfig],
) -> Result<GraphConfig, ExpandFault>
    ensures ok { IfOk result (λ graph. expansion_of (graph_view main.now) (map graph_view library.now) ≡ Ok (graph_view graph)) }
    ensures err { IfErr result (λ fault. fault ≢ ExpandFault.OutOfMemory → expansion_of (graph_view main.now) (map graph_view library.now) ≡ Err fault) }

    // If the graph and all files can be written and read back, so can the expanded graph. If all of them can be
    // printed, so can the expanded graph.
    ensures sound { IfOk result (λ graph. IsSound (graph_view main.now) → All (λ file. IsSound (graph_view file)) library.now → IsSound (graph_view graph)) }
    ensures printable { IfOk result (λ graph. IsPrintable (graph_view main.now) → All (λ file. IsPrintable (graph_view file)) library.now → IsPrintable (graph_view graph)) }
{
    let library = Library::new(alloc, library)?;
    expand_in(alloc, main, &library)
}

// Returns the expansion of a graph that the caller hands over. A graph without subgraph nodes is handed back.
fn expand_own_in(
    alloc: Global,
    main: GraphConfig,
    library: &Library,
) -> Result<GraphConfig, ExpandFault>
    ensures ok { IfOk result (λ graph. expansion_of (graph_view main) (files_of library.now) ≡ Ok (graph_view graph)) }
    ensures err { IfErr result (λ fault. fault ≢ ExpandFault.OutOfMemory → expansion_of (graph_view main) (files_of library.now) ≡ Err fault) }
{
    if has_subgraph(library, main.nodes.as_slice()) {
        return expand_in(alloc, &main, library);
    }
    if is_large(&main.nodes) {
        return Err(ExpandFault::TooManyNodes);
    }
    Ok(main)
}

/// Returns what `expand` returns, for a graph that the caller hands over. A graph without subgraph nodes is handed
/// back, and nothing of it is copied.
pub fn expand_own(
    alloc: Global,
    main: GraphConfig,
    library: &[GraphConfig],
) -> Result<GraphConfig, ExpandFault>
    ensures ok { IfOk result (λ graph. expansion_of (graph_view main) (map graph_view library.now) ≡ Ok (graph_view graph)) }
    ensures err { IfErr result (λ fault. fault ≢ ExpandFault.OutOfMemory → expansion_of (graph_view main) (map graph_view library.now) ≡ Err fault) }

    // If the graph and all files can be written and read back, so can the expanded graph. If all of them can be
    // printed, so can the expanded graph.
    ensures sound { IfOk result (λ graph. IsSound (graph_view main) → All (λ file. IsSound (graph_view file)) library.now → IsSound (graph_view graph)) }
    ensures printable { IfOk result (λ graph. IsPrintable (graph_view main) → All (λ file. IsPrintable (graph_view file)) library.now → IsPrintable (graph_view graph)) }
{
    let library = Library::new(alloc, library)?;
    expand_own_in(alloc, main, &library)
}
