//! The contents of a command's files, read as graphs.
ghost use Rattle.std.specs.Prelude.{◌≡◌, ◌≤◌, ℕ, List, IfOk, IfErr, length, map};
ghost use Rattle.mg_text.specs.Tree.{depth};
ghost use Rattle.mg_text.specs.View.{view};
ghost use Rattle.mg_text.specs.Answer.{max_depth};
ghost use Rattle.mg_text.specs.Canonical.{AreSpelled};
ghost use Rattle.mg_config.specs.Config.{graph_view};
ghost use Rattle.mg_files.specs.File.{graph, IsFile, IsText};
ghost use Rattle.mg_files.specs.Files.{AreGraphs};
ghost use Rattle.mg_files.specs.Reads.{contents_of, IsNotedOf, AreNotedOf};

use crate::fault::Fault;
use crate::file_notes::{config_note, text_note};
use mg_config::{GraphConfig, read};
use mg_text::{Tree, parse};
use mg_value::MgText;
use std::alloc::Global;

/// Returns the graphs of files of these names and contents, in order. The error is the note of the first file that is no graph, or that
/// memory ran out.
pub fn graphs_of(
    alloc: Global,
    names: &[MgText],
    contents: &[Vec<u8>],
) -> Result<Vec<GraphConfig>, Fault>
    requires each { length contents.now ≡ length names.now }
    ensures graphs { IfOk result (λ graphs. AreGraphs (contents_of contents.now) (map graph_view graphs.items)) }
    ensures refused { IfErr result (λ fault. AreNotedOf fault names.now (contents_of contents.now)) }
{
    let mut graphs = Vec::new(alloc);
    for (place, name) in names.iter().enumerate() {
        let graph = graph_of(alloc, name.as_str(), &contents[place])?;
        graphs.push(graph)?;
    }
    Ok(graphs)
}

// Returns the graph of a file, or as the error the note that it is none.
fn graph_of(alloc: Global, name: &str, content: &[u8]) -> Result<GraphConfig, Fault>
    ensures graph { IfOk result (λ config. IsFile content.now (graph (graph_view config))) }
    ensures refused { IfErr result (λ fault. IsNotedOf fault name.now content.now) }
{
    match parse(alloc, content) {
        Ok(tree) => graph_of_tree(alloc, name, &tree),
        Err(fault) => Err(Fault::Noted(text_note(alloc, name, &fault)?)),
    }
}

fn graph_of_tree(alloc: Global, name: &str, tree: &Tree) -> Result<GraphConfig, Fault>
    requires spelled { AreSpelled (view tree.now) }
    requires shallow { depth (view tree.now) ≤ max_depth }
    ensures graph { IfOk result (λ config. (content : List ℕ) → IsText content (view tree.now) → IsFile content (graph (graph_view config))) }
    ensures refused { IfErr result (λ fault. (content : List ℕ) → IsText content (view tree.now) → IsNotedOf fault name.now content) }
{
    match read(alloc, tree) {
        Ok(graph) => Ok(graph),
        Err(fault) => Err(Fault::Noted(config_note(alloc, name, &fault)?)),
    }
}
