//! The text of a graph's configuration.
ghost use Rattle.std.specs.Prelude.{◌≡◌, IfOk};
ghost use Rattle.mg_config.specs.Config.{graph_view};
ghost use Rattle.mg_config.specs.Sound.{IsSound, IsPrintable};
ghost use Rattle.mg_files.specs.File.{graph_text as the_text};

use mg_config::{GraphConfig, write};
use mg_text::print;
use std::alloc::{AllocError, Global};

/// Returns the text of a configuration. The configuration is dropped once its fields are made and before these are printed.
pub fn graph_text(alloc: Global, graph: GraphConfig) -> Result<Vec<u8>, AllocError>
    requires sound { IsSound (graph_view graph) }
    requires printable { IsPrintable (graph_view graph) }
    ensures { IfOk result (λ text. text.items ≡ the_text (graph_view graph)) }
{
    let tree = write(alloc, &graph)?;
    drop(graph);
    print(alloc, &tree)
}
