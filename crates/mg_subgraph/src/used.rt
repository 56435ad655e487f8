//! The files that a graph uses, and those among them that use themselves.
ghost use Rattle.std.specs.Prelude.{◌≡◌, ◌≢◌, ◌<◌, None, Some, IfOk, IfErr, OnOk, map, length};
ghost use Rattle.mg_config.specs.Config.{graph_view};
ghost use Rattle.mg_subgraph.specs.Code.Places.{IsReach, AreWithin, AreClosed, IsCyclic, IsFirstCycle};
ghost use Rattle.mg_subgraph.specs.Refusals.{recursive};
ghost use Rattle.mg_subgraph.specs.Library.{used_files};
ghost use Rattle.mg_subgraph.specs.Code.Judged.{flagged};
ghost use Rattle.mg_subgraph.specs.Code.Views.{files_of};

use crate::fault::ExpandFault;
use crate::library::Library;
use crate::links::{all_links, links_of, reach};
use mg_config::GraphConfig;
use std::alloc::{AllocError, Global};

/// Whether links lead from a place back to it.
fn leads_back(alloc: Global, links: &[Vec<usize>], place: usize) -> Result<bool, AllocError>
    requires place { place < length links.now }
    requires links { AreClosed (map (λ list. list.items) links.now) }
    ensures { IfOk result (λ leads. IsCyclic (map (λ list. list.items) links.now) place leads) }
{
    let flags = reach(alloc, links, links[place].as_slice())?;
    Ok(flags[place])
}

/// Returns the first place of a file that is used and uses itself, directly or not, or none if there is no such file.
fn recursive_place(
    alloc: Global,
    links: &[Vec<usize>],
    used: &[bool],
) -> Result<Option<usize>, AllocError>
    requires len { length used.now ≡ length links.now }
    requires links { AreClosed (map (λ list. list.items) links.now) }
    ensures { IfOk result (λ found. IsFirstCycle (map (λ list. list.items) links.now) used.now found) }
{
    for place in 0..links.len() {
        if !used[place] {
            continue;
        }
        if leads_back(alloc, links, place)? {
            return Ok(Some(place));
        }
    }
    Ok(None)
}

/// For each file whether it is used, and the place of the first used file that uses itself, if there is one.
#[derive(Drop)]
struct Walked {
    used: Vec<bool>,
    cycle: Option<usize>,
}

fn walk(alloc: Global, links: &[Vec<usize>], start: &[usize]) -> Result<Walked, AllocError>
    requires links { AreClosed (map (λ list. list.items) links.now) }
    requires start { AreWithin (map (λ list. list.items) links.now) start.now }
    ensures used { IfOk result (λ walked. IsReach (map (λ list. list.items) links.now) start.now walked.used.items) }
    ensures len { IfOk result (λ walked. length walked.used.items ≡ length links.now) }
    ensures cycle { IfOk result (λ walked. IsFirstCycle (map (λ list. list.items) links.now) walked.used.items walked.cycle) }
{
    let used = reach(alloc, links, start)?;
    let cycle = recursive_place(alloc, links, used.as_slice())?;
    Ok(Walked { used, cycle })
}

/// Returns for each file of a library whether a graph uses it, directly or not, or refuses a used file that uses itself.
pub fn used_by(
    alloc: Global,
    main: &GraphConfig,
    library: &Library,
) -> Result<Vec<bool>, ExpandFault>
    ensures used { IfOk result (λ used. flagged used.items (files_of library.now) ≡ used_files (graph_view main.now) (files_of library.now)) }
    ensures len { IfOk result (λ used. length used.items ≡ length library.now.files.now) }
    ensures ok { OnOk result (recursive (graph_view main.now) (files_of library.now) ≡ None) }
    ensures err { IfErr result (λ fault. fault ≢ ExpandFault.OutOfMemory → recursive (graph_view main.now) (files_of library.now) ≡ Some fault) }
{
    let links = all_links(alloc, library)?;
    let start = links_of(alloc, library, main.nodes.as_slice())?;
    let walked = walk(alloc, links.as_slice(), start.as_slice())?;
    match walked.cycle {
        None => Ok(walked.used),
        Some(place) => Err(ExpandFault::Recursive {
            name: library.files[place].type_name.try_clone(alloc)?,
        }),
    }
}
