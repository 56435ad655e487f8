ghost use Rattle.std.specs.Prelude.{◌≡◌, ◌≢◌, None, Some, IfOk, IfErr, map, position};
ghost use Rattle.mg_config.specs.Config.{graph_view};
ghost use Rattle.mg_subgraph.specs.Code.Index.{IsIndex};
ghost use Rattle.mg_subgraph.specs.Library.{is_of};
ghost use Rattle.mg_subgraph.specs.Refusals.{types_of, type_twice};

use crate::fault::ExpandFault;
use crate::index::add_text;
use mg_config::GraphConfig;
use mg_index::NameTable;
use std::alloc::{AllocError, Global};

/// The files of a library, no two of the same type, with the place of each type.
#[derive(Drop)]
pub struct Library<'a> {
    pub files: &'a [GraphConfig],
    types: NameTable<'a>,
    ghost placed: { IsIndex types (types_of (map graph_view files.now)) },
    ghost once: { type_twice (map graph_view files.now) ≡ None },
}

fn index_of<'a>(alloc: Global, files: &'a [GraphConfig]) -> Result<NameTable<'a>, AllocError>
    ensures { IfOk result (λ types. IsIndex types (types_of (map graph_view files.now))) }
{
    let mut types = NameTable::new(alloc);
    for i in 0..files.len() {
        add_text(&mut types, files[i].type_name.as_str(), i)?;
    }
    Ok(types)
}

impl<'a> Library<'a> {
    /// Returns the library of files, or refuses files if two of them have the same type.
    pub fn new(alloc: Global, files: &'a [GraphConfig]) -> Result<Library<'a>, ExpandFault>
        ensures files { IfOk result (λ library. library.files.now ≡ files.now) }
        ensures err { IfErr result (λ fault. fault ≢ ExpandFault.OutOfMemory → type_twice (map graph_view files.now) ≡ Some fault) }
    {
        let types = index_of(alloc, files)?;
        match types.again() {
            None => Ok(Library { files, types }),
            Some(i) => Err(ExpandFault::TypeTwice {
                name: files[i].type_name.try_clone(alloc)?,
            }),
        }
    }

    /// Returns the place of the file that a calculator names, or none if it names none.
    pub fn find(&self, calculator: &str) -> Option<usize>
        ensures { result ≡ position (is_of calculator.now) (map graph_view self.now.files.now) }
    {
        self.types.get(calculator)
    }
}
