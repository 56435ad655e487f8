ghost use Rattle.std.specs.Prelude.{◌≡◌, [], Option, None, Some};
ghost use Rattle.std.specs.Option.{option_map};
ghost use Rattle.mg_edge.specs.Edge.{LoadsWithin, LoadGives};
ghost use Rattle.mg_edge.specs.Adapters.{folder_told};

use crate::loaded_names::push_name;
use crate::{Loaded, MOST_LOADED, Store};
use std::alloc::Global;
use std::fs;
use std::io::{ErrorKind, Read};
use std::rt::Files;

/// Files by their names, read through a runtime that opens them. The system is trusted for what is in a file: the store
/// tells no content.
#[derive(Drop)]
pub struct FolderStore<R> {
    rt: R,
    loaded: Vec<String>,
    failed_name: Option<String>,
    faults: u64,
}

impl<R: Files + Drop> FolderStore<R> {
    /// Makes a store over the files of a runtime, with no load yet. It takes the names that `std::fs` takes. The names that are
    /// loaded are kept in memory of `alloc`.
    pub fn new(alloc: Global, rt: R) -> FolderStore<R>
        ensures loaded { (⟦<FolderStore<R> as Store>⟧.told result).loaded ≡ [] }
        ensures failed_name { (⟦<FolderStore<R> as Store>⟧.told result).failed_name ≡ None }
        ensures faults { (⟦<FolderStore<R> as Store>⟧.told result).faults ≡ 0 }
    {
        FolderStore {
            rt,
            loaded: Vec::new(alloc),
            failed_name: None,
            faults: 0,
        }
    }
}

impl<R: Files + Drop> Store for FolderStore<R> {
    ghost told = { folder_told };

    fn load(&mut self, alloc: Global, name: &str) -> Loaded {
        let Ok(copy) = String::from_str(alloc, name) else {
            return Loaded::OutOfMemory;
        };
        if push_name(alloc, &mut self.loaded, name).is_err() {
            return Loaded::OutOfMemory;
        }
        let loaded = read_file(&self.rt, alloc, name);
        if let Loaded::Failed = loaded {
            self.failed_name = Some(copy);
            self.faults = self.faults.wrapping_add(1);
        }
        loaded
    }
}

// Reads the first bytes of a file, by its name.
fn read_file<R: Files>(rt: &R, alloc: Global, name: &str) -> Loaded
    ensures { LoadsWithin result }
{
    match fs::open(rt, name) {
        Ok(file) => read_front(alloc, file),
        Err(_) => Loaded::Failed,
    }
}

// Reads the first bytes that a reader has left, `MOST_LOADED` at most.
fn read_front<F: Read + Drop>(alloc: Global, file: F) -> Loaded
    ensures bound { LoadsWithin result }
    ensures bytes { LoadGives (option_map Some (F.remaining file)) result }
{
    let mut bytes = Vec::new(alloc);
    let mut front = file.take(MOST_LOADED as u64);
    match front.read_to_end(&mut bytes) {
        Ok(_) => {
            bytes.truncate(MOST_LOADED);
            Loaded::Bytes(bytes)
        }
        Err(error) if error.kind() == ErrorKind::OutOfMemory => Loaded::OutOfMemory,
        Err(_) => Loaded::Failed,
    }
}
