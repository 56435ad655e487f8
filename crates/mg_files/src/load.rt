//! Loads the files of a command.
ghost use Rattle.std.specs.Prelude.{IfOk, IfErr};
ghost use Rattle.mg_answer.specs.Devices.{device};
ghost use Rattle.mg_files.specs.Loads.{LoadedAll};
ghost use Rattle.mg_files.specs.Reads.{contents_of, HasFailed};

use crate::fault::Fault;
use crate::file_notes::store_note;
use mg_edge::{Loaded, Store};
use mg_value::MgText;
use std::alloc::Global;

/// Loads the files of these names in order, up to the first that can't be loaded, and returns their contents. The error is the note that
/// names that file, or that memory ran out.
pub fn load_all<T: Store>(
    alloc: Global,
    store: &mut T,
    names: &[MgText],
) -> Result<Vec<Vec<u8>>, Fault>
    ensures all { IfOk result (λ contents. LoadedAll names.now (contents_of contents.items) (device (T.told store.old) (T.told store.new))) }
    ensures failed { IfErr result (λ fault. HasFailed fault names.now (device (T.told store.old) (T.told store.new))) }
{
    let mut contents = Vec::new(alloc);
    for name in names {
        match store.load(alloc, name.as_str()) {
            Loaded::Bytes(content) => contents.push(content)?,
            Loaded::Failed => return Err(Fault::Noted(store_note(alloc, name.as_str())?)),
            Loaded::OutOfMemory => return Err(Fault::OutOfMemory),
        }
    }
    Ok(contents)
}
