//! The note of a graph that is refused since it has free nodes.
ghost use Rattle.std.specs.Prelude.{◌≡◌, IfOk};
ghost use Rattle.mg_files.specs.Notes.{free_note as the_note};

use crate::refusal::{at_place, stage_note};
use std::alloc::{AllocError, Global};

/// Returns the note that a graph can't be used in the way of a word, since it has free nodes. `node` is the number of the first of these.
pub fn free_note(alloc: Global, verb: &[u8], node: u32) -> Result<Vec<u8>, AllocError>
    ensures { IfOk result (λ note. note.items ≡ the_note verb.now node) }
{
    let refusal = at_place(alloc, b"FreeNode ", node)?;
    let note = stage_note(alloc, verb, &refusal)?;
    Ok(note)
}
