//! The note of a graph that isn't solved since a calculator in it is an author's own.
ghost use Rattle.std.specs.Prelude.{◌≡◌, IfOk};
ghost use Rattle.mg_files.specs.Notes.{own_law_note as the_note};

use crate::refusal::{at_place, stage_note};
use std::alloc::{AllocError, Global};

/// Returns the note that a graph can't be solved, since the law of one of its nodes is an author's own. `node` is the number of the first
/// such node.
pub fn own_law_note(alloc: Global, node: u32) -> Result<Vec<u8>, AllocError>
    ensures { IfOk result (λ note. note.items ≡ the_note node) }
{
    let refusal = at_place(alloc, b"OwnLaw ", node)?;
    let note = stage_note(alloc, b"solve", &refusal)?;
    Ok(note)
}
