ghost use Rattle.std.specs.Prelude.{◌≡◌, ℕ, ◌++◌, List, [], ◌∷◌, OnOk, length};
ghost use Rattle.mg_subgraph.specs.Code.Index.{IsIndex};

use mg_index::NameTable;
use std::alloc::AllocError;
use std::borrow::CowStr;

/// Adds the text at a place to the table of the texts before it. The empty text is no name: it isn't added, but keeps its place.
pub fn add_text<'a>(
    table: &mut NameTable<'a>,
    text: &'a str,
    place: usize,
) -> Result<(), AllocError>
    ensures { OnOk result ((texts : List (List ℕ)) → length texts ≡ place → IsIndex table.old texts → IsIndex table.new (texts ++ text.now ∷ [])) }
{
    if text.is_empty() {
        return Ok(());
    }
    table.insert(CowStr::Borrowed(text), place)
}
