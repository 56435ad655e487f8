ghost use Rattle.std.specs.Prelude.{◌≡◌, ◌∷◌, ◌++◌, [], map, OnOk, OnErr};
ghost use Rattle.std.specs.String.{string_bytes};

use std::alloc::{AllocError, Global};

/// Appends a copy of a name to names. Out of memory: the names stay.
pub fn push_name(alloc: Global, names: &mut Vec<String>, name: &str) -> Result<(), AllocError>
    ensures ok { OnOk result (map string_bytes names.new.items ≡ map string_bytes names.old.items ++ name.now ∷ []) }
    ensures err { OnErr result (map string_bytes names.new.items ≡ map string_bytes names.old.items) }
{
    let copy = String::from_str(alloc, name)?;
    names.push(copy)?;
    Ok(())
}
