//! Paths to fields: the names from the top, joined by `.`, with `[k]` after the name of a field that may stand more
//! than once.
ghost use Rattle.std.specs.Prelude.{◌≡◌, ◌≢◌, IfOk, map};
ghost use Rattle.mg_text.specs.View.{field_view};
ghost use Rattle.mg_config.specs.Path as paths;

use crate::fault::ConfigFault;
use mg_text::Field;
use mg_value::MgText;
use std::alloc::{AllocError, Global};

/// Returns how many of the fields have this name.
fn count_of(fields: &[Field], name: &[u8]) -> usize
    ensures { result ≡ paths.count_of name.now (map field_view fields.now) }
{
    fields.iter().filter(|field| field.name.is(name)).count()
}

/// Returns the text `name[k]`.
pub fn numbered(alloc: Global, name: &str, k: usize) -> Result<MgText, AllocError>
    ensures { IfOk result (λ text. text ≡ paths.numbered name.now k) }
{
    Ok(MgText::from_string(format!(in alloc; "{name}[{k}]")?))
}

/// Returns the part of a path that names a field: `name[k]` if it may stand more than once, and otherwise `name`. `k`
/// is how many fields before it have the name.
pub fn step(
    alloc: Global,
    many: bool,
    name: &MgText,
    before: &[Field],
) -> Result<MgText, AllocError>
    ensures { IfOk result (λ text. text ≡ paths.step many name.now (map field_view before.now)) }
{
    if many {
        numbered(alloc, name.as_str(), count_of(before, name.as_bytes()))
    } else {
        name.try_clone(alloc)
    }
}

/// Returns the path `place.path`.
pub fn below(alloc: Global, place: &str, path: MgText) -> Result<MgText, AllocError>
    ensures { IfOk result (λ text. text ≡ paths.below place.now path) }
{
    Ok(MgText::from_string(format!(in alloc; "{place}.{}", path.as_str())?))
}

fn moved(alloc: Global, place: &str, fault: ConfigFault) -> Result<ConfigFault, AllocError>
    ensures { IfOk result (λ moved. moved ≡ paths.within place.now fault) }
{
    let moved = match fault {
        ConfigFault::UnknownField { path } => ConfigFault::UnknownField {
            path: below(alloc, place, path)?,
        },
        ConfigFault::WrongShape { path } => ConfigFault::WrongShape {
            path: below(alloc, place, path)?,
        },
        ConfigFault::Repeated { path } => ConfigFault::Repeated {
            path: below(alloc, place, path)?,
        },
        ConfigFault::BadPort { path, cause } => ConfigFault::BadPort {
            path: below(alloc, place, path)?,
            cause,
        },
        ConfigFault::OutOfMemory => ConfigFault::OutOfMemory,
    };
    Ok(moved)
}

/// Returns a fault with `place` in front of its path, or out of memory.
pub fn within(alloc: Global, place: &str, fault: ConfigFault) -> ConfigFault
    ensures { result ≢ ConfigFault.OutOfMemory → (fault ≢ ConfigFault.OutOfMemory) × (result ≡ paths.within place.now fault) }
{
    match moved(alloc, place, fault) {
        Ok(fault) => fault,
        Err(_) => ConfigFault::OutOfMemory,
    }
}

/// Returns a fault with `name[k]` in front of its path, or out of memory.
pub fn within_numbered(alloc: Global, name: &str, k: usize, fault: ConfigFault) -> ConfigFault
    ensures { result ≢ ConfigFault.OutOfMemory → (fault ≢ ConfigFault.OutOfMemory) × (result ≡ paths.within (paths.numbered name.now k) fault) }
{
    match numbered(alloc, name, k) {
        Ok(place) => within(alloc, place.as_str(), fault),
        Err(_) => ConfigFault::OutOfMemory,
    }
}
