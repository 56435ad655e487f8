ghost use Rattle.std.specs.Prelude.{◌≡◌, ℕ, List, [], Ok, IfOk, count_by, string_bytes};
ghost use Rattle.mg_names.specs.Spelling.{is_untagged};
ghost use Rattle.mg_names.specs.Ports.{text_of, IsSpelled, port_after};

use crate::port::Port;
use mg_value::MgText;
use std::alloc::{AllocError, Global};

fn written(alloc: Global, port: &Port) -> Result<String, AllocError>
    ensures { IfOk result (λ text. string_bytes text ≡ text_of port.now) }
{
    let mut text = String::new(alloc);
    if !port.tag.as_bytes().is_empty() {
        text.push_str(port.tag.as_str())?;
        text.push_str(":")?;
        if port.index != 0 {
            write!(text, "{}:", port.index)?;
        }
    }
    text.push_str(port.name.as_str())?;
    Ok(text)
}

/// Returns the text of a port: `name` if it is untagged, `TAG:name` at index 0, and `TAG:index:name` otherwise. A port
/// that can be spelled is read back from its text. An untagged port needs as many untagged ports before it as its index
/// says.

pub fn print_port(alloc: Global, port: &Port) -> Result<MgText, AllocError>
    ensures text { IfOk result (λ text. text ≡ text_of port.now) }
    ensures read_back { IfOk result (λ text. IsSpelled port.now → (before : List (List ℕ)) → (port.now.tag ≡ [] → count_by is_untagged before ≡ port.now.index) → port_after before text ≡ Ok port.now) }
{
    let text = written(alloc, port)?;
    Ok(MgText::from_string(text))
}
