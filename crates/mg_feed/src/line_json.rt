ghost use Rattle.std.specs.Prelude.{◌≡◌, ◌≢◌, IfOk, IfErr, None, Some};
ghost use Rattle.std.specs.List.{list_all};
ghost use Rattle.serde_json.specs.View.{view};
ghost use Rattle.mg_feed.specs.Form.{is_blank, json_value};

use crate::LineFault;
use crate::tokens::text_by_tokens;
use json::Scratch;
use serde_json::Value;
use std::alloc::Global;

/// Reads the JSON value of a text from its tokens. A text that can't be read so is read by `serde_json`, for its value or the fault.
pub fn json_by(alloc: Global, text: &[u8], scratch: &mut Scratch) -> Result<Value, LineFault>
    ensures value { IfOk result (λ value. json_value text.now ≡ Some (view value)) }
    ensures fault { IfErr result (λ fault. fault ≢ LineFault.OutOfMemory → (fault ≡ LineFault.NotJson) × (json_value text.now ≡ None)) }
{
    if let Some(value) = text_by_tokens(alloc, text, scratch) {
        return Ok(value);
    }
    match Value::from_slice(alloc, text) {
        Ok(value) => Ok(value),
        Err(error) if error.is_memory() => Err(LineFault::OutOfMemory),
        Err(_) => Err(LineFault::NotJson),
    }
}

/// Returns whether all bytes of a line are blanks: spaces, tabs or carriage returns.
pub fn is_blank_line(line: &[u8]) -> bool
    ensures { result ≡ list_all is_blank line.now }
{
    line.iter()
        .all(|b| *b == b' ' || *b == b'\t' || *b == b'\r')
}
