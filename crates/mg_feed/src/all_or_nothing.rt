//! Appending to a text in whole, or not at all.

ghost use Rattle.std.specs.Prelude.{◌≡◌, ◌++◌, is_ok, take, OnOk, OnErr, if◌then◌else◌};

use std::alloc::AllocError;

/// Returns `put`, the result of an append to a text that had `len` bytes. If it is an `Err`, the text is cut to these bytes again.
pub fn whole_or_none(
    text: &mut Vec<u8>,
    len: usize,
    put: Result<(), AllocError>,
) -> Result<(), AllocError>
    ensures same { result ≡ put }
    ensures items { text.new.items ≡ (if is_ok put then text.old.items else take len text.old.items) }
{
    if put.is_err() {
        text.truncate(len);
    }
    put
}

/// Puts bytes at the end of a text. After an `Err` the text is as it was.
pub fn push_bytes(text: &mut Vec<u8>, bytes: &[u8]) -> Result<(), AllocError>
    ensures put { OnOk result (text.new.items ≡ text.old.items ++ bytes.now) }
    ensures unchanged { OnErr result (text.new.items ≡ text.old.items) }
{
    text.extend_from_slice(bytes)
}
