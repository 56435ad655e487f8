//! Payloads as JSON at the end of a text. After an `Err` a part of one may stand there.
ghost use Rattle.std.specs.Prelude.{◌≡◌, ◌++◌, ℕ, List, map, OnOk, OnErr};
ghost use Rattle.std.specs.Fmt.{signed_decimal};
ghost use Rattle.serde_json.specs.Data.{array};
ghost use Rattle.serde_json.specs.Written.{compact_text, comma_if};
ghost use Rattle.mg_value.specs.Plain.{items_of};
ghost use Rattle.mg_value.specs.Payload.{plain};
ghost use Rattle.mg_json.specs.Json.{json_of, json_items};

use crate::push_bytes;
use itoa::Buffer;
use mg_json::to_json;
use mg_value::Payload;
use std::alloc::AllocError;

/// Puts a payload as JSON at the end of a text. Numbers and lists are written directly, any other payload by its JSON value.
#[cycle(payload_text)]
pub fn push_payload(text: &mut Vec<u8>, payload: &Payload) -> Result<(), AllocError>
    ensures put { OnOk result (text.new.items ≡ text.old.items ++ compact_text (json_of (plain payload.now))) }
    ensures part { OnErr result ((part : List ℕ) × (text.new.items ≡ text.old.items ++ part)) }
{
    match payload {
        Payload::Int(number) => push_number(text, *number)?,
        Payload::Items(payloads) => push_items(text, payloads.as_slice())?,
        _ => push_value(text, payload)?,
    }
    Ok(())
}

// Puts a list of payloads as JSON at the end of a text.
#[cycle(payload_text)]
fn push_items(text: &mut Vec<u8>, payloads: &[Payload]) -> Result<(), AllocError>
    ensures put { OnOk result (text.new.items ≡ text.old.items ++ compact_text (array (json_items (items_of (map plain payloads.now))))) }
    ensures part { OnErr result ((part : List ℕ) × (text.new.items ≡ text.old.items ++ part)) }
{
    push_bytes(text, b"[")?;
    let mut later = false;
    for payload in payloads {
        push_comma(text, later)?;
        push_payload(text, payload)?;
        later = true;
    }
    push_bytes(text, b"]")?;
    Ok(())
}

// Puts a comma at the end of a text, if something stands before it.
fn push_comma(text: &mut Vec<u8>, later: bool) -> Result<(), AllocError>
    ensures put { OnOk result (text.new.items ≡ text.old.items ++ comma_if later) }
    ensures unchanged { OnErr result (text.new.items ≡ text.old.items) }
{
    if later {
        push_bytes(text, b",")?;
    }
    Ok(())
}

// Puts a payload as JSON at the end of a text, by its JSON value.
fn push_value(text: &mut Vec<u8>, payload: &Payload) -> Result<(), AllocError>
    ensures put { OnOk result (text.new.items ≡ text.old.items ++ compact_text (json_of (plain payload.now))) }
    ensures unchanged { OnErr result (text.new.items ≡ text.old.items) }
{
    let alloc = *text.allocator();
    let value = to_json(alloc, payload)?;
    push_bytes(text, value.to_string(alloc)?.as_bytes())
}

/// Puts a number's digits at the end of a text.
pub fn push_number(text: &mut Vec<u8>, number: i64) -> Result<(), AllocError>
    ensures put { OnOk result (text.new.items ≡ text.old.items ++ signed_decimal number) }
    ensures unchanged { OnErr result (text.new.items ≡ text.old.items) }
{
    let mut digits = Buffer::new();
    push_bytes(text, digits.format(number).as_bytes())
}
