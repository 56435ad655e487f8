//! How deep lists and records nest in a payload.
ghost use Rattle.std.specs.Prelude.{◌≡◌, nat_le, map};
ghost use Rattle.mg_value.specs.Plain.{depth, items_of, items_depth, entries_of, entries_depth};
ghost use Rattle.mg_value.specs.Payload.{plain, plain_entry};

use mg_value::{Entry, Payload};

/// Whether lists and records nest at least `levels` deep in a payload.
#[cycle(nesting)]
pub fn nests(payload: &Payload, levels: u32) -> bool
    ensures { result ≡ nat_le levels (depth (plain payload.now)) }
{
    if levels == 0 {
        return true;
    }
    match payload {
        Payload::Flag(_) => false,
        Payload::Int(_) => false,
        Payload::Text(_) => false,
        Payload::Items(payloads) => items_nest(payloads.as_slice(), levels - 1),
        Payload::Record(entries) => entries_nest(entries.as_slice(), levels - 1),
    }
}

#[cycle(nesting)]
fn items_nest(payloads: &[Payload], levels: u32) -> bool
    ensures { result ≡ nat_le levels (items_depth (items_of (map plain payloads.now))) }
{
    if levels == 0 {
        return true;
    }
    for payload in payloads {
        if nests(payload, levels) {
            return true;
        }
    }
    false
}

#[cycle(nesting)]
fn entries_nest(entries: &[Entry], levels: u32) -> bool
    ensures { result ≡ nat_le levels (entries_depth (entries_of (map plain_entry entries.now))) }
{
    if levels == 0 {
        return true;
    }
    for entry in entries {
        if nests(&entry.value, levels) {
            return true;
        }
    }
    false
}
