//! Copies of payloads: packets share their payloads, but a list holds its items itself, so an item that goes in or out is copied.
ghost use Rattle.std.specs.Prelude.{◌≡◌, map, IfOk};
ghost use Rattle.std.specs.Arc.{arc_value};
ghost use Rattle.mg_value.specs.Payload.{plain};

use mg_value::{Entry, Payload, PayloadList, RecordList};
use std::alloc::{AllocError, Global};
use std::sync::Arc;

/// Returns a copy of a payload, with all that is inside it.
#[cycle(copying)]
pub fn copied(alloc: Global, payload: &Payload) -> Result<Payload, AllocError>
    ensures { IfOk result (λ copy. plain copy ≡ plain payload.now) }
{
    match payload {
        Payload::Flag(flag) => Ok(Payload::Flag(*flag)),
        Payload::Int(number) => Ok(Payload::Int(*number)),
        Payload::Text(text) => Ok(Payload::Text(text.try_clone(alloc)?)),
        Payload::Items(payloads) => Ok(Payload::Items(copied_items(alloc, payloads)?)),
        Payload::Record(entries) => Ok(Payload::Record(copied_entries(alloc, entries)?)),
    }
}

#[cycle(copying)]
fn copied_items(alloc: Global, payloads: &PayloadList) -> Result<PayloadList, AllocError>
    ensures { IfOk result (λ copy. copy ≡ payloads.now) }
{
    let mut copies = Vec::with_capacity(alloc, payloads.len() as usize)?;
    for payload in payloads.as_slice() {
        copies.push(copied(alloc, payload)?)?;
    }
    Ok(PayloadList::from_vec(copies)?)
}

#[cycle(copying)]
fn copied_entries(alloc: Global, entries: &RecordList) -> Result<RecordList, AllocError>
    ensures { IfOk result (λ copy. copy ≡ entries.now) }
{
    let mut copies = Vec::with_capacity(alloc, entries.len() as usize)?;
    for entry in entries.as_slice() {
        let key = entry.key.try_clone(alloc)?;
        let value = copied(alloc, &entry.value)?;
        copies.push(Entry { key, value })?;
    }
    Ok(RecordList::from_vec(copies)?)
}

/// Returns copies of shared payloads, in order.
pub fn all_copied(alloc: Global, list: &[Arc<Payload>]) -> Result<Vec<Payload>, AllocError>
    ensures { IfOk result (λ copies. map plain copies.items ≡ map (λ p. plain (arc_value p)) list.now) }
{
    let mut copies = Vec::with_capacity(alloc, list.len())?;
    for payload in list {
        copies.push(copied(alloc, payload)?)?;
    }
    Ok(copies)
}
