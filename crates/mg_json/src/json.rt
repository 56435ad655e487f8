ghost use Rattle.std.specs.Prelude.{◌≡◌, ◌≢◌, ◌<◌, ◌≤◌, ◌+◌, [], ◌∷◌, ◌++◌, None, Some, false, IfOk, IfErr};
ghost use Rattle.std.specs.Arc.{arc_value};
ghost use Rattle.serde_json.specs.Find.{of_integer};
ghost use Rattle.serde_json.specs.Written.{has_float};
ghost use Rattle.serde_json.specs.View.{view, number_view, items_view, members_view};
ghost use Rattle.mg_value.specs.Plain.{Plain, depth, items_of, entries_of, NumbersFit, ItemsFit, EntriesFit};
ghost use Rattle.mg_value.specs.Payload.{plain};
ghost use Rattle.mg_json.specs.Json.{json_of, json_items, json_members, number_faults, depth_faults, faults_at, items_faults, members_faults, first, first_fault};

use crate::ValueFault;
use mg_value::{Entry, MgText, Payload, PayloadList, RecordList};
use serde_json::{Map, Number, Value};
use std::alloc::{AllocError, Global};
use std::sync::Arc;

/// How many lists and records may lie inside one another, the outermost one counted.
const MAX_DEPTH: u32 = 16;

/// Returns the payload that a JSON value says (RFC 8259). An object is a record. An error is out of memory, or the first fault
/// in the order of the value. The members of an object are in the byte order of their keys.
pub fn from_json(alloc: Global, value: &Value) -> Result<Arc<Payload>, ValueFault>
    ensures says { IfOk result (λ p. json_of (plain (arc_value p)) ≡ view value.now) }
    ensures only { IfOk result (λ p. (q : Plain) → json_of q ≡ view value.now → q ≡ plain (arc_value p)) }
    ensures nesting { IfOk result (λ p. depth (plain (arc_value p)) ≤ 16) }
    ensures clear { IfOk result (λ _. first_fault (view value.now) ≡ None) }
    ensures fault { IfErr result (λ fault. fault ≢ ValueFault.OutOfMemory → first_fault (view value.now) ≡ Some fault) }
{
    let payload = read(alloc, value, 1)?;
    Ok(Arc::new(alloc, payload)?)
}

/// Returns the JSON value that says a payload. `from_json` takes it back, unless its lists and records are more than 16 deep.
pub fn to_json(alloc: Global, payload: &Payload) -> Result<Value, AllocError>
    ensures says { IfOk result (λ value. view value ≡ json_of (plain payload.now)) }
    ensures whole_numbers { IfOk result (λ value. has_float (view value) ≡ false) }
    ensures taken_back { IfOk result (λ value. depth (plain payload.now) ≤ 16 → first_fault (view value) ≡ None) }
    ensures too_deep { IfOk result (λ value. 16 < depth (plain payload.now) → first_fault (view value) ≡ Some ValueFault.TooDeep) }
{
    Ok(write(alloc, payload)?)
}

// Reads a value. A list or a record here has the number `depth` among those inside one another, and the outermost is the first.
#[cycle(reading)]
fn read(alloc: Global, value: &Value, depth: u32) -> Result<Payload, ValueFault>
    requires { depth ≤ 17 }
    ensures says { IfOk result (λ p. json_of (plain p) ≡ view value.now) }
    ensures clear { IfOk result (λ p. faults_at depth (view value.now) ≡ []) }
    ensures fault { IfErr result (λ fault. fault ≢ ValueFault.OutOfMemory
        → first (faults_at depth (view value.now)) ≡ Some fault) }
{
    match value {
        Value::Null => Err(ValueFault::Null),
        Value::Bool(flag) => Ok(Payload::Flag(*flag)),
        Value::Number(number) => Ok(Payload::Int(read_number(number)?)),
        Value::String(text) => Ok(Payload::Text(MgText::new(alloc, text.as_str())?)),
        Value::Array(values) => Ok(Payload::Items(read_items(alloc, values, depth)?)),
        Value::Object(members) => Ok(Payload::Record(read_entries(alloc, members, depth)?)),
    }
}

fn read_number(number: &Number) -> Result<i64, ValueFault>
    ensures says { IfOk result (λ n. of_integer n ≡ number_view number.now) }
    ensures clear { IfOk result (λ _. number_faults (number_view number.now) ≡ []) }
    ensures fault { IfErr result (λ fault. number_faults (number_view number.now) ≡ fault ∷ []) }
{
    match number.as_i64() {
        Some(whole) => Ok(whole),
        None if number.is_u64() => Err(ValueFault::TooWide),
        None => Err(ValueFault::Fraction),
    }
}

#[cycle(reading)]
fn read_items(alloc: Global, values: &[Value], depth: u32) -> Result<PayloadList, ValueFault>
    requires { depth ≤ 17 }
    ensures says { IfOk result (λ ps. json_items (items_of ps) ≡ items_view values.now) }
    ensures clear { IfOk result (λ _. depth_faults depth ++ items_faults (depth + 1) (items_view values.now) ≡ []) }
    ensures fault { IfErr result (λ fault. fault ≢ ValueFault.OutOfMemory
        → first (depth_faults depth ++ items_faults (depth + 1) (items_view values.now)) ≡ Some fault) }
{
    if depth > MAX_DEPTH {
        return Err(ValueFault::TooDeep);
    }
    let mut payloads = Vec::with_capacity(alloc, values.len())?;
    for value in values {
        payloads.push(read(alloc, value, depth + 1)?)?;
    }
    Ok(PayloadList::from_vec(payloads)?)
}

#[cycle(reading)]
fn read_entries(
    alloc: Global,
    members: &Map<String, Value>,
    depth: u32,
) -> Result<RecordList, ValueFault>
    requires { depth ≤ 17 }
    ensures says { IfOk result (λ es. json_members (entries_of es) ≡ members_view members.now.entries) }
    ensures clear { IfOk result (λ _. depth_faults depth ++ members_faults (depth + 1) (members_view members.now.entries) ≡ []) }
    ensures fault { IfErr result (λ fault. fault ≢ ValueFault.OutOfMemory
        → first (depth_faults depth ++ members_faults (depth + 1) (members_view members.now.entries)) ≡ Some fault) }
{
    if depth > MAX_DEPTH {
        return Err(ValueFault::TooDeep);
    }
    let mut entries = Vec::with_capacity(alloc, members.len())?;
    for (name, member) in members.iter() {
        let key = MgText::new(alloc, name.as_str())?;
        let value = read(alloc, member, depth + 1)?;
        entries.push(Entry { key, value })?;
    }
    Ok(RecordList::from_vec(entries)?)
}

#[cycle(writing)]
fn write(alloc: Global, payload: &Payload) -> Result<Value, AllocError>
    ensures says { IfOk result (λ value. view value ≡ json_of (plain payload.now)) }
    ensures fit { IfOk result (λ _. NumbersFit (plain payload.now)) }
{
    match payload {
        Payload::Flag(flag) => Ok(Value::Bool(*flag)),
        Payload::Int(number) => Ok(Value::Number(Number::from(*number))),
        Payload::Text(text) => Ok(Value::String(String::from_str(alloc, text.as_str())?)),
        Payload::Items(payloads) => Ok(Value::Array(write_items(alloc, payloads)?)),
        Payload::Record(entries) => Ok(Value::Object(write_entries(alloc, entries)?)),
    }
}

#[cycle(writing)]
fn write_items(alloc: Global, payloads: &PayloadList) -> Result<Vec<Value>, AllocError>
    ensures says { IfOk result (λ values. items_view values.items ≡ json_items (items_of payloads.now)) }
    ensures fit { IfOk result (λ _. ItemsFit (items_of payloads.now)) }
{
    let mut values = Vec::with_capacity(alloc, payloads.len() as usize)?;
    for payload in payloads.as_slice() {
        values.push(write(alloc, payload)?)?;
    }
    Ok(values)
}

#[cycle(writing)]
fn write_entries(alloc: Global, entries: &RecordList) -> Result<Map<String, Value>, AllocError>
    ensures says { IfOk result (λ members. members_view members.entries ≡ json_members (entries_of entries.now)) }
    ensures fit { IfOk result (λ _. EntriesFit (entries_of entries.now)) }
{
    let mut members = Map::new(alloc);
    for entry in entries.as_slice() {
        let name = String::from_str(alloc, entry.key.as_str())?;
        let value = write(alloc, &entry.value)?;
        drop(members.insert(name, value)?);
    }
    Ok(members)
}
