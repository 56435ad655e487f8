ghost use Rattle.std.specs.Prelude.{◌≡◌, ◌≢◌, IfOk, IfErr, Some, None, option_map, unwrap_or};
ghost use Rattle.std.specs.Arc.{arc_value};
ghost use Rattle.serde_json.specs.View.{view};
ghost use Rattle.mg_value.specs.Payload.{plain};
ghost use Rattle.mg_json.specs.Json.{first_fault};
ghost use Rattle.mg_feed.specs.Value.{plain_of, takes};
ghost use Rattle.mg_feed.specs.Accepted.{first_refusal, packet_refusals};

use crate::{LineFault, Standing};
use mg_json::{ValueFault, from_json};
use mg_time::Timestamp;
use mg_value::{Kind, Packet, Payload, has_kind};
use serde_json::Value;
use std::alloc::Global;
use std::sync::Arc;

/// Makes the packet that a line gives a stream of this kind and standing, or returns why it isn't good.
pub fn packet_by(
    alloc: Global,
    kind: Kind,
    standing: Standing,
    time: Option<Timestamp>,
    value: &Value,
) -> Result<Packet, LineFault>
    ensures good { IfOk result (λ _. first_refusal (packet_refusals kind standing time (view value.now)) ≡ None) }
    ensures packet { IfOk result (λ p. p ≡ record { at = unwrap_or time 0; value = plain_of (view value.now) }) }
    ensures fault { IfErr result (λ fault. fault ≢ LineFault.OutOfMemory
        → first_refusal (packet_refusals kind standing time (view value.now)) ≡ Some fault) }
{
    let Some(at) = time else {
        return Err(LineFault::BadTimestamp);
    };
    if standing.bound == Timestamp::DONE {
        return Err(LineFault::Closed);
    }
    let payload = payload_by(alloc, value)?;
    if !takes_payload(kind, &payload) {
        return Err(LineFault::KindMismatch);
    }
    if at < standing.bound {
        return Err(LineFault::NotAscending);
    }
    if at == Timestamp::POST_STREAM && standing.begun {
        return Err(LineFault::NotAlone);
    }
    Ok(Packet { at, payload })
}

/// Returns the payload of a JSON value, or why it has none.
pub fn payload_by(alloc: Global, value: &Value) -> Result<Arc<Payload>, LineFault>
    ensures payload { IfOk result (λ p. plain (arc_value p) ≡ plain_of (view value.now)) }
    ensures clear { IfOk result (λ _. first_fault (view value.now) ≡ None) }
    ensures fault { IfErr result (λ fault. fault ≢ LineFault.OutOfMemory
        → option_map LineFault.BadValue (first_fault (view value.now)) ≡ Some fault) }
{
    match from_json(alloc, value) {
        Ok(payload) => Ok(payload),
        Err(fault) => Err(value_refusal(fault)),
    }
}

// Returns the fault of a line whose value has this fault.
fn value_refusal(fault: ValueFault) -> LineFault
    ensures { result ≢ LineFault.OutOfMemory → (fault ≢ ValueFault.OutOfMemory) × (result ≡ LineFault.BadValue fault) }
{
    if fault == ValueFault::OutOfMemory {
        LineFault::OutOfMemory
    } else {
        LineFault::BadValue(fault)
    }
}

// Returns whether a stream of a kind takes a payload.
fn takes_payload(kind: Kind, payload: &Payload) -> bool
    ensures { result ≡ takes kind (plain payload.now) }
{
    has_kind(payload, kind)
}
