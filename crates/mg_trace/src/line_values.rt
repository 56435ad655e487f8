//! The JSON values of packet lines, except those of packets.
ghost use Rattle.std.specs.Prelude.{◌≡◌, IfOk, false};
ghost use Rattle.serde_json.specs.View.{view};
ghost use Rattle.serde_json.specs.Written.{has_float};
ghost use Rattle.mg_value.specs.Payload.{plain};
ghost use Rattle.mg_feed.specs.Output.{time_data};
ghost use Rattle.mg_trace.specs.Job.{side_data, bound_data, close_data};

use mg_json::to_json;
use mg_time::Timestamp;
use mg_value::{MgText, Payload};
use serde_json::{Value, json};
use std::alloc::{AllocError, Global};

/// Returns the JSON value of a side packet's line.
pub fn side_value(alloc: Global, name: &MgText, payload: &Payload) -> Result<Value, AllocError>
    ensures whole { IfOk result (λ value. has_float (view value) ≡ false) }
    ensures says { IfOk result (λ value. view value ≡ side_data name.now (plain payload.now)) }
{
    let value = to_json(alloc, payload)?;
    json!(in alloc; {"side": name.as_str(), "value": value})
}

/// Returns the JSON value of the line of a stream's bound.
pub fn bound_value(alloc: Global, name: &MgText, bound: Timestamp) -> Result<Value, AllocError>
    ensures whole { IfOk result (λ value. has_float (view value) ≡ false) }
    ensures says { IfOk result (λ value. view value ≡ bound_data name.now bound) }
{
    let time = time_value(alloc, bound)?;
    json!(in alloc; {"bound": time, "stream": name.as_str()})
}

/// Returns the JSON value of the line of a stream's close.
pub fn close_value(alloc: Global, name: &MgText) -> Result<Value, AllocError>
    ensures whole { IfOk result (λ value. has_float (view value) ≡ false) }
    ensures says { IfOk result (λ value. view value ≡ close_data name.now) }
{
    json!(in alloc; {"close": true, "stream": name.as_str()})
}

// Returns the JSON value of a bound's time.
fn time_value(alloc: Global, time: Timestamp) -> Result<Value, AllocError>
    ensures whole { IfOk result (λ value. has_float (view value) ≡ false) }
    ensures says { IfOk result (λ value. view value ≡ time_data time) }
{
    if time == Timestamp::PRE_STREAM {
        json!(in alloc; "PreStream")
    } else if time == Timestamp::POST_STREAM {
        json!(in alloc; "PostStream")
    } else {
        json!(in alloc; time.raw())
    }
}
