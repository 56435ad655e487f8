//! How what a call emits is appended to a node's outputs (MediaPipe, Calculators and Synchronization).
ghost use Rattle.std.specs.Prelude.{◌≡◌, map, OnOk};
ghost use Rattle.mg_settled.specs.Prefix.{closed};
ghost use Rattle.mg_calc.specs.Laying.{with_packets, laid_behind, all_raised};
ghost use Rattle.mg_route.specs.Reasons.{reason_of, laid_on, all_laid_on};

use crate::output::Output;
use mg_calc::{Cause, Emission, Laid, LaidPackets, Phase};
use mg_route::packets_fault;
use mg_time::Timestamp;
use mg_time::laws::done_is_greatest;
use std::alloc::AllocError;

// Returns the first cause why packets can't be appended to an output one after the other, if there is one.
fn output_fault(
    offset: Option<i64>,
    phase: &Phase,
    output: &Output,
    packets: &LaidPackets,
) -> Option<Cause>
    ensures { result ≡ reason_of (with_packets offset phase.now output.now packets.now) }
{
    packets_fault(offset, phase, output.bound(), output.has_packets(), packets)
}

/// Returns the first cause why an emission can't be appended to a node's outputs, in their order, if there is one.
pub fn emission_fault(
    offset: Option<i64>,
    phase: &Phase,
    outputs: &[Output],
    emission: &Emission,
) -> Option<Cause>
    ensures { result ≡ reason_of (laid_behind offset phase.now outputs.now emission.now) }
{
    for (i, laid) in emission.as_slice().iter().enumerate() {
        if i >= outputs.len() {
            return None;
        }
        let fault = output_fault(offset, phase, &outputs[i], &laid.packets);
        if fault.is_some() {
            return fault;
        }
    }
    None
}

// Appends to an output what is emitted there: the packets, and then the bound, if there is one.
fn lay(output: &mut Output, laid: &Laid) -> Result<(), AllocError>
    ensures { OnOk result (output.new ≡ laid_on output.old laid.now) }
{
    output.append_all(&laid.packets)?;
    if let Some(bound) = laid.bound {
        done_is_greatest(bound);
        output.raise(bound);
    }
    Ok(())
}

/// Appends an emission to a node's outputs, to each output its own entry. Payloads are shared.
pub fn lay_all(outputs: &mut [Output], emission: &Emission) -> Result<(), AllocError>
    ensures { OnOk result (outputs.new ≡ all_laid_on outputs.old emission.now) }
{
    for (i, laid) in emission.as_slice().iter().enumerate() {
        if i < outputs.len() {
            lay(&mut outputs[i], laid)?;
        }
    }
    Ok(())
}

/// Raises a node's outputs to a bound moved by the node's offset. Without an offset they stay.
pub fn raise_all(offset: Option<i64>, bound: Timestamp, outputs: &mut [Output])
    ensures { outputs.new ≡ all_raised offset bound outputs.old }
{
    if let Some(offset) = offset {
        let bound = bound.shift(offset);
        for output in outputs.iter_mut() {
            output.raise(bound);
        }
    }
}

/// Closes a node's outputs.
pub fn close_all(outputs: &mut [Output])
    ensures { outputs.new ≡ map closed outputs.old }
{
    for output in outputs.iter_mut() {
        output.close();
    }
}
