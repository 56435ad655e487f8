//! What calculators tell of their calls.

use mg_calc::{Call, CallList, Emission, Laid, NodeCalculator};
use mg_settled::InputSet;
use mg_time::Timestamp;
use mg_value::{Packet, Payload};
use std::alloc::{AllocError, Global};
use std::sync::Arc;

/// Appends the calls of calculators to a text: ` begun`, a blank and the time of a set, or ` finished`. The calls of each calculator end in
/// `;`. Then shows the first calculator one more set, of a packet at 9, and appends what it emits.
pub fn put_logs<C: NodeCalculator>(
    alloc: Global,
    told: &mut String,
    calculators: &mut Vec<C>,
) -> Result<(), AllocError> {
    put_all(told, calculators)?;
    match calculators.first_mut() {
        Some(first) => put_further(alloc, told, first),
        None => Ok(()),
    }
}

fn put_all<C: NodeCalculator>(told: &mut String, calculators: &[C]) -> Result<(), AllocError> {
    for calculator in calculators {
        put_calls(told, calculator.log())?;
        told.push_str(";")?;
    }
    Ok(())
}

fn put_calls(told: &mut String, calls: &CallList) -> Result<(), AllocError> {
    for call in calls.as_slice() {
        put_call(told, call)?;
    }
    Ok(())
}

fn put_call(told: &mut String, call: &Call) -> Result<(), AllocError> {
    match call {
        Call::Begun => told.push_str(" begun"),
        Call::Finished => told.push_str(" finished"),
        Call::Shown { at, .. } => write!(told, " {}", at.raw()),
    }
}

// Appends what a calculator with one input emits for one more set: for each packet a blank, its number, `@` and its time.
fn put_further<C: NodeCalculator>(
    alloc: Global,
    told: &mut String,
    calculator: &mut C,
) -> Result<(), AllocError> {
    let at = Timestamp::of_range(9).unwrap_or(Timestamp::MIN);
    let set = one_packet(alloc, at)?;
    if calculator.shape().inputs.len() != set.len() {
        return told.push_str(" not one input");
    }
    match calculator.process(alloc, at, &set) {
        Ok(emission) => put_emission(told, &emission),
        Err(_) => told.push_str(" failed"),
    }
}

fn one_packet(alloc: Global, at: Timestamp) -> Result<InputSet, AllocError> {
    let payload = Arc::new(alloc, Payload::Int(0))?;
    let mut set = InputSet::new(alloc, 1)?;
    set.put(0, Some(Packet { at, payload }));
    Ok(set)
}

fn put_emission(told: &mut String, emission: &Emission) -> Result<(), AllocError> {
    for laid in emission.as_slice() {
        put_laid(told, laid)?;
    }
    Ok(())
}

fn put_laid(told: &mut String, laid: &Laid) -> Result<(), AllocError> {
    for packet in laid.packets.as_slice() {
        write!(told, " {}@{}", number_of(packet), packet.at.raw())?;
    }
    Ok(())
}

// Returns the number of a packet, or -2^63 if its payload is no number.
fn number_of(packet: &Packet) -> i64 {
    match &*packet.payload {
        Payload::Int(number) => *number,
        _ => i64::MIN,
    }
}
