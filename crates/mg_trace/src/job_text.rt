ghost use Rattle.std.specs.Prelude.{◌≡◌, ◌++◌, ◌∷◌, [], IfOk, OnOk, map, false, option_copied, option_and_then, option_map, unwrap_or, slice_get, None};
ghost use Rattle.serde_json.specs.View.{view};
ghost use Rattle.serde_json.specs.Written.{has_float};
ghost use Rattle.mg_calc.specs.Given.{given};
ghost use Rattle.mg_feed.specs.Lines.{fed_lines};
ghost use Rattle.mg_feed.specs.Output.{packet_data};
ghost use Rattle.mg_trace.specs.Job.{side_handed_in, said, side_lines, bound_after, end_lines, stream_lines, all_stream_lines, input_names, end_word, job_text};
ghost use Rattle.mg_trace.specs.Code.{data_text};

use crate::line_values::{bound_value, close_value, side_value};
use mg_calc::{GivenList, Inputs, Plan, PlanStream, Side, SideList, SideValue};
use mg_feed::LineWriter;
use mg_settled::Prefix;
use mg_time::Timestamp;
use mg_value::{MgText, Packet, Payload};
use serde_json::Value;
use std::alloc::{AllocError, Global};
use std::sync::Arc;

/// Returns the packet lines of a job in canonical form, and a last line: `ended`, or `frozen` if its input didn't end well.
pub fn write_job(alloc: Global, plan: &Plan, inputs: &Inputs) -> Result<Vec<u8>, AllocError>
    ensures { IfOk result (λ text. text.items ≡ job_text plan.now inputs.now) }
{
    let names = names_of(alloc, plan)?;
    let mut text = Vec::new(alloc);
    push_sides(&mut text, &plan.sides, &inputs.sides)?;
    push_streams(&mut text, inputs.ended, &names, inputs.streams.as_slice())?;
    push_end(&mut text, inputs.ended)?;
    Ok(text)
}

// Puts the last line of a job at the end of a text.
fn push_end(text: &mut Vec<u8>, ended: bool) -> Result<(), AllocError>
    ensures { OnOk result (text.new.items ≡ text.old.items ++ fed_lines (end_word ended ∷ [])) }
{
    if ended {
        text.extend_from_slice(b"ended\n")
    } else {
        text.extend_from_slice(b"frozen\n")
    }
}

// Returns the names of the graph inputs.
fn names_of(alloc: Global, plan: &Plan) -> Result<Vec<MgText>, AllocError>
    ensures { IfOk result (λ names. names.items ≡ input_names plan.now) }
{
    let mut names = Vec::new(alloc);
    for input in 0..plan.inputs.len() {
        if let Some(stream) = stream_of(plan, input) {
            let name = stream.name.try_clone(alloc)?;
            names.push(name)?;
        }
    }
    Ok(names)
}

// Returns the stream of the graph input of a number, if there is one.
fn stream_of(plan: &Plan, input: u32) -> Option<&PlanStream>
    ensures { option_copied result ≡ option_and_then (slice_get plan.now.streams) (slice_get plan.now.inputs input) }
{
    let number = *plan.inputs.get(input)?;
    plan.streams.get(number)
}

// Puts the lines of the user-supplied side packets at the end of a text.
fn push_sides(text: &mut Vec<u8>, sides: &SideList, given: &GivenList) -> Result<(), AllocError>
    ensures { OnOk result (text.new.items ≡ text.old.items ++ data_text (side_lines given.now sides.now)) }
{
    for side in sides.as_slice() {
        push_side(text, side, given)?;
    }
    Ok(())
}

// Puts the line of a side packet at the end of a text, if the side packet is user-supplied and came.
fn push_side(text: &mut Vec<u8>, side: &Side, given: &GivenList) -> Result<(), AllocError>
    ensures { OnOk result (text.new.items ≡ text.old.items ++ data_text (said side.now.name (side_handed_in given.now side.now.value))) }
{
    match side.value {
        SideValue::Given(place) => push_given(text, &side.name, given.get(place)),
        SideValue::Fixed(_) => Ok(()),
    }
}

// Puts the line of a side packet at the end of a text, if there is one at its place.
fn push_given(
    text: &mut Vec<u8>,
    name: &MgText,
    place: Option<&Option<Arc<Payload>>>,
) -> Result<(), AllocError>
    ensures { OnOk result (text.new.items ≡ text.old.items ++ data_text (said name.now (unwrap_or (option_map (λ p. given p.now) place.entry) None))) }
{
    match place {
        Some(Some(payload)) => {
            let value = side_value(*text.allocator(), name, payload)?;
            push_value(text, &value)
        }
        _ => Ok(()),
    }
}

// Puts the lines of streams at the end of a text, as many as there are names and prefixes for.
fn push_streams(
    text: &mut Vec<u8>,
    ended: bool,
    names: &[MgText],
    streams: &[Prefix],
) -> Result<(), AllocError>
    ensures { OnOk result (text.new.items ≡ text.old.items ++ data_text (all_stream_lines ended names.now streams.now)) }
{
    for (place, name) in names.iter().enumerate() {
        match streams.get(place) {
            Some(stream) => push_stream(text, ended, name, stream)?,
            None => return Ok(()),
        }
    }
    Ok(())
}

// Puts the lines of a stream at the end of a text.
fn push_stream(
    text: &mut Vec<u8>,
    ended: bool,
    name: &MgText,
    stream: &Prefix,
) -> Result<(), AllocError>
    ensures { OnOk result (text.new.items ≡ text.old.items ++ data_text (stream_lines ended name.now stream.now)) }
{
    push_packets(text, name, stream.packets.as_slice())?;
    if ended {
        Ok(())
    } else {
        push_stream_end(text, name, stream)
    }
}

// Puts the lines of packets at the end of a text.
fn push_packets(text: &mut Vec<u8>, name: &MgText, packets: &[Packet]) -> Result<(), AllocError>
    ensures { OnOk result (text.new.items ≡ text.old.items ++ data_text (map (packet_data name.now) packets.now)) }
{
    let writer = LineWriter::new(*text.allocator(), name)?;
    for packet in packets {
        writer.push_line(text, packet)?;
    }
    Ok(())
}

// Puts what is said of a stream after its packets at the end of a text.
fn push_stream_end(text: &mut Vec<u8>, name: &MgText, stream: &Prefix) -> Result<(), AllocError>
    ensures { OnOk result (text.new.items ≡ text.old.items ++ data_text (end_lines name.now stream.now)) }
{
    let alloc = *text.allocator();
    if stream.bound == Timestamp::DONE {
        return push_value(text, &close_value(alloc, name)?);
    }
    if stream.bound == bound_left(stream.packets.as_slice()) {
        return Ok(());
    }
    push_value(text, &bound_value(alloc, name, stream.bound)?)
}

// Returns the bound that packets alone leave.
fn bound_left(packets: &[Packet]) -> Timestamp
    ensures { result ≡ bound_after packets.now }
{
    match packets.last() {
        Some(packet) => packet.at.next_allowed(),
        None => Timestamp::PRE_STREAM,
    }
}

// Puts the line of a JSON value at the end of a text.
fn push_value(text: &mut Vec<u8>, value: &Value) -> Result<(), AllocError>
    requires { has_float (view value.now) ≡ false }
    ensures { OnOk result (text.new.items ≡ text.old.items ++ data_text (view value.now ∷ [])) }
{
    let line = value.to_string(*text.allocator())?;
    text.extend_from_slice(line.as_bytes())?;
    text.extend_from_slice(b"\n")
}
