//! Putting what a call emits at the ends of the queues of a node's outputs (MediaPipe, Calculators and Synchronization). The packets are
//! moved there, into room that was made before, so that laying takes no memory.
ghost use Rattle.std.specs.Prelude.{◌≡◌, ◌<◌, ◌≤◌, ◌^◌, List, [], ◌∷◌, length, map, Ok, slice_index_or, slice_set};
ghost use Rattle.mg_time.specs.Time.{done};
ghost use Rattle.mg_value.specs.Payload.{Plain};
ghost use Rattle.mg_settled.specs.Prefix.{StreamPrefix};
ghost use Rattle.mg_stream.specs.Queue.{StandsFor, empty_queue};
ghost use Rattle.mg_calc.specs.Laying.{with_packets, laid_behind};
ghost use Rattle.mg_route.specs.Reasons.{reason_of, laid_each, all_laid_on};
ghost use Rattle.mg_node.specs.Commits.{raised_before};
ghost use Rattle.mg_node.specs.Code.QueueLaying.{Stand, StandForSome, all_appended, MayAllCome, with_part, MayBeLaid, HasTime, raised_queues, queues_before, closed_queue, queues_after, IsTimed, HasRoomFor, part_of, packets_in as packets_in_part, IsLaid};

use crate::laid::append;
use crate::raising::raise_all;
use mg_calc::{Cause, Emission, Laid, LaidPackets, Phase, one_output};
use mg_route::packets_fault;
use mg_stream::Queue;
use mg_time::Timestamp;
use mg_time::laws::done_is_greatest;
use mg_value::Packet;

/// Raises outputs as the phase asks for, and lays an answer at their ends, or returns the cause why it can't be laid. There must be room.
#[inline(always)]
pub(crate) fn lay(
    offset: Option<i64>,
    phase: &Phase,
    outputs: &mut [Queue],
    answer: Result<Emission, Cause>,
) -> Option<Cause>
    requires stands { StandForSome outputs.old }
    requires room { HasRoomFor outputs.old answer }
    ensures { IsLaid offset phase.now (raised_before offset phase.now) answer outputs.old outputs.new result }
{
    raise_before(offset, phase, outputs);
    match answer {
        Ok(emission) => lay_emission(offset, phase, outputs, emission),
        Err(cause) => Some(cause),
    }
}

/// Returns how many packets an emission has at an output.
pub(crate) fn packets_in(emission: &Emission, output: u32) -> u32
    ensures { result ≡ packets_in_part output emission.now }
{
    match emission.get(output) {
        Some(laid) => laid.packets.len(),
        None => 0,
    }
}

// Raises outputs before an answer of a phase is laid.
#[inline(always)]
fn raise_before(offset: Option<i64>, phase: &Phase, outputs: &mut [Queue])
    ensures queues { outputs.new ≡ queues_before offset phase.now outputs.old }
    ensures timed { IsTimed phase.now }
{
    match phase {
        Phase::Open => {}
        Phase::Call(_) => {}
        Phase::Process(at) => raise_by(offset, *at, outputs),
        Phase::Close => raise_by(offset, Timestamp::DONE, outputs),
    }
}

// Raises the outputs of a node with an offset to a time moved by it.
#[inline(always)]
fn raise_by(offset: Option<i64>, at: Timestamp, outputs: &mut [Queue])
    ensures queues { outputs.new ≡ raised_queues offset at outputs.old }
    ensures timed { at ≤ done }
{
    done_is_greatest(at);
    if let Some(offset) = offset {
        raise_all(outputs, at.shift(offset));
    }
}

// Lays an emission at the ends of outputs, all of it or nothing. Most calls emit one part of one packet. Such an emission goes its own way:
// there the compiler knows how long both lists are, and makes neither in memory.
#[inline(always)]
fn lay_emission(
    offset: Option<i64>,
    phase: &Phase,
    outputs: &mut [Queue],
    emission: Emission,
) -> Option<Cause>
    requires stands { StandForSome outputs.old }
    requires room { HasRoomFor outputs.old (Ok emission) }
    ensures { IsLaid offset phase.now (λ whole. whole) (Ok emission) outputs.old outputs.new result }
{
    // The length is asked for what its clause says of it: that it has 32 bits.
    let _ = emission.len();
    match emission.into_one() {
        Ok(laid) => lay_one(offset, phase, outputs, laid),
        Err(parts) => lay_many(offset, phase, outputs, parts),
    }
}

// Lays an emission of one part at the ends of outputs, all of it or nothing.
#[inline(always)]
fn lay_one(offset: Option<i64>, phase: &Phase, outputs: &mut [Queue], laid: Laid) -> Option<Cause>
    requires stands { StandForSome outputs.old }
    requires room { HasRoomFor outputs.old (Ok (laid ∷ [])) }
    ensures { IsLaid offset phase.now (λ whole. whole) (Ok (laid ∷ [])) outputs.old outputs.new result }
{
    let Laid { packets, bound } = laid;
    // As above.
    let _ = packets.len();
    match packets.into_one() {
        Ok(packet) => {
            let packets = LaidPackets::one(packet);
            lay_whole(offset, phase, outputs, one_output(Laid { packets, bound }))
        }
        Err(packets) => lay_several(offset, phase, outputs, packets, bound),
    }
}

// Lays an emission of one part with any number of packets at the ends of outputs, all of it or nothing.
#[inline(never)]
fn lay_several(
    offset: Option<i64>,
    phase: &Phase,
    outputs: &mut [Queue],
    packets: Vec<Packet>,
    bound: Option<Timestamp>,
) -> Option<Cause>
    requires stands { StandForSome outputs.old }
    requires room { HasRoomFor outputs.old (Ok (part_of packets.items bound ∷ [])) }
    requires few { length packets.items < 2 ^ 32 }
    ensures { IsLaid offset phase.now (λ whole. whole) (Ok (part_of packets.items bound ∷ [])) outputs.old outputs.new result }
{
    let Ok(packets) = LaidPackets::from_vec(packets) else {
        unreachable!()
    };
    lay_whole(offset, phase, outputs, one_output(Laid { packets, bound }))
}

// Lays an emission of any number of parts at the ends of outputs, all of it or nothing.
#[inline(never)]
fn lay_many(
    offset: Option<i64>,
    phase: &Phase,
    outputs: &mut [Queue],
    parts: Vec<Laid>,
) -> Option<Cause>
    requires stands { StandForSome outputs.old }
    requires room { HasRoomFor outputs.old (Ok parts.items) }
    requires few { length parts.items < 2 ^ 32 }
    ensures { IsLaid offset phase.now (λ whole. whole) (Ok parts.items) outputs.old outputs.new result }
{
    let Ok(emission) = Emission::from_vec(parts) else {
        unreachable!()
    };
    lay_whole(offset, phase, outputs, emission)
}

// Lays a whole emission at the ends of outputs, or nothing of it.
#[inline(always)]
fn lay_whole(
    offset: Option<i64>,
    phase: &Phase,
    outputs: &mut [Queue],
    emission: Emission,
) -> Option<Cause>
    requires stands { StandForSome outputs.old }
    requires room { HasRoomFor outputs.old (Ok emission) }
    ensures { IsLaid offset phase.now (λ whole. whole) (Ok emission) outputs.old outputs.new result }
{
    if let Some(cause) = emission_fault(offset, phase, outputs, &emission) {
        return Some(cause);
    }
    lay_all(outputs, emission);
    close_behind(phase, outputs);
    None
}

// Returns why packets can't be put at the end of an output, one after the other, or `None` if they can.
#[inline(always)]
fn output_fault(
    offset: Option<i64>,
    phase: &Phase,
    output: &Queue,
    packets: &LaidPackets,
) -> Option<Cause>
    ensures { (whole : StreamPrefix Plain) → StandsFor output.now whole → result ≡ reason_of (with_packets offset phase.now whole packets.now) }
{
    packets_fault(offset, phase, output.bound(), output.count() > 0, packets)
}

// Returns why an emission can't be put at the ends of outputs, or `None` if it can.
#[inline(always)]
fn emission_fault(
    offset: Option<i64>,
    phase: &Phase,
    outputs: &[Queue],
    emission: &Emission,
) -> Option<Cause>
    ensures { (whole : List (StreamPrefix Plain)) → Stand outputs.now whole → result ≡ reason_of (laid_behind offset phase.now whole emission.now) }
{
    let parts = emission.as_slice();
    if parts.len() == 1 {
        return part_fault(offset, phase, outputs, &parts[0]);
    }
    parts_fault(offset, phase, outputs, emission)
}

// Returns why an emission of this part alone can't be put at the ends of outputs, if there is a reason.
#[inline(always)]
fn part_fault(offset: Option<i64>, phase: &Phase, outputs: &[Queue], laid: &Laid) -> Option<Cause>
    ensures { (whole : List (StreamPrefix Plain)) → Stand outputs.now whole → result ≡ reason_of (laid_behind offset phase.now whole (laid.now ∷ [])) }
{
    if outputs.len() == 0 {
        return None;
    }
    output_fault(offset, phase, &outputs[0], &laid.packets)
}

// Returns why an emission can't be put at the ends of outputs, part by part.
#[inline(never)]
fn parts_fault(
    offset: Option<i64>,
    phase: &Phase,
    outputs: &[Queue],
    emission: &Emission,
) -> Option<Cause>
    ensures { (whole : List (StreamPrefix Plain)) → Stand outputs.now whole → result ≡ reason_of (laid_behind offset phase.now whole emission.now) }
{
    for (i, laid) in emission.as_slice().iter().enumerate() {
        if i >= outputs.len() {
            return None;
        }
        let fault = output_fault(offset, phase, &outputs[i], &laid.packets);
        if fault.is_some() {
            return fault;
        }
    }
    None
}

// Puts packets after those of an output. There must be room for them.
#[inline(always)]
fn append_all(output: &mut Queue, packets: LaidPackets)
    requires { MayAllCome output.old packets }
    ensures { output.new ≡ all_appended output.old packets }
{
    match packets.into_one() {
        Ok(packet) => append(output, packet),
        Err(packets) => append_each(output, packets),
    }
}

// Puts packets after those of an output, one by one.
fn append_each(output: &mut Queue, packets: Vec<Packet>)
    requires { MayAllCome output.old packets.items }
    ensures { output.new ≡ all_appended output.old packets.items }
{
    for packet in packets {
        append(output, packet);
    }
}

// Puts what is emitted at an output at its end, and raises the output to the bound, if there is one.
#[inline(always)]
fn lay_part(output: &mut Queue, laid: Laid)
    requires { MayAllCome output.old laid.packets }
    ensures laid { output.new ≡ with_part output.old laid }
    ensures timed { HasTime laid }
{
    let Laid { packets, bound } = laid;
    append_all(output, packets);
    if let Some(bound) = bound {
        done_is_greatest(bound);
        output.raise(bound);
    }
}

// Puts what is emitted at an output at the end of the output at a place, if there is one.
#[inline(always)]
fn lay_at(outputs: &mut [Queue], place: usize, laid: Laid)
    requires { place < length outputs.old → MayAllCome (slice_index_or outputs.old place empty_queue) laid.packets }
    ensures laid { outputs.new ≡ slice_set outputs.old place (with_part (slice_index_or outputs.old place empty_queue) laid) }
    ensures timed { place < length outputs.old → HasTime laid }
{
    if place < outputs.len() {
        lay_part(&mut outputs[place], laid);
    }
}

// Puts an emission at the ends of outputs, each part at the end of its own output.
#[inline(always)]
fn lay_all(outputs: &mut [Queue], emission: Emission)
    requires { MayBeLaid outputs.old emission }
    ensures laid { outputs.new ≡ laid_each with_part outputs.old emission }
    ensures stands { (whole : List (StreamPrefix Plain)) → Stand outputs.old whole → Stand outputs.new (all_laid_on whole emission) }
{
    match emission.into_one() {
        Ok(laid) => lay_at(outputs, 0, laid),
        Err(parts) => lay_parts(outputs, parts),
    }
}

// Puts the parts of an emission at the ends of outputs, each at its own output, from the last part on.
fn lay_parts(outputs: &mut [Queue], parts: Vec<Laid>)
    requires { MayBeLaid outputs.old parts.items }
    ensures laid { outputs.new ≡ laid_each with_part outputs.old parts.items }
    ensures stands { (whole : List (StreamPrefix Plain)) → Stand outputs.old whole → Stand outputs.new (all_laid_on whole parts.items) }
{
    let mut parts = parts;
    while let Some(laid) = parts.pop() {
        lay_at(outputs, parts.len(), laid);
    }
}

// Closes the outputs if the phase is Close.
#[inline(always)]
fn close_behind(phase: &Phase, outputs: &mut [Queue])
    ensures { outputs.new ≡ queues_after phase.now outputs.old }
{
    match phase {
        Phase::Open => {}
        Phase::Call(_) => {}
        Phase::Process(_) => {}
        Phase::Close => close_all(outputs),
    }
}

// Closes all outputs.
fn close_all(outputs: &mut [Queue])
    ensures { outputs.new ≡ map closed_queue outputs.old }
{
    for output in outputs.iter_mut() {
        output.close();
    }
}
