//! The items of a list go on one by one, each at an inner time (after MediaPipe's BeginLoopCalculator).
ghost use Rattle.std.specs.Prelude.{◌≡◌, ◌+◌, ◌-◌, ◌≤◌, ◌^◌, ◌++◌, ◌∷◌, [], ℕ, length, map, Some, option_copied, option_map, nat_le, false, IfOk, OnErr, OnOk, IfSome, IsNone};
ghost use Rattle.mg_time.specs.Time.{raw_of};
ghost use Rattle.mg_value.specs.Payload.{plain, int};
ghost use Rattle.mg_calc.specs.Answer.{GivesEmission};
ghost use Rattle.mg_calc.specs.Values.{items_in as its_items};
ghost use Rattle.mg_calc.specs.Batch.{inner_time as the_inner_time, at_inner_times, last_inner, laid_up_to as the_laid, copies as the_copies, clones_laid, batch as the_batch, batch_of as the_batch_of, begin_loop as the_begin_loop};

use crate::copying::copied;
use mg_calc::{CalcFault, Cause, Emission, Laid, ShortList, State, no_emission};
use mg_settled::InputSet;
use mg_time::Timestamp;
use mg_value::{Packet, Payload};
use std::alloc::{AllocError, Global};
use std::sync::Arc;

/// The greatest number of an inner time: that of `Timestamp::MAX`.
const LAST: u64 = 9223372036854775804;

// The inner times of a list: the number of the first, and the number after the last.
#[derive(Drop)]
struct Span {
    first: u64,
    next: u64,
}

/// Returns what BeginLoop emits at a set, and puts its new state in the place of the old one. On an error the state stays.
pub fn begin_loop(
    alloc: Global,
    clones: u32,
    always_end: bool,
    state: &mut State,
    at: Timestamp,
    set: &InputSet,
) -> Result<Emission, CalcFault>
    ensures answer { GivesEmission result state.new (the_begin_loop clones always_end state.old at set.now) }
    ensures kept { OnErr result (state.new ≡ state.old) }
{
    let Some(items) = batch_of(always_end, set.get(clones)) else {
        return Ok(no_emission(alloc)?);
    };
    let first = state.count();
    let Some(next) = next_inner(first, items.len()) else {
        return Err(CalcFault::Fault(Cause::Overflow));
    };
    let span = Span { first, next };
    let emission = batch(alloc, clones, &span, at, items, set)?;
    *state = State::of_number(next as i64);
    Ok(emission)
}

// Returns the items of a set's batch, by what ITERABLE has, or none if there is no batch.
fn batch_of(always_end: bool, packet: Option<&Packet>) -> Option<&[Payload]>
    ensures { option_map (λ items. map plain items.now) result ≡ the_batch_of always_end (option_copied packet.entry) }
{
    match packet {
        Some(packet) => Some(items_in(&packet.payload)),
        None => { if always_end { Some(&[]) } else { None } }
    }
}

// Returns the items of a payload's list, or no items if the payload is no list.
fn items_in(payload: &Payload) -> &[Payload]
    ensures { map plain result.now ≡ its_items (plain payload.now) }
{
    match payload {
        Payload::Items(list) => list.as_slice(),
        _ => &[],
    }
}

// Returns the number after the inner times of a list of `count` items, or none if that is past the last timestamp. The inner times
// begin at `first`. An empty list takes one inner time.
fn next_inner(first: u64, count: usize) -> Option<u64>
    ensures some { IfSome result (λ next. (next ≡ last_inner first count + 1) × (next ≤ 2 ^ 63 - 4)) }
    ensures none { IsNone result → nat_le (last_inner first count + 1) (2 ^ 63 - 4) ≡ false }
{
    let taken = if count == 0 { 1 } else { count as u64 };
    let next = first.checked_add(taken)?;
    if next <= LAST { Some(next) } else { None }
}

// Returns the inner time of a number.
fn inner_time(number: u64) -> Timestamp
    requires { number ≤ 2 ^ 63 - 4 }
    ensures { result ≡ the_inner_time number }
{
    match Timestamp::of_range(number as i64) {
        Some(at) => at,
        None => unreachable!(),
    }
}

// Returns copies of payloads as packets, at the inner times from a number on.
fn stamped(alloc: Global, first: u64, items: &[Payload]) -> Result<Vec<Packet>, AllocError>
    requires { first + length items.now ≤ 2 ^ 63 - 4 }
    ensures { IfOk result (λ packets. packets.items ≡ at_inner_times first (map plain items.now)) }
{
    let mut packets = Vec::with_capacity(alloc, items.len())?;
    let mut number = first;
    for item in items {
        let payload = Arc::new(alloc, copied(alloc, item)?)?;
        let at = inner_time(number);
        packets.push(Packet { at, payload })?;
        number += 1;
    }
    Ok(packets)
}

// Returns `count` packets that share a payload, at the inner times from a number on.
fn copies(
    alloc: Global,
    first: u64,
    count: usize,
    packet: &Packet,
) -> Result<Vec<Packet>, AllocError>
    requires { first + count ≤ 2 ^ 63 - 4 }
    ensures { IfOk result (λ packets. packets.items ≡ the_copies first count (Some packet.now)) }
{
    let mut packets = Vec::with_capacity(alloc, count)?;
    for i in 0..count {
        let payload = Arc::try_clone(&packet.payload)?;
        let at = inner_time(first + i as u64);
        packets.push(Packet { at, payload })?;
    }
    Ok(packets)
}

// Returns what is laid at an output: packets, and then a raise to the next inner time.
fn laid_up_to(packets: Vec<Packet>, next: u64) -> Result<Laid, AllocError>
    requires { next ≤ 2 ^ 63 - 4 }
    ensures { IfOk result (λ laid. (last : ℕ) → next ≡ last + 1 → laid ≡ the_laid last packets.items) }
{
    let packets = ShortList::from_vec(packets)?;
    Ok(Laid {
        packets,
        bound: Some(inner_time(next)),
    })
}

// Returns what is laid at an output CLONE for a list of `count` items, by the packet of the input CLONE.
fn clone_laid(
    alloc: Global,
    span: &Span,
    count: usize,
    packet: Option<&Packet>,
) -> Result<Laid, AllocError>
    requires span { span.now.next ≡ last_inner span.now.first count + 1 }
    requires last { span.now.next ≤ 2 ^ 63 - 4 }
    ensures { IfOk result (λ laid. laid ≡ the_laid (last_inner span.now.first count) (the_copies span.now.first count (option_copied packet.entry))) }
{
    let packets = cloned(alloc, span.first, count, packet)?;
    Ok(laid_up_to(packets, span.next)?)
}

// Appends what is laid at each of the outputs CLONE for a list of `count` items.
fn put_clones(
    alloc: Global,
    emission: &mut Vec<Laid>,
    clones: u32,
    span: &Span,
    count: usize,
    set: &InputSet,
) -> Result<(), AllocError>
    requires span { span.now.next ≡ last_inner span.now.first count + 1 }
    requires last { span.now.next ≤ 2 ^ 63 - 4 }
    ensures { OnOk result (emission.new.items ≡ emission.old.items ++ clones_laid clones span.now.first (last_inner span.now.first count) count set.now) }
{
    for i in 0..clones {
        emission.push(clone_laid(alloc, span, count, set.get(i))?)?;
    }
    Ok(())
}

// Returns `count` packets that share the payload of the packet of an input CLONE, or no packets if it has none.
fn cloned(
    alloc: Global,
    first: u64,
    count: usize,
    packet: Option<&Packet>,
) -> Result<Vec<Packet>, AllocError>
    requires { first + count ≤ 2 ^ 63 - 4 }
    ensures { IfOk result (λ packets. packets.items ≡ the_copies first count (option_copied packet.entry)) }
{
    match packet {
        Some(packet) => copies(alloc, first, count, packet),
        None => Ok(Vec::new(alloc)),
    }
}

// Returns what is laid at BATCH_END for a list at a time. It is that time, in a packet at the list's last inner time, and a raise to
// `next`.
fn end_laid(alloc: Global, at: Timestamp, next: u64) -> Result<Laid, AllocError>
    requires some { 1 ≤ next }
    requires last { next ≤ 2 ^ 63 - 4 }
    ensures { IfOk result (λ laid. (last : ℕ) → next ≡ last + 1 → laid ≡ the_laid last (record { at = the_inner_time last; value = int (raw_of at) } ∷ [])) }
{
    let payload = Arc::new(alloc, Payload::Int(at.raw()))?;
    let end = Packet {
        at: inner_time(next - 1),
        payload,
    };
    Laid::new(alloc, Some(end), Some(inner_time(next)))
}

// Returns the emission for a list at a time.
fn batch(
    alloc: Global,
    clones: u32,
    span: &Span,
    at: Timestamp,
    items: &[Payload],
    set: &InputSet,
) -> Result<Emission, AllocError>
    requires span { span.now.next ≡ last_inner span.now.first (length items.now) + 1 }
    requires last { span.now.next ≤ 2 ^ 63 - 4 }
    ensures { IfOk result (λ emission. emission ≡ the_batch clones span.now.first (last_inner span.now.first (length items.now)) at (map plain items.now) set.now) }
{
    let mut emission = Vec::with_capacity(alloc, clones as usize + 2)?;
    emission.push(end_laid(alloc, at, span.next)?)?;
    put_clones(alloc, &mut emission, clones, span, items.len(), set)?;
    let items = laid_up_to(stamped(alloc, span.first, items)?, span.next)?;
    emission.push(items)?;
    Ok(ShortList::from_vec(emission)?)
}
