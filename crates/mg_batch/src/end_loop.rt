//! Items are gathered into a list, which goes on at the time that the end of a batch tells (after MediaPipe's
//! EndLoopCalculator).
ghost use Rattle.std.specs.Prelude.{◌≡◌, ◌≤ℤ◌, map, ◌∷◌, [], Some, None, nat_le, option_copied, unwrap_or, option_map, false, IfOk, OnErr};
ghost use Rattle.mg_time.specs.Time.{place_of, raw_of, least, greatest};
ghost use Rattle.mg_value.specs.Plain.{depth};
ghost use Rattle.mg_value.specs.Payload.{plain};
ghost use Rattle.mg_calc.specs.Answer.{GivesEmission};
ghost use Rattle.mg_calc.specs.State.{kept_list, full_places};
ghost use Rattle.mg_calc.specs.Batch.{list_or_bound as the_list_or_bound, end_loop as the_end_loop};
ghost use Rattle.mg_batch.specs.Code.Gathered.{with_more};

use crate::copying::{all_copied, copied};
use crate::nesting::nests;
use mg_calc::{
    CalcFault, Cause, Emission, Laid, State, no_emission, number_of_packet, one_output, one_packet,
};
use mg_settled::InputSet;
use mg_time::Timestamp;
use mg_value::{Packet, Payload, PayloadList};
use std::alloc::{AllocError, Global};
use std::sync::Arc;

/// How deep lists and records may nest in an item.
const DEEPEST: u32 = 15;

/// Returns what EndLoop emits at a set, and puts its new state in the place of the old one. On an error the state stays.
pub fn end_loop(
    alloc: Global,
    empty_as_bound: bool,
    state: &mut State,
    set: &InputSet,
) -> Result<Emission, CalcFault>
    ensures answer { GivesEmission result state.new (the_end_loop empty_as_bound state.old set.now) }
    ensures kept { OnErr result (state.new ≡ state.old) }
{
    let item = set.get(1);
    if is_too_deep(item) {
        return Err(CalcFault::Fault(Cause::TooDeep));
    }
    let Some(end) = set.get(0) else {
        let emission = no_emission(alloc)?;
        keep(alloc, state, item)?;
        return Ok(emission);
    };
    let at = time_of(number_of_packet(end));
    let emission = list_or_bound(alloc, empty_as_bound, at, gathered(alloc, state, item)?)?;
    *state = State::empty();
    Ok(emission)
}

// Whether a list with the payload of a packet as an item would nest deeper than a payload may.
fn is_too_deep(item: Option<&Packet>) -> bool
    ensures { result ≡ unwrap_or (option_map (λ p. nat_le 16 (depth p.value)) (option_copied item.entry)) false }
{
    match item {
        Some(packet) => nests(&packet.payload, DEEPEST + 1),
        None => false,
    }
}

// Appends the payload of a packet, if there is one, to the list that a state keeps. On an error the state stays.
fn keep(alloc: Global, state: &mut State, item: Option<&Packet>) -> Result<(), AllocError>
    ensures more { IfOk result (λ _. state.new ≡ full_places (with_more (kept_list state.old) (option_copied item.entry))) }
    ensures same { OnErr result (state.new ≡ state.old) }
{
    match item {
        Some(packet) => {
            let payload = Arc::try_clone(&packet.payload)?;
            state.push(alloc, payload)
        }
        None => state.fill(alloc),
    }
}

// Returns the payloads of the list that a state keeps, and as the last item that of a packet, if there is one.
fn gathered(alloc: Global, state: &State, item: Option<&Packet>) -> Result<Vec<Payload>, AllocError>
    ensures { IfOk result (λ list. map plain list.items ≡ with_more (kept_list state.now) (option_copied item.entry)) }
{
    let list = state.list(alloc)?;
    let mut payloads = all_copied(alloc, list.as_slice())?;
    put(alloc, &mut payloads, item)?;
    Ok(payloads)
}

// Returns the emission of a list at a time. With `empty_as_bound` an empty list is no packet, but a raise past that time.
fn list_or_bound(
    alloc: Global,
    empty_as_bound: bool,
    at: Timestamp,
    list: Vec<Payload>,
) -> Result<Emission, AllocError>
    ensures { IfOk result (λ emission. emission ≡ the_list_or_bound empty_as_bound at (map plain list.items)) }
{
    if empty_as_bound && list.is_empty() {
        return Ok(one_output(Laid::new(alloc, None, Some(at.next_allowed()))?));
    }
    let payload = Arc::new(alloc, Payload::Items(PayloadList::from_vec(list)?))?;
    Ok(one_packet(Packet { at, payload }))
}

// Appends a copy of the payload of a packet, if there is one.
fn put(alloc: Global, payloads: &mut Vec<Payload>, item: Option<&Packet>) -> Result<(), AllocError>
    ensures { IfOk result (λ _. map plain payloads.new.items ≡ with_more (map plain payloads.old.items) (option_copied item.entry)) }
{
    if let Some(packet) = item {
        payloads.push(copied(alloc, &packet.payload)?)?;
    }
    Ok(())
}

// Returns the timestamp of a number, in the range or special.
fn time_of(number: i64) -> Timestamp
    ensures { result ≡ place_of number }
{
    match Timestamp::of_range(number) {
        Some(at) => at,
        None => special_time(number),
    }
}

// Returns the special timestamp of a number that isn't in the range.
fn special_time(number: i64) -> Timestamp
    requires { ¬ ((raw_of least ≤ℤ number) × (number ≤ℤ raw_of greatest)) }
    ensures { result ≡ place_of number }
{
    if number == Timestamp::UNSET.raw() {
        return Timestamp::UNSET;
    }
    if number == Timestamp::UNSTARTED.raw() {
        return Timestamp::UNSTARTED;
    }
    if number == Timestamp::PRE_STREAM.raw() {
        return Timestamp::PRE_STREAM;
    }
    if number == Timestamp::POST_STREAM.raw() {
        return Timestamp::POST_STREAM;
    }
    if number == Timestamp::ONE_OVER_POST_STREAM.raw() {
        return Timestamp::ONE_OVER_POST_STREAM;
    }
    Timestamp::DONE
}
