ghost use Rattle.std.specs.Prelude.{◌≡◌, ◌+◌, List, option_copied, OnErr};
ghost use Rattle.mg_value.specs.Payload.{Plain};
ghost use Rattle.mg_settled.specs.Settled.{selected as the_selected};
ghost use Rattle.mg_calc.specs.Answer.{Gives, GivesEmission};
ghost use Rattle.mg_calc.specs.Kinds.{is_wrong as is_it_wrong, has_wrong_kind};
ghost use Rattle.mg_calc.specs.Law.{step};
ghost use Rattle.mg_calc.specs.Shape.{IsRouting};
ghost use Rattle.mg_calc.specs.Routing.{pass as the_pass, gate as the_gate, mux as the_mux, merge as the_merge, truth_of as the_truth_of, is_open as is_it_open, first_packet as the_first_packet};

use crate::cloner::cloner;
use crate::emissions::{front, handed_on};
use crate::thin::thin;
use mg_calc::{CalcFault, Cause, Emission, Law, State, no_emission};
use mg_settled::InputSet;
use mg_time::Timestamp;
use mg_value::{Kind, Packet, Payload, has_kind};
use std::alloc::Global;

/// Returns what a calculator that hands packets on gives at a set: its new state and its emission, or its cause.
///
/// Packets that go on share their payloads, and the new state shares those of the old one; `route_step_in` changes a state in place.
pub fn route_step(
    alloc: Global,
    law: &Law,
    state: &State,
    at: Timestamp,
    set: &InputSet,
) -> Result<(State, Emission), CalcFault>
    requires { IsRouting law.now }
    ensures { Gives result (step law.now state.now at set.now) }
{
    let mut kept = state.try_clone(alloc)?;
    let emission = route_step_in(alloc, law, &mut kept, at, set)?;
    Ok((kept, emission))
}

/// Returns what a calculator that hands packets on emits at a set, or its cause, and changes its state in place. On an error the state
/// stays. Packets that go on share their payloads.
pub fn route_step_in(
    alloc: Global,
    law: &Law,
    state: &mut State,
    at: Timestamp,
    set: &InputSet,
) -> Result<Emission, CalcFault>
    requires { IsRouting law.now }
    ensures answer { GivesEmission result state.new (step law.now state.old at set.now) }
    ensures kept { OnErr result (state.new ≡ state.old) }
{
    if is_refused(law, set) {
        return Err(CalcFault::Fault(Cause::WrongKind));
    }
    match law {
        Law::Pass => pass(alloc, set),
        Law::Gate {
            lanes,
            disallow,
            empty_as_allow,
        } => gate(alloc, *lanes, *disallow, *empty_as_allow, set),
        Law::Mux { lanes } => mux(alloc, *lanes, set),
        Law::Cloner { lanes } => cloner(alloc, *lanes, state, at, set),
        Law::Merge { .. } => merge(alloc, set),
        Law::Thin { period } => thin(alloc, *period, state, at, set),
        _ => unreachable!(),
    }
}

// Whether a packet, if there is one, isn't of a kind.
fn is_wrong(kind: Kind, packet: Option<&Packet>) -> bool
    ensures { result ≡ is_it_wrong kind (option_copied packet.entry) }
{
    match packet {
        Some(packet) => !has_kind(&packet.payload, kind),
        None => false,
    }
}

// Whether a packet of a set isn't of its port's kind. Of these laws only Gate and Mux have a port of a kind of its own: the last.
fn is_refused(law: &Law, set: &InputSet) -> bool
    requires { IsRouting law.now }
    ensures { result ≡ has_wrong_kind law.now set.now }
{
    match law {
        Law::Gate { lanes, .. } => is_wrong(Kind::Flag, set.get(*lanes)),
        Law::Mux { lanes } => is_wrong(Kind::Int, set.get(*lanes)),
        _ => false,
    }
}

fn pass(alloc: Global, set: &InputSet) -> Result<Emission, CalcFault>
    ensures { (state : List Plain) → GivesEmission result state (the_pass state set.now) }
{
    let emission = front(alloc, set, set.len())?;
    Ok(emission)
}

// Returns the truth value of a packet, or false if its payload is of another kind.
fn truth_of(packet: &Packet) -> bool
    ensures { result ≡ the_truth_of packet.now.value }
{
    match &*packet.payload {
        Payload::Flag(flag) => *flag,
        _ => false,
    }
}

fn is_open(disallow: bool, empty_as_allow: bool, control: Option<&Packet>) -> bool
    ensures { result ≡ is_it_open disallow empty_as_allow (option_copied control.entry) }
{
    match control {
        Some(packet) => {
            if disallow {
                !truth_of(packet)
            } else {
                truth_of(packet)
            }
        }
        None => empty_as_allow,
    }
}

fn gate(
    alloc: Global,
    lanes: u32,
    disallow: bool,
    empty_as_allow: bool,
    set: &InputSet,
) -> Result<Emission, CalcFault>
    ensures { (state : List Plain) → GivesEmission result state (the_gate lanes disallow empty_as_allow state set.now) }
{
    let emission = if is_open(disallow, empty_as_allow, set.get(lanes)) {
        front(alloc, set, lanes)?
    } else {
        no_emission(alloc)?
    };
    Ok(emission)
}

// Returns the port whose number a packet has, if there is a data port of that number.
fn selected(lanes: u32, packet: &Packet) -> Option<u32>
    ensures { result ≡ the_selected (lanes + 1) packet.now.value }
{
    match &*packet.payload {
        Payload::Int(number) if 0 <= *number && *number < i64::from(lanes) => Some(*number as u32),
        _ => None,
    }
}

fn mux(alloc: Global, lanes: u32, set: &InputSet) -> Result<Emission, CalcFault>
    ensures { (state : List Plain) → GivesEmission result state (the_mux lanes state set.now) }
{
    let Some(select) = set.get(lanes) else {
        return Ok(no_emission(alloc)?);
    };
    let Some(port) = selected(lanes, select) else {
        return Err(CalcFault::Fault(Cause::BadSelect));
    };
    let emission = handed_on(alloc, set.get(port))?;
    Ok(emission)
}

// Returns the packet of the first port that has one.
fn first_packet(set: &InputSet) -> Option<&Packet>
    ensures { option_copied result ≡ the_first_packet set.now }
{
    for port in 0..set.len() {
        if let Some(packet) = set.get(port) {
            return Some(packet);
        }
    }
    None
}

fn merge(alloc: Global, set: &InputSet) -> Result<Emission, CalcFault>
    ensures { (state : List Plain) → GivesEmission result state (the_merge state set.now) }
{
    let emission = handed_on(alloc, first_packet(set))?;
    Ok(emission)
}
