//! The settled sets of whole prefixes, as a plain program.
ghost use Rattle.std.specs.Prelude.{◌≡◌, ◌<◌, ◌^◌, All, length, map, Some, if◌then◌else◌, slice_get, None, IfOk, OnOk};
ghost use Rattle.mg_settled.specs.Prefix.{IsPrefix};
ghost use Rattle.mg_settled.specs.Settled.{packet_at, selected, inputs_of, settled_sets};
ghost use Rattle.mg_settled.specs.FirstSet.{first_set_time, chosen_port, is_shown, behind};
ghost use Rattle.mg_settled.specs.Left.{AreLeft};

use crate::look::look_at;
use crate::reaching::selected;
use crate::rest::{Rest, rests_of};
use crate::{InputSet, PrefixList, TimedSet, TimedSetList};
use mg_time::Timestamp;
use mg_value::{BlockList, NumberList, Packet, Policy};
use std::alloc::{AllocError, Global};

/// Returns the settled sets of a node whose ports have the streams with these numbers, under an input policy (MediaPipe,
/// Synchronization). The packets of the sets share their payloads with those of the prefixes. Each packet is passed once, and each set
/// looks at each port a fixed number of times.
pub fn settled_sets(
    alloc: Global,
    policy: Policy,
    prefixes: &PrefixList,
    ports: &NumberList,
) -> Result<TimedSetList, AllocError>
    requires streams { All IsPrefix prefixes.now }
    requires known { All (λ i. i < length prefixes.now) ports.now }
    ensures { IfOk result (λ sets. sets ≡ settled_sets policy (inputs_of prefixes.now ports.now)) }
{
    let mut rests = rests_of(alloc, prefixes, ports)?;
    take_sets(alloc, policy, rests.as_mut_slice())
}

/// Returns the settled sets of what is left at each port, and passes the packets that go with them. What comes later at these ports
/// is read from there.
pub fn take_sets(
    alloc: Global,
    policy: Policy,
    rests: &mut [Rest<'_>],
) -> Result<TimedSetList, AllocError>
    requires few { length rests.old < 2 ^ 32 }
    requires streams { All IsPrefix rests.old }
    ensures sets { IfOk result (λ sets. sets ≡ settled_sets policy rests.old) }
    ensures left { OnOk result (AreLeft policy (length (settled_sets policy rests.old)) rests.old rests.new) }
{
    let mut sets = Vec::new(alloc);
    while let Some(at) = first_set_time(policy, rests) {
        let set = take_set(alloc, policy, rests, at)?;
        sets.push(TimedSet { at, set })?;
    }
    Ok(BlockList::from_vec(sets)?)
}

/// Returns the time of the first settled set, if there is one.
fn first_set_time(policy: Policy, rests: &[Rest<'_>]) -> Option<Timestamp>
    requires { length rests.now < 2 ^ 32 }
    ensures { result ≡ first_set_time policy rests.now }
{
    match policy {
        Policy::Default => {
            let look = look_at(rests);
            if look.earliest < look.low {
                Some(look.earliest)
            } else {
                None
            }
        }
        Policy::Mux => {
            let first = rests.last()?.first()?;
            match selected(rests.len() as u32, &first.payload) {
                Some(port) if rests[port as usize].bound() <= first.at => None,
                _ => Some(first.at),
            }
        }
    }
}

/// Returns the port that SELECT's first packet selects, under the policy Mux.
fn chosen_port(policy: Policy, rests: &[Rest<'_>]) -> Option<u32>
    requires { length rests.now < 2 ^ 32 }
    ensures { result ≡ chosen_port policy rests.now }
{
    match policy {
        Policy::Default => None,
        Policy::Mux => {
            let first = rests.last()?.first()?;
            selected(rests.len() as u32, &first.payload)
        }
    }
}

/// Whether the first settled set shows a port.
fn is_shown(policy: Policy, ports: u32, chosen: Option<u32>, port: u32) -> bool
    requires { port < ports }
    ensures { result ≡ is_shown policy ports chosen port }
{
    match policy {
        Policy::Default => true,
        Policy::Mux => port + 1 == ports || chosen == Some(port),
    }
}

/// Passes the packets of a port up to a time, and returns the packet that stands at it, if the port is shown.
fn read_port(rest: &mut Rest<'_>, at: Timestamp, shown: bool) -> Result<Option<Packet>, AllocError>
    requires { IsPrefix rest.old }
    ensures packet { IfOk result (λ packet. packet ≡ (if shown then packet_at at rest.old.packets else None)) }
    ensures left { rest.new ≡ behind at rest.old }
{
    match rest.read_at(at) {
        Some(packet) if shown => Ok(Some(packet.try_clone()?)),
        _ => Ok(None),
    }
}

/// Returns the first settled set, which stands at this time, and passes the packets of each port up to the time.
fn take_set(
    alloc: Global,
    policy: Policy,
    rests: &mut [Rest<'_>],
    at: Timestamp,
) -> Result<InputSet, AllocError>
    requires few { length rests.old < 2 ^ 32 }
    requires streams { All IsPrefix rests.old }
    requires first { first_set_time policy rests.old ≡ Some at }
    ensures set { IfOk result (λ set. slice_get (settled_sets policy rests.old) 0 ≡ Some (record { at = at; set = set })) }
    ensures left { OnOk result (rests.new ≡ map (behind at) rests.old) }
{
    let ports = rests.len() as u32;
    let chosen = chosen_port(policy, rests);
    let mut set = InputSet::new(alloc, ports)?;
    for port in 0..ports {
        let shown = is_shown(policy, ports, chosen, port);
        let packet = read_port(&mut rests[port as usize], at, shown)?;
        set.put(port, packet);
    }
    Ok(set)
}
