//! The loopback's stream of whole prefixes, as a plain program.
ghost use Rattle.std.specs.Prelude.{◌≡◌, ◌++◌, Option, option_map, option_and_then, option_to_list, unwrap_or, IfOk, OnOk};
ghost use Rattle.mg_value.specs.Payload.{Plain};
ghost use Rattle.mg_value.specs.Packet.{Stamped};
ghost use Rattle.mg_settled.specs.Prefix.{IsPrefix};
ghost use Rattle.mg_settled.specs.Settled.{packet_at};
ghost use Rattle.mg_settled.specs.FirstSet.{behind};
ghost use Rattle.mg_settled.specs.Loopback.{loopback, StandsBehind, AreAnswers, next_turn};

use crate::Prefix;
use crate::rest::Rest;
use mg_time::Timestamp;
use mg_value::{BlockList, Packet, PacketList};
use std::alloc::{AllocError, Global};
use std::sync::Arc;

/// Returns the output stream of PreviousLoopbackCalculator: at each packet of MAIN that is answered, what LOOP had at the packet of
/// MAIN before it. Its payloads are those of LOOP, shared. The time that it takes grows with the packets of both.
pub fn loopback(alloc: Global, main: &Prefix, back: &Prefix) -> Result<Prefix, AllocError>
    requires main { IsPrefix main.now }
    requires back { IsPrefix back.now }
    ensures { IfOk result (λ stream. stream ≡ loopback main.now back.now) }
{
    let (mut main, mut back) = (Rest::of(main), Rest::of(back));
    let packets = take_answers(alloc, None, &mut main, &mut back)?;
    let bound = main.read_up_to();
    Ok(Prefix { packets, bound })
}

/// Returns the answers to what is left of MAIN, without those that are nothing. The packet of MAIN before what is left stood at
/// `previous`, if there was one. Passes the packets of MAIN that are answered, and those of LOOP that nobody will ask for. What
/// comes later is read from there.
pub fn take_answers(
    alloc: Global,
    previous: Option<Timestamp>,
    main: &mut Rest<'_>,
    back: &mut Rest<'_>,
) -> Result<PacketList, AllocError>
    requires main { IsPrefix main.old }
    requires back { IsPrefix back.old }
    ensures { (before : Option (Stamped Plain)) → previous ≡ option_map (λ p. p.at) before → StandsBehind before main.old.packets
        → IfOk result (λ packets. AreAnswers before main.old back.old packets main.new back.new) }
{
    let mut previous = previous;
    let mut packets = Vec::new(alloc);
    while let Some(at) = next_turn(previous, main, back) {
        push_some(&mut packets, answer(back, previous, at)?)?;
        main.read_first();
        previous = Some(at);
    }
    Ok(BlockList::from_vec(packets)?)
}

/// Returns the time of the next packet of MAIN, if that packet is answered. It is answered if it is the first of all, or if
/// LOOP has settled the time of the packet before it.
fn next_turn(previous: Option<Timestamp>, main: &Rest<'_>, back: &Rest<'_>) -> Option<Timestamp>
    ensures { result ≡ next_turn previous main.now back.now }
{
    match previous {
        Some(before) if back.bound() <= before => None,
        _ => main.first().map(|turn| turn.at),
    }
}

/// Returns the answer to the packet of MAIN at the time `at`: what LOOP has at the time of the packet of MAIN before it. Passes the
/// packets of LOOP up to that.
fn answer(
    rest: &mut Rest<'_>,
    previous: Option<Timestamp>,
    at: Timestamp,
) -> Result<Option<Packet>, AllocError>
    requires { IsPrefix rest.old }
    ensures packet { IfOk result (λ packet. packet
        ≡ option_map (λ p. record { at = at; value = p.value }) (option_and_then (λ t. packet_at t rest.old.packets) previous)) }
    ensures left { rest.new ≡ unwrap_or (option_map (λ t. behind t rest.old) previous) rest.old }
{
    let Some(before) = previous else {
        return Ok(None);
    };
    match rest.read_at(before) {
        Some(found) => Ok(Some(Packet {
            at,
            payload: Arc::try_clone(&found.payload)?,
        })),
        None => Ok(None),
    }
}

/// Appends a packet to a list, if there is one.
fn push_some(packets: &mut Vec<Packet>, packet: Option<Packet>) -> Result<(), AllocError>
    ensures { OnOk result (packets.new.items ≡ packets.old.items ++ option_to_list packet) }
{
    match packet {
        Some(packet) => Ok(packets.push(packet)?),
        None => Ok(()),
    }
}
