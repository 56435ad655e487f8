//! Inputs that come in pieces.
ghost use Rattle.std.specs.Prelude.{◌≡◌, ◌≤◌, ◌++◌, true, length, max, All, IfOk, OnOk};
ghost use Rattle.mg_sched.specs.Code.Made.{AtPlaces};
ghost use Rattle.mg_test_nets.specs.Behind.{IsBehind, HasBehind, IsBehindAt};

use mg_calc::Inputs;
use mg_settled::{Prefix, PrefixList, are_prefixes};
use mg_time::Timestamp;
use mg_value::{BlockList, Packet};
use std::alloc::{AllocError, Global};
use std::test::Fail;

// Returns the greater of two bounds.
fn greater(a: Timestamp, b: Timestamp) -> Timestamp
    ensures { result ≡ max a b }
{
    if a < b { b } else { a }
}

// Returns whether no packet stands below a bound.
fn are_above(packets: &[Packet], bound: Timestamp) -> bool
    ensures { result ≡ true → All (λ p. bound ≤ p.at) packets.now }
{
    packets.iter().all(|packet| bound <= packet.at)
}

// Puts packets after others. Payloads are shared.
fn put_behind(packets: &mut Vec<Packet>, more: &[Packet]) -> Result<(), AllocError>
    ensures { OnOk result (packets.new.items ≡ packets.old.items ++ more.now) }
{
    for packet in more {
        packets.push(packet.try_clone()?)?;
    }
    Ok(())
}

// Returns a prefix followed by a piece. A packet of the piece below the prefix's bound is an error.
fn with_piece(alloc: Global, before: &Prefix, piece: &Prefix) -> Result<Prefix, Fail>
    ensures { IfOk result (λ now. IsBehind before.now piece.now now) }
{
    if !are_above(piece.packets.as_slice(), before.bound) {
        return Err(Fail::from("a packet stands below its stream's bound"));
    }
    let Prefix { packets, bound } = before.try_clone(alloc)?;
    let mut packets = packets.into_vec();
    put_behind(&mut packets, piece.packets.as_slice())?;
    Ok(Prefix {
        packets: BlockList::from_vec(packets)?,
        bound: greater(bound, piece.bound),
    })
}

// Returns the prefix of each stream, followed by its piece.
fn with_pieces(alloc: Global, before: &PrefixList, pieces: &PrefixList) -> Result<PrefixList, Fail>
    requires { length pieces.now ≡ length before.now }
    ensures count { IfOk result (λ now. length now ≡ length before.now) }
    ensures each { IfOk result (λ now. AtPlaces (IsBehindAt before.now pieces.now) now) }
{
    let mut longer = Vec::new(alloc);
    for input in 0..pieces.len() {
        let stream = &before.as_slice()[input as usize];
        let piece = &pieces.as_slice()[input as usize];
        longer.push(with_piece(alloc, stream, piece)?)?;
    }
    Ok(BlockList::from_vec(longer)?)
}

/// Returns inputs followed by a further piece. A piece that can't stand there is an error.
pub(crate) fn longer(alloc: Global, before: &Inputs, piece: &Inputs) -> Result<Inputs, Fail>
    ensures { IfOk result (λ now. HasBehind before.now piece.now now) }
{
    if piece.streams.len() != before.streams.len() {
        return Err(Fail::from("another number of streams"));
    }
    let streams = with_pieces(alloc, &before.streams, &piece.streams)?;
    if !are_prefixes(&streams) {
        return Err(Fail::from("a piece doesn't fit behind its stream"));
    }
    let sides = before.sides.try_clone(alloc)?;
    Ok(Inputs {
        streams,
        sides,
        ended: piece.ended,
    })
}
