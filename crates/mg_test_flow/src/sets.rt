//! Whole prefixes: the rule of streams, and what their copies and settled sets share.

use mg_settled::{Prefix, PrefixList, TimedSetList, are_prefixes, settled_sets};
use mg_tables::{Calls, assert_rows, packet_of, time_of};
use mg_value::{NumberList, Packet, PacketList, Policy};
use std::alloc::Global;
use std::process::Abort;
use std::sync::Arc;
use std::test::Fail;

// In a row a stream is its packets, each a time and a number, with commas between them, and after `|` its bound.

// Rows of a stream each, and after `=` whether it keeps the rule of streams.
fn rule() -> &'static str {
    "|PreStream=yes
|Unstarted=no
|Done=yes
5 1|5=no
5 1|6=yes
5 1,6 2|Done=yes
5 1,5 2|9=no
6 1,5 2|9=no
Unstarted 1|9=no
Done 1|Done=no
PreStream 1|5=no
PreStream 1|OneOverPostStream=yes
PreStream 1,5 2|9=no
PostStream 1|OneOverPostStream=yes
5 1,PostStream 2|Done=no"
}

fn stream_of(alloc: Global, text: &str) -> Result<Prefix, Fail> {
    let (texts, bound) = text.split_once('|').ok_or("no bound")?;
    let mut packets = Vec::new(alloc);
    if !texts.is_empty() {
        for packet in texts.split(',') {
            packets.push(packet_of(alloc, packet)?)?;
        }
    }
    Ok(Prefix {
        packets: PacketList::from_vec(packets).map_err(|_| "too long")?,
        bound: time_of(alloc, bound)?,
    })
}

fn ports_of(alloc: Global, text: &str) -> Result<NumberList, Fail> {
    let mut ports = Vec::new(alloc);
    for number in text.split_whitespace() {
        ports.push(number.parse::<u32>()?)?;
    }
    Ok(NumberList::from_vec(ports).map_err(|_| "too long")?)
}

/// Calls that ask whether a stream keeps the rule of streams.
#[derive(Drop)]
struct RuleCalls;

impl Calls for RuleCalls {
    fn answer(&mut self, alloc: Global, call: &str) -> Result<String, Fail> {
        let kept = stream_of(alloc, call)?.is_prefix();
        Ok(String::from_str(alloc, if kept { "yes" } else { "no" })?)
    }
}

#[test]
fn streams_keep_the_rule(rt: HostRuntime) -> Result<(), Fail> {
    assert_rows(rt.alloc(), &mut RuleCalls, rule())
}

// Checks how many share the payload of a packet once it is in a stream, and once the stream is copied. Checks it again once a
// node that reads the stream and its copy has its settled sets.
fn assert_shared(rt: &impl Abort, alloc: Global, packet: Packet) -> Result<(), Fail> {
    let payload = Arc::try_clone(&packet.payload)?;
    let bound = packet.at.next_allowed();
    let packets = PacketList::from_vec(vec![in alloc; packet]?).map_err(|_| "too long")?;
    let stream = Prefix { packets, bound };
    assert!(rt; Arc::strong_count(&payload) == 2);
    let copy = stream.try_clone(alloc)?;
    assert!(rt; Arc::strong_count(&payload) == 3);
    let streams = PrefixList::from_vec(vec![in alloc; stream, copy]?).map_err(|_| "too long")?;
    let sets = settled_by_default(alloc, &streams)?;
    assert!(rt; sets.len() == 1 && Arc::strong_count(&payload) == 5);
    Ok(())
}

// Returns the settled sets of a node that reads these two streams.
fn settled_by_default(alloc: Global, streams: &PrefixList) -> Result<TimedSetList, Fail> {
    let ports = ports_of(alloc, "0 1")?;
    if !are_prefixes(streams) || !ports.all_below(streams.len()) {
        return Err(Fail::from("no streams of a node"));
    }
    Ok(settled_sets(alloc, Policy::Default, streams, &ports)?)
}

#[test]
fn copies_share_their_payloads(rt: HostRuntime) -> Result<(), Fail> {
    assert_shared(&rt, rt.alloc(), packet_of(rt.alloc(), "5 7")?)
}
