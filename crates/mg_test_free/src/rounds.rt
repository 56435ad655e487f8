//! Rounds of one free node in streams that stay as they are.
ghost use Rattle.std.specs.Prelude.{◌≡◌, IfOk, OnOk, slice_get, option_copied, ⊤};
ghost use Rattle.std.specs.List.{range_with_len};
ghost use Rattle.mg_calc.specs.Equations.{stream_of};
ghost use Rattle.mg_free.specs.Free.{ports_of as the_ports};
ghost use Rattle.mg_test_free.specs.Ready.{IsReady, IsOneNode};

use mg_free::{FreeLaw, FreeNode, FreeNodeList};
use mg_live::{Due, LiveNodes, Streams};
use mg_settled::{Prefix, PrefixList, are_prefixes};
use mg_tables::{Calls, assert_rows, packet_of, text_of, time_of};
use mg_time::Timestamp;
use mg_value::{BlockList, NumberList, Packet};
use std::alloc::{AllocError, Global};
use std::fmt::Write;
use std::test::Fail;

// The streams of a row, one for each input of the node.
#[derive(Drop)]
struct Given {
    streams: PrefixList,
}

// Returns the packet of a number in a stream, if there is one.
fn packet_in(streams: &[Prefix], stream: u32, number: u64) -> Option<&Packet>
    ensures { option_copied result ≡ slice_get (stream_of streams.now stream).packets number }
{
    let prefix = streams.get(stream as usize)?;
    prefix.packets.as_slice().get(number as usize)
}

impl Streams for Given {
    ghost are = { λ g streams. streams ≡ g.streams };

    ghost has_from = { λ g stream number. ⊤ };

    fn packet(&self, stream: u32, number: u64) -> Option<&Packet> {
        packet_in(self.streams.as_slice(), stream, number)
    }

    fn bound(&self, stream: u32) -> Timestamp {
        let prefix = &self.streams.as_slice()[stream as usize];
        prefix.bound
    }
}

// Rows of a law with its number, and its streams. Each stream stands after a bar, as its packets' times and its bound. After `=`
// stand the arrivals, each as its port, `@` and its time. After a bar stands what the node hands on.
fn rows() -> &'static str {
    r#"limiter 1|10 20 Done|10 Done=1@10 0@10 0@20 | 10 bound Done
limiter 1|10 20 30 31|PreStream=0@10 0@20 0@30 | 10 bound 31
limiter 2|10 20 30 Done|5 Done=1@5 0@10 0@20 0@30 | 10 20 bound Done
limiter 1|Done|PreStream=| bound Done
first 2|10 Done|20 Done=1@20 0@10 | 20 bound Done
first 2|20 Done|10 20 Done=1@10 1@20 0@20 | 10 20 bound Done
first 1|10 20 21=0@10 0@20 | 10 20 bound 21"#
}

fn law_of(word: &str, number: u32) -> FreeLaw {
    if word == "limiter" {
        FreeLaw::Limiter { most: number }
    } else {
        FreeLaw::FirstCome { lanes: number }
    }
}

// Returns how many inputs a law has.
fn ports_of(law: FreeLaw) -> u32
    ensures { result ≡ the_ports law }
{
    match law {
        FreeLaw::FirstCome { lanes } => lanes,
        FreeLaw::Limiter { .. } => 2,
    }
}

// Returns the numbers below a count, in order.
fn numbers_of(alloc: Global, count: u32) -> Result<NumberList, AllocError>
    ensures { IfOk result (λ numbers. numbers ≡ range_with_len 0 count) }
{
    let mut numbers = Vec::new(alloc);
    for number in 0..count {
        numbers.push(number)?;
    }
    Ok(NumberList::from_vec(numbers)?)
}

// Returns one free node, which reads the first streams, as many as its law has inputs.
fn one_node(alloc: Global, law: FreeLaw) -> Result<FreeNodeList, AllocError>
    ensures { IfOk result (λ frees. IsOneNode law frees) }
{
    let inputs = numbers_of(alloc, ports_of(law))?;
    let free = FreeNode {
        node: 0,
        law,
        inputs,
        output: 0,
    };
    Ok(FreeNodeList::from_vec(vec![in alloc; free]?)?)
}

// Returns the free node of a law that reads these streams, before its first round.
fn ready(alloc: Global, law: FreeLaw, given: &Given) -> Result<LiveNodes, Fail>
    ensures { IfOk result (λ live. IsReady live.free live.takers.items given.now.streams) }
{
    if given.streams.len() != ports_of(law) || !are_prefixes(&given.streams) {
        return Err(Fail::from("no streams of the law"));
    }
    let frees = one_node(alloc, law)?;
    Ok(LiveNodes::new(alloc, frees)?)
}

// Makes rounds until one does nothing, and fails after ten. At first the node is due. The streams don't grow, so it is due in a further
// round if it did something in the one before.
fn run(alloc: Global, live: &mut LiveNodes, given: &Given) -> Result<(), Fail>
    requires { IsReady live.old.free live.old.takers.items given.now.streams }
    ensures { OnOk result (IsReady live.new.free live.new.takers.items given.now.streams) }
{
    let mut due = Due::new(alloc);
    'rounds: for _ in 0..10 {
        if live.round(alloc, &mut due, given)?.is_empty() {
            return Ok(());
        }
    }
    Err(Fail::from("no end"))
}

// Reads a stream that is written as the times of its packets and its bound.
fn stream_in(alloc: Global, text: &str) -> Result<Prefix, Fail> {
    let mut packets = Vec::new(alloc);
    let mut bound = Timestamp::PRE_STREAM;
    let mut words = text.split(' ').peekable();
    while let Some(word) = words.next() {
        if words.peek().is_none() {
            bound = time_of(alloc, word)?;
        } else {
            packets.push(packet_of(alloc, format!(in alloc; "{word} 1")?.as_str())?)?;
        }
    }
    Ok(Prefix {
        packets: BlockList::from_vec(packets)?,
        bound,
    })
}

fn show_handed(text: &mut String, alloc: Global, live: &mut LiveNodes) -> Result<(), Fail> {
    if live.len() != 1 {
        return Err(Fail::from("no single node"));
    }
    for piece in live.hand_on(alloc, &[0])?.as_slice() {
        for packet in piece.packets.as_slice() {
            write!(text, "{} ", text_of(alloc, packet.at)?)?;
        }
        write!(text, "bound {}", text_of(alloc, piece.bound)?)?;
    }
    Ok(())
}

// Reads a law and its streams from the text of a row before `=`.
fn read_call(alloc: Global, call: &str) -> Result<(FreeLaw, Given), Fail> {
    let mut parts = call.split('|');
    let law = parts.next().ok_or("no law")?;
    let (word, number) = law.split_once(' ').ok_or("no number")?;
    let law = law_of(word, number.parse::<u32>()?);
    let mut streams = Vec::new(alloc);
    for part in parts {
        streams.push(stream_in(alloc, part)?)?;
    }
    Ok((
        law,
        Given {
            streams: PrefixList::from_vec(streams)?,
        },
    ))
}

// Returns the arrivals, and then what the node hands on, as a row has them.
fn show(alloc: Global, live: &mut LiveNodes) -> Result<String, Fail> {
    let mut text = String::new(alloc);
    for place in 0..live.len() {
        for arrived in live.log(place) {
            write!(text, "{}@{} ", arrived.port, text_of(alloc, arrived.at)?)?;
        }
    }
    text.push_str("| ")?;
    show_handed(&mut text, alloc, live)?;
    Ok(text)
}

#[derive(Drop)]
struct Turning;

impl Calls for Turning {
    fn answer(&mut self, alloc: Global, call: &str) -> Result<String, Fail> {
        let (law, given) = read_call(alloc, call)?;
        let mut live = ready(alloc, law, &given)?;
        run(alloc, &mut live, &given)?;
        show(alloc, &mut live)
    }
}

#[test]
fn free_nodes_have_their_turns(rt: HostRuntime) -> Result<(), Fail> {
    assert_rows(rt.alloc(), &mut Turning, rows())
}
