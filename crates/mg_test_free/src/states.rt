//! Arrivals at free nodes, one by one.

use mg_free::{FreeLaw, FreeNode, FreeState};
use mg_settled::Prefix;
use mg_tables::{Calls, assert_rows};
use mg_time::Timestamp;
use mg_value::{BlockList, Packet, Payload};
use std::alloc::{AllocError, Global};
use std::fmt::Write;
use std::sync::Arc;
use std::test::Fail;

// Rows of a law with its number, and arrivals, each as its port, `@` and its time. After `=` stands whether each arrival is laid
// (`+`) or not (`-`). Then stand the times of the packets that are handed on, and the output's bound. A bar hands on what was laid
// before it.
fn arrivals() -> &'static str {
    r#"limiter 1 0@10 0@20=+- 10 bound 21
limiter 1 0@10 0@20 0@30=+-- 10 bound 31
limiter 1 0@10 1@10 0@20 1@20=+-+- 10 20 bound 21
limiter 2 0@10 0@20 0@30 1@15 0@40=++--+ 10 20 40 bound 41
limiter 1 1@1 1@2 0@10 0@20=--+- 10 bound 21
limiter 1 0@PreStream=+ PreStream bound OneOverPostStream
limiter 1 0@PostStream=+ PostStream bound OneOverPostStream
limiter 3= bound PreStream
first 2 1@20 0@10=+- 20 bound 21
first 2 0@10 1@20 0@20 0@21=++-+ 10 20 21 bound 22
first 1 0@10 0@PostStream=+- 10 bound 11
first 1 0@PostStream=+ PostStream bound OneOverPostStream
first 3 2@PreStream 1@5 0@5=+-- PreStream bound OneOverPostStream
limiter 1 0@10 | 0@20 1@10 0@30 | |=+ 10 bound 11--+ 30 bound 31 bound 31 bound 31
first 1 0@10 | 0@9 0@10 0@11=+ 10 bound 11--+ 11 bound 12
first 1 0@10 | 0@PostStream=+ 10 bound 11- bound 11"#
}

fn law_of(word: &str, number: u32) -> FreeLaw {
    if word == "limiter" {
        FreeLaw::Limiter { most: number }
    } else {
        FreeLaw::FirstCome { lanes: number }
    }
}

fn show_time(text: &mut String, alloc: Global, time: Timestamp) -> Result<(), AllocError> {
    let shown = time.print_text(alloc)?;
    for byte in shown.as_slice() {
        text.push(char::from(*byte))?;
    }
    Ok(())
}

fn show_output(text: &mut String, alloc: Global, output: &Prefix) -> Result<(), AllocError> {
    for packet in output.packets.as_slice() {
        text.push_str(" ")?;
        show_time(text, alloc, packet.at)?;
    }
    text.push_str(" bound ")?;
    show_time(text, alloc, output.bound)
}

// Lets a packet arrive, as it is written: a port, `@` and a time. Returns whether it is laid.
fn arrive(alloc: Global, state: &mut FreeState, word: &str) -> Result<bool, Fail> {
    let (port, time) = word.split_once('@').ok_or("no `@`")?;
    let port = port.parse::<u32>()?;
    let at = Timestamp::read_text(time.as_bytes()).ok_or("no time")?;
    let packet = Packet {
        at,
        payload: Arc::new(alloc, Payload::Int(1))?,
    };
    if !packet.at.is_allowed() {
        return Err(Fail::from("a time that no packet may have"));
    }
    Ok(state.arrive(port, &packet)?)
}

// Shows what a node hands on.
fn hand_on(text: &mut String, alloc: Global, state: &mut FreeState) -> Result<(), AllocError> {
    let piece = state.hand_on()?;
    show_output(text, alloc, &piece)
}

// Lets a packet arrive and shows whether it is laid, or hands on what was laid.
fn step(text: &mut String, alloc: Global, state: &mut FreeState, word: &str) -> Result<(), Fail> {
    if word == "|" {
        hand_on(text, alloc, state)?;
        return Ok(());
    }
    let mark = if arrive(alloc, state, word)? {
        "+"
    } else {
        "-"
    };
    text.push_str(mark)?;
    Ok(())
}

fn state_of(alloc: Global, law: FreeLaw) -> Result<FreeState, Fail> {
    let inputs = BlockList::from_vec(Vec::new(alloc))?;
    let free = FreeNode {
        node: 0,
        law,
        inputs,
        output: 0,
    };
    Ok(FreeState::new(alloc, &free)?)
}

#[derive(Drop)]
struct Arriving;

impl Calls for Arriving {
    fn answer(&mut self, alloc: Global, call: &str) -> Result<String, Fail> {
        let mut words = call.split(' ');
        let word = words.next().ok_or("no law")?;
        let number = words.next().ok_or("no number")?;
        let number = number.parse::<u32>()?;
        let mut state = state_of(alloc, law_of(word, number))?;
        let mut text = String::new(alloc);
        for word in words {
            step(&mut text, alloc, &mut state, word)?;
        }
        hand_on(&mut text, alloc, &mut state)?;
        Ok(text)
    }
}

#[test]
fn packets_arrive(rt: HostRuntime) -> Result<(), Fail> {
    assert_rows(rt.alloc(), &mut Arriving, arrivals())
}

#[test]
fn a_closed_output_has_ended(rt: HostRuntime) -> Result<(), Fail> {
    let alloc = rt.alloc();
    let mut state = state_of(alloc, FreeLaw::Limiter { most: 1 })?;
    state.close();
    let piece = state.hand_on()?;
    assert!(&rt; piece.bound == Timestamp::DONE);
    Ok(())
}
