//! Calls that sleep, of mills in a chain. Workers share them, so that they take less time than one after another.
use crate::running::{Job, lines, lines_in, output_of};
use mg_edge::Gate;
use std::alloc::{AllocError, Global};
use std::rt::Clock;
use std::test::Fail;
use std::thread;
use std::time::{Duration, Instant};

// How many mills the chain has, and how many packets go through it.
const MILLS: u32 = 8;

const PACKETS: u32 = 32;

// How long a call sleeps, in milliseconds.
const NAP: u64 = 20;

// A gate in which each call sleeps.
#[derive(Drop)]
struct Nap<'a, R> {
    rt: &'a R,
}

impl<'a, R: Clock> Gate for Nap<'a, R> {
    fn enter(&self, _node: u32, _number: u64) {
        thread::sleep(self.rt, Duration::from_millis(NAP));
    }

    fn leave(&self, _node: u32, _number: u64) {}
}

// Returns the text of a chain of mills.
fn chain(alloc: Global) -> Result<String, AllocError> {
    let mut text = String::new(alloc);
    write!(text, "input_stream: \"in\" output_stream: \"s{MILLS}\"")?;
    text.push_str(
        " node { calculator: \"MillCalculator\" input_stream: \"in\" output_stream: \"s1\" }",
    )?;
    for mill in 1..MILLS {
        text.push_str(" node { calculator: \"MillCalculator\"")?;
        write!(text, " input_stream: \"s{mill}\"")?;
        write!(text, " output_stream: \"s{}\"", mill + 1)?;
        text.push_str(" }")?;
    }
    Ok(text)
}

// Expects all packets to come out of the chain in less than half of the time that all calls sleep together. With four workers that share
// them they take a quarter, and some more as the chain fills and empties.
#[test]
fn workers_share_calls_of_a_chain_that_sleep(rt: HostRuntime) -> Result<(), Fail> {
    let graph = chain(rt.alloc())?;
    let lines = lines(rt.alloc(), PACKETS)?;
    let job = Job {
        graph: graph.as_str(),
        lines: lines.as_str(),
        turns: 1,
    };
    let start = Instant::now(&rt)?;
    let came = output_of(&rt, rt.alloc(), job, "4", &Nap { rt: &rt })?;
    let took = start.elapsed(&rt)?;
    if lines_in(came.as_slice()) != PACKETS as usize {
        return Err(Fail::from("some packet didn't come out"));
    }
    if took < Duration::from_millis(u64::from(MILLS * PACKETS) * NAP / 2) {
        return Ok(());
    }
    Err(Fail::new(format_args!("{took:?}")))
}
