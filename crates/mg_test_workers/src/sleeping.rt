//! Calls that sleep. Workers share them, so that they take less time than one after another.
use crate::running::expect_run;
use mg_edge::Gate;
use mg_nets::Case;
use std::alloc::{AllocError, Global};
use std::rt::Clock;
use std::test::Fail;
use std::thread;
use std::time::{Duration, Instant};

// How many nodes read the one packet, each in a call of its own.
const CALLS: u32 = 8;

// How long a call sleeps, in milliseconds.
const NAP: u64 = 50;

// A gate in which each call sleeps.
#[derive(Drop)]
struct Nap<'a, R> {
    rt: &'a R,
}

impl<'a, R: Clock> Gate for Nap<'a, R> {
    fn enter(&self, _node: u32, _number: u64) {
        thread::sleep(self.rt, Duration::from_millis(NAP));
    }

    fn leave(&self, _node: u32, _number: u64) {}
}

// Returns the text of a graph of nodes that all read its input.
fn fan_out(alloc: Global) -> Result<String, AllocError> {
    let mut text = String::new(alloc);
    text.push_str("input_stream: \"in\"")?;
    for node in 0..CALLS {
        write!(text, " output_stream: \"out{node}\"")?;
        text.push_str(" node { calculator: \"PassThroughCalculator\" input_stream: \"in\"")?;
        write!(text, " output_stream: \"out{node}\"")?;
        text.push_str(" }")?;
    }
    Ok(text)
}

// Four workers have two calls each, so that these take a quarter of their sum. Less than half of it is wanted.
#[test]
fn workers_share_calls_that_sleep(rt: HostRuntime) -> Result<(), Fail> {
    let graph = fan_out(rt.alloc())?;
    let case = Case {
        graph: graph.as_str(),
        lines: r#"{"stream":"in","ts":1,"value":5}"#,
        limit: 100,
        wanted: "..| 0 | 1 1 1 1 1 1 1 1 ; 1@Done 1@Done 1@Done 1@Done 1@Done 1@Done 1@Done 1@Done 1@Done ;",
        calls: ";;",
    };
    let start = Instant::now(&rt)?;
    expect_run(&rt, rt.alloc(), &case, 4, &Nap { rt: &rt })?;
    let took = start.elapsed(&rt)?;
    if took < Duration::from_millis(u64::from(CALLS) * NAP / 2) {
        return Ok(());
    }
    Err(Fail::new(format_args!("{took:?}")))
}
