//! Tests of events: which event each line is read as, and that the line is written of it again.

use mg_calc::Plan;
use mg_plans::plan_of;
use mg_tables::{Calls, assert_rows};
use mg_trace::{read_event, write_event};
use std::alloc::Global;
use std::test::Fail;

// Returns a graph of one node, which has two edges: one into the node, and one into the graph's output.
fn passing() -> &'static str {
    r#"input_stream: "in" output_stream: "out"
node { calculator: "PassThroughCalculator" input_stream: "in" output_stream: "out" }"#
}

// A line, and after `=` the event that it is read as, or `none`.
fn lines() -> &'static str {
    "deliver 0=Deliver { edge: 0 }
deliver 1=Deliver { edge: 1 }
deliver 2=none
deliver 4294967296=none
advance 0=Advance { node: 0 }
advance 1=none
claim 0=Claim { node: 0 }
claim 1=none
claim 0 0=none
perform 0 0=Perform { node: 0, number: 0 }
perform 0 10=Perform { node: 0, number: 10 }
perform 1 0=none
perform 0=none
commit 0 1=Commit { node: 0, number: 1 }
commit 0 18446744073709551615=Commit { node: 0, number: 18446744073709551615 }
commit 0 18446744073709551616=none
commit 1 0=none
commit 0 01=none
commit 00 1=none
commit 0  1=none
commit  0 1=none
commit 0 1 =none
commit 0 +1=none
commit 0 -1=none
commit 0\t1=none
commit 0,1=none
 commit 0 1=none
Commit 0 1=none
commit 0 =none
commit =none
commit=none
relax=Relax
relax =none
relax 0=none
end=none
ended=none
=none"
}

// The plan for which lines are read.
#[derive(Drop)]
struct Reading {
    plan: Plan,
}

impl Calls for Reading {
    // Reads a line as an event, whose text has to be the line again.
    fn answer(&mut self, alloc: Global, call: &str) -> Result<String, Fail> {
        let text = format!(in alloc; "{call}\n")?;
        let Some(event) = read_event(text.as_bytes(), &self.plan) else {
            return Ok(String::from_str(alloc, "none")?);
        };
        let written = write_event(alloc, &event)?;
        if written.as_slice() != text.as_bytes() {
            return Err(Fail::from("an event's text is another line"));
        }
        Ok(format!(in alloc; "{event:?}")?)
    }
}

#[test]
fn each_event_has_one_line(rt: HostRuntime) -> Result<(), Fail> {
    let alloc = rt.alloc();
    let plan = plan_of(alloc, passing(), &[])?;
    assert_rows(alloc, &mut Reading { plan }, lines())
}

#[test]
fn a_line_without_its_line_feed_is_none(rt: HostRuntime) -> Result<(), Fail> {
    let alloc = rt.alloc();
    let plan = plan_of(alloc, passing(), &[])?;
    if read_event(b"commit 0 1", &plan).is_some() {
        return Err(Fail::from("a line without its line feed was read"));
    }
    Ok(())
}
