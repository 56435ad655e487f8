//! Tests of jobs: which canonical lines are written of the inputs that packet lines gave.

use mg_calc::Plan;
use mg_plans::{inputs_of, plan_of};
use mg_tables::{Calls, assert_rows};
use mg_trace::write_job;
use std::alloc::Global;
use std::test::Fail;

fn passing() -> &'static str {
    r#"input_stream: "in" output_stream: "out"
node { calculator: "PassThroughCalculator" input_stream: "in" output_stream: "out" }"#
}

/// Returns a graph of two input streams and two side packets, each pair in the reverse order of their names.
pub fn two_of_each() -> &'static str {
    r#"input_stream: "b" input_stream: "a" output_stream: "b" output_stream: "a"
input_side_packet: "z" input_side_packet: "y""#
}

// Rows of whether the input ended well and the lines that came, and after `=` the lines that are written.
fn one_stream() -> &'static str {
    r#"ended {"stream":"in","ts":5,"value":7}={"stream":"in","ts":5,"value":7};ended;
ended =ended;
frozen =frozen;
frozen {"stream":"in","ts":5,"value":7}={"stream":"in","ts":5,"value":7};frozen;
frozen {"value":{"b":[1,true],"a":"x"},"ts":5,"stream":"in"}={"stream":"in","ts":5,"value":{"a":"x","b":[1,true]}};frozen;
frozen {"at":-7,"packets":{"in":[]}}={"stream":"in","ts":-7,"value":[]};frozen;
frozen {"stream":"in","ts":5,"value":7};{"stream":"in","bound":6}={"stream":"in","ts":5,"value":7};frozen;
frozen {"stream":"in","ts":5,"value":7};{"stream":"in","bound":7}={"stream":"in","ts":5,"value":7};{"bound":7,"stream":"in"};frozen;
frozen {"stream":"in","bound":-4}={"bound":-4,"stream":"in"};frozen;
frozen {"stream":"in","bound":"PreStream"}=frozen;
frozen {"stream":"in","bound":"PostStream"}={"bound":"PostStream","stream":"in"};frozen;
frozen {"stream":"in","ts":"PreStream","value":9}={"stream":"in","ts":"PreStream","value":9};frozen;
frozen {"stream":"in","ts":"PostStream","value":9}={"stream":"in","ts":"PostStream","value":9};frozen;
frozen {"stream":"in","ts":5,"value":false};{"stream":"in","close":true}={"stream":"in","ts":5,"value":false};{"close":true,"stream":"in"};frozen;
ended {"stream":"in","ts":5,"value":false};{"stream":"in","close":true}={"stream":"in","ts":5,"value":false};ended;"#
}

fn several() -> &'static str {
    r#"frozen {"side":"y","value":1};{"side":"z","value":{"n":-4}};{"at":3,"packets":{"a":1,"b":2}}={"side":"z","value":{"n":-4}};{"side":"y","value":1};{"stream":"b","ts":3,"value":2};{"stream":"a","ts":3,"value":1};frozen;
frozen {"side":"y","value":1}={"side":"y","value":1};frozen;
frozen {"stream":"a","close":true};{"stream":"b","bound":9}={"bound":9,"stream":"b"};{"close":true,"stream":"a"};frozen;"#
}

/// Returns the parts of a text that aren't empty, each followed by `end`.
pub fn rejoined(alloc: Global, text: &str, between: char, end: &str) -> Result<String, Fail> {
    let mut joined = String::new(alloc);
    for part in text.split(between) {
        if !part.is_empty() {
            joined.push_str(part)?;
            joined.push_str(end)?;
        }
    }
    Ok(joined)
}

// The plan whose jobs are written.
#[derive(Drop)]
struct Writing {
    plan: Plan,
}

impl Calls for Writing {
    // Writes the job of some lines. Semicolons stand between the lines of the call, and after each line of the answer.
    fn answer(&mut self, alloc: Global, call: &str) -> Result<String, Fail> {
        let (end, lines) = call.split_once(' ').ok_or("no space")?;
        let came = rejoined(alloc, lines, ';', "\n")?;
        let inputs = inputs_of(alloc, &self.plan, came.as_str(), end == "ended")?;
        let text = write_job(alloc, &self.plan, &inputs)?;
        rejoined(alloc, str::from_utf8(text.as_slice())?, '\n', ";")
    }
}

#[test]
fn one_packet_and_what_follows_it(rt: HostRuntime) -> Result<(), Fail> {
    let alloc = rt.alloc();
    let plan = plan_of(alloc, passing(), &[])?;
    assert_rows(alloc, &mut Writing { plan }, one_stream())
}

#[test]
fn inputs_come_in_the_order_of_the_graph(rt: HostRuntime) -> Result<(), Fail> {
    let alloc = rt.alloc();
    let plan = plan_of(alloc, two_of_each(), &[])?;
    assert_rows(alloc, &mut Writing { plan }, several())
}
