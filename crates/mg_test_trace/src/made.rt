//! Tests of packets that are made piece by piece: the canonical lines of each piece.

use crate::jobs::{rejoined, two_of_each};
use mg_calc::Plan;
use mg_feed::Generator;
use mg_plans::plan_of;
use mg_tables::{Calls, assert_rows};
use mg_trace::write_job;
use std::alloc::Global;
use std::test::Fail;

// Returns a graph of two inputs. The first takes anything, and the second takes truth values.
fn gate() -> &'static str {
    r#"input_stream: "n" input_stream: "allow" output_stream: "kept"
node { calculator: "GateCalculator" input_stream: "n" input_stream: "ALLOW:allow" output_stream: "kept" }"#
}

// Rows of how many packets there are and how many a piece has at most, and after `=` the lines of each piece.
fn two_kinds() -> &'static str {
    r#"5 5={"stream":"n","ts":0,"value":0};{"stream":"n","ts":10,"value":2};{"stream":"n","ts":20,"value":4};{"stream":"allow","ts":0,"value":true};{"stream":"allow","ts":10,"value":false};ended;
5 6={"stream":"n","ts":0,"value":0};{"stream":"n","ts":10,"value":2};{"stream":"n","ts":20,"value":4};{"stream":"allow","ts":0,"value":true};{"stream":"allow","ts":10,"value":false};ended;
5 4294967295={"stream":"n","ts":0,"value":0};{"stream":"n","ts":10,"value":2};{"stream":"n","ts":20,"value":4};{"stream":"allow","ts":0,"value":true};{"stream":"allow","ts":10,"value":false};ended;
5 3={"stream":"n","ts":0,"value":0};{"stream":"n","ts":10,"value":2};{"stream":"allow","ts":0,"value":true};frozen;{"stream":"n","ts":20,"value":4};{"stream":"allow","ts":10,"value":false};ended;
5 1={"stream":"n","ts":0,"value":0};frozen;{"bound":1,"stream":"n"};{"stream":"allow","ts":0,"value":true};frozen;{"stream":"n","ts":10,"value":2};{"bound":1,"stream":"allow"};frozen;{"bound":11,"stream":"n"};{"stream":"allow","ts":10,"value":false};frozen;{"stream":"n","ts":20,"value":4};ended;
4 2={"stream":"n","ts":0,"value":0};{"stream":"allow","ts":0,"value":true};frozen;{"stream":"n","ts":10,"value":2};{"stream":"allow","ts":10,"value":false};ended;
1 3={"stream":"n","ts":0,"value":0};ended;
0 3=ended;"#
}

// Rows of the same form for a graph with side packets. Each piece has all side packets.
fn with_sides() -> &'static str {
    r#"3 2={"side":"z","value":1};{"side":"y","value":1};{"stream":"b","ts":0,"value":0};{"stream":"a","ts":0,"value":1};frozen;{"side":"z","value":1};{"side":"y","value":1};{"stream":"b","ts":10,"value":2};ended;
0 1={"side":"z","value":1};{"side":"y","value":1};ended;"#
}

// The plan for which packets are made.
#[derive(Drop)]
struct Making {
    plan: Plan,
}

impl Making {
    // Returns the lines of all pieces, or of the first 16 of them.
    fn pieces(&self, alloc: Global, number: u32, most: u32) -> Result<String, Fail> {
        let mut generator = Generator::new(alloc, &self.plan, number)?;
        let mut lines = String::new(alloc);
        for _ in 0..16 {
            let piece = generator.next_piece(most)?;
            let text = write_job(alloc, &self.plan, &piece)?;
            lines.push_str(str::from_utf8(text.as_slice())?)?;
            if piece.ended {
                break;
            }
        }
        Ok(lines)
    }
}

impl Calls for Making {
    fn answer(&mut self, alloc: Global, call: &str) -> Result<String, Fail> {
        let (number, most) = call.split_once(' ').ok_or("no space")?;
        let lines = self.pieces(alloc, number.parse::<u32>()?, most.parse::<u32>()?)?;
        rejoined(alloc, lines.as_str(), '\n', ";")
    }
}

#[test]
fn each_piece_has_its_packets(rt: HostRuntime) -> Result<(), Fail> {
    let alloc = rt.alloc();
    let plan = plan_of(alloc, gate(), &[])?;
    assert_rows(alloc, &mut Making { plan }, two_kinds())
}

#[test]
fn each_piece_has_the_side_packets(rt: HostRuntime) -> Result<(), Fail> {
    let alloc = rt.alloc();
    let plan = plan_of(alloc, two_of_each(), &[])?;
    assert_rows(alloc, &mut Making { plan }, with_sides())
}
