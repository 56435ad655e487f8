//! Windows of several works: the works are committed in any order, and laid in the order of their sets.
use crate::cell::{Given, own_cell};
use crate::rows::expect_rows;
use std::alloc::Global;
use std::fmt::Write;
use std::test::Fail;

// Checks a table of calls over the first node of a graph. There is no user-supplied calculator, and none comes back.
fn expect_cell(
    alloc: Global,
    graph: &'static str,
    lines: &'static str,
    ended: bool,
    rows: &str,
) -> Result<(), Fail> {
    let given = Given {
        graph,
        lines,
        ended,
    };
    let cell = own_cell(alloc, given)?;
    expect_rows(alloc, cell, rows, false)
}

/// Returns a graph that adds ten to each number, with up to four works at a time.
pub(crate) fn map() -> &'static str {
    r#"input_stream: "in" output_stream: "out"
node { calculator: "IntMapCalculator" input_stream: "in" output_stream: "out" max_in_flight: 4
  options { [mediapipe.IntMapCalculatorOptions.ext] { op: ADD operand: 10 } } }"#
}

// Returns the lines of two sets of one packet each.
fn five_and_six() -> &'static str {
    r#"{"stream":"in","ts":1,"value":5}
{"stream":"in","ts":2,"value":6}"#
}

// Rows in which the second set is committed before the first.
fn crossed() -> &'static str {
    "deliver 0 10=2 true
held=2 0
work=0 at 1
held=1 0
work=1 at 2
commit 1=0
output 0=0 PreStream
commit 1=no such work
commit 0=2
commit 0=no such work
held=0 2
output 0=2 3
out 0 10=2 false
take=15@1
take=16@2
take=nothing"
}

#[test]
fn sets_are_laid_in_order(rt: HostRuntime) -> Result<(), Fail> {
    expect_cell(rt.alloc(), map(), five_and_six(), true, crossed())
}

// Rows in which works that aren't laid hold up Close at the end.
fn drained() -> &'static str {
    "deliver 0 10=2 true
work=0 at 1
work=1 at 2
work=Draining
commit 1=0
work=Draining
commit 0=2
work=2 close
work=Draining
commit 2=0
work=Ended
advance=false
output 0=2 Done"
}

#[test]
fn close_waits_for_the_window(rt: HostRuntime) -> Result<(), Fail> {
    expect_cell(rt.alloc(), map(), five_and_six(), true, drained())
}

// Rows in which works that come back unrun are handed out first.
fn unrun() -> &'static str {
    "deliver 0 10=3 false
leave=0 at 1
leave=0 at 1
shelve=0 at 1
work=0 at 1
leave=1 at 2
commit 1=no such work
work=1 at 2
commit 1=0
shelve=2 at 3
work=2 at 3
work=NotReady
commit 2=0
commit 0=3
out 0 10=3 false
take=15@1
take=16@2
take=17@3"
}

#[test]
fn unrun_works_come_first(rt: HostRuntime) -> Result<(), Fail> {
    let lines = r#"{"stream":"in","ts":1,"value":5}
{"stream":"in","ts":2,"value":6}
{"stream":"in","ts":3,"value":7}"#;
    expect_cell(rt.alloc(), map(), lines, false, unrun())
}

fn running() -> &'static str {
    r#"input_stream: "in" output_stream: "out"
node { calculator: "RunningSumCalculator" input_stream: "in" output_stream: "out" max_in_flight: 4 }"#
}

// Rows over a calculator with a state. It has one work at a time. A work that came back unrun is handed out again, even
// though the window is full.
fn one_by_one() -> &'static str {
    "deliver 0 10=2 false
leave=0 at 1
work=0 at 1
work=InFlightFull
commit 0=1
work=1 at 2
commit 1=1
out 0 10=2 false
take=5@1
take=11@2"
}

#[test]
fn a_state_goes_from_set_to_set(rt: HostRuntime) -> Result<(), Fail> {
    expect_cell(rt.alloc(), running(), five_and_six(), false, one_by_one())
}

// Returns the orders in which four works are committed, and after `=` how many sets each commit lays.
fn orders() -> &'static str {
    "0123=1111
0132=1102
0213=1021
0231=1003
0312=1012
0321=1003
1023=0211
1032=0202
1203=0031
1230=0004
1302=0022
1320=0004
2013=0121
2031=0103
2103=0031
2130=0004
2301=0013
2310=0004
3012=0112
3021=0103
3102=0022
3120=0004
3201=0013
3210=0004"
}

// Returns the rows of one order, in which four works are committed.
fn rows_of(alloc: Global, order: &str) -> Result<String, Fail> {
    let (numbers, laid) = order.split_once('=').ok_or("no `=`")?;
    let mut rows = String::from_str(
        alloc,
        "deliver 0 10=5 false\nwork=0 at 1\nwork=1 at 2\nwork=2 at 3\nwork=3 at 4\nwork=InFlightFull\n",
    )?;
    for (number, laid) in numbers.chars().zip(laid.chars()) {
        write!(rows, "commit {number}={laid}\n")?;
    }
    rows.push_str(
        "output 0=4 5\nout 0 10=4 false\ntake=11@1\ntake=12@2\ntake=13@3\ntake=14@4\nwork=4 at 5",
    )?;
    Ok(rows)
}

fn expect_order(alloc: Global, order: &str) -> Result<(), Fail> {
    let lines = r#"{"stream":"in","ts":1,"value":1}
{"stream":"in","ts":2,"value":2}
{"stream":"in","ts":3,"value":3}
{"stream":"in","ts":4,"value":4}
{"stream":"in","ts":5,"value":5}"#;
    let rows = rows_of(alloc, order)?;
    expect_cell(alloc, map(), lines, false, rows.as_str())
}

#[test]
fn commits_come_in_any_order(rt: HostRuntime) -> Result<(), Fail> {
    for order in orders().split('\n') {
        expect_order(rt.alloc(), order)?;
    }
    Ok(())
}

fn overflowing() -> &'static str {
    r#"input_stream: "in" output_stream: "out"
node { calculator: "IntMapCalculator" input_stream: "in" output_stream: "out" max_in_flight: 4
  options { [mediapipe.IntMapCalculatorOptions.ext] { op: ADD operand: 9223372036854775807 } } }"#
}

// Rows in which a set fails: later sets that were performed aren't laid any more.
fn mapped() -> &'static str {
    "deliver 0 10=3 true
work=0 at 1
work=1 at 5
work=2 at 9
commit 2=0
commit 1=0
commit 0=2
fault=at 5 Overflow
laid=2
output 0=1 5
work=Ended
advance=false
out 0 10=1 true
take=9223372036854775806@1
take=nothing"
}

#[test]
fn nothing_is_laid_behind_a_fault(rt: HostRuntime) -> Result<(), Fail> {
    let lines = r#"{"stream":"in","ts":1,"value":-1}
{"stream":"in","ts":5,"value":1}
{"stream":"in","ts":9,"value":-1}"#;
    expect_cell(rt.alloc(), overflowing(), lines, true, mapped())
}
