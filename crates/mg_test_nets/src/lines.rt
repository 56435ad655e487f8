//! Nets whose input comes line by line.
ghost use Rattle.mg_route.specs.TableLaws.{table_laws};
ghost use Rattle.mg_calc.specs.Plan.{IsValid, OutersFit};
ghost use Rattle.mg_nets.specs.Driven.{IsDriven};
ghost use Rattle.mg_nets.specs.Handed.{two_outers};

use crate::driving::extend;
use crate::rest::settle;
use crate::ways::Settle;
use mg_calc::{Inputs, Plan};
use mg_feed::Feed;
use mg_nets::{
    Case, Driver, Way, adding, all_taken, counting, driver_of, driver_over, expect, held, merging,
    plan_of, stalling, summing, trim,
};
use std::alloc::Global;
use std::test::Fail;

// Returns the piece of the inputs that a line gives, or the end of the input.
fn piece_of(feed: &mut Feed, line: &str) -> Result<Inputs, Fail> {
    if line == "end" {
        return Ok(feed.take_inputs(true)?);
    }
    let Ok(()) = feed.line(line.as_bytes()) else {
        return Err(Fail::from("a line isn't good"));
    };
    Ok(feed.take_inputs(false)?)
}

// Shows the sets that a net gives at rest. Then gives up all packets that can be given up, and shows how many packets
// are left in the net.
fn given(alloc: Global, driver: &mut Driver) -> Result<String, Fail>
    requires { IsDriven table_laws driver.old.plan driver.old.inputs driver.old.net }
    ensures { IsDriven table_laws driver.new.plan driver.new.inputs driver.new.net }
{
    settle(driver)?;
    let sets = all_taken(alloc, driver)?;
    trim(driver);
    Ok(format!(in alloc; "{}| {}", sets.as_str(), held(driver))?)
}

// Extends a net by a line, or by the end of the input, and shows what it gives then.
fn answer(alloc: Global, feed: &mut Feed, driver: &mut Driver, line: &str) -> Result<String, Fail>
    requires { IsDriven table_laws driver.old.plan driver.old.inputs driver.old.net }
    ensures { IsDriven table_laws driver.new.plan driver.new.inputs driver.new.net }
{
    let piece = piece_of(feed, line)?;
    extend(alloc, driver, &piece)?;
    given(alloc, driver)
}

// A way that begins with a net to which nothing has come. It goes on with each row's line, brings the net to rest after it, and expects
// what the row wants.
#[derive(Drop)]
struct Lines<'a> {
    feed: Feed,
    rows: &'a str,
}

impl<'a> Way for Lines<'a> {
    fn drive(&mut self, alloc: Global, driver: &mut Driver) -> Result<(), Fail> {
        settle(driver)?;
        expect_lines(alloc, &mut self.feed, driver, self.rows)
    }
}

// Goes on with each row's line, and expects what the row wants to come of it.
fn expect_lines(alloc: Global, feed: &mut Feed, driver: &mut Driver, rows: &str) -> Result<(), Fail>
    requires { IsDriven table_laws driver.old.plan driver.old.inputs driver.old.net }
    ensures { IsDriven table_laws driver.new.plan driver.new.inputs driver.new.net }
{
    for row in rows.split('\n') {
        let (line, wanted) = row.split_once('=').ok_or("no `=`")?;
        let answer = answer(alloc, feed, driver, line)?;
        if answer.as_str() != wanted {
            return Err(Fail::new(format_args!("{row}: {answer}")));
        }
    }
    Ok(())
}

// Returns the lines of rows, and the sets that the rows want in all.
fn whole_of(alloc: Global, rows: &str) -> Result<(String, String), Fail> {
    let mut lines = String::new(alloc);
    let mut sets = String::new(alloc);
    for row in rows.split('\n') {
        let (line, wanted) = row.split_once('=').ok_or("no `=`")?;
        let (given, _) = wanted.split_once('|').ok_or("no `|`")?;
        sets.push_str(given)?;
        if line != "end" {
            write!(lines, "{line}\n")?;
        }
    }
    Ok((lines, sets))
}

// Expects a net that has all lines of the rows from the start to give the same sets, and to have the same outcome.
fn expect_whole(alloc: Global, case: &Case) -> Result<(), Fail> {
    let (lines, sets) = whole_of(alloc, case.lines)?;
    let wanted = format!(in alloc; "{}{}", sets.as_str(), case.wanted)?;
    let whole = Case {
        graph: case.graph,
        lines: lines.as_str(),
        limit: case.limit,
        wanted: wanted.as_str(),
        calls: case.calls,
    };
    let driver = driver_of(alloc, whole.graph, whole.lines)?;
    expect(alloc, driver, &mut Settle, &whole)
}

// Expects what is wanted of a net of a plan to which lines come one by one.
fn expect_over(alloc: Global, plan: Plan, lines: &mut Lines, case: &Case) -> Result<(), Fail>
    requires valid { IsValid plan }
    requires fit { OutersFit plan two_outers }
{
    match lines.feed.take_inputs(false) {
        Ok(nothing) => {
            let driver = driver_over(alloc, plan, nothing)?;
            expect(alloc, driver, lines, case)
        }
        Err(_) => {
            drop(plan);
            Err(Fail::from("no memory"))
        }
    }
}

// Expects what is wanted of a net to which the lines of rows come one by one.
fn expect_each(alloc: Global, case: &Case) -> Result<(), Fail> {
    let plan = plan_of(alloc, case.graph)?;
    match Feed::new(alloc, &plan) {
        Ok(feed) => {
            let rows = case.lines;
            let mut lines = Lines { feed, rows };
            let came = expect_over(alloc, plan, &mut lines, case);
            drop(lines);
            came
        }
        Err(_) => {
            drop(plan);
            Err(Fail::from("no memory"))
        }
    }
}

// Expects this of the rows of a graph. A row is a line, or `end`. After `=` stand the sets that the graph's outputs have then, and how
// many packets are left. At the end nothing more comes out of the net, and the same is left in it. It has come as far as is wanted, and
// the user-supplied calculators have had these calls. The sets in all are those of a net that had all lines from the start, and that net
// has the same outcome.
fn expect_rows(
    alloc: Global,
    graph: &str,
    lines: &str,
    wanted: &str,
    calls: &str,
) -> Result<(), Fail> {
    let case = Case {
        graph,
        lines,
        limit: 100,
        wanted,
        calls,
    };
    expect_each(alloc, &case)?;
    expect_whole(alloc, &case)
}

// A set waits until both streams have come past it, by a packet or by a bound.
fn merged() -> &'static str {
    r#"{"at":10,"packets":{"a":1,"b":5}}=1@10 | 0
{"stream":"b","ts":20,"value":7}=| 1
{"stream":"a","ts":30,"value":3}=7@20 | 1
{"stream":"b","bound":50}=3@30 | 0
end=| 0"#
}

// Each sum waits at LOOP for the next line, and the last one in vain.
fn summed() -> &'static str {
    r#"{"stream":"in","ts":10,"value":1}=1@10 | 1
{"stream":"in","ts":20,"value":2}=3@20 | 1
{"stream":"in","ts":30,"value":3}=6@30 | 1
end=| 1"#
}

// The first sum is odd and doesn't come back: each further packet waits at MAIN and at the sum.
fn stalled() -> &'static str {
    r#"{"stream":"in","ts":10,"value":1}=1@10 | 0
{"stream":"in","ts":20,"value":2}=| 2
{"stream":"in","ts":30,"value":3}=| 4
end=| 4"#
}

fn added() -> &'static str {
    r#"{"stream":"in","ts":1,"value":5}=15@1 | 0
{"stream":"in","ts":2,"value":6}=16@2 | 0
end=| 0"#
}

// The counts wait for the filter, whose bound moves with the even packet alone.
fn counted() -> &'static str {
    r#"{"stream":"in","ts":10,"value":1}=| 1
{"stream":"in","ts":20,"value":2}=1@10 - 2@20 1@20 | 0
{"stream":"in","ts":30,"value":3}=| 1
end=3@30 - | 0"#
}

#[test]
fn streams_go_on_line_by_line(rt: HostRuntime) -> Result<(), Fail> {
    let alloc = rt.alloc();
    let wanted = "| 0 | 3 ; 2@Done 2@Done 3@Done ;";
    expect_rows(alloc, merging(), merged(), wanted, ";;")?;
    let wanted = "| 0 | 2 ; 2@Done 2@Done ;";
    expect_rows(alloc, adding(), added(), wanted, ";;")?;
    let wanted = "| 0 | 3 3 1 ; 3@Done 3@Done 1@Done 1@Done ;";
    let calls = " begun 10 20 30 finished; begun 20 finished;";
    expect_rows(alloc, counting(), counted(), wanted, calls)
}

#[test]
fn loops_go_on_line_by_line(rt: HostRuntime) -> Result<(), Fail> {
    let alloc = rt.alloc();
    let wanted = "| 1 | 3 3 ; 3@Done 2@Done 3@Done ;";
    expect_rows(alloc, summing(), summed(), wanted, ";;")?;
    let wanted = "| 4 | 1 1 1 ; 3@Done 0@20 1@20 0@PreStream ;";
    expect_rows(alloc, stalling(), stalled(), wanted, ";;")
}
