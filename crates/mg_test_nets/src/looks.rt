//! What a net has of its streams: a packet by its number, until it is given up, and the bound.
ghost use Rattle.mg_route.specs.TableLaws.{table_laws};
ghost use Rattle.mg_nets.specs.Driven.{IsDriven};

use crate::driving::{show_bound, show_packet};
use crate::rest::make_each;
use mg_calc::{Effect, Event};
use mg_edge::StillGate;
use mg_nets::{Case, Driver, Way, driver_of, expect, passing, sweep, trim};
use mg_sched::Deaf;
use std::alloc::Global;
use std::test::Fail;

// Shows the first three packets of a stream, and its bound.
fn show_stream(alloc: Global, driver: &Driver, stream: u32) -> Result<String, Fail>
    requires { IsDriven table_laws driver.now.plan driver.now.inputs driver.now.net }
{
    let mut shown = String::new(alloc);
    for number in 0..3 {
        write!(shown, "{} ", show_packet(alloc, driver, stream, number)?)?;
    }
    write!(shown, "| {}", show_bound(alloc, driver, stream)?)?;
    Ok(shown)
}

// Expects a net to have this of a stream.
fn expect_stream(alloc: Global, driver: &Driver, stream: u32, wanted: &str) -> Result<(), Fail>
    requires { IsDriven table_laws driver.now.plan driver.now.inputs driver.now.net }
{
    let shown = show_stream(alloc, driver, stream)?;
    if shown.as_str() == wanted {
        return Ok(());
    }
    Err(Fail::new(format_args!("stream {stream}: {shown}")))
}

// Expects a net of one node to have this of its input and its output, and nothing of a stream that isn't there.
fn expect_streams(alloc: Global, driver: &Driver, input: &str, output: &str) -> Result<(), Fail>
    requires { IsDriven table_laws driver.now.plan driver.now.inputs driver.now.net }
{
    expect_stream(alloc, driver, 0, input)?;
    expect_stream(alloc, driver, 1, output)?;
    expect_stream(alloc, driver, 2, "- - - | -")
}

// Returns the steps by which both packets go through the node, and the first one goes on to the collector.
fn goes_through() -> &'static [Event] {
    &[
        Event::Deliver { edge: 0 },
        Event::Claim { node: 0 },
        Event::Perform { node: 0, number: 0 },
        Event::Commit { node: 0, number: 0 },
        Event::Deliver { edge: 1 },
        Event::Claim { node: 0 },
        Event::Perform { node: 0, number: 1 },
        Event::Commit { node: 0, number: 1 },
    ]
}

// A way that expects the packets that were laid to be there. Then it trims the net, and expects the packets that came along all edges
// to be given up. The other packets keep their numbers.
#[derive(Drop)]
struct Looks;

impl Way for Looks {
    fn drive(&mut self, alloc: Global, driver: &mut Driver) -> Result<(), Fail> {
        expect_laid(alloc, driver)?;
        expect_given_up(alloc, driver)
    }
}

fn expect_laid(alloc: Global, driver: &mut Driver) -> Result<(), Fail>
    requires { IsDriven table_laws driver.old.plan driver.old.inputs driver.old.net }
    ensures { IsDriven table_laws driver.new.plan driver.new.inputs driver.new.net }
{
    expect_streams(alloc, driver, "1@10 2@20 - | Done", "- - - | PreStream")?;
    make_each(driver, goes_through(), Effect::Did)?;
    expect_streams(alloc, driver, "1@10 2@20 - | Done", "1@10 2@20 - | 21")
}

fn expect_given_up(alloc: Global, driver: &mut Driver) -> Result<(), Fail>
    requires { IsDriven table_laws driver.old.plan driver.old.inputs driver.old.net }
    ensures { IsDriven table_laws driver.new.plan driver.new.inputs driver.new.net }
{
    trim(driver);
    expect_streams(alloc, driver, "- - - | Done", "- 2@20 - | 21")?;
    sweep(driver, &StillGate, &mut Deaf)?;
    trim(driver);
    expect_streams(alloc, driver, "- - - | Done", "- - - | Done")
}

#[test]
fn packets_are_there_until_they_are_given_up(rt: HostRuntime) -> Result<(), Fail> {
    let case = Case {
        graph: passing(),
        lines: r#"{"stream":"in","ts":10,"value":1}
{"stream":"in","ts":20,"value":2}"#,
        limit: 100,
        wanted: "1@10 2@20 | 0 | 2 ; 2@Done 2@Done ;",
        calls: ";;",
    };
    let driver = driver_of(rt.alloc(), case.graph, case.lines)?;
    expect(rt.alloc(), driver, &mut Looks, &case)
}
