//! Nets that come apart on their way and are put together again, with works in their work queues and in their windows. Their outcome is
//! the same as if they hadn't come apart, also if something went along an edge meanwhile.
ghost use Rattle.mg_route.specs.TableLaws.{table_laws};
ghost use Rattle.std.specs.Prelude.{IfOk};
ghost use Rattle.mg_nets.specs.Driven.{IsDriven};

use crate::driving::part_and_join;
use crate::ways::{Settle, Steps, Wander};
use mg_calc::{Effect, Event};
use mg_nets::{
    CASES, Case, Chance, Driver, case_of, driven, driver_of, driver_under, expect, summed,
    throttled,
};
use std::alloc::Global;
use std::test::Fail;

// At how many places of its run each net comes apart.
const PLACES: u32 = 60;

// How often each net comes apart.
const PARTINGS: u32 = 3;

// A number that no edge has.
const NO_EDGE: u32 = u32::MAX;

// Makes steps that each do something. Then the net comes apart, an edge delivers what its port hasn't got, and the net is put together
// again.
fn parted_behind(
    alloc: Global,
    driver: Driver,
    events: &'static [Event],
    edge: u32,
) -> Result<Driver, Fail>
    requires { IsDriven table_laws driver.plan driver.inputs driver.net }
    ensures { IfOk result (λ d. IsDriven table_laws d.plan d.inputs d.net) }
{
    let effect = Effect::Did;
    let driver = driven(alloc, driver, &mut Steps { events, effect })?;
    Ok(part_and_join(driver, edge))
}

// Makes steps that each do nothing.
fn idle_at(alloc: Global, driver: Driver, events: &'static [Event]) -> Result<Driver, Fail>
    requires { IsDriven table_laws driver.plan driver.inputs driver.net }
    ensures { IfOk result (λ d. IsDriven table_laws d.plan d.inputs d.net) }
{
    let effect = Effect::Idle;
    driven(alloc, driver, &mut Steps { events, effect })
}

// Returns the steps until the first set of the sum lies in its work queue. The packets are delivered to the loopback and to the sum. The
// loopback answers the first packet with nothing. Its bound rises after that answer, and goes on to the sum.
fn claims_first() -> &'static [Event] {
    &[
        Event::Deliver { edge: 1 },
        Event::Deliver { edge: 2 },
        Event::Claim { node: 0 },
        Event::Advance { node: 0 },
        Event::Deliver { edge: 3 },
        Event::Claim { node: 1 },
    ]
}

// Returns steps that do nothing: the work that was in a work queue is there no more, and isn't performed.
fn lost_steps() -> &'static [Event] {
    &[
        Event::Perform { node: 1, number: 0 },
        Event::Commit { node: 1, number: 0 },
    ]
}

// Returns the steps by which the work is handed out again, and performed.
fn performs_first() -> &'static [Event] {
    &[
        Event::Claim { node: 1 },
        Event::Perform { node: 1, number: 0 },
    ]
}

// Returns the step that commits the performed work.
fn commits_first() -> &'static [Event] {
    &[Event::Commit { node: 1, number: 0 }]
}

// Takes the net apart three times. The first time the first set of the sum is in its work queue. The second time the performed work is in
// its window. The third time is after the commit.
fn parted_thrice(alloc: Global, case: &Case) -> Result<Driver, Fail>
    ensures { IfOk result (λ d. IsDriven table_laws d.plan d.inputs d.net) }
{
    let driver = driver_of(alloc, case.graph, case.lines)?;
    let driver = parted_behind(alloc, driver, claims_first(), NO_EDGE)?;
    let driver = idle_at(alloc, driver, lost_steps())?;
    let driver = parted_behind(alloc, driver, performs_first(), NO_EDGE)?;
    parted_behind(alloc, driver, commits_first(), NO_EDGE)
}

#[test]
fn a_work_in_a_work_queue_is_handed_out_again(rt: HostRuntime) -> Result<(), Fail> {
    let case = summed();
    let driver = parted_thrice(rt.alloc(), &case)?;
    expect(rt.alloc(), driver, &mut Settle, &case)
}

// Returns the steps by which the first packet of the source is laid.
fn lays_first() -> &'static [Event] {
    &[
        Event::Claim { node: 0 },
        Event::Perform { node: 0, number: 0 },
        Event::Commit { node: 0, number: 0 },
    ]
}

// Returns steps that do nothing: nothing goes along an edge, and the source isn't called.
fn waits() -> &'static [Event] {
    &[Event::Deliver { edge: 2 }, Event::Claim { node: 0 }]
}

// Brings the packet to the merge while the net is apart. There the packet fills a queue. So it doesn't go there again, and the source is
// throttled.
fn throttled_apart(alloc: Global, case: &Case) -> Result<Driver, Fail>
    ensures { IfOk result (λ d. IsDriven table_laws d.plan d.inputs d.net) }
{
    let driver = driver_under(alloc, case, case.limit)?;
    let driver = parted_behind(alloc, driver, lays_first(), 2)?;
    idle_at(alloc, driver, waits())
}

#[test]
fn limits_know_what_came_while_a_net_was_apart(rt: HostRuntime) -> Result<(), Fail> {
    let case = throttled();
    let driver = throttled_apart(rt.alloc(), &case)?;
    expect(rt.alloc(), driver, &mut Settle, &case)
}

// Takes a net apart and puts it together, `PARTINGS` times, each time after `place` further steps.
fn parted_at(alloc: Global, driver: Driver, place: u32) -> Result<Driver, Fail>
    requires { IsDriven table_laws driver.plan driver.inputs driver.net }
    ensures { IfOk result (λ d. IsDriven table_laws d.plan d.inputs d.net) }
{
    let mut driver = driver;
    let mut wander = Wander {
        chance: Chance::new(u64::from(place)),
        steps: place,
    };
    for _ in 0..PARTINGS {
        driver = driven(alloc, driver, &mut wander)?;
        let edges = driver.plan.edges.len().saturating_add(1);
        driver = part_and_join(driver, wander.chance.below(edges));
    }
    Ok(driver)
}

// Expects a wanted outcome of a graph under its limit if its net comes apart at each of many places of its run.
fn expect_places(alloc: Global, case: &Case) -> Result<(), Fail> {
    for place in 0..PLACES {
        let driver = driver_under(alloc, case, case.limit)?;
        let driver = parted_at(alloc, driver, place)?;
        expect(alloc, driver, &mut Settle, case)?;
    }
    Ok(())
}

#[test]
fn nets_come_to_the_same_where_they_come_apart(rt: HostRuntime) -> Result<(), Fail> {
    for number in 0..CASES {
        expect_places(rt.alloc(), &case_of(number))?;
    }
    Ok(())
}
