//! Nets that workers run: the workers leave nothing to do, and what comes out is wanted.
ghost use Rattle.mg_route.specs.TableLaws.{table_laws};
ghost use Rattle.std.specs.Prelude.{⊤};
ghost use Rattle.mg_nets.specs.Driven.{IsDriven};

use mg_calc::Event;
use mg_crew::run_workers;
use mg_edge::{Gate, StillGate};
use mg_nets::{Case, Driver, Way, driver_under, expect, sweep, told};
use mg_sched::Hears;
use std::alloc::Global;
use std::sync::Wait;
use std::test::Fail;
use std::thread::Threads;

// A hearer that keeps the first event that it hears.
#[derive(Drop)]
struct First {
    event: Option<Event>,
}

impl Hears for First {
    ghost has_heard = { λ began now events. ⊤ };

    fn hear(&mut self, event: Event) {
        if self.event.is_none() {
            self.event = Some(event);
        }
    }
}

// A sweep that has to find nothing to do. After it the net tells the same as before.
#[derive(Drop)]
struct Rest;

impl Way for Rest {
    fn drive(&mut self, alloc: Global, driver: &mut Driver) -> Result<(), Fail> {
        let before = told(alloc, driver)?;
        expect_rest(driver)?;
        let now = told(alloc, driver)?;
        if now.as_str() == before.as_str() {
            return Ok(());
        }
        Err(Fail::new(format_args!("{before}, and then {now}")))
    }
}

// Expects a sweep to find nothing to do.
fn expect_rest(driver: &mut Driver) -> Result<(), Fail>
    requires { IsDriven table_laws driver.old.plan driver.old.inputs driver.old.net }
    ensures { IsDriven table_laws driver.new.plan driver.new.inputs driver.new.net }
{
    let mut first = First { event: None };
    sweep(driver, &StillGate, &mut first)?;
    match first.event {
        None => Ok(()),
        Some(event) => Err(Fail::new(format_args!("left to do: {event:?}"))),
    }
}

// Lets `workers` workers run a net, and returns it, and how many of their turns were in vain.
fn run<R: Threads + Wait + Sync, G: Gate + Sync>(
    rt: &R,
    alloc: Global,
    driver: Driver,
    workers: u32,
    gate: &G,
) -> (Driver, u64)
    requires { IsDriven table_laws driver.plan driver.inputs driver.net }
    ensures { IsDriven table_laws result.0.plan result.0.inputs result.0.net }
{
    let Driver { plan, inputs, net } = driver;
    let (net, vain) = run_workers(rt, alloc, net, workers, gate);
    (Driver { plan, inputs, net }, vain)
}

/// Lets `workers` workers run the net of a case under its limit, each Process call through a gate. Expects them to leave nothing to do, and
/// a wanted outcome. Returns how many of their turns were in vain.
pub(crate) fn expect_run<R: Threads + Wait + Sync, G: Gate + Sync>(
    rt: &R,
    alloc: Global,
    case: &Case,
    workers: u32,
    gate: &G,
) -> Result<u64, Fail> {
    let driver = driver_under(alloc, case, case.limit)?;
    let (driver, vain) = run(rt, alloc, driver, workers, gate);
    expect(alloc, driver, &mut Rest, case)?;
    Ok(vain)
}

/// The numbers of workers that are tried.
const WORKERS: [u32; 4] = [1, 2, 4, 8];

/// Expects each number of workers to leave nothing to do, and a wanted outcome.
pub(crate) fn expect_each<R: Threads + Wait + Sync>(
    rt: &R,
    alloc: Global,
    case: &Case,
) -> Result<(), Fail> {
    for workers in WORKERS {
        expect_run(rt, alloc, case, workers, &StillGate)?;
    }
    Ok(())
}
