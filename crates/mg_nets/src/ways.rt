//! Nets that are driven in some way, and what has to come out of them. A way has the net by `&mut`, and a function here owns the net and
//! drops it. So no crate of tests proves how a net is dropped.
ghost use Rattle.mg_route.specs.TableLaws.{table_laws};
ghost use Rattle.std.specs.Prelude.{IfOk};
ghost use Rattle.mg_nets.specs.Driven.{IsDriven};

use crate::cases::{Case, is_wanted};
use crate::driver::{Driver, driver_of, let_go, sweep};
use crate::graphs::limited;
use crate::outcome::{come_out, ended, told};
use mg_edge::StillGate;
use mg_sched::Deaf;
use std::alloc::Global;
use std::test::Fail;

/// A way in which a net is driven.
pub trait Way {
    /// Drives a net.
    fn drive(&mut self, alloc: Global, driver: &mut Driver) -> Result<(), Fail>
        requires { IsDriven table_laws driver.old.plan driver.old.inputs driver.old.net }
        ensures { IsDriven table_laws driver.new.plan driver.new.inputs driver.new.net };
}

/// Makes the net of a case under a limit of its queues, and begins its nodes.
pub fn driver_under(alloc: Global, case: &Case, limit: i32) -> Result<Driver, Fail>
    ensures { IfOk result (λ d. IsDriven table_laws d.plan d.inputs d.net) }
{
    let graph = limited(alloc, limit, case.graph)?;
    driver_of(alloc, graph.as_str(), case.lines)
}

/// Drives a net in a way, and returns it. If the way fails, the net is dropped.
pub fn driven<W: Way>(alloc: Global, driver: Driver, way: &mut W) -> Result<Driver, Fail>
    requires { IsDriven table_laws driver.plan driver.inputs driver.net }
    ensures { IfOk result (λ d. IsDriven table_laws d.plan d.inputs d.net) }
{
    let mut driver = driver;
    match way.drive(alloc, &mut driver) {
        Ok(()) => Ok(driver),
        Err(fail) => {
            let_go(driver);
            Err(fail)
        }
    }
}

// Sweeps a net, and shows what comes out of it.
fn come_out_swept(alloc: Global, driver: &mut Driver) -> Result<String, Fail>
    requires { IsDriven table_laws driver.old.plan driver.old.inputs driver.old.net }
{
    sweep(driver, &StillGate, &mut Deaf)?;
    come_out(alloc, driver)
}

/// Sweeps the net of a case under its limit on one thread, and shows what comes out of it.
pub fn swept(alloc: Global, case: &Case) -> Result<String, Fail> {
    let mut driver = driver_under(alloc, case, case.limit)?;
    let shown = come_out_swept(alloc, &mut driver);
    let_go(driver);
    shown
}

/// Drives a net to rest in a way, and expects what is wanted to come out of it. Then winds the net up, and expects it to tell the
/// same as before. Expects it to give its calculators back in their order, with the calls that are wanted.
pub fn expect<W: Way>(alloc: Global, driver: Driver, way: &mut W, case: &Case) -> Result<(), Fail>
    requires { IsDriven table_laws driver.plan driver.inputs driver.net }
{
    let mut driver = driven(alloc, driver, way)?;
    match expect_rest(alloc, &mut driver, case) {
        Ok(before) => expect_end(alloc, driver, before.as_str(), case.calls),
        Err(fail) => {
            let_go(driver);
            Err(fail)
        }
    }
}

// Expects what is wanted to come out of a net at rest, and returns what the net tells.
fn expect_rest(alloc: Global, driver: &mut Driver, case: &Case) -> Result<String, Fail>
    requires { IsDriven table_laws driver.old.plan driver.old.inputs driver.old.net }
    ensures { IsDriven table_laws driver.new.plan driver.new.inputs driver.new.net }
{
    let shown = come_out(alloc, driver)?;
    if is_wanted(case, shown.as_str()) {
        return told(alloc, driver);
    }
    Err(Fail::new(format_args!("{shown}, of {}", case.graph)))
}

// Expects this of what a net tells once it is wound up, and of the calls of the calculators that come back.
fn expect_end(alloc: Global, driver: Driver, told: &str, calls: &str) -> Result<(), Fail>
    requires { IsDriven table_laws driver.plan driver.inputs driver.net }
{
    let (told_then, calls_then) = ended(alloc, driver)?;
    if told_then.as_str() == told && calls_then.as_str() == calls {
        return Ok(());
    }
    Err(Fail::new(format_args!("{told}, and then {told_then}{calls_then}")))
}
