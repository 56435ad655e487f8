//! What comes out of a net, what it tells, and what it gives back at its end.
ghost use Rattle.mg_route.specs.TableLaws.{table_laws};
ghost use Rattle.mg_nets.specs.Driven.{IsDriven};

use crate::driver::{Driver, held, report, take_out, trim, wind_up};
use crate::shown::{show_boxes, show_report};
use mg_tables::show_set_at;
use std::alloc::Global;
use std::test::Fail;

/// Takes all sets of the graph's outputs that are there, and shows them, each followed by a blank. 2,000 sets or more are an
/// error.
pub fn all_taken(alloc: Global, driver: &mut Driver) -> Result<String, Fail>
    requires { IsDriven table_laws driver.old.plan driver.old.inputs driver.old.net }
    ensures { IsDriven table_laws driver.new.plan driver.new.inputs driver.new.net }
{
    let mut shown = String::new(alloc);
    for _ in 0..2000u32 {
        let Some(set) = take_out(alloc, driver)? else {
            return Ok(shown);
        };
        write!(shown, "{} ", show_set_at(alloc, &set)?)?;
    }
    Err(Fail::from("there is always a set"))
}

/// Shows what a net tells of how far it has come.
pub fn told(alloc: Global, driver: &Driver) -> Result<String, Fail> {
    let report = report(alloc, driver)?;
    show_report(alloc, &report)
}

/// Shows what comes out of a net at rest. Then gives up all packets that can be given up. Shows how many packets are left in the net, and
/// how far it has come.
pub(crate) fn come_out(alloc: Global, driver: &mut Driver) -> Result<String, Fail>
    requires { IsDriven table_laws driver.old.plan driver.old.inputs driver.old.net }
    ensures { IsDriven table_laws driver.new.plan driver.new.inputs driver.new.net }
{
    let sets = all_taken(alloc, driver)?;
    trim(driver);
    let told = told(alloc, driver)?;
    let held = held(driver);
    Ok(format!(in alloc; "{}| {held} | {}", sets.as_str(), told.as_str())?)
}

// Winds a net up, and shows what it tells then.
fn told_wound_up(alloc: Global, driver: &mut Driver) -> Result<String, Fail>
    requires { IsDriven table_laws driver.old.plan driver.old.inputs driver.old.net }
{
    wind_up(driver)?;
    told(alloc, driver)
}

// Shows the calls of the calculators that a net gives back.
fn given_back(alloc: Global, driver: Driver) -> Result<String, Fail> {
    let Driver { plan, inputs, net } = driver;
    drop(plan);
    drop(inputs);
    let boxes = net.give_back();
    let calls = show_boxes(alloc, boxes.as_slice());
    drop(boxes);
    calls
}

/// Winds a net up, and shows what it tells then, and the calls of the calculators that come back.
pub(crate) fn ended(alloc: Global, driver: Driver) -> Result<(String, String), Fail>
    requires { IsDriven table_laws driver.plan driver.inputs driver.net }
{
    let mut driver = driver;
    match told_wound_up(alloc, &mut driver) {
        Ok(told) => {
            let calls = given_back(alloc, driver)?;
            Ok((told, calls))
        }
        Err(fail) => {
            drop(driver);
            Err(fail)
        }
    }
}
