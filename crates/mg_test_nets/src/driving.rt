//! Nets that go on with further inputs, or are taken apart and put together again, and what a net has of its streams.
ghost use Rattle.mg_route.specs.TableLaws.{table_laws};
ghost use Rattle.mg_nets.specs.Driven.{IsDriven};

use crate::carrying::carry;
use crate::pieces::longer;
use mg_calc::Inputs;
use mg_nets::Driver;
use mg_sched::Net;
use mg_tables::{show_packet_at, text_of};
use std::alloc::Global;
use std::test::Fail;

/// Goes on with a further piece of the inputs.
pub(crate) fn extend(alloc: Global, driver: &mut Driver, piece: &Inputs) -> Result<(), Fail>
    requires { IsDriven table_laws driver.old.plan driver.old.inputs driver.old.net }
    ensures { IsDriven table_laws driver.new.plan driver.new.inputs driver.new.net }
{
    let inputs = longer(alloc, &driver.inputs, piece)?;
    driver.net.extend(piece)?;
    driver.inputs = inputs;
    Ok(())
}

/// Takes the net apart, and puts it together again from its parts. Meanwhile the edge of this number, if there is one, delivers what
/// its port hasn't got.
pub(crate) fn part_and_join(driver: Driver, edge: u32) -> Driver
    requires { IsDriven table_laws driver.plan driver.inputs driver.net }
    ensures { IsDriven table_laws result.plan result.inputs result.net }
{
    let Driver { plan, inputs, net } = driver;
    let mut parts = net.apart();
    carry(parts.plan.plan(), &parts.engines, &mut parts.intakes, edge);
    let net = Net::put_together(parts);
    Driver { plan, inputs, net }
}

/// Shows a stream's packet of this number, or `-` if none is there.
pub(crate) fn show_packet(
    alloc: Global,
    driver: &Driver,
    stream: u32,
    number: u64,
) -> Result<String, Fail>
    requires { IsDriven table_laws driver.now.plan driver.now.inputs driver.now.net }
{
    match driver.net.packet(stream, number) {
        Some(packet) => show_packet_at(alloc, packet),
        None => Ok(String::from_str(alloc, "-")?),
    }
}

/// Shows the bound of a stream, or `-` if there is no such stream.
pub(crate) fn show_bound(alloc: Global, driver: &Driver, stream: u32) -> Result<String, Fail>
    requires { IsDriven table_laws driver.now.plan driver.now.inputs driver.now.net }
{
    if stream >= driver.plan.streams.len() {
        return Ok(String::from_str(alloc, "-")?);
    }
    text_of(alloc, driver.net.bound(stream))
}
