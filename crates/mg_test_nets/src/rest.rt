//! Nets that are driven until nothing is left to do.
ghost use Rattle.mg_route.specs.TableLaws.{table_laws};
ghost use Rattle.mg_nets.specs.Driven.{IsDriven};

use crate::events::{event_at, event_count};
use mg_calc::{Effect, Event};
use mg_nets::{Chance, Driver, act};
use std::test::Fail;

/// Makes steps, and expects each to have the wanted effect.
pub(crate) fn make_each(driver: &mut Driver, events: &[Event], wanted: Effect) -> Result<(), Fail>
    requires { IsDriven table_laws driver.old.plan driver.old.inputs driver.old.net }
    ensures { IsDriven table_laws driver.new.plan driver.new.inputs driver.new.net }
{
    for event in events {
        let effect = act(driver, *event)?;
        if effect != wanted {
            return Err(Fail::new(format_args!("{event:?}: {effect:?}")));
        }
    }
    Ok(())
}

/// Makes the step of this number, and returns whether it did something.
pub(crate) fn step(driver: &mut Driver, number: u32) -> Result<bool, Fail>
    requires { IsDriven table_laws driver.old.plan driver.old.inputs driver.old.net }
    ensures { IsDriven table_laws driver.new.plan driver.new.inputs driver.new.net }
{
    let event = event_at(&driver.plan, number);
    match act(driver, event)? {
        Effect::Did => Ok(true),
        Effect::Idle => Ok(false),
        Effect::OutOfMemory => Err(Fail::from("no memory")),
    }
}

/// Makes `steps` steps at random.
pub(crate) fn wander(driver: &mut Driver, chance: &mut Chance, steps: u32) -> Result<(), Fail>
    requires { IsDriven table_laws driver.old.plan driver.old.inputs driver.old.net }
    ensures { IsDriven table_laws driver.new.plan driver.new.inputs driver.new.net }
{
    let count = event_count(&driver.plan);
    for _ in 0..steps {
        let _ = step(driver, chance.below(count))?;
    }
    Ok(())
}

// Makes each step once, and returns whether one did something.
fn pass(driver: &mut Driver, count: u32) -> Result<bool, Fail>
    requires { IsDriven table_laws driver.old.plan driver.old.inputs driver.old.net }
    ensures { IsDriven table_laws driver.new.plan driver.new.inputs driver.new.net }
{
    let mut did = false;
    for number in 0..count {
        did |= step(driver, number)?;
    }
    Ok(did)
}

/// Makes steps until none does anything. That there is still something to do after 1,000 rounds of all events is an error.
pub(crate) fn settle(driver: &mut Driver) -> Result<(), Fail>
    requires { IsDriven table_laws driver.old.plan driver.old.inputs driver.old.net }
    ensures { IsDriven table_laws driver.new.plan driver.new.inputs driver.new.net }
{
    let count = event_count(&driver.plan);
    for _ in 0..1000u32 {
        if !pass(driver, count)? {
            return Ok(());
        }
    }
    Err(Fail::from("there is always something to do"))
}

/// Makes each step once, and returns whether none did anything.
pub(crate) fn is_at_rest(driver: &mut Driver) -> Result<bool, Fail>
    requires { IsDriven table_laws driver.old.plan driver.old.inputs driver.old.net }
    ensures { IsDriven table_laws driver.new.plan driver.new.inputs driver.new.net }
{
    let count = event_count(&driver.plan);
    let did = pass(driver, count)?;
    Ok(!did)
}
