//! The ways in which a net is driven: step by step, at random, to rest, or by a sweep.

use crate::rest::{is_at_rest, make_each, settle, wander};
use mg_calc::{Effect, Event};
use mg_edge::StillGate;
use mg_nets::{Chance, Driver, Way, sweep};
use mg_sched::Deaf;
use std::alloc::Global;
use std::test::Fail;

/// Steps that all have to have the same effect.
#[derive(Drop)]
pub(crate) struct Steps {
    pub(crate) events: &'static [Event],
    pub(crate) effect: Effect,
}

impl Way for Steps {
    fn drive(&mut self, _alloc: Global, driver: &mut Driver) -> Result<(), Fail> {
        make_each(driver, self.events, self.effect)
    }
}

/// A number of steps at random.
#[derive(Drop)]
pub(crate) struct Wander {
    pub(crate) chance: Chance,
    pub(crate) steps: u32,
}

impl Way for Wander {
    fn drive(&mut self, _alloc: Global, driver: &mut Driver) -> Result<(), Fail> {
        wander(driver, &mut self.chance, self.steps)
    }
}

/// Steps until none does anything.
#[derive(Drop)]
pub(crate) struct Settle;

impl Way for Settle {
    fn drive(&mut self, _alloc: Global, driver: &mut Driver) -> Result<(), Fail> {
        settle(driver)
    }
}

/// A sweep. After it no step does anything.
#[derive(Drop)]
pub(crate) struct Sweep;

impl Way for Sweep {
    fn drive(&mut self, _alloc: Global, driver: &mut Driver) -> Result<(), Fail> {
        sweep(driver, &StillGate, &mut Deaf)?;
        if is_at_rest(driver)? {
            return Ok(());
        }
        Err(Fail::from("a sweep left something to do"))
    }
}
