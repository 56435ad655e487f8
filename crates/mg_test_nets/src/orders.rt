//! Nets at random. Whatever the order of the steps is, the graph's outputs are the same once nothing is left to do. All that the net
//! tells is the same too.
use crate::ways::{Settle, Wander};
use mg_nets::{CASES, Case, Chance, case_of, driven, driver_under, expect};
use std::alloc::Global;
use std::test::Fail;

// How many orders of steps are tried of each graph.
const ORDERS: u64 = 200;

// How many steps are made at random in each order.
const STEPS: u32 = 500;

// Expects a wanted outcome of a graph under its limit, with steps in the order of a seed.
fn expect_order(alloc: Global, case: &Case, seed: u64) -> Result<(), Fail> {
    let mut wander = Wander {
        chance: Chance::new(seed),
        steps: STEPS,
    };
    let driver = driver_under(alloc, case, case.limit)?;
    let driver = driven(alloc, driver, &mut wander)?;
    expect(alloc, driver, &mut Settle, case)
}

// Expects a wanted outcome of a graph under its limit in many orders of steps.
fn expect_orders(alloc: Global, case: &Case) -> Result<(), Fail> {
    for seed in 0..ORDERS {
        expect_order(alloc, case, seed)?;
    }
    Ok(())
}

#[test]
fn nets_come_to_the_same_in_any_order(rt: HostRuntime) -> Result<(), Fail> {
    for number in 0..CASES {
        expect_orders(rt.alloc(), &case_of(number))?;
    }
    Ok(())
}
