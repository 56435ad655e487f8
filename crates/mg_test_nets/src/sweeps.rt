//! Nets that are swept: whatever the limit of the queues is, what comes out is the same, and nothing is left to do.
use crate::solutions::solved;
use crate::ways::Sweep;
use mg_nets::{CASES, Case, Drawn, case_of, draw_graph, drawn_case, driver_under, expect};
use std::alloc::Global;
use std::test::Fail;

// The limits of queues that are tried. A limit below 0 is none.
const LIMITS: [i32; 4] = [1, 2, 100, -1];

// How many graphs at random are tried.
const SEEDS: u64 = 40;

// Expects a wanted outcome of a case under each limit.
fn expect_limits(alloc: Global, case: &Case) -> Result<(), Fail> {
    for limit in LIMITS {
        let driver = driver_under(alloc, case, limit)?;
        expect(alloc, driver, &mut Sweep, case)?;
    }
    Ok(())
}

#[test]
fn nets_come_to_the_same_under_any_limit(rt: HostRuntime) -> Result<(), Fail> {
    for number in 0..CASES {
        expect_limits(rt.alloc(), &case_of(number))?;
    }
    Ok(())
}

// Sweeps a graph at random under each limit, and expects the outcome that the plain program computes.
fn expect_drawn(alloc: Global, drawn: &Drawn) -> Result<(), Fail> {
    let wanted = solved(alloc, drawn.graph.as_str(), drawn.lines.as_str())?;
    expect_limits(alloc, &drawn_case(drawn, wanted.as_str()))
}

#[test]
fn a_sweep_comes_to_the_solution(rt: HostRuntime) -> Result<(), Fail> {
    for seed in 0..SEEDS {
        let drawn = draw_graph(rt.alloc(), seed)?;
        expect_drawn(rt.alloc(), &drawn)?;
    }
    Ok(())
}
