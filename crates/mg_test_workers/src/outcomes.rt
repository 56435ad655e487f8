//! What comes out of nets that workers run is the same for each number of workers.
use crate::running::expect_each;
use mg_nets::{CASES, Drawn, case_of, draw_graph, drawn_case, swept, under};
use std::alloc::Global;
use std::sync::Wait;
use std::test::Fail;
use std::thread::Threads;

// The limits of queues that are tried. A limit below 0 is none.
const LIMITS: [i32; 4] = [1, 2, 100, -1];

// How many graphs at random are tried.
const SEEDS: u64 = 40;

// In one of the cases a node adds, and its works are done at the same time.
#[test]
fn workers_come_to_what_is_wanted(rt: HostRuntime) -> Result<(), Fail> {
    for number in 0..CASES {
        expect_each(&rt, rt.alloc(), &case_of(number))?;
    }
    Ok(())
}

// Runs a graph at random by workers under each limit, and expects the outcome that it has on one thread.
fn expect_drawn<R: Threads + Wait + Sync>(
    rt: &R,
    alloc: Global,
    drawn: &Drawn,
) -> Result<(), Fail> {
    let wanted = swept(alloc, &drawn_case(drawn, ""))?;
    for limit in LIMITS {
        let case = under(drawn_case(drawn, wanted.as_str()), limit);
        expect_each(rt, alloc, &case)?;
    }
    Ok(())
}

#[test]
fn workers_come_to_what_one_thread_comes_to(rt: HostRuntime) -> Result<(), Fail> {
    for seed in 0..SEEDS {
        let drawn = draw_graph(rt.alloc(), seed)?;
        expect_drawn(&rt, rt.alloc(), &drawn)?;
    }
    Ok(())
}
