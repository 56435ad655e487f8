//! Four loops for the scripts of bench/, of what the program itself can't show. With the word `workers` and four numbers, workers run a
//! chain of nodes whose calls are held up (`bench/workers`). With the word `wide` and three numbers, workers run a net in which a node
//! reads a stream at many ports. Turns in vain are counted (`bench/workers`). With the word `turns`, two numbers and two words, one seat
//! makes the calls of a shared net, or a net makes its events (`bench/turns`). With three numbers, input sets go through an inbox
//! (`bench/inbox`). A value that holds a net, a plan or a feed is dropped by a call of `drop`. That costs less proof than to drop it where
//! its name ends.
#![tactic(auto)]

mod chain;
mod inbox;
mod turns;
mod words;

use std::sync::Wait;
use std::test::Fail;
use std::thread::Threads;
use words::is;

fn main(rt: HostRuntime) -> Result<(), Fail> {
    let count = count(&rt, &rt)?;
    println!(rt; "{count}")?;
    Ok(())
}

// Runs the loop that the words name, and returns what it counts.
fn count<R: Threads + Wait + Sync>(threads: &R, rt: &HostRuntime) -> Result<u64, Fail> {
    if is(rt, 1, "workers") {
        chain::run_by_workers(threads, rt)
    } else if is(rt, 1, "wide") {
        chain::run_wide(threads, rt)
    } else if is(rt, 1, "turns") {
        turns::run(rt)
    } else {
        inbox::run(rt)
    }
}
