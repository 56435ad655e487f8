//! A source sends packets through a chain of nodes. Workers run the net, and each Process call is held up for a number of turns of a loop.
//! Or a node reads the last stream of a chain at many ports, and the program counts the turns of workers that were in vain.

ghost use Rattle.mg_route.specs.TableLaws.{table_laws};
ghost use Rattle.mg_nets.specs.Driven.{IsDriven};
ghost use Rattle.std.specs.Prelude.{IfOk};

use crate::words::number;
use mg_crew::run_workers;
use mg_edge::Gate;
use mg_nets::{Driver, driver_of, sweep};
use mg_sched::Deaf;
use std::alloc::{AllocError, Global};
use std::sync::Wait;
use std::sync::atomic::{AtomicU64, Ordering};
use std::test::Fail;
use std::thread::Threads;

/// A gate that holds each call up for `turns` turns of a loop.
#[derive(Drop)]
struct Delay {
    turns: u32,
    word: AtomicU64,
}

impl Gate for Delay {
    fn enter(&self, _node: u32, _number: u64) {
        for _ in 0..self.turns {
            self.word.load(Ordering::SeqCst);
        }
    }

    fn leave(&self, _node: u32, _number: u64) {}
}

// Returns a gate that holds each call up for a number of turns.
fn gate_of(turns: u32) -> Delay {
    Delay {
        turns,
        word: AtomicU64::new(0),
    }
}

/// Lets workers run the net of a chain before it is swept. The words give how many nodes, packets, turns and workers there are. Returns how
/// many sets the last node has taken.
pub fn run_by_workers<R: Threads + Wait + Sync>(
    threads: &R,
    rt: &HostRuntime,
) -> Result<u64, Fail> {
    let nodes = number(rt, 2)?;
    let packets = number(rt, 3)?;
    let gate = gate_of(number(rt, 4)?);
    let workers = number(rt, 5)?;
    let driver = chain(rt.alloc(), nodes, packets, 100)?;
    let (driver, _) = worked(threads, rt.alloc(), driver, workers, &gate);
    swept(rt.alloc(), driver, &gate)
}

/// Lets workers run the net of a chain before it is swept. One node reads the last stream of the chain at many ports. The words give how
/// many ports, packets and workers there are. Returns how many turns of the workers were in vain.
pub fn run_wide<R: Threads + Wait + Sync>(threads: &R, rt: &HostRuntime) -> Result<u64, Fail> {
    let ports = number(rt, 2)?;
    let packets = number(rt, 3)?;
    let workers = number(rt, 4)?;
    let gate = gate_of(0);
    let driver = wide(rt.alloc(), ports, packets)?;
    let (driver, vain) = worked(threads, rt.alloc(), driver, workers, &gate);
    let sets = swept(rt.alloc(), driver, &gate)?;
    if sets == u64::from(packets) {
        Ok(vain)
    } else {
        Err(Fail::from("the last node took too few sets"))
    }
}

/// Returns the net of a chain whose queues have a limit.
pub(crate) fn chain(alloc: Global, nodes: u32, packets: u32, limit: u32) -> Result<Driver, Fail>
    ensures { IfOk result (λ d. IsDriven table_laws d.plan d.inputs d.net) }
{
    let mut text = String::new(alloc);
    push_chain(&mut text, nodes, packets, limit)?;
    driver_of(alloc, &text, "")
}

// Returns the net of four nodes in a chain, and of a node that reads their last stream at many ports.
fn wide(alloc: Global, ports: u32, packets: u32) -> Result<Driver, Fail>
    ensures { IfOk result (λ d. IsDriven table_laws d.plan d.inputs d.net) }
{
    let mut text = String::new(alloc);
    push_chain(&mut text, 4, packets, 100)?;
    push_sum(&mut text, ports)?;
    driver_of(alloc, &text, "")
}

// Appends the text of a node that reads the stream `s4` at a number of ports.
fn push_sum(text: &mut String, ports: u32) -> Result<(), AllocError> {
    text.push_str(" node { calculator: \"IntSumCalculator\"")?;
    for _ in 0..ports {
        text.push_str(" input_stream: \"s4\"")?;
    }
    text.push_str(" output_stream: \"sum\" }")
}

// Appends the text of the graph of a chain.
fn push_chain(text: &mut String, nodes: u32, packets: u32, limit: u32) -> Result<(), AllocError> {
    push(text, "max_queue_size: ", limit)?;
    push(
        text,
        " node { calculator: \"CountingSourceCalculator\" output_stream: \"s0\" node_options: { [type.googleapis.com/mediapipe.CountingSourceCalculatorOptions] { count: ",
        packets,
    )?;
    text.push_str(" } } }")?;
    for node in 0..nodes {
        push(
            text,
            " node { calculator: \"PassThroughCalculator\" input_stream: \"s",
            node,
        )?;
        push(text, "\" output_stream: \"s", node.wrapping_add(1))?;
        text.push_str("\" }")?;
    }
    Ok(())
}

// Appends words and a number.
fn push(text: &mut String, words: &str, number: u32) -> Result<(), AllocError> {
    write!(text, "{words}{number}")
}

// Lets workers run a net, and returns it, and how many of their turns were in vain.
fn worked<R: Threads + Wait + Sync>(
    rt: &R,
    alloc: Global,
    driver: Driver,
    workers: u32,
    gate: &Delay,
) -> (Driver, u64)
    requires { IsDriven table_laws driver.plan driver.inputs driver.net }
    ensures { IsDriven table_laws result.0.plan result.0.inputs result.0.net }
{
    let Driver { plan, inputs, net } = driver;
    let (net, vain) = run_workers(rt, alloc, net, workers, gate);
    (Driver { plan, inputs, net }, vain)
}

// Brings a net to rest, and returns how many sets its last node has taken.
fn swept(alloc: Global, driver: Driver, gate: &Delay) -> Result<u64, Fail>
    requires { IsDriven table_laws driver.plan driver.inputs driver.net }
{
    let mut driver = driver;
    let sets = last_sets(alloc, &mut driver, gate);
    drop(driver);
    sets
}

// Brings a net to rest, and returns how many sets its last node has taken.
fn last_sets(alloc: Global, driver: &mut Driver, gate: &Delay) -> Result<u64, Fail>
    requires { IsDriven table_laws driver.old.plan driver.old.inputs driver.old.net }
{
    sweep(driver, gate, &mut Deaf)?;
    let report = driver.net.report(alloc)?;
    Ok(report.sets.as_slice().last().copied().unwrap_or(0))
}
