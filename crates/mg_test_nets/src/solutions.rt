//! What the plain program computes of a graph, as a net at rest shows it.
ghost use Rattle.mg_calc.specs.Plan.{IsValid, OutersFit};
ghost use Rattle.mg_nets.specs.Handed.{two_outers};

use mg_calc::{Inputs, Plan};
use mg_equations::{Streams, solve};
use mg_nets::{plan_of, show_packets, show_report};
use mg_plans::{do_fit, inputs_of};
use mg_sched::Report;
use mg_settled::{PrefixList, StreamEnd, StreamEndList};
use mg_value::BlockList;
use std::alloc::Global;
use std::test::Fail;

// Returns the solution of a plan over inputs. Inputs that don't fit the plan are an error.
fn solution_over(alloc: Global, plan: &Plan, inputs: &Inputs) -> Result<Streams, Fail>
    requires valid { IsValid plan.now }
    requires fit { OutersFit plan.now two_outers }
{
    if !do_fit(plan, inputs) {
        return Err(Fail::from("inputs don't fit"));
    }
    Ok(solve(alloc, plan, inputs)?)
}

// Returns the solution of a plan over packet lines.
fn solution_of(alloc: Global, plan: &Plan, lines: &str) -> Result<Streams, Fail>
    requires valid { IsValid plan.now }
    requires fit { OutersFit plan.now two_outers }
{
    let inputs = inputs_of(alloc, plan, lines, true)?;
    let streams = solution_over(alloc, plan, &inputs);
    drop(inputs);
    streams
}

// Returns how far streams have come.
fn ends_of(alloc: Global, prefixes: &PrefixList) -> Result<StreamEndList, Fail> {
    let mut ends = Vec::new(alloc);
    for prefix in prefixes.as_slice() {
        ends.push(StreamEnd {
            packets: u64::from(prefix.packets.len()),
            bound: prefix.bound,
        })?;
    }
    Ok(BlockList::from_vec(ends)?)
}

// Shows the packets of the graph's first output, each followed by a blank.
fn show_output(alloc: Global, plan: &Plan, prefixes: &PrefixList) -> Result<String, Fail> {
    let stream = plan.outputs.as_slice().first().ok_or("no output")?;
    let prefix = prefixes
        .as_slice()
        .get(*stream as usize)
        .ok_or("no such stream")?;
    show_packets(alloc, prefix.packets.as_slice())
}

// Shows what a net tells once it has reached the solution, with how far its streams have come.
fn show_told(alloc: Global, solution: Streams, streams: StreamEndList) -> Result<String, Fail> {
    let Streams {
        prefixes,
        sets,
        faults,
    } = solution;
    drop(prefixes);
    let report = Report {
        sets,
        streams,
        faults,
    };
    let told = show_report(alloc, &report);
    drop(report);
    told
}

// Shows what a net tells once it has reached the solution.
fn show_solution(alloc: Global, solution: Streams) -> Result<String, Fail> {
    match ends_of(alloc, &solution.prefixes) {
        Ok(ends) => show_told(alloc, solution, ends),
        Err(fail) => {
            drop(solution);
            Err(fail)
        }
    }
}

// Shows what comes out of a net once it has reached the solution.
fn show_outcome(alloc: Global, plan: &Plan, solution: Streams) -> Result<String, Fail> {
    match show_output(alloc, plan, &solution.prefixes) {
        Ok(sets) => {
            let told = show_solution(alloc, solution)?;
            Ok(format!(in alloc; "{}| 0 | {}", sets.as_str(), told.as_str())?)
        }
        Err(fail) => {
            drop(solution);
            Err(fail)
        }
    }
}

// Shows what comes out of the net of a plan over packet lines.
fn solved_over(alloc: Global, plan: &Plan, lines: &str) -> Result<String, Fail>
    requires valid { IsValid plan.now }
    requires fit { OutersFit plan.now two_outers }
{
    let solution = solution_of(alloc, plan, lines)?;
    show_outcome(alloc, plan, solution)
}

/// Shows what comes out of the net of a graph with one output, if no packet waits in vain.
pub(crate) fn solved(alloc: Global, graph: &str, lines: &str) -> Result<String, Fail> {
    let plan = plan_of(alloc, graph)?;
    let shown = solved_over(alloc, &plan, lines);
    drop(plan);
    shown
}
