//! Plans of graphs that are written as texts, and inputs that are written as packet lines.

ghost use Rattle.std.specs.Prelude.{◌≡◌, IfOk, All, true};
ghost use Rattle.mg_calc.specs.Plan.{IsValid, InputsFit, OutersFit};
ghost use Rattle.mg_check.specs.Check.{IsOuterShape};

use mg_calc::{Inputs, OuterShape, Plan};
use mg_check::check;
use mg_config::{GraphConfig, read};
use mg_feed::Feed;
use mg_free::first_free;
use mg_settled::are_prefixes;
use mg_text::parse;
use std::alloc::Global;
use std::test::Fail;

// Reads the graph of a text.
fn graph_of(alloc: Global, text: &str) -> Result<GraphConfig, Fail> {
    let tree = parse(alloc, text.as_bytes())?;
    Ok(read(alloc, &tree)?)
}

/// Returns the plan of a graph, by its text, with the user-supplied calculators. It fails if the text isn't a graph, the graph has too
/// many nodes, the check refuses the graph, or a node is free.
pub fn plan_of(alloc: Global, text: &str, outers: &[OuterShape]) -> Result<Plan, Fail>
    requires { All IsOuterShape outers.now }
    ensures valid { IfOk result IsValid }
    ensures fit { IfOk result (λ plan. OutersFit plan outers.now) }
{
    let graph = graph_of(alloc, text)?;
    if graph.nodes.len() > 4096 {
        return Err(Fail::from("too many nodes"));
    }
    let plan = check(alloc, &graph, outers)?;
    match first_free(&plan) {
        Some(_) => Err(Fail::from("a node is free")),
        None => Ok(plan),
    }
}

/// Returns the inputs that packet lines give to the graph of a plan. If `ended` is set, no further packet comes. It fails at the
/// first line that isn't good.
pub fn inputs_of(alloc: Global, plan: &Plan, lines: &str, ended: bool) -> Result<Inputs, Fail> {
    let mut feed = Feed::new(alloc, plan)?;
    for line in lines.split('\n') {
        let Ok(()) = feed.line(line.as_bytes()) else {
            return Err(Fail::from("a line isn't good"));
        };
    }
    Ok(feed.into_inputs(ended))
}

/// Returns whether inputs fit a plan that has no side packets. For a plan that has side packets it is false.
pub fn do_fit(plan: &Plan, inputs: &Inputs) -> bool
    ensures { result ≡ true → InputsFit plan.now inputs.now }
{
    plan.sides.is_empty()
        && inputs.sides.is_empty()
        && inputs.streams.len() == plan.inputs.len()
        && are_prefixes(&inputs.streams)
}
