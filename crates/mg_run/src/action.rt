//! What a command has to do with the contents of its files.
ghost use Rattle.std.specs.Prelude.{◌≡◌, ◌≤◌, ℕ, List, IfOk, length, map, All};
ghost use Rattle.mg_config.specs.Config.{graph_view};
ghost use Rattle.mg_config.specs.Sound.{IsSound, IsPrintable};
ghost use Rattle.mg_calc.specs.declared.shape.OuterShape.{OuterShape};
ghost use Rattle.mg_check.specs.Check.{check_of, IsOuterShape};
ghost use Rattle.mg_subgraph.specs.Expansion.{expansion_of};
ghost use Rattle.mg_words.specs.Command.{command};
ghost use Rattle.mg_run.specs.Invocation.{Invocation, invocation};
ghost use Rattle.mg_run.specs.Answer as answers;
ghost use Rattle.mg_run.specs.Code.Action.{action_view, CanBeDone};
ghost use Rattle.mg_files.specs.Reads.{contents_of, AreNotedOf};
ghost use Rattle.mg_run.specs.Call.{IsActionOf};

use crate::way::{live_action, way_action};
use mg_answer::Reporting;
use mg_calc::{OuterShape, Plan};
use mg_check::check;
use mg_config::GraphConfig;
use mg_files::{Fault, check_note, check_text, expand_note, graph_text, graphs_of};
use mg_free::first_free;
use mg_subgraph::expand_own;
use mg_value::MgText;
use mg_words::{Instruction, Verb, Way};
use std::alloc::{AllocError, Global};

/// How the graph of a plan is used.
#[derive(Clone, Copy, Debug, PartialEq, Eq)]
pub enum Use {
    /// The graph is run over the input.
    Run,
    /// The graph, which has free nodes, is run over the input. The value says whether batches of lines end early.
    RunLive(bool),
    /// The graph's equations are solved for the input.
    Solve,
    /// The graph is run over so many packets that are made.
    Generate(u32),
    /// The graph, which has free nodes, is run over so many packets that are made.
    GenerateLive(u32),
    /// The graph is run over the input, and the run is recorded.
    Trace,
    /// A recorded run of the graph, which the input tells, is made again.
    Replay,
}

/// What a command has to do once its files are loaded.
#[derive(Debug, Drop)]
pub enum Action {
    /// A file, the expansion or the graph is refused with this note.
    Refuse(Vec<u8>),
    /// This text is written.
    Show(Vec<u8>),
    /// The graph of this plan is used in this way, and the notes tell this beside what went wrong.
    Graph(Use, Reporting, Plan),
}

/// Reads the contents of a command's files, and returns what the command has to do with them. `outers` are the shapes and laws of the
/// user-supplied calculators.
pub fn action_of(
    alloc: Global,
    instruction: Instruction,
    outers: &[OuterShape],
    names: &[MgText],
    contents: Vec<Vec<u8>>,
) -> Result<Action, AllocError>
    requires each { length contents.items ≡ length names.now }
    requires outers { All IsOuterShape outers.now }
    ensures due { IfOk result (λ action. IsActionOf (invocation (command instruction names.now) outers.now) (contents_of contents.items) (action_view action)) }
    ensures valid { IfOk result (λ action. CanBeDone outers.now (action_view action)) }
{
    match graphs_of(alloc, names, &contents) {
        Ok(graphs) => {
            drop(contents);
            graphs_action(alloc, instruction, outers, graphs)
        }
        Err(fault) => refused(fault),
    }
}

// Returns the action of refusing a file with its note, or an error if memory ran out.
fn refused(fault: Fault) -> Result<Action, AllocError>
    ensures valid { IfOk result (λ action. (outers : List OuterShape) → CanBeDone outers (action_view action)) }
    ensures due { IfOk result (λ action. (invocation : Invocation) (contents : List (List ℕ)) → AreNotedOf fault invocation.files contents → IsActionOf invocation contents (action_view action)) }
{
    match fault {
        Fault::Noted(note) => Ok(Action::Refuse(note)),
        Fault::OutOfMemory => Err(AllocError),
    }
}

// Returns what there is to do with graphs. The first graph is the main graph, and the further graphs are its library.
fn graphs_action(
    alloc: Global,
    instruction: Instruction,
    outers: &[OuterShape],
    graphs: Vec<GraphConfig>,
) -> Result<Action, AllocError>
    requires sound { All (λ graph. IsSound (graph_view graph)) graphs.items }
    requires printable { All (λ graph. IsPrintable (graph_view graph)) graphs.items }
    requires outers { All IsOuterShape outers.now }
    ensures due { IfOk result (λ action. action_view action ≡ answers.graphs_action instruction outers.now (map graph_view graphs.items)) }
    ensures valid { IfOk result (λ action. CanBeDone outers.now (action_view action)) }
{
    if graphs.is_empty() {
        return Ok(Action::Refuse(Vec::new(alloc)));
    }
    let mut library = graphs;
    let main = library.remove(0);
    main_action(alloc, instruction, outers, main, library.as_slice())
}

fn main_action(
    alloc: Global,
    instruction: Instruction,
    outers: &[OuterShape],
    main: GraphConfig,
    library: &[GraphConfig],
) -> Result<Action, AllocError>
    requires sound { IsSound (graph_view main) }
    requires printable { IsPrintable (graph_view main) }
    requires sound_files { All (λ graph. IsSound (graph_view graph)) library.now }
    requires printable_files { All (λ graph. IsPrintable (graph_view graph)) library.now }
    requires outers { All IsOuterShape outers.now }
    ensures valid { IfOk result (λ action. CanBeDone outers.now (action_view action)) }
    ensures due { IfOk result (λ action. action_view action ≡ answers.expanded_action instruction outers.now (expansion_of (graph_view main) (map graph_view library.now))) }
{
    match expand_own(alloc, main, library) {
        Ok(graph) => graph_action(alloc, instruction, outers, graph),
        Err(fault) => Ok(Action::Refuse(expand_note(alloc, &fault)?)),
    }
}

fn graph_action(
    alloc: Global,
    instruction: Instruction,
    outers: &[OuterShape],
    graph: GraphConfig,
) -> Result<Action, AllocError>
    requires sound { IsSound (graph_view graph) }
    requires printable { IsPrintable (graph_view graph) }
    requires few { length graph.nodes ≤ 4096 }
    requires outers { All IsOuterShape outers.now }
    ensures due { IfOk result (λ action. action_view action ≡ answers.graph_action instruction outers.now (graph_view graph)) }
    ensures valid { IfOk result (λ action. CanBeDone outers.now (action_view action)) }
{
    match instruction.verb {
        Verb::Check => check_action(alloc, outers, &graph),
        Verb::Expand => Ok(Action::Show(graph_text(alloc, graph)?)),
        Verb::Use(way) => plan_action(alloc, way, instruction, outers, &graph),
    }
}

// Returns the action of `check`: to write its text if the graph has a plan, and otherwise to refuse the graph.
fn check_action(
    alloc: Global,
    outers: &[OuterShape],
    graph: &GraphConfig,
) -> Result<Action, AllocError>
    requires few { length graph.now.nodes ≤ 4096 }
    requires outers { All IsOuterShape outers.now }
    ensures due { IfOk result (λ action. action_view action ≡ answers.check_action (check_of outers.now (graph_view graph.now))) }
    ensures valid { IfOk result (λ action. CanBeDone outers.now (action_view action)) }
{
    match check(alloc, graph, outers) {
        Ok(plan) => Ok(Action::Show(check_text(alloc, &plan)?)),
        Err(fault) => Ok(Action::Refuse(check_note(alloc, &fault)?)),
    }
}

// Returns the action of using a graph in a way. A graph without a plan is refused, and so is one whose nodes don't allow that way.
fn plan_action(
    alloc: Global,
    way: Way,
    instruction: Instruction,
    outers: &[OuterShape],
    graph: &GraphConfig,
) -> Result<Action, AllocError>
    requires few { length graph.now.nodes ≤ 4096 }
    requires outers { All IsOuterShape outers.now }
    ensures due { IfOk result (λ action. action_view action ≡ answers.plan_action way instruction (check_of outers.now (graph_view graph.now))) }
    ensures valid { IfOk result (λ action. CanBeDone outers.now (action_view action)) }
{
    match check(alloc, graph, outers) {
        Ok(plan) => match first_free(&plan) {
            Some(node) => live_action(alloc, way, instruction, node, plan),
            None => way_action(alloc, way, instruction, plan),
        },
        Err(fault) => Ok(Action::Refuse(check_note(alloc, &fault)?)),
    }
}
