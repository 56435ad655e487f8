//! What is done with the plan of a graph, in each way to use it.
ghost use Rattle.std.specs.Prelude.{◌≡◌, List, IfOk};
ghost use Rattle.mg_calc.specs.declared.shape.OuterShape.{OuterShape};
ghost use Rattle.mg_calc.specs.Plan.{IsValid, IsValidWithFree, OutersFit};
ghost use Rattle.mg_run.specs.Answer as answers;
ghost use Rattle.mg_files.specs.Notes.{free_note as the_note};
ghost use Rattle.mg_run.specs.Code.Action.{action_view, CanBeDone};

use crate::action::{Action, Use};
use crate::limited::{as_asked, limited};
use crate::stated::first_stated;
use mg_answer::Reporting;
use mg_calc::Plan;
use mg_files::{free_note, own_law_note};
use mg_words::{Instruction, Way};
use std::alloc::{AllocError, Global};

/// Returns the word of a way on the command line.
pub fn way_word(way: Way) -> &'static str
    ensures { result.now ≡ answers.way_word way }
{
    match way {
        Way::Run => "run",
        Way::Solve => "solve",
        Way::Generate => "generate",
        Way::Trace => "trace",
        Way::Replay => "replay",
    }
}

// Returns what the notes tell beside what went wrong.
fn reporting(instruction: Instruction) -> Reporting
    ensures { result ≡ answers.reporting instruction }
{
    Reporting {
        counts: instruction.report,
        arrivals: instruction.arrivals,
    }
}

/// Returns the action of using a plan without free nodes in a way. A plan with a node whose law is stated isn't solved, but refused. For a
/// run that is recorded or made again the number of workers in the words doesn't count.
pub fn way_action(
    alloc: Global,
    way: Way,
    instruction: Instruction,
    plan: Plan,
) -> Result<Action, AllocError>
    ensures due { IfOk result (λ action. action_view action ≡ answers.way_action way instruction plan) }
    ensures valid { (outers : List OuterShape) → IsValid plan → OutersFit plan outers → IfOk result (λ action. CanBeDone outers (action_view action)) }
{
    let report = reporting(instruction);
    match way {
        Way::Run => Ok(Action::Graph(Use::Run, report, as_asked(instruction, plan))),
        Way::Solve => solve_action(alloc, report, plan),
        Way::Generate => {
            let made = Use::Generate(instruction.number);
            Ok(Action::Graph(made, report, as_asked(instruction, plan)))
        }
        Way::Trace => Ok(Action::Graph(Use::Trace, report, limited(instruction.limit, plan))),
        Way::Replay => Ok(Action::Graph(Use::Replay, report, limited(instruction.limit, plan))),
    }
}

// Returns the action of solving a plan without free nodes: it is refused if a node's law is stated.
fn solve_action(alloc: Global, report: Reporting, plan: Plan) -> Result<Action, AllocError>
    ensures due { IfOk result (λ action. action_view action ≡ answers.solve_action (answers.first_stated plan) report plan) }
    ensures valid { (outers : List OuterShape) → IsValid plan → IfOk result (λ action. CanBeDone outers (action_view action)) }
{
    match first_stated(&plan) {
        Some(node) => Ok(Action::Refuse(own_law_note(alloc, node)?)),
        None => Ok(Action::Graph(Use::Solve, report, plan)),
    }
}

/// Returns the action of using a plan with free nodes in a way. `first` is the first free node. The plan is run, over the input or over
/// packets that are made, and refused in any other way.
pub fn live_action(
    alloc: Global,
    way: Way,
    instruction: Instruction,
    first: u32,
    plan: Plan,
) -> Result<Action, AllocError>
    ensures due { IfOk result (λ action. action_view action ≡ answers.live_action way instruction first plan) }
    ensures valid { (outers : List OuterShape) → IsValidWithFree plan → OutersFit plan outers → IfOk result (λ action. CanBeDone outers (action_view action)) }
{
    let report = reporting(instruction);
    match way {
        Way::Run => {
            let run = Use::RunLive(instruction.unbuffered);
            Ok(Action::Graph(run, report, as_asked(instruction, plan)))
        }
        Way::Generate => {
            let made = Use::GenerateLive(instruction.number);
            Ok(Action::Graph(made, report, as_asked(instruction, plan)))
        }
        Way::Solve => refused(alloc, way, first),
        Way::Trace => refused(alloc, way, first),
        Way::Replay => refused(alloc, way, first),
    }
}

// Returns the action of refusing a graph in a way, since it has free nodes. `first` is the first of these.
fn refused(alloc: Global, way: Way, first: u32) -> Result<Action, AllocError>
    ensures { IfOk result (λ action. action_view action ≡ answers.refuse (the_note (answers.way_word way) first)) }
{
    let note = free_note(alloc, way_word(way).as_bytes(), first)?;
    Ok(Action::Refuse(note))
}
