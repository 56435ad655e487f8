//! Works that are done while both turns of a node are held.
ghost use Rattle.std.specs.Prelude.{◌≡◌, ◌+◌, ◌<◌, MatchBool, cond, is_some};
ghost use Rattle.mg_node.specs.Lawful.{AreCell, LawfulWork, LawfulOutcome};
ghost use Rattle.mg_node.specs.Running.{SomeJobHas};
ghost use Rattle.mg_node.specs.Shelves.{IsOut, shelved};
ghost use Rattle.mg_node.specs.Commits.{SomeJobHasEngine};
ghost use Rattle.mg_turns.specs.Rounds.{Stops};
ghost use Rattle.mg_turns.specs.Told.{committed_in, RunEnds};
ghost use Rattle.mg_turns.specs.Code.Running.{Returned, CellSteps, IsCommitted, IsDone, IsPutBack, SomeRound, RanRounds, NoneCommitted};

use mg_calc::NodeCalculator;
use mg_edge::Gate;
use mg_node::{AtOnce, Claimed, Engine, Intake, Outcome, Work, perform};
use std::alloc::Global;

/// Commits a work, or puts it back into its window if there is no memory. Returns whether the work is committed.
fn take_in<C: NodeCalculator>(engine: &mut Engine<C>, outcome: Outcome<C>) -> bool
    requires out { IsOut engine.old outcome.work }
    requires lawful { SomeJobHasEngine C.laws engine.old }
    ensures returned { Returned C.laws engine.old engine.new outcome.work.number (λ job. LawfulOutcome job outcome) }
    ensures came { MatchBool result (IsCommitted outcome engine.old engine.new) (engine.new ≡ shelved engine.old outcome) }
    ensures counts { MatchBool result (committed_in engine.new ≡ committed_in engine.old + cond (is_some outcome.answer) 1 0) (NoneCommitted engine.old engine.new) }
{
    match engine.commit(outcome) {
        Ok(_) => true,
        Err(outcome) => {
            engine.shelve(outcome);
            false
        }
    }
}

/// Performs a work, and commits it. Out of memory: puts the work back into its window. Returns whether it is committed.
fn run_work<C: NodeCalculator, G: Gate>(
    alloc: Global,
    engine: &mut Engine<C>,
    work: Work<C>,
    gate: &G,
) -> bool
    requires out { IsOut engine.old work }
    requires some { SomeJobHas C.laws work }
    requires lawful { SomeJobHasEngine C.laws engine.old }
    ensures returned { Returned C.laws engine.old engine.new work.number (λ job. LawfulWork job work) }
    ensures came { MatchBool result (IsDone C.laws work engine.old engine.new) (IsPutBack C.laws work engine.old engine.new) }
    ensures counts { MatchBool result (committed_in engine.new ≡ committed_in engine.old + 1) (NoneCommitted engine.old engine.new) }
{
    match perform(alloc, work, gate) {
        Ok(performed) => take_in(engine, Outcome::ran(performed)),
        Err(work) => {
            engine.shelve(Outcome::unrun(work));
            false
        }
    }
}

/// Claims the next work of a cell, performs it and commits it. Returns whether there was one and it is committed.
fn run_claimed<C: NodeCalculator, G: Gate>(
    alloc: Global,
    engine: &mut Engine<C>,
    intake: &mut Intake,
    gate: &G,
) -> bool
    requires { AreCell C.laws engine.old intake.old }
    ensures steps { CellSteps C.laws engine.old engine.new intake.old intake.new }
    ensures ran { MatchBool result (SomeRound C.laws engine.old engine.new intake.old intake.new) (Stops C.laws engine.old engine.new intake.old intake.new) }
    ensures counts { MatchBool result (committed_in engine.new ≡ committed_in engine.old + 1) ((committed_in engine.new ≡ committed_in engine.old) × RunEnds engine.new intake.new) }
{
    match engine.claim(intake) {
        Claimed::Work(work) => run_work(alloc, engine, work, gate),
        Claimed::Answered => true,
        Claimed::NotReady => false,
        Claimed::InFlightFull => false,
        Claimed::Draining => false,
        Claimed::Ended => false,
        Claimed::OutOfMemory => false,
    }
}

/// Does the next work of a cell, and returns whether there was one and it is committed. A set is shown to the node's calculator where that
/// lies, if no work is under way.
fn run_set<C: NodeCalculator, G: Gate>(
    alloc: Global,
    engine: &mut Engine<C>,
    intake: &mut Intake,
    gate: &G,
) -> bool
    requires { AreCell C.laws engine.old intake.old }
    ensures steps { CellSteps C.laws engine.old engine.new intake.old intake.new }
    ensures ran { MatchBool result (SomeRound C.laws engine.old engine.new intake.old intake.new) (Stops C.laws engine.old engine.new intake.old intake.new) }
    ensures counts { MatchBool result (committed_in engine.new ≡ committed_in engine.old + 1) ((committed_in engine.new ≡ committed_in engine.old) × RunEnds engine.new intake.new) }
{
    match engine.work_at_once(intake, gate) {
        AtOnce::Other => run_claimed(alloc, engine, intake, gate),
        AtOnce::NotReady => false,
        AtOnce::Claimed(work) => run_work(alloc, engine, work, gate),
        AtOnce::Performed(_) => false,
        AtOnce::Committed(_) => true,
    }
}

/// Does at most `most` works of a cell, one after the other, and returns how many.
pub(crate) fn run_sets<C: NodeCalculator, G: Gate>(
    alloc: Global,
    engine: &mut Engine<C>,
    intake: &mut Intake,
    most: u32,
    gate: &G,
) -> u32
    requires { AreCell C.laws engine.old intake.old }
    ensures steps { CellSteps C.laws engine.old engine.new intake.old intake.new }
    ensures ran { RanRounds C.laws result most engine.old engine.new intake.old intake.new }
    ensures counts { committed_in engine.new ≡ committed_in engine.old + result }
    ensures ends { result < most → RunEnds engine.new intake.new }
{
    for done in 0..most {
        if !run_set(alloc, engine, intake, gate) {
            return done;
        }
    }
    most
}
