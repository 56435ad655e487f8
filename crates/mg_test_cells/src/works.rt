//! Works of a cell. A work that is claimed is performed and stands in the window until it is committed, or goes back
//! unrun.
ghost use Rattle.std.specs.Prelude.{IfOk, IfSome, OnOk};
ghost use Rattle.mg_route.specs.TableLaws.{table_laws};
ghost use Rattle.mg_node.specs.Views.{EngineView};
ghost use Rattle.mg_node.specs.Job.{LoggedJob};
ghost use Rattle.mg_node.specs.Lawful.{LawfulWork, LawfulOutcome};
ghost use Rattle.mg_node.specs.Running.{SomeJobHas};
ghost use Rattle.mg_node.specs.Shelves.{IsOut};
ghost use Rattle.mg_test_cells.specs.Cell.{IsCell, job_of};

use crate::cell::Cell;
use crate::shown::show_work;
use mg_edge::StillGate;
use mg_node::{Claimed, Outcome, Work, perform};
use mg_route::LawBox;
use std::alloc::Global;
use std::test::Fail;

// Claims the next work, or returns why there is none.
fn claim_work(cell: &mut Cell) -> Result<Work<LawBox>, &'static str>
    requires { IsCell table_laws cell.old.plan cell.old.inputs cell.old.engine cell.old.intake cell.old.sink }
    ensures cell { IsCell table_laws cell.new.plan cell.new.inputs cell.new.engine cell.new.intake cell.new.sink }
    ensures lawful { IfOk result (λ w. LawfulWork (job_of table_laws cell.new.plan cell.new.inputs) w) }
    ensures out { IfOk result (λ w. IsOut cell.new.engine w) }
{
    match cell.engine.claim(&mut cell.intake) {
        Claimed::Work(work) => Ok(work),
        Claimed::Answered => Err("Answered"),
        Claimed::NotReady => Err("NotReady"),
        Claimed::InFlightFull => Err("InFlightFull"),
        Claimed::Draining => Err("Draining"),
        Claimed::Ended => Err("Ended"),
        Claimed::OutOfMemory => Err("OutOfMemory"),
    }
}

// Performs a work, or returns `None` when out of memory.
fn performed(alloc: Global, work: Work<LawBox>) -> Option<Outcome<LawBox>>
    requires { SomeJobHas table_laws work }
    ensures lawful { IfSome result (λ o. (job : LoggedJob table_laws) → LawfulWork job work → LawfulOutcome job o) }
    ensures out { IfSome result (λ o. (engine : EngineView) → IsOut engine work → IsOut engine o.work) }
{
    match perform(alloc, work, &StillGate) {
        Ok(performed) => Some(Outcome::ran(performed)),
        Err(_) => None,
    }
}

// Returns a work, with its number and its phase as a text.
fn told(alloc: Global, work: Work<LawBox>) -> Result<(String, Work<LawBox>), Fail>
    ensures lawful { IfOk result (λ t. (job : LoggedJob table_laws) → LawfulWork job work → LawfulWork job t.1) }
    ensures out { IfOk result (λ t. (engine : EngineView) → IsOut engine work → IsOut engine t.1) }
{
    match show_work(alloc, work.number(), work.phase()) {
        Ok(shown) => Ok((shown, work)),
        Err(fail) => {
            drop(work);
            Err(fail)
        }
    }
}

// Puts a work that is out back into its window, not committed.
fn put_back(cell: &mut Cell, outcome: Outcome<LawBox>)
    requires cell { IsCell table_laws cell.old.plan cell.old.inputs cell.old.engine cell.old.intake cell.old.sink }
    requires out { IsOut cell.old.engine outcome.work }
    requires lawful { LawfulOutcome (job_of table_laws cell.old.plan cell.old.inputs) outcome }
    ensures { IsCell table_laws cell.new.plan cell.new.inputs cell.new.engine cell.new.intake cell.new.sink }
{
    cell.engine.shelve(outcome);
}

// Commits a work that is out, and returns how many sets or calls were laid.
fn commit_outcome(cell: &mut Cell, outcome: Outcome<LawBox>) -> Result<u32, Fail>
    requires cell { IsCell table_laws cell.old.plan cell.old.inputs cell.old.engine cell.old.intake cell.old.sink }
    requires out { IsOut cell.old.engine outcome.work }
    requires lawful { LawfulOutcome (job_of table_laws cell.old.plan cell.old.inputs) outcome }
    ensures { OnOk result (IsCell table_laws cell.new.plan cell.new.inputs cell.new.engine cell.new.intake cell.new.sink) }
{
    let Ok(laid) = cell.engine.commit(outcome) else {
        return Err(Fail::from("no memory"));
    };
    Ok(laid)
}

// Returns the outcome of a work that wasn't run.
fn unrun(work: Work<LawBox>) -> Outcome<LawBox>
    ensures lawful { (job : LoggedJob table_laws) → LawfulWork job work → LawfulOutcome job result }
    ensures out { (engine : EngineView) → IsOut engine work → IsOut engine result.work }
{
    Outcome::unrun(work)
}

/// Claims the next work, performs it, and puts it back into its window, not committed. Returns its number and its phase, or why there is
/// none.
pub(crate) fn work(alloc: Global, cell: &mut Cell) -> Result<String, Fail>
    requires { IsCell table_laws cell.old.plan cell.old.inputs cell.old.engine cell.old.intake cell.old.sink }
    ensures { OnOk result (IsCell table_laws cell.new.plan cell.new.inputs cell.new.engine cell.new.intake cell.new.sink) }
{
    let work = match claim_work(cell) {
        Ok(work) => work,
        Err(why) => return Ok(String::from_str(alloc, why)?),
    };
    let (shown, work) = told(alloc, work)?;
    match performed(alloc, work) {
        Some(outcome) => {
            put_back(cell, outcome);
            Ok(shown)
        }
        None => Err(Fail::from("no memory")),
    }
}

/// Claims the next work, and puts it back into its window, unrun. Returns its number and its phase, or why there is none.
pub(crate) fn shelve_unrun(alloc: Global, cell: &mut Cell) -> Result<String, Fail>
    requires { IsCell table_laws cell.old.plan cell.old.inputs cell.old.engine cell.old.intake cell.old.sink }
    ensures { OnOk result (IsCell table_laws cell.new.plan cell.new.inputs cell.new.engine cell.new.intake cell.new.sink) }
{
    let work = match claim_work(cell) {
        Ok(work) => work,
        Err(why) => return Ok(String::from_str(alloc, why)?),
    };
    let (shown, work) = told(alloc, work)?;
    put_back(cell, unrun(work));
    Ok(shown)
}

/// Claims the next work, and commits it as unrun, so that nothing is laid. Returns its number and its phase, or why there is none.
pub(crate) fn commit_unrun(alloc: Global, cell: &mut Cell) -> Result<String, Fail>
    requires { IsCell table_laws cell.old.plan cell.old.inputs cell.old.engine cell.old.intake cell.old.sink }
    ensures { OnOk result (IsCell table_laws cell.new.plan cell.new.inputs cell.new.engine cell.new.intake cell.new.sink) }
{
    let work = match claim_work(cell) {
        Ok(work) => work,
        Err(why) => return Ok(String::from_str(alloc, why)?),
    };
    let (shown, work) = told(alloc, work)?;
    if commit_outcome(cell, unrun(work))? != 0 {
        return Err(Fail::from("something was laid"));
    }
    Ok(shown)
}

// Takes the work of a number, which was performed and isn't committed, out of its window, if there is one.
fn taken(cell: &mut Cell, number: u64) -> Option<Outcome<LawBox>>
    requires { IsCell table_laws cell.old.plan cell.old.inputs cell.old.engine cell.old.intake cell.old.sink }
    ensures cell { IsCell table_laws cell.new.plan cell.new.inputs cell.new.engine cell.new.intake cell.new.sink }
    ensures lawful { IfSome result (λ o. LawfulOutcome (job_of table_laws cell.new.plan cell.new.inputs) o) }
    ensures out { IfSome result (λ o. IsOut cell.new.engine o.work) }
{
    match cell.engine.unshelve(number) {
        Some(performed) => Some(Outcome::ran(performed)),
        None => None,
    }
}

/// Commits the performed work of a number, and returns how many sets or calls were laid, or `None` if there is no such work.
pub(crate) fn commit(cell: &mut Cell, number: u64) -> Result<Option<u32>, Fail>
    requires { IsCell table_laws cell.old.plan cell.old.inputs cell.old.engine cell.old.intake cell.old.sink }
    ensures { OnOk result (IsCell table_laws cell.new.plan cell.new.inputs cell.new.engine cell.new.intake cell.new.sink) }
{
    let Some(outcome) = taken(cell, number) else {
        return Ok(None);
    };
    let laid = commit_outcome(cell, outcome)?;
    Ok(Some(laid))
}

/// Raises the outputs as far as what waits tells, and returns whether that moved one of them.
pub(crate) fn advance(cell: &mut Cell) -> bool
    requires { IsCell table_laws cell.old.plan cell.old.inputs cell.old.engine cell.old.intake cell.old.sink }
    ensures { IsCell table_laws cell.new.plan cell.new.inputs cell.new.engine cell.new.intake cell.new.sink }
{
    cell.engine.advance(&cell.intake)
}
