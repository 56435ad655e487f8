//! Tables of cells: a row is a call, and after `=` the answer that it has to give.
//!
//! - `deliver PORT MOST` brings packets of a graph input to a port. `out PORT MOST` brings packets of the outputs to a port of
//!   the collector. Both answer how many packets came, and whether the bound after them rose.
//! - `work` claims a work and performs it. `leave` claims a work and commits it as unrun. `shelve` claims a work and puts it back as
//!   it is. Each answers the work's number and its phase, or why there is none.
//! - `commit NUMBER` commits the performed work of this number. It answers how many sets or calls were laid.
//! - `advance` raises the outputs. It answers whether one moved.
//! - `take` takes a set of the collector. It answers each packet as its number, `@` and its timestamp.
//! - `laid` answers how many sets or calls were laid. `output NUMBER` answers how many packets an output has, and its bound. `held`
//!   answers how many wait at all ports and all outputs. `fault` answers the node's fault.
ghost use Rattle.mg_route.specs.TableLaws.{table_laws};
ghost use Rattle.std.specs.Prelude.{IfOk, OnOk};
ghost use Rattle.mg_test_cells.specs.Cell.{IsCell};

use crate::cell::{Cell, gives_back};
use crate::shown::{show_delivered, show_fault};
use crate::sink::take_out;
use crate::streams::{deliver, deliver_out};
use crate::works::{advance, commit, commit_unrun, shelve_unrun, work};
use mg_tables::{show_set_at, text_of};
use std::alloc::Global;
use std::test::Fail;

// Shows how many packets an output has, and its bound.
fn show_output(alloc: Global, cell: &Cell, output: u32) -> Result<String, Fail> {
    if output >= cell.engine.outputs() {
        return Err(Fail::from("no such output"));
    }
    let bound = text_of(alloc, cell.engine.bound(output))?;
    let count = cell.engine.count(output);
    Ok(format!(in alloc; "{count} {}", bound.as_str())?)
}

// Makes a call that changes nothing (`laid`, `fault`, `output` or `held`), and returns its answer.
fn asked(alloc: Global, cell: &Cell, name: &str, words: &str) -> Result<String, Fail> {
    match name {
        "laid" => Ok(format!(in alloc; "{}", cell.engine.laid())?),
        "fault" => show_fault(alloc, cell.engine.fault()),
        "output" => show_output(alloc, cell, words.parse::<u32>()?),
        "held" => Ok(format!(in alloc; "{} {}", cell.intake.held(), cell.engine.held())?),
        _ => Err(Fail::from("no such call")),
    }
}

// Makes a call of `deliver`, or of `out`, and returns its answer.
fn delivered(alloc: Global, cell: &mut Cell, out: bool, words: &str) -> Result<String, Fail>
    requires { IsCell table_laws cell.old.plan cell.old.inputs cell.old.engine cell.old.intake cell.old.sink }
    ensures { OnOk result (IsCell table_laws cell.new.plan cell.new.inputs cell.new.engine cell.new.intake cell.new.sink) }
{
    let (port, most) = words.split_once(' ').ok_or("no number of packets")?;
    let port = port.parse::<u32>()?;
    let most = most.parse::<u32>()?;
    let delivered = if out {
        deliver_out(cell, port, most)?
    } else {
        deliver(alloc, cell, port, most)?
    };
    show_delivered(alloc, delivered)
}

// Makes a call of `commit`, and returns its answer.
fn committed(alloc: Global, cell: &mut Cell, words: &str) -> Result<String, Fail>
    requires { IsCell table_laws cell.old.plan cell.old.inputs cell.old.engine cell.old.intake cell.old.sink }
    ensures { OnOk result (IsCell table_laws cell.new.plan cell.new.inputs cell.new.engine cell.new.intake cell.new.sink) }
{
    match commit(cell, words.parse::<u64>()?)? {
        Some(laid) => Ok(format!(in alloc; "{laid}")?),
        None => Ok(String::from_str(alloc, "no such work")?),
    }
}

// Makes a call of `take`, and returns its answer.
fn taken(alloc: Global, cell: &mut Cell) -> Result<String, Fail>
    requires { IsCell table_laws cell.old.plan cell.old.inputs cell.old.engine cell.old.intake cell.old.sink }
    ensures { OnOk result (IsCell table_laws cell.new.plan cell.new.inputs cell.new.engine cell.new.intake cell.new.sink) }
{
    match take_out(alloc, cell)? {
        Some(set) => show_set_at(alloc, &set),
        None => Ok(String::from_str(alloc, "nothing")?),
    }
}

// Makes the call of a row, and returns its answer.
fn answer(alloc: Global, cell: &mut Cell, call: &str) -> Result<String, Fail>
    requires { IsCell table_laws cell.old.plan cell.old.inputs cell.old.engine cell.old.intake cell.old.sink }
    ensures { OnOk result (IsCell table_laws cell.new.plan cell.new.inputs cell.new.engine cell.new.intake cell.new.sink) }
{
    let (name, words) = call.split_once(' ').unwrap_or((call, ""));
    match name {
        "deliver" => delivered(alloc, cell, false, words),
        "out" => delivered(alloc, cell, true, words),
        "work" => work(alloc, cell),
        "leave" => commit_unrun(alloc, cell),
        "shelve" => shelve_unrun(alloc, cell),
        "commit" => committed(alloc, cell, words),
        "take" => taken(alloc, cell),
        "advance" => Ok(format!(in alloc; "{}", advance(cell))?),
        _ => asked(alloc, cell, name, words),
    }
}

// Makes the call of each row, and compares its answer with the answer that the row wants.
fn answered(alloc: Global, cell: &mut Cell, rows: &str) -> Result<(), Fail>
    requires { IsCell table_laws cell.old.plan cell.old.inputs cell.old.engine cell.old.intake cell.old.sink }
    ensures { OnOk result (IsCell table_laws cell.new.plan cell.new.inputs cell.new.engine cell.new.intake cell.new.sink) }
{
    for row in rows.split('\n') {
        let (call, wanted) = row.split_once('=').ok_or("no `=`")?;
        let answer = answer(alloc, cell, call)?;
        if answer.as_str() != wanted {
            return Err(Fail::new(format_args!("{row}: {answer}")));
        }
    }
    Ok(())
}

/// Makes the call of each row, and returns the cell if each answered what the row wants. It takes no handle, so that any thread may run it.
pub(crate) fn called(alloc: Global, cell: Cell, rows: &str) -> Result<Cell, Fail>
    requires { IsCell table_laws cell.plan cell.inputs cell.engine cell.intake cell.sink }
    ensures { IfOk result (λ c. IsCell table_laws c.plan c.inputs c.engine c.intake c.sink) }
{
    let mut cell = cell;
    match answered(alloc, &mut cell, rows) {
        Ok(()) => Ok(cell),
        Err(fail) => {
            drop(cell);
            Err(fail)
        }
    }
}

/// Makes the call of each row, and checks the answers. At last a user-supplied calculator has to come back, or none, as `gives_one` says.
pub(crate) fn expect_rows(
    alloc: Global,
    cell: Cell,
    rows: &str,
    gives_one: bool,
) -> Result<(), Fail>
    requires { IsCell table_laws cell.plan cell.inputs cell.engine cell.intake cell.sink }
{
    let cell = called(alloc, cell, rows)?;
    if gives_back(cell) == gives_one {
        return Ok(());
    }
    Err(Fail::from("a calculator is lost, or came of nothing"))
}
