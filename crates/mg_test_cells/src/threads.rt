//! Cells that go to other threads and come back. Works that were begun here go on there, and the other way round.
ghost use Rattle.mg_route.specs.TableLaws.{table_laws};
ghost use Rattle.std.specs.Prelude.{IfOk};
ghost use Rattle.mg_test_cells.specs.Cell.{IsCell};

use crate::cell::{Cell, Given, own_cell};
use crate::rows::{called, expect_rows};
use crate::windows::map;
use std::alloc::Global;
use std::test::Fail;
use std::thread::{Threads, join};

// Returns a graph that adds ten to each number, with up to four works at a time, over three packets.
fn adding() -> Given {
    Given {
        graph: map(),
        lines: r#"{"stream":"in","ts":1,"value":5}
{"stream":"in","ts":2,"value":6}
{"stream":"in","ts":3,"value":7}"#,
        ended: false,
    }
}

// Makes the calls of some rows in another thread. The cell goes to that thread, and comes back from it.
fn called_there<R: Threads>(
    rt: &R,
    alloc: Global,
    cell: Cell,
    rows: &'static str,
) -> Result<Cell, Fail>
    requires { IsCell table_laws cell.plan cell.inputs cell.engine cell.intake cell.sink }
    ensures { IfOk result (λ c. IsCell table_laws c.plan c.inputs c.engine c.intake c.sink) }
{
    let (cell, ()) = join(
        rt,
        move || -> Result<Cell, Fail>
            requires { IsCell table_laws cell.plan cell.inputs cell.engine cell.intake cell.sink }
            ensures { IfOk result (λ c. IsCell table_laws c.plan c.inputs c.engine c.intake c.sink) }
        { called(alloc, cell, rows) },
        || (),
    );
    cell
}

// Rows in which the packets come, and the first set is performed.
fn begun() -> &'static str {
    "deliver 0 10=3 false
work=0 at 1
output 0=0 PreStream"
}

// Rows that go on: the first set is laid, the second is performed, and the third is claimed and stands in the window unrun.
fn goes_on() -> &'static str {
    "commit 0=1
work=1 at 2
shelve=2 at 3
output 0=1 2"
}

// Rows for the end: the third set is handed out again, and all are laid in order.
fn ends() -> &'static str {
    "work=2 at 3
commit 2=0
commit 1=2
work=NotReady
out 0 10=3 false
take=15@1
take=16@2
take=17@3
take=nothing"
}

#[test]
fn an_engine_goes_on_in_another_thread(rt: HostRuntime) -> Result<(), Fail> {
    let cell = own_cell(rt.alloc(), adding())?;
    let cell = called(rt.alloc(), cell, begun())?;
    let cell = called_there(&rt, rt.alloc(), cell, goes_on())?;
    expect_rows(rt.alloc(), cell, ends(), false)
}

#[test]
fn an_engine_from_another_thread_goes_on_here(rt: HostRuntime) -> Result<(), Fail> {
    let cell = own_cell(rt.alloc(), adding())?;
    let cell = called_there(&rt, rt.alloc(), cell, begun())?;
    let cell = called(rt.alloc(), cell, goes_on())?;
    let cell = called_there(&rt, rt.alloc(), cell, ends())?;
    expect_rows(rt.alloc(), cell, "laid=3", false)
}
