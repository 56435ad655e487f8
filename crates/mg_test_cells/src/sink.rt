//! What comes out of a cell: the sets of the collector.
ghost use Rattle.mg_route.specs.TableLaws.{table_laws};
ghost use Rattle.std.specs.Prelude.{OnOk};
ghost use Rattle.mg_test_cells.specs.Cell.{IsCell};

use crate::cell::Cell;
use mg_settled::InputSet;
use std::alloc::Global;
use std::test::Fail;

/// Takes the next set of the collector, if there is one.
pub(crate) fn take_out(alloc: Global, cell: &mut Cell) -> Result<Option<InputSet>, Fail>
    requires { IsCell table_laws cell.old.plan cell.old.inputs cell.old.engine cell.old.intake cell.old.sink }
    ensures { OnOk result (IsCell table_laws cell.new.plan cell.new.inputs cell.new.engine cell.new.intake cell.new.sink) }
{
    let mut set = InputSet::new(alloc, cell.sink.ports())?;
    if cell.sink.claim(&mut set) {
        return Ok(Some(set));
    }
    Ok(None)
}
