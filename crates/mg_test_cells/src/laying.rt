//! What a calculator emits is laid as a whole, or not at all if one of its packets can't be laid.
use crate::cell::{Given, cell_of};
use crate::rows::expect_rows;
use crate::scripted::one_scripted;
use std::alloc::Global;
use std::test::Fail;

// Returns a graph of one node that emits what a scripted calculator says, over one packet at 5.
fn scripted_graph() -> Given {
    Given {
        graph: r#"input_stream: "in" output_stream: "out"
node { calculator: "Scripted" input_stream: "in" output_stream: "out" }"#,
        lines: r#"{"stream":"in","ts":5,"value":70}"#,
        ended: true,
    }
}

// Rows of what a set at 5 emits at an offset of 0, and after `=` why that can't be laid.
fn refused() -> &'static str {
    "2@5 3@Done=NotAllowed
2@5 3@OneOverPostStream=NotAllowed
2@5 3@4=BelowOffset
3@PreStream=BelowOffset
2@5 3@5=NotAscending
2@6 3@5=NotAscending
2@5 3@PostStream=NotAlone"
}

// Checks a row of `refused`: the set's emission can't be laid, for this cause. The calculator comes back at the end.
fn expect_refused(alloc: Global, row: &str) -> Result<(), Fail> {
    let (step, cause) = row.split_once('=').ok_or("no `=`")?;
    let rows = format!(in alloc;
        "deliver 0 10=1 true\nwork=0 at 5\ncommit 0=1\nfault=at 5 {cause}\noutput 0=0 5\nlaid=1\nwork=Ended"
    )?;
    let outers = one_scripted(alloc, step)?;
    let cell = cell_of(alloc, scripted_graph(), outers.as_slice());
    drop(outers);
    expect_rows(alloc, cell?, rows.as_str(), true)
}

#[test]
fn emissions_are_refused(rt: HostRuntime) -> Result<(), Fail> {
    for row in refused().split('\n') {
        expect_refused(rt.alloc(), row)?;
    }
    Ok(())
}
