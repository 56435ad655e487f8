//! The calculators of loops over lists, as boxes by their laws. The programs supply them beside other boxes of that form.
ghost use Rattle.std.specs.Prelude.{◌≡◌, ◌≤◌, IfOk};
ghost use Rattle.mg_batch.specs.Loops.{new_begin, new_end, clones_of as the_clones_of};

use mg_batch::{begin_loop_box, end_loop_box};
use mg_calc::{Calculator, Law, OuterShape, TryClone};
use mg_route::LawBox;
use std::alloc::{AllocError, Global};

/// Returns a BeginLoopCalculator, or a BeginLoopCloneCalculator if `clone` is set. With `telling` it keeps a log of its calls.
pub fn begin_loop(alloc: Global, clone: bool, telling: bool) -> Result<LawBox, AllocError>
    ensures { IfOk result (λ b. b ≡ new_begin clone telling) }
{
    let begin = begin_loop_box(alloc, clone, false)?;
    let outer = OuterShape {
        shape: begin.shape().try_clone(alloc)?,
        law: Law::BeginLoop {
            clones: clones_of(clone),
            always_end: false,
        },
    };
    LawBox::new(alloc, outer, telling)
}

/// Returns an EndLoopCalculator. With `telling` it keeps a log of its calls.
pub fn end_loop(alloc: Global, telling: bool) -> Result<LawBox, AllocError>
    ensures { IfOk result (λ b. b ≡ new_end telling) }
{
    let end = end_loop_box(alloc, false)?;
    let outer = OuterShape {
        shape: end.shape().try_clone(alloc)?,
        law: Law::EndLoop {
            empty_as_bound: false,
        },
    };
    LawBox::new(alloc, outer, telling)
}

// Returns how many ports CLONE a BeginLoop has: one, or none.
fn clones_of(clone: bool) -> u32
    ensures value { result ≡ the_clones_of clone }
    ensures most { result ≤ 64 }
{
    if clone { 1 } else { 0 }
}
