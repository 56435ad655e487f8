//! Lists of marks, which tell for each number below a count whether it is among some numbers.

ghost use Rattle.std.specs.Prelude.{◌≡◌, ◌<◌, false, All, IfOk, replicate};
ghost use Rattle.mg_check.specs.Code.Taking.{HasMarks};

use std::alloc::{AllocError, Global};

// Returns `count` places without a mark.
fn no_marks(alloc: Global, count: usize) -> Result<Vec<bool>, AllocError>
    ensures { IfOk result (λ v. v.items ≡ replicate count false) }
{
    vec![in alloc; false; count]
}

/// Returns `count` places, marked exactly at the numbers.
pub(crate) fn marks_of(alloc: Global, count: u32, numbers: &[u32]) -> Result<Vec<bool>, AllocError>
    requires { All (λ n. n < count) numbers.now }
    ensures { IfOk result (λ v. HasMarks count numbers.now v.items) }
{
    let mut marks = no_marks(alloc, count as usize)?;
    for number in numbers {
        marks[*number as usize] = true;
    }
    Ok(marks)
}
