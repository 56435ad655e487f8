//! What is known of the user-supplied calculators before any of them is called.
ghost use Rattle.std.specs.Prelude.{◌≡◌, All, IfOk, map};
ghost use Rattle.mg_check.specs.Check.{IsOuterShape};
ghost use Rattle.mg_run.specs.Boxes.{outer_told, outers_told, MayBeHandedIn};

use mg_calc::{NodeCalculator, OuterShape, TryClone};
use std::alloc::{AllocError, Global};

/// Returns the shape and the law of each user-supplied calculator, in order.
pub fn outers_of<C: NodeCalculator>(
    alloc: Global,
    boxes: &[C],
) -> Result<Vec<OuterShape>, AllocError>
    ensures outers { IfOk result (λ outers. outers.items ≡ outers_told (map C.told boxes.now)) }
    ensures shaped { IfOk result (λ outers. All IsOuterShape outers.items) }
    ensures lawful { IfOk result (λ outers. All MayBeHandedIn outers.items) }
{
    let mut outers = Vec::new(alloc);
    for calculator in boxes {
        outers.push(outer_of(alloc, calculator)?)?;
    }
    Ok(outers)
}

fn outer_of<C: NodeCalculator>(alloc: Global, calculator: &C) -> Result<OuterShape, AllocError>
    ensures outer { IfOk result (λ outer. outer ≡ outer_told (C.told calculator.now)) }
    ensures shaped { IfOk result IsOuterShape }
    ensures lawful { IfOk result MayBeHandedIn }
{
    let shape = calculator.shape().try_clone(alloc)?;
    let law = calculator.law().try_clone(alloc)?;
    Ok(OuterShape { shape, law })
}
