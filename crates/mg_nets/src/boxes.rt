//! The user-supplied calculators of the tests.
ghost use Rattle.std.specs.Prelude.{◌≡◌, IfOk};
ghost use Rattle.mg_nets.specs.Handed.{tally_shape, tally_outer, new_tally, two_outers, two_tallies};

use mg_calc::{Law, OuterShape, Shape};
use mg_plans::{port, shape_of};
use mg_route::LawBox;
use mg_value::Kind;
use std::alloc::Global;
use std::test::Fail;

fn shape(alloc: Global) -> Result<Shape, Fail>
    ensures { IfOk result (λ shape. shape ≡ tally_shape) }
{
    let inputs = port(alloc, Kind::Any)?;
    let shape = shape_of(alloc, "TallyCalculator", inputs, Kind::Int, Some(0), false)?;
    Ok(shape)
}

fn outer(alloc: Global) -> Result<OuterShape, Fail>
    ensures { IfOk result (λ outer. outer ≡ tally_outer) }
{
    Ok(OuterShape {
        shape: shape(alloc)?,
        law: Law::Tally,
    })
}

fn tally(alloc: Global) -> Result<LawBox, Fail>
    ensures { IfOk result (λ tally. tally ≡ new_tally) }
{
    Ok(LawBox::new(alloc, outer(alloc)?, true)?)
}

/// Returns what is known of the two calculators: the shape and the law of each.
pub(crate) fn outers(alloc: Global) -> Result<Vec<OuterShape>, Fail>
    ensures { IfOk result (λ outers. outers.items ≡ two_outers) }
{
    let first = outer(alloc)?;
    let second = outer(alloc)?;
    Ok(vec![in alloc; first, second]?)
}

/// Returns two calculators that count the sets that they are shown, and keep a log of their calls.
pub(crate) fn tallies(alloc: Global) -> Result<Vec<LawBox>, Fail>
    ensures { IfOk result (λ tallies. tallies.items ≡ two_tallies) }
{
    let first = tally(alloc)?;
    let second = tally(alloc)?;
    Ok(vec![in alloc; first, second]?)
}
