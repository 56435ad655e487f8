//! The TallyCalculator, as a box that a caller can supply.
ghost use Rattle.std.specs.Prelude.{◌≡◌, IfOk};
ghost use Rattle.mg_calc.specs.Shape.{untagged};
ghost use Rattle.mg_run.specs.Boxes.{tally_shape, new_tally};

use mg_calc::{Law, OuterShape, PortKind, PortKindList, Shape};
use mg_route::LawBox;
use mg_value::{Kind, MgText};
use std::alloc::{AllocError, Global};

/// Returns a TallyCalculator, which counts the sets that it is shown. With `telling` it keeps a log of its calls.
pub fn tally_box(alloc: Global, telling: bool) -> Result<LawBox, AllocError>
    ensures { IfOk result (λ b. b ≡ new_tally telling) }
{
    let shape = shape_of_tally(alloc)?;
    let outer = OuterShape {
        shape,
        law: Law::Tally,
    };
    LawBox::new(alloc, outer, telling)
}

fn shape_of_tally(alloc: Global) -> Result<Shape, AllocError>
    ensures { IfOk result (λ shape. shape ≡ tally_shape) }
{
    let inputs = one_port(alloc, Kind::Any)?;
    let outputs = one_port(alloc, Kind::Int)?;
    let sides = listed(Vec::new(alloc))?;
    let name = MgText::new(alloc, "TallyCalculator")?;
    Ok(Shape {
        name,
        inputs,
        outputs,
        sides,
        offset: Some(0),
        stateless: false,
    })
}

// Returns a list of one port without a tag.
fn one_port(alloc: Global, kind: Kind) -> Result<PortKindList, AllocError>
    ensures { IfOk result (λ ports. ports ≡ untagged 1 kind) }
{
    let tag = MgText::new(alloc, "")?;
    let port = PortKind {
        tag,
        index: 0,
        kind,
    };
    listed(vec![in alloc; port]?)
}

fn listed(ports: Vec<PortKind>) -> Result<PortKindList, AllocError>
    ensures { IfOk result (λ list. list ≡ ports.items) }
{
    match PortKindList::from_vec(ports) {
        Ok(list) => Ok(list),
        Err(_) => Err(AllocError),
    }
}
