//! Shapes of calculators that have one output.

ghost use Rattle.std.specs.Prelude.{◌≡◌, [], IfOk};
ghost use Rattle.mg_calc.specs.Shape.{untagged};

use mg_calc::{PortKind, PortKindList, Shape};
use mg_value::{Kind, MgText};
use std::alloc::Global;
use std::test::Fail;

/// Returns a list of one untagged port of a kind.
pub fn port(alloc: Global, kind: Kind) -> Result<PortKindList, Fail>
    ensures { IfOk result (λ ports. ports ≡ untagged 1 kind) }
{
    let tag = MgText::new(alloc, "")?;
    let port = PortKind {
        tag,
        index: 0,
        kind,
    };
    Ok(PortKindList::from_vec(vec![in alloc; port]?)?)
}

// Returns the empty list of ports.
fn no_ports(alloc: Global) -> Result<PortKindList, Fail>
    ensures { IfOk result (λ ports. ports ≡ []) }
{
    Ok(PortKindList::from_vec(Vec::new(alloc))?)
}

/// Returns the shape of a calculator with these inputs, one untagged output of a kind, and no side packets.
pub fn shape_of(
    alloc: Global,
    name: &str,
    inputs: PortKindList,
    output: Kind,
    offset: Option<i64>,
    stateless: bool,
) -> Result<Shape, Fail>
    ensures name { IfOk result (λ shape. shape.name ≡ name.now) }
    ensures inputs { IfOk result (λ shape. shape.inputs ≡ inputs) }
    ensures outputs { IfOk result (λ shape. shape.outputs ≡ untagged 1 output) }
    ensures sides { IfOk result (λ shape. shape.sides ≡ []) }
    ensures offset { IfOk result (λ shape. shape.offset ≡ offset) }
    ensures stateless { IfOk result (λ shape. shape.stateless ≡ stateless) }
{
    let outputs = port(alloc, output)?;
    let sides = no_ports(alloc)?;
    let name = MgText::new(alloc, name)?;
    Ok(Shape {
        name,
        inputs,
        outputs,
        sides,
        offset,
        stateless,
    })
}
