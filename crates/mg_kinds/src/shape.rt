ghost use Rattle.std.specs.Prelude.{◌≡◌, IfOk};
ghost use Rattle.mg_kinds.specs.Kinds as laws;

use crate::ports::Ports;
use mg_calc::{Law, Shape, is_stateless, offset_of};
use mg_value::MgText;
use std::alloc::{AllocError, Global};

/// Returns the shape that a calculator of a law has at a node with these ports (MediaPipe, Calculators: the contract of a
/// calculator).
pub fn shape_of(alloc: Global, name: &MgText, ports: Ports, law: &Law) -> Result<Shape, AllocError>
    ensures { IfOk result (λ made. made ≡ laws.shape_with name.now ports law.now) }
{
    let Ports {
        inputs,
        outputs,
        sides,
    } = ports;
    Ok(Shape {
        name: name.try_clone(alloc)?,
        inputs,
        outputs,
        sides,
        offset: offset_of(law),
        stateless: is_stateless(law),
    })
}
