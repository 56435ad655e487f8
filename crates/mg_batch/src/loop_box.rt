//! The calculators of loops over lists that the program supplies.
ghost use Rattle.std.specs.Prelude.{◌≡◌, ◌++◌, [], None, true, false, IfOk};
ghost use Rattle.mg_calc.specs.Shape.{tagged};
ghost use Rattle.mg_batch.specs.Loops.{begin_shape, end_shape, new_begin, new_end};

use crate::batch_box::BatchBox;
use mg_calc::{Law, OuterShape, PortKind, PortKindList, Shape};
use mg_value::{Kind, MgText};
use std::alloc::{AllocError, Global};

/// Returns a BeginLoopCalculator, or a BeginLoopCloneCalculator if `clone` is set. If it is telling, it keeps a log of its calls.
pub fn begin_loop_box(alloc: Global, clone: bool, telling: bool) -> Result<BatchBox, AllocError>
    ensures { IfOk result (λ b. b ≡ new_begin clone telling) }
{
    let shape = begin_shape_of(alloc, clone)?;
    let clones = if clone { 1 } else { 0 };
    let law = Law::BeginLoop {
        clones,
        always_end: false,
    };
    BatchBox::new(alloc, OuterShape { shape, law }, telling)
}

/// Returns an EndLoopCalculator. If it is telling, it keeps a log of its calls.
pub fn end_loop_box(alloc: Global, telling: bool) -> Result<BatchBox, AllocError>
    ensures { IfOk result (λ b. b ≡ new_end telling) }
{
    let shape = ending_shape(alloc)?;
    let law = Law::EndLoop {
        empty_as_bound: false,
    };
    BatchBox::new(alloc, OuterShape { shape, law }, telling)
}

fn begin_shape_of(alloc: Global, clone: bool) -> Result<Shape, AllocError>
    ensures { IfOk result (λ shape. shape ≡ begin_shape clone) }
{
    if clone {
        clone_shape(alloc)
    } else {
        plain_shape(alloc)
    }
}

fn plain_shape(alloc: Global) -> Result<Shape, AllocError>
    ensures { IfOk result (λ shape. shape ≡ begin_shape false) }
{
    let inputs = one_port(alloc, "ITERABLE", Kind::Items)?;
    let outputs = two_ports(alloc, "BATCH_END", Kind::Int, "ITEM", Kind::Any)?;
    shape_with(alloc, "BeginLoopCalculator", inputs, outputs)
}

fn clone_shape(alloc: Global) -> Result<Shape, AllocError>
    ensures { IfOk result (λ shape. shape ≡ begin_shape true) }
{
    let inputs = two_ports(alloc, "CLONE", Kind::Any, "ITERABLE", Kind::Items)?;
    let mut outputs = two_ports(alloc, "BATCH_END", Kind::Int, "CLONE", Kind::Any)?;
    outputs.push(port(alloc, "ITEM", Kind::Any)?)?;
    shape_with(alloc, "BeginLoopCloneCalculator", inputs, outputs)
}

fn ending_shape(alloc: Global) -> Result<Shape, AllocError>
    ensures { IfOk result (λ shape. shape ≡ end_shape) }
{
    let inputs = two_ports(alloc, "BATCH_END", Kind::Int, "ITEM", Kind::Any)?;
    let outputs = one_port(alloc, "ITERABLE", Kind::Items)?;
    shape_with(alloc, "EndLoopCalculator", inputs, outputs)
}

// Returns the shape of a calculator that has no side packets and no offset, and keeps a state.
fn shape_with(
    alloc: Global,
    name: &str,
    inputs: Vec<PortKind>,
    outputs: Vec<PortKind>,
) -> Result<Shape, AllocError>
    ensures { IfOk result (λ shape. shape ≡ record { name = name.now; inputs = inputs.items; outputs = outputs.items; sides = []; offset = None; stateless = false }) }
{
    let name = MgText::new(alloc, name)?;
    let inputs = PortKindList::from_vec(inputs)?;
    let outputs = PortKindList::from_vec(outputs)?;
    let sides = PortKindList::from_vec(Vec::new(alloc))?;
    Ok(Shape {
        name,
        inputs,
        outputs,
        sides,
        offset: None,
        stateless: false,
    })
}

// Returns the only port of a tag.
fn port(alloc: Global, tag: &str, kind: Kind) -> Result<PortKind, AllocError>
    ensures { IfOk result (λ port. port ≡ record { tag = tag.now; index = 0; kind = kind }) }
{
    let tag = MgText::new(alloc, tag)?;
    Ok(PortKind {
        tag,
        index: 0,
        kind,
    })
}

fn one_port(alloc: Global, tag: &str, kind: Kind) -> Result<Vec<PortKind>, AllocError>
    ensures { IfOk result (λ ports. ports.items ≡ tagged tag.now kind) }
{
    Ok(vec![in alloc; port(alloc, tag, kind)?]?)
}

fn two_ports(
    alloc: Global,
    first: &str,
    first_kind: Kind,
    second: &str,
    second_kind: Kind,
) -> Result<Vec<PortKind>, AllocError>
    ensures { IfOk result (λ ports. ports.items ≡ tagged first.now first_kind ++ tagged second.now second_kind) }
{
    let first = port(alloc, first, first_kind)?;
    let second = port(alloc, second, second_kind)?;
    Ok(vec![in alloc; first, second]?)
}
