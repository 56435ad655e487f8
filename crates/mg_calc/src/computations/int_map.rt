//! IntMapCalculator: an operation on each number and an operand.
ghost use Rattle.std.specs.Prelude.{◌≡◌, map};
ghost use Rattle.std.specs.Str.{bytes_eq};
ghost use Rattle.mg_calc.specs.Row.{IsGiven, names_of, said};
ghost use Rattle.mg_calc.specs.Computations.IntMap as its;

use crate::setting::{is, number_at, word_at};
use crate::{
    CalcFault, Emission, Formula, Setting, State, Wiring, narrowed, number_of_packet, one_number,
    stays,
};
use mg_settled::InputSet;
use mg_time::Timestamp;
use mg_value::Kind;
use std::alloc::Global;

/// What a map does with a number and its operand.
#[derive(Clone, Copy, Debug, PartialEq, Eq)]
pub enum MapOp {
    Add,
    Subtract,
    Multiply,
}

pub(super) fn is_named(name: &[u8]) -> bool
    ensures { result ≡ bytes_eq name.now its.told.name }
{
    is(name, b"IntMapCalculator")
}

pub(super) fn options() -> &'static [&'static str]
    ensures { names_of result.now ≡ its.told.options }
{
    &["op", "operand"]
}

pub(super) fn wiring() -> Wiring
    ensures { result ≡ its.told.wiring }
{
    Wiring {
        many: false,
        takes: Kind::Int,
        gives: Kind::Int,
    }
}

fn operation_named(name: &[u8]) -> Option<MapOp>
    ensures { result ≡ its.operation_named name.now }
{
    if is(name, b"ADD") {
        Some(MapOp::Add)
    } else if is(name, b"SUBTRACT") {
        Some(MapOp::Subtract)
    } else if is(name, b"MULTIPLY") {
        Some(MapOp::Multiply)
    } else {
        None
    }
}

pub(super) fn formula(settings: &[Setting]) -> Option<Formula>
    ensures { result ≡ its.told.formula (map said settings.now) }
{
    let op = operation_named(word_at(settings, 0)?)?;
    let operand = number_at(settings, 1)?;
    Some(Formula::Map { op, operand })
}

fn mapped(op: MapOp, operand: i64, number: i64) -> i128
    ensures { result ≡ its.mapped op operand number }
{
    match op {
        MapOp::Add => i128::from(number) + i128::from(operand),
        MapOp::Subtract => i128::from(number) - i128::from(operand),
        MapOp::Multiply => i128::from(number) * i128::from(operand),
    }
}

#[tactic(auto, unfolding(crate::specs::Row::IsGiven))]
pub(super) fn map(
    alloc: Global,
    op: MapOp,
    operand: i64,
    state: &State,
    at: Timestamp,
    set: &InputSet,
) -> Result<(State, Emission), CalcFault>
    ensures { IsGiven result (its.map op operand) state.now at set.now }
{
    let Some(packet) = set.get(0) else {
        return stays(alloc, state);
    };
    let number = narrowed(mapped(op, operand, number_of_packet(packet)))?;
    let kept = state.try_clone(alloc)?;
    Ok((kept, one_number(alloc, at, number)?))
}
