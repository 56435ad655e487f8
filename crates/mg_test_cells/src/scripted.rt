//! Calculators whose emissions are written down.
ghost use Rattle.std.specs.Prelude.{◌≡◌, length, All, IfOk};
ghost use Rattle.mg_check.specs.Check.{IsOuterShape};

use mg_calc::{Emission, Laid, LaidPackets, Law, OuterShape, one_output};
use mg_plans::{port, shape_of};
use mg_tables::packet_at;
use mg_value::{BlockList, Kind};
use std::alloc::Global;
use std::test::Fail;

// Reads packets, which are written as numbers, `@` and timestamps with blanks between them. `-` stands for no packets.
fn packets_of(alloc: Global, text: &str) -> Result<LaidPackets, Fail> {
    let mut packets = Vec::new(alloc);
    if text != "-" {
        for packet in text.split(' ') {
            packets.push(packet_at(alloc, packet)?)?;
        }
    }
    Ok(LaidPackets::from_vec(packets)?)
}

// Reads an emission at one output, which is written as its packets.
fn emission_of(alloc: Global, text: &str) -> Result<Emission, Fail>
    ensures { IfOk result (λ e. length e ≡ 1) }
{
    let packets = packets_of(alloc, text)?;
    Ok(one_output(Laid {
        packets,
        bound: None,
    }))
}

// Returns a calculator with one output, whose emissions are written down: in Open, at its first set, and in Close.
fn scripted(
    alloc: Global,
    offset: Option<i64>,
    first: &str,
    step: &str,
    last: &str,
) -> Result<OuterShape, Fail>
    ensures { IfOk result IsOuterShape }
{
    let inputs = port(alloc, Kind::Any)?;
    let shape = shape_of(alloc, "Scripted", inputs, Kind::Any, offset, false)?;
    let first = emission_of(alloc, first)?;
    let step = emission_of(alloc, step)?;
    let last = emission_of(alloc, last)?;
    let steps = BlockList::from_vec(vec![in alloc; step]?)?;
    let law = Law::Scripted {
        offset,
        first,
        steps,
        last,
    };
    Ok(OuterShape { shape, law })
}

/// Returns the user-supplied calculators: one with offset 0 that emits this at its first set, and else nothing.
pub(crate) fn one_scripted(alloc: Global, step: &str) -> Result<Vec<OuterShape>, Fail>
    ensures { IfOk result (λ outers. All IsOuterShape outers.items) }
{
    let outer = scripted(alloc, Some(0), "-", step, "-")?;
    Ok(vec![in alloc; outer]?)
}
