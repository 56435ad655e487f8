ghost use Rattle.std.specs.Prelude.{◌≡◌, ◌≤◌, [], ◌∷◌, ◌++◌, IfOk, OnOk};
ghost use Rattle.mg_names.specs.Grammar.{index_count};
ghost use Rattle.mg_kinds.specs.Ports as ports;
ghost use Rattle.mg_calc.specs.Shape as shape;
ghost use Rattle.mg_kinds.specs.Tags.{tag_text};

use crate::tag::Tag;
use mg_calc::{PortKind, PortKindList};
use mg_value::{BlockList, Kind, MgText};
use std::alloc::{AllocError, Global};

/// A port of index 0 that comes before or after the other ports of a row and has another tag.
#[derive(Clone, Copy, Debug, PartialEq, Eq)]
pub struct EndPort {
    pub tag: Tag,
    pub kind: Kind,
}

/// The ports of a calculator of one sort, such as its inputs: `count` of a tag, and perhaps a first and a last one of other tags.
#[derive(Clone, Copy, Debug, PartialEq, Eq)]
pub struct Row {
    pub tag: Tag,
    pub kind: Kind,
    pub count: u32,
    pub first: Option<EndPort>,
    pub last: Option<EndPort>,
}

fn put_port(
    alloc: Global,
    out: &mut Vec<PortKind>,
    tag: Tag,
    kind: Kind,
    index: u8,
) -> Result<(), AllocError>
    ensures { OnOk result (out.new.items ≡ out.old.items ++ ports.port (tag_text tag) kind index ∷ []) }
{
    let tag = MgText::new(alloc, tag.text())?;
    out.push(PortKind { tag, index, kind })?;
    Ok(())
}

#[tactic(auto, using(crate::proofs::PortLists::one_more_port))]
fn put_ports(
    alloc: Global,
    out: &mut Vec<PortKind>,
    tag: Tag,
    kind: Kind,
    count: u32,
) -> Result<(), AllocError>
    requires { count ≤ index_count }
    ensures { OnOk result (out.new.items ≡ out.old.items ++ shape.ports (tag_text tag) count kind) }
{
    for index in 0..count {
        put_port(alloc, out, tag, kind, index as u8)?;
    }
    Ok(())
}

fn put_end(alloc: Global, out: &mut Vec<PortKind>, end: Option<EndPort>) -> Result<(), AllocError>
    ensures { OnOk result (out.new.items ≡ out.old.items ++ ports.end_port end) }
{
    if let Some(end) = end {
        put_port(alloc, out, end.tag, end.kind, 0)?;
    }
    Ok(())
}

/// Returns the ports of a row, in order.
pub fn ports_in(alloc: Global, row: Row) -> Result<PortKindList, AllocError>
    requires { row.count ≤ index_count }
    ensures { IfOk result (λ list. list ≡ ports.ports_in row) }
{
    let mut out = Vec::new(alloc);
    put_end(alloc, &mut out, row.first)?;
    put_ports(alloc, &mut out, row.tag, row.kind, row.count)?;
    put_end(alloc, &mut out, row.last)?;
    Ok(BlockList::from_vec(out)?)
}
