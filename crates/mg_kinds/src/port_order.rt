ghost use Rattle.std.specs.Prelude.{◌≡◌, ◌≤◌, [], ◌∷◌, IfOk, length};
ghost use Rattle.mg_kinds.specs.PortOrder as order;

use mg_calc::{PortKind, PortKindList};
use mg_names::{Port, PortMap};
use mg_value::{BlockList, Kind, MgText};
use std::alloc::{AllocError, Global};
use std::collections::BTreeMap;

/// Returns the ports of a node by tag, in byte order and the empty tag first, and then by index. Each takes any payload.
pub fn in_order(alloc: Global, ports: &PortMap) -> Result<PortKindList, AllocError>
    ensures { IfOk result (λ list. list ≡ order.in_order ports.now) }
{
    if ports.len() > 1 {
        by_tree(alloc, ports)
    } else {
        alone(alloc, ports)
    }
}

// Returns the order of at most one port, which needs no tree.
fn alone(alloc: Global, ports: &PortMap) -> Result<PortKindList, AllocError>
    requires { length ports.now ≤ 1 }
    ensures { IfOk result (λ list. list ≡ order.in_order ports.now) }
{
    match ports.get(0) {
        Some(port) => one_port(alloc, port),
        None => no_ports(alloc),
    }
}

fn no_ports(alloc: Global) -> Result<PortKindList, AllocError>
    ensures { IfOk result (λ list. list ≡ []) }
{
    Ok(BlockList::from_vec(Vec::new(alloc))?)
}

fn one_port(alloc: Global, port: &Port) -> Result<PortKindList, AllocError>
    ensures { IfOk result (λ list. list ≡ order.any_port port.now ∷ []) }
{
    let tag = port.tag.try_clone(alloc)?;
    let mut out = Vec::new(alloc);
    out.push(PortKind {
        tag,
        index: port.index,
        kind: Kind::Any,
    })?;
    Ok(BlockList::from_vec(out)?)
}

// Returns the order of ports by a tree in which they are put.
fn by_tree(alloc: Global, ports: &PortMap) -> Result<PortKindList, AllocError>
    ensures { IfOk result (λ list. list ≡ order.in_order ports.now) }
{
    let mut sorted = BTreeMap::new(alloc);
    for i in 0..ports.len() {
        let Some(port) = ports.get(i) else {
            unreachable!()
        };
        sorted.insert((port.tag.as_str(), port.index), ())?;
    }
    let mut out = Vec::new(alloc);
    for (key, _) in &sorted {
        let tag = MgText::new(alloc, key.0)?;
        out.push(PortKind {
            tag,
            index: key.1,
            kind: Kind::Any,
        })?;
    }
    Ok(BlockList::from_vec(out)?)
}
