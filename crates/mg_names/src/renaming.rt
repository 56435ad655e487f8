//! Copies of ports, and ports under other names.
ghost use Rattle.std.specs.Prelude.{◌≡◌, IfOk};
ghost use Rattle.mg_names.specs.Renaming as renaming;

use crate::port::Port;
use mg_value::{BlockList, MgText};
use std::alloc::{AllocError, Global};

fn copy_of(alloc: Global, port: &Port) -> Result<Port, AllocError>
    ensures { IfOk result (λ copy. copy ≡ port.now) }
{
    Ok(Port {
        tag: port.tag.try_clone(alloc)?,
        index: port.index,
        name: port.name.try_clone(alloc)?,
    })
}

/// Returns copies of ports, in order.
pub(crate) fn copies_of(alloc: Global, ports: &[Port]) -> Result<Vec<Port>, AllocError>
    ensures { IfOk result (λ copies. copies.items ≡ ports.now) }
{
    let mut copies = Vec::new(alloc);
    for port in ports {
        copies.push(copy_of(alloc, port)?)?;
    }
    Ok(copies)
}

/// Gives ports these names instead of their own, in order. Ports past the last name keep theirs.
#[tactic(auto, using(crate::proofs::Renamed::named_here, crate::proofs::Renamed::named_past, crate::proofs::Renamed::no_names))]
fn name_all(ports: &mut [Port], names: Vec<MgText>)
    ensures { ports.new ≡ renaming.with_names ports.old names.items }
{
    let mut i = 0;
    for name in names {
        if i < ports.len() {
            let port = &mut ports[i];
            port.name = name;
            i += 1;
        }
    }
}

/// Returns the ports with these names instead of their own, in order. Ports past the last name keep theirs.
pub(crate) fn named(ports: BlockList<Port>, names: Vec<MgText>) -> BlockList<Port>
    ensures { result ≡ renaming.with_names ports names.items }
{
    let mut ports = ports.into_vec();
    name_all(&mut ports, names);
    BlockList::from_vec(ports).unwrap()
}
