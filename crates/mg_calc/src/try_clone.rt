ghost use Rattle.std.specs.Prelude.{◌≡◌, IfOk};

use crate::{Laid, PortKind, Shape};
use mg_value::{BlockList, MgText, Packet};
use std::alloc::{AllocError, Global};

/// Values that can be copied if memory suffices. The payloads of packets are shared.
pub trait TryClone: Drop {
    /// Returns a copy.
    fn try_clone(&self, alloc: Global) -> Result<Self, AllocError>
        ensures { IfOk result (λ copy. copy ≡ self.now) };
}

impl TryClone for Packet {
    fn try_clone(&self, _alloc: Global) -> Result<Packet, AllocError> {
        Packet::try_clone(self)
    }
}

/// Returns copies of the entries, in order.
pub(crate) fn copies<T: TryClone>(alloc: Global, entries: &[T]) -> Result<Vec<T>, AllocError>
    ensures { IfOk result (λ copies. copies.items ≡ entries.now) }
{
    let mut copies = Vec::with_capacity(alloc, entries.len())?;
    for entry in entries {
        copies.push(entry.try_clone(alloc)?)?;
    }
    Ok(copies)
}

impl<T: TryClone> TryClone for BlockList<T> {
    fn try_clone(&self, alloc: Global) -> Result<BlockList<T>, AllocError> {
        Ok(BlockList::from_vec(copies(alloc, self.as_slice())?)?)
    }
}

impl TryClone for Laid {
    fn try_clone(&self, alloc: Global) -> Result<Laid, AllocError> {
        let packets = self.packets.try_clone(alloc)?;
        Ok(Laid {
            packets,
            bound: self.bound,
        })
    }
}

impl TryClone for PortKind {
    fn try_clone(&self, alloc: Global) -> Result<PortKind, AllocError> {
        let tag = self.tag.try_clone(alloc)?;
        Ok(PortKind {
            tag,
            index: self.index,
            kind: self.kind,
        })
    }
}

impl TryClone for Shape {
    fn try_clone(&self, alloc: Global) -> Result<Shape, AllocError> {
        let name = self.name.try_clone(alloc)?;
        let inputs = self.inputs.try_clone(alloc)?;
        let outputs = self.outputs.try_clone(alloc)?;
        let sides = self.sides.try_clone(alloc)?;
        Ok(Shape {
            name,
            inputs,
            outputs,
            sides,
            offset: self.offset,
            stateless: self.stateless,
        })
    }
}
