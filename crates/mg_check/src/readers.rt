//! The nodes that read what a node writes.

ghost use Rattle.std.specs.Prelude.{◌≡◌, ◌++◌, ◌∷◌, [], All, IfOk, OnOk, replicate};
ghost use Rattle.mg_check.specs.Order.{IsBetween};
ghost use Rattle.mg_check.specs.Code.Taking.{HasReaders};

use crate::ordering::Link;
use std::alloc::{AllocError, Global};
use std::marker::Model;

/// The nodes that read what a node writes, once for each link.
#[derive(Drop)]
pub(crate) struct Readers {
    nodes: Vec<u32>,
}

impl Model for Readers {
    ghost use Rattle.std.specs.Prelude.{List, ℕ};

    ghost Value = { List ℕ };

    ghost view = { λ r. r.nodes.items };
}

impl Readers {
    // Returns no readers.
    fn new(alloc: Global) -> Readers
        ensures { result ≡ [] }
    {
        Readers {
            nodes: Vec::new(alloc),
        }
    }

    // Adds a reader.
    fn add(&mut self, node: u32) -> Result<(), AllocError>
        ensures { OnOk result (self.new ≡ self.old ++ node ∷ []) }
    {
        self.nodes.push(node)?;
        Ok(())
    }

    /// Returns the numbers of the readers.
    pub(crate) fn as_slice(&self) -> &[u32]
        ensures { result.now ≡ self.now }
    {
        self.nodes.as_slice()
    }
}

// Returns `count` nodes without readers.
fn no_readers(alloc: Global, count: u32) -> Result<Vec<Readers>, AllocError>
    ensures { IfOk result (λ v. v.items ≡ replicate count []) }
{
    let mut rows = Vec::new(alloc);
    for _ in 0..count {
        rows.push(Readers::new(alloc))?;
    }
    Ok(rows)
}

/// Returns for each of `count` nodes its readers.
pub(crate) fn readers_of(
    alloc: Global,
    count: u32,
    links: &[Link],
) -> Result<Vec<Readers>, AllocError>
    requires { All (IsBetween count) links.now }
    ensures { IfOk result (λ v. HasReaders count links.now v.items) }
{
    let mut rows = no_readers(alloc, count)?;
    for link in links {
        rows[link.from as usize].add(link.to)?;
    }
    Ok(rows)
}
