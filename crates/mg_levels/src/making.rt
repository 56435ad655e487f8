//! How levels are made.
ghost use Rattle.std.specs.Prelude.{◌+◌, ◌<◌, ◌≤◌, ◌^◌, ◌/◌, IfOk};
ghost use Rattle.mg_levels.specs.Code.Making.{AreMade, MakesLevel};

use crate::hand::{Hand, first_hand};
use crate::level::Queue;
use std::alloc::{AllocError, Global};

// How many places a level has.
pub(crate) const BUCKET: u32 = 32;

/// The queues of an order of nodes, the hands of the first seat, and how many entries there is room for.
#[derive(Drop)]
pub(crate) struct Made {
    pub queues: Vec<Queue>,
    pub hands: Vec<Hand>,
    pub room: usize,
}

// Makes a level for so many nodes, after the other levels.
fn make_level(alloc: Global, made: &mut Made, nodes: u32) -> Result<(), AllocError>
    requires nodes { (0 < nodes) × (nodes ≤ 32) }
    requires room { made.old.room < 2 ^ 40 }
    ensures { IfOk result (λ _. MakesLevel nodes made.old made.new) }
{
    let size = nodes as usize * 4;
    let (queue, pass) = Queue::ruled(alloc, size)?;
    made.hands.push(first_hand(pass))?;
    made.queues.push(queue)?;
    made.room += size;
    Ok(())
}

/// Makes all levels of an order of so many nodes.
pub(crate) fn make_levels(alloc: Global, nodes: u32) -> Result<Made, AllocError>
    ensures { IfOk result (λ m. AreMade nodes ((nodes + 31) / 32) m) }
{
    let mut made = Made {
        queues: Vec::new(alloc),
        hands: Vec::new(alloc),
        room: 0,
    };
    for level in 0..nodes.div_ceil(BUCKET) {
        make_level(alloc, &mut made, (nodes - BUCKET * level).min(BUCKET))?;
    }
    Ok(made)
}
