ghost use Rattle.std.specs.Prelude.{◌≡◌, ◌<◌, ◌≤◌, ◌*◌, ◌^◌, IfOk, IfErr, length, map, None};
ghost use Rattle.mg_turns.specs.Parts.{nodes_in};
ghost use Rattle.mg_turns.specs.Code.Ways.{way_of};

mod appending;
mod claiming;
mod committing;
mod turning;
mod waiting;

use crate::memory::{Rooms, all_in, all_out};
use crate::room::Room;
use crate::rule::{Key, Law};
use crate::seat::NetSeat;
use crate::view::View;
use crate::way::{Way, ways_of};
use crate::{Layout, Part};
use atomic_table::{Refused, Table};
use mg_calc::NodeCalculator;
use std::alloc::Global;
use std::snapshot::Snapshot;

/// A net that threads share. Each of its parts has a word, which says whether a seat has the part's turn, and a slot. The words stand
/// eight apart, so that those of two parts are never in one line of a cache.
#[derive(Drop)]
pub struct SharedNet<C: NodeCalculator> {
    pub(crate) table: Table<Option<Part<C>>, View, Key<C>, Law, Global>,
    nodes: u32,
    size: usize,
    ways: Vec<Way>,
    // Room for the parts when they come back.
    room: Room<Part<C>>,
    ghost roomy: { room.table.shared.key ≡ size },
    ghost sized: { (table.shared.table_id.words ≡ 8 * size) × (table.shared.table_id.slots ≡ size) × (size ≤ 2 ^ 32) },
    ghost laid_out: { (nodes_in table.shared.key.value ≡ nodes) × (length table.shared.key.value.parts ≡ size) × (2 * nodes < size) },
    ghost led: { ways.items ≡ map (way_of table.shared.key.value.plan) table.shared.key.value.plan.edges },
}

impl<C: NodeCalculator> SharedNet<C> {
    ghost use Rattle.mg_turns.specs.Rule.{first_view, Ready};
    ghost use Rattle.mg_turns.specs.Ends.{Unshared};
    ghost use Rattle.mg_turns.specs.Calls.{key_of, view_of, IsSeatOf};

    /// How many nodes there are.
    pub fn nodes(&self) -> u32
        ensures { result ≡ nodes_in (key_of self.now) }
    {
        self.nodes
    }

    /// How many edges there are.
    pub fn edges(&self) -> usize
        ensures { result ≡ length (key_of self.now).plan.edges }
    {
        self.ways.len()
    }

    /// Shares the parts of a layout. The seat has the whole portion, 2^32. If there is no memory, the layout comes back.
    pub fn share(alloc: Global, layout: Layout<C>) -> Result<(SharedNet<C>, NetSeat<C>), Layout<C>>
        requires ready { Ready layout }
        requires few { length layout.parts ≤ 2 ^ 32 }
        ensures seat { IfOk result (λ r. IsSeatOf r.0 r.1 × (view_of r.1 ≡ first_view layout)) }
        ensures key { IfOk result (λ r. key_of r.0 ≡ layout) }
        ensures unchanged { IfErr result (λ f. f ≡ layout) }
    {
        let key = Snapshot::of(&layout);
        let Ok(rooms) = Rooms::new(alloc, &layout) else {
            return Err(layout);
        };
        let Layout { plan, parts } = layout;
        let Rooms {
            words,
            ways,
            slots,
            room,
        } = rooms;
        let nodes = plan.nodes.len();
        let size = parts.len();
        let slots = all_in(slots, parts);
        match Table::new(alloc, &words, slots, &key) {
            Ok((table, seat)) => Ok((
                SharedNet {
                    table,
                    nodes,
                    size,
                    ways,
                    room,
                },
                NetSeat {
                    seat,
                    portion: 1 << 32,
                    misses: 0,
                },
            )),
            Err(Refused { slots }) => Err(Layout {
                plan,
                parts: all_out(slots, room.open()),
            }),
        }
    }

    /// Gives back the parts, each at the place of its word. Every other seat must have been joined into this one, which must have no work.
    pub fn unshare(self, seat: NetSeat<C>) -> Vec<Part<C>>
        requires of { IsSeatOf self seat }
        requires whole { (view_of seat).portion ≡ 2 ^ 32 }
        requires free { (view_of seat).work ≡ None }
        ensures { Unshared C.laws (key_of self) (view_of seat) result.items }
    {
        let SharedNet {
            table,
            size,
            room,
            ..
        } = self;
        let NetSeat { seat, .. } = seat;
        let mut parts = room.open();
        let mut closed = table.close_with(seat);
        for i in 0..size {
            match closed.take(i) {
                Some(part) => parts.push_reserved(part),
                None => unreachable!(),
            }
        }
        closed.free();
        parts
    }
}
