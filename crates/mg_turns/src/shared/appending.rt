//! Bringing packets along an edge.
ghost use Rattle.std.specs.Prelude.{◌≡◌, ◌<◌, length, Some, slice_get, option_copied};
ghost use Rattle.mg_turns.specs.Parts.{EdgesFit, FitsSome, source_at};
ghost use Rattle.mg_turns.specs.Code.Counts.{packets_in};
ghost use Rattle.mg_turns.specs.Calls.{key_of, view_of, IsSeatOf, TriesAppend};
ghost use Rattle.mg_turns.specs.Standings.{Keeps};
ghost use Rattle.mg_turns.specs.Told.{AppendTells};
ghost use Rattle.mg_calc.specs.declared.edge.Edge.{Edge as EdgeView};

use super::SharedNet;
use crate::Part;
use crate::held::{Held, Pair, counted};
use crate::seat::{NetSeat, one_more};
use crate::tried::Tried;
use crate::way::Way;
use mg_calc::{Edge, NodeCalculator};
use mg_node::Delivered;

// How many packets a delivery brought.
fn packets_of(delivered: Delivered) -> u32
    ensures { result ≡ packets_in delivered }
{
    match delivered {
        Delivered::Moved { packets, .. } => packets,
        Delivered::OutOfMemory { packets } => packets,
    }
}

// The edge at a place with the word of its engine, if there is one.
fn way_at(ways: &[Way], place: u32) -> Option<&Way>
    ensures { option_copied result ≡ slice_get ways.now place }
{
    ways.get(place as usize)
}

impl<C: NodeCalculator> SharedNet<C> {
    /// Brings at most 256 packets along the edge of a number, and the bound once all packets are at the port.
    pub fn try_append(&self, seat: &mut NetSeat<C>, number: u32) -> Tried<Delivered>
        requires of { IsSeatOf self.now seat.old }
        requires some { FitsSome C.laws (key_of self.now) }
        requires edges { EdgesFit (key_of self.now) }
        requires edge { number < length (key_of self.now).plan.edges }
        ensures of { IsSeatOf self.now seat.new }
        ensures tried { (e : EdgeView) → slice_get (key_of self.now).plan.edges number ≡ Some e → TriesAppend C.laws result (key_of self.now).plan e (view_of seat.old) (view_of seat.new) }
        ensures keeps { Keeps (view_of seat.old) (view_of seat.new) }
        ensures work { (view_of seat.new).work ≡ (view_of seat.old).work }

        // What the answer tells, by all that the seat knows.
        ensures tells { (e : EdgeView) → slice_get (key_of self.now).plan.edges number ≡ Some e → AppendTells result (key_of self.now) e (view_of seat.old) (view_of seat.new) }
    {
        let way = self.way(number);
        let tried = self.append_at(seat, number, way.edge, way.source);
        tried
    }

    // The edge of a number, with the word of its engine.
    pub(super) fn way(&self, number: u32) -> Way
        requires { number < length (key_of self.now).plan.edges }
        ensures edge { slice_get (key_of self.now).plan.edges number ≡ Some result.edge }
        ensures source { result.source ≡ source_at (key_of self.now).plan result.edge }
    {
        match way_at(&self.ways, number) {
            Some(way) => *way,
            None => unreachable!(),
        }
    }

    // Brings packets along an edge. The edge comes with its number and the word of the engine from which it leads.
    fn append_at(
        &self,
        seat: &mut NetSeat<C>,
        number: u32,
        edge: Edge,
        source: u32,
    ) -> Tried<Delivered>
        requires of { IsSeatOf self.now seat.old }
        requires some { FitsSome C.laws (key_of self.now) }
        requires edges { EdgesFit (key_of self.now) }
        requires edge { (slice_get (key_of self.now).plan.edges number ≡ Some edge) × (source ≡ source_at (key_of self.now).plan edge) }
        ensures of { IsSeatOf self.now seat.new }
        ensures tried { TriesAppend C.laws result (key_of self.now).plan edge (view_of seat.old) (view_of seat.new) }
    {
        let node = edge.node;
        let pair = match self.take_pair(&mut seat.seat, source, 2 * node) {
            Ok(pair) => pair,
            Err(word) => {
                seat.misses = one_more(seat.misses);
                return Tried::Busy { word };
            }
        };
        let Pair {
            engine: from,
            intake: to,
        } = pair;
        let engine = from.part.into_engine();
        let mut intake = to.part.into_intake();
        let delivered = engine.deliver(edge, &mut intake, 256);
        let to = Held {
            part: Part::of_intake(intake),
            word: counted(to.word, u64::from(packets_of(delivered))),
        };
        self.give_brought(&mut seat.seat, 2 * node, to);
        let from = Held {
            part: Part::of_engine(engine),
            word: from.word,
        };
        self.give_plain(&mut seat.seat, source, from);
        Tried::Done(delivered)
    }
}
