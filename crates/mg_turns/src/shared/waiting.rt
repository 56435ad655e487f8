//! Counting the packets that wait at the end of an edge.
ghost use Rattle.std.specs.Prelude.{◌≡◌, ◌<◌, length, Some, slice_get};
ghost use Rattle.mg_turns.specs.Parts.{EdgesFit, FitsSome};
ghost use Rattle.mg_turns.specs.Calls.{key_of, view_of, IsSeatOf, TriesWaiting};
ghost use Rattle.mg_turns.specs.Standings.{Keeps};
ghost use Rattle.mg_calc.specs.declared.edge.Edge.{Edge as EdgeView};

use super::SharedNet;
use crate::Part;
use crate::held::Held;
use crate::seat::{NetSeat, one_more};
use crate::tried::Tried;
use mg_calc::{Edge, NodeCalculator};

impl<C: NodeCalculator> SharedNet<C> {
    /// How many packets wait at the port of the edge of a number.
    pub fn try_waiting(&self, seat: &mut NetSeat<C>, number: u32) -> Tried<u64>
        requires of { IsSeatOf self.now seat.old }
        requires some { FitsSome C.laws (key_of self.now) }
        requires edges { EdgesFit (key_of self.now) }
        requires edge { number < length (key_of self.now).plan.edges }
        ensures of { IsSeatOf self.now seat.new }
        ensures tried { (e : EdgeView) → slice_get (key_of self.now).plan.edges number ≡ Some e → TriesWaiting C.laws result e (view_of seat.old) (view_of seat.new) }
        ensures keeps { Keeps (view_of seat.old) (view_of seat.new) }
        ensures work { (view_of seat.new).work ≡ (view_of seat.old).work }
    {
        let way = self.way(number);
        let tried = self.waiting_at(seat, number, way.edge);
        tried
    }

    // How many packets wait at the port of an edge.
    fn waiting_at(&self, seat: &mut NetSeat<C>, _number: u32, edge: Edge) -> Tried<u64>
        requires of { IsSeatOf self.now seat.old }
        requires some { FitsSome C.laws (key_of self.now) }
        requires edges { EdgesFit (key_of self.now) }
        requires edge { slice_get (key_of self.now).plan.edges _number ≡ Some edge }
        ensures of { IsSeatOf self.now seat.new }
        ensures tried { TriesWaiting C.laws result edge (view_of seat.old) (view_of seat.new) }
    {
        let word = 2 * edge.node;
        let Some(held) = self.take(&mut seat.seat, word) else {
            seat.misses = one_more(seat.misses);
            return Tried::Busy { word };
        };
        let intake = held.part.into_intake();
        let waiting = intake.waiting(edge.port);
        let back = Held {
            part: Part::of_intake(intake),
            word: held.word,
        };
        self.give_plain(&mut seat.seat, word, back);
        Tried::Done(waiting)
    }
}
