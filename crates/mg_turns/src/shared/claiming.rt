//! Calls that need both turns of a node.
ghost use Rattle.std.specs.Prelude.{◌≡◌, ◌<◌, ◌+◌, ◌*◌, None, length, MatchResult};
ghost use Rattle.mg_node.specs.Job.{LoggedJob};
ghost use Rattle.mg_turns.specs.Parts.{nodes_in, Fits, FitsSome};
ghost use Rattle.mg_turns.specs.Calls.{key_of, view_of, IsSeatOf, TriesClaim, TriesRaise, TriesRun, IsLawfulTry};
ghost use Rattle.mg_turns.specs.Standings.{Keeps};
ghost use Rattle.mg_turns.specs.Told.{ClaimTells, RaiseTells, RunTells};
ghost use Rattle.mg_turns.specs.Code.Plays.{MissedPair};
ghost use Rattle.mg_turns.specs.Code.Cells.{TakesCell};

use super::SharedNet;
use crate::held::HeldCell;
use crate::running::run_sets;
use crate::seat::{NetSeat, Seat, one_more};
use crate::tried::Tried;
use mg_calc::NodeCalculator;
use mg_edge::Gate;
use mg_node::Claimed;
use std::alloc::Global;

impl<C: NodeCalculator> SharedNet<C> {
    // Takes both turns of a node, the engine's first, with their parts.
    fn take_cell(&self, seat: &mut Seat<C>, node: u32) -> Result<HeldCell<C>, u32>
        requires of { (seat.old.table_id ≡ self.now.table.shared.table_id) × (seat.old.me.0.key ≡ key_of self.now) }
        requires node { node < self.now.nodes }
        requires idle { (0 < seat.old.me.0.portion) × (length seat.old.me.0.turns ≡ 0) }
        ensures id { seat.new.table_id ≡ seat.old.table_id }
        ensures taken { MatchResult result (λ c. TakesCell C.laws (key_of self.now) seat.old.me node c.engine.value c.engine_word c.laid c.intake.value c.intake_word seat.new.me)
            (λ word. MissedPair C.laws seat.old.me (2 * node + 1) (2 * node) word seat.new.me) }
    {
        let pair = self.take_pair(seat, 2 * node + 1, 2 * node)?;
        Ok(pair.into_cell())
    }

    /// Claims the next work of a node. The seat then has it, and no other seat does.
    pub fn try_claim(&self, seat: &mut NetSeat<C>, node: u32) -> Tried<Claimed<C>>
        requires of { IsSeatOf self.now seat.old }
        requires node { node < nodes_in (key_of self.now) }
        requires some { FitsSome C.laws (key_of self.now) }
        requires free { (view_of seat.old).work ≡ None }
        ensures of { IsSeatOf self.now seat.new }
        ensures tried { TriesClaim C.laws result node (view_of seat.old) (view_of seat.new) }
        ensures keeps { Keeps (view_of seat.old) (view_of seat.new) }

        // What the answer tells, by all that the seat knows.
        ensures tells { ClaimTells result node (view_of seat.old) (view_of seat.new) }

        // A work that is handed out is lawful, for every job.
        ensures lawful { (job : LoggedJob C.laws) → Fits job (key_of self.now) → IsLawfulTry job result }
    {
        let tried = self.claim_cell(seat, node);
        tried
    }

    /// Raises the bounds of a node's outputs as far as what waits tells, and returns whether that moved one of them.
    pub fn try_raise(&self, seat: &mut NetSeat<C>, node: u32) -> Tried<bool>
        requires of { IsSeatOf self.now seat.old }
        requires node { node < nodes_in (key_of self.now) }
        requires some { FitsSome C.laws (key_of self.now) }
        ensures of { IsSeatOf self.now seat.new }
        ensures tried { TriesRaise C.laws result node (view_of seat.old) (view_of seat.new) }
        ensures keeps { Keeps (view_of seat.old) (view_of seat.new) }
        ensures work { (view_of seat.new).work ≡ (view_of seat.old).work }

        // What the answer tells, by all that the seat knows.
        ensures tells { RaiseTells result node (view_of seat.old) (view_of seat.new) }
    {
        let tried = self.raise_cell(seat, node);
        tried
    }

    /// Claims, performs and commits at most `most` works of a node, one after the other, and returns how many. Holds both of
    /// the node's turns meanwhile. An answer of a loopback counts as one, and so does Close. If another seat has a work, works
    /// that are committed after it are laid once that work is back. A work that finds no memory is put back into its window,
    /// and the call ends there.
    pub fn try_run<G: Gate>(
        &self,
        alloc: Global,
        seat: &mut NetSeat<C>,
        node: u32,
        most: u32,
        gate: &G,
    ) -> Tried<u32>
        requires of { IsSeatOf self.now seat.old }
        requires node { node < nodes_in (key_of self.now) }
        requires some { FitsSome C.laws (key_of self.now) }
        requires free { (view_of seat.old).work ≡ None }
        ensures of { IsSeatOf self.now seat.new }
        ensures tried { TriesRun C.laws result most node (view_of seat.old) (view_of seat.new) }
        ensures keeps { Keeps (view_of seat.old) (view_of seat.new) }
        ensures work { (view_of seat.new).work ≡ (view_of seat.old).work }

        // What the answer tells, by all that the seat knows.
        ensures tells { RunTells result most node (view_of seat.old) (view_of seat.new) }
    {
        let tried = self.run_cell(alloc, seat, node, most, gate);
        tried
    }

    // Claims the next work of a node, with both of its turns.
    fn claim_cell(&self, seat: &mut NetSeat<C>, node: u32) -> Tried<Claimed<C>>
        requires of { IsSeatOf self.now seat.old }
        requires node { node < nodes_in (key_of self.now) }
        requires some { FitsSome C.laws (key_of self.now) }
        requires free { (view_of seat.old).work ≡ None }
        ensures of { IsSeatOf self.now seat.new }
        ensures tried { TriesClaim C.laws result node (view_of seat.old) (view_of seat.new) }
        ensures lawful { (job : LoggedJob C.laws) → Fits job (key_of self.now) → IsLawfulTry job result }
    {
        let mut cell = match self.take_cell(&mut seat.seat, node) {
            Ok(cell) => cell,
            Err(word) => {
                seat.misses = one_more(seat.misses);
                return Tried::Busy { word };
            }
        };
        let claimed = cell.engine.claim(&mut cell.intake);
        self.give_cell(&mut seat.seat, node, cell, &claimed);
        Tried::Done(claimed)
    }

    // Raises the outputs of a node, with both of its turns.
    fn raise_cell(&self, seat: &mut NetSeat<C>, node: u32) -> Tried<bool>
        requires of { IsSeatOf self.now seat.old }
        requires node { node < nodes_in (key_of self.now) }
        requires some { FitsSome C.laws (key_of self.now) }
        ensures of { IsSeatOf self.now seat.new }
        ensures tried { TriesRaise C.laws result node (view_of seat.old) (view_of seat.new) }
    {
        let mut cell = match self.take_cell(&mut seat.seat, node) {
            Ok(cell) => cell,
            Err(word) => {
                seat.misses = one_more(seat.misses);
                return Tried::Busy { word };
            }
        };
        let moved = cell.engine.advance(&cell.intake);
        self.give_cell(&mut seat.seat, node, cell, &Claimed::Ended);
        Tried::Done(moved)
    }

    // Does works of a node, with both of its turns.
    fn run_cell<G: Gate>(
        &self,
        alloc: Global,
        seat: &mut NetSeat<C>,
        node: u32,
        most: u32,
        gate: &G,
    ) -> Tried<u32>
        requires of { IsSeatOf self.now seat.old }
        requires node { node < nodes_in (key_of self.now) }
        requires some { FitsSome C.laws (key_of self.now) }
        requires free { (view_of seat.old).work ≡ None }
        ensures of { IsSeatOf self.now seat.new }
        ensures tried { TriesRun C.laws result most node (view_of seat.old) (view_of seat.new) }
    {
        let mut cell = match self.take_cell(&mut seat.seat, node) {
            Ok(cell) => cell,
            Err(word) => {
                seat.misses = one_more(seat.misses);
                return Tried::Busy { word };
            }
        };
        let done = run_sets(alloc, &mut cell.engine, &mut cell.intake, most, gate);
        self.give_cell(&mut seat.seat, node, cell, &Claimed::Ended);
        Tried::Done(done)
    }
}
