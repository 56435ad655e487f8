//! Bringing a work back to its engine.
ghost use Rattle.std.specs.Prelude.{◌<◌};
ghost use Rattle.mg_node.specs.Job.{LoggedJob};
ghost use Rattle.mg_node.specs.Lawful.{LawfulOutcome};
ghost use Rattle.mg_turns.specs.Parts.{nodes_in, Fits, FitsSome};
ghost use Rattle.mg_turns.specs.Calls.{key_of, view_of, IsSeatOf, HasOutcome, TriesCommit, TriesShelve};
ghost use Rattle.mg_turns.specs.Standings.{Keeps};
ghost use Rattle.mg_turns.specs.Told.{CommitTells};

use super::SharedNet;
use crate::Part;
use crate::held::{Held, counted};
use crate::seat::{NetSeat, one_more};
use crate::tried::{TriedCommit, TriedShelf};
use mg_calc::NodeCalculator;
use mg_node::Outcome;

impl<C: NodeCalculator> SharedNet<C> {
    /// Commits the work that the seat has. What is ready at the front of the window is laid.
    pub fn try_commit(&self, seat: &mut NetSeat<C>, outcome: Outcome<C>) -> TriedCommit<C>
        requires of { IsSeatOf self.now seat.old }
        requires some { FitsSome C.laws (key_of self.now) }
        requires has { HasOutcome (view_of seat.old).work outcome.work }
        requires node { outcome.work.node < nodes_in (key_of self.now) }
        requires lawful { (job : LoggedJob C.laws) → Fits job (key_of self.now) → LawfulOutcome job outcome }
        ensures of { IsSeatOf self.now seat.new }
        ensures tried { TriesCommit C.laws result outcome (view_of seat.old) (view_of seat.new) }
        ensures keeps { Keeps (view_of seat.old) (view_of seat.new) }

        // What the answer tells, by all that the seat knows.
        ensures tells { CommitTells result outcome (view_of seat.old) (view_of seat.new) }
    {
        let tried = self.commit_at(seat, outcome);
        tried
    }

    /// Puts the work that the seat has back into its window as it is.
    pub fn try_shelve(&self, seat: &mut NetSeat<C>, outcome: Outcome<C>) -> TriedShelf<C>
        requires of { IsSeatOf self.now seat.old }
        requires has { HasOutcome (view_of seat.old).work outcome.work }
        requires node { outcome.work.node < nodes_in (key_of self.now) }
        requires lawful { (job : LoggedJob C.laws) → Fits job (key_of self.now) → LawfulOutcome job outcome }
        ensures of { IsSeatOf self.now seat.new }
        ensures tried { TriesShelve C.laws result outcome (view_of seat.old) (view_of seat.new) }
        ensures keeps { Keeps (view_of seat.old) (view_of seat.new) }
    {
        let tried = self.shelve_at(seat, outcome);
        tried
    }

    // Commits a work, with the turn of its engine.
    fn commit_at(&self, seat: &mut NetSeat<C>, outcome: Outcome<C>) -> TriedCommit<C>
        requires of { IsSeatOf self.now seat.old }
        requires some { FitsSome C.laws (key_of self.now) }
        requires has { HasOutcome (view_of seat.old).work outcome.work }
        requires node { outcome.work.node < nodes_in (key_of self.now) }
        requires lawful { (job : LoggedJob C.laws) → Fits job (key_of self.now) → LawfulOutcome job outcome }
        ensures of { IsSeatOf self.now seat.new }
        ensures tried { TriesCommit C.laws result outcome (view_of seat.old) (view_of seat.new) }
    {
        let word = 2 * outcome.node() + 1;
        let Some(held) = self.take(&mut seat.seat, word) else {
            seat.misses = one_more(seat.misses);
            return TriedCommit::Busy { word, outcome };
        };
        let mut engine = held.part.into_engine();
        match engine.commit(outcome) {
            Ok(laid) => {
                let held = Held {
                    part: Part::of_engine(engine),
                    word: counted(held.word, u64::from(laid)),
                };
                self.give_laid(&mut seat.seat, word, held);
                TriedCommit::Laid(laid)
            }
            Err(outcome) => {
                let held = Held {
                    part: Part::of_engine(engine),
                    word: held.word,
                };
                self.give_plain(&mut seat.seat, word, held);
                TriedCommit::OutOfMemory(outcome)
            }
        }
    }

    // Puts a work back into its window, with the turn of its engine.
    fn shelve_at(&self, seat: &mut NetSeat<C>, outcome: Outcome<C>) -> TriedShelf<C>
        requires of { IsSeatOf self.now seat.old }
        requires has { HasOutcome (view_of seat.old).work outcome.work }
        requires node { outcome.work.node < nodes_in (key_of self.now) }
        requires lawful { (job : LoggedJob C.laws) → Fits job (key_of self.now) → LawfulOutcome job outcome }
        ensures of { IsSeatOf self.now seat.new }
        ensures tried { TriesShelve C.laws result outcome (view_of seat.old) (view_of seat.new) }
    {
        let word = 2 * outcome.node() + 1;
        let Some(held) = self.take(&mut seat.seat, word) else {
            seat.misses = one_more(seat.misses);
            return TriedShelf::Busy { word, outcome };
        };
        let mut engine = held.part.into_engine();
        engine.shelve(outcome);
        let back = Held {
            part: Part::of_engine(engine),
            word: held.word,
        };
        self.give_laid(&mut seat.seat, word, back);
        TriedShelf::Shelved
    }
}
