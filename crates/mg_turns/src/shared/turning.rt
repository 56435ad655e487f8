//! Taking turns, and giving them back with their parts.
ghost use Rattle.std.specs.Prelude.{◌≡◌, ◌≢◌, ◌<◌, ◌+◌, ◌*◌, ◌-◌, ◌%◌, ◌∷◌, MatchBool, MatchOption, MatchResult, IfSome, None, Some, length};
ghost use Rattle.atomic_table.specs.Table.{rest};
ghost use Rattle.mg_turns.specs.Parts.{Follows, an_engine, an_intake};
ghost use Rattle.mg_turns.specs.Rule.{word_of, has_turn};
ghost use Rattle.mg_turns.specs.Sights.{has_after};
ghost use Rattle.mg_turns.specs.Code.Plays.{Took, Holds, HasTurn, Returns, GivesTurnBack, HoldsTurn, GivesPlainly, GivesClaim, GivesLaid, GivesBrought, gave, claimed_view, laid_view, with_miss, TakenPair, MissedPair, CellWords, cell_given};

use super::SharedNet;
use crate::Part;
use crate::held::{Held, HeldCell, Pair, counted};
use crate::rule::{After, Give, Look, Try};
use crate::seat::Seat;
use mg_calc::NodeCalculator;
use mg_node::Claimed;
use std::marker::Brand;

// Where a word stands in the table.
fn place(word: u32) -> usize
    ensures { result ≡ 8 * word }
{
    8 * word as usize
}

impl<C: NodeCalculator> SharedNet<C> {
    // Whether another seat has the turn of a word. Counts a miss if so.
    fn is_held(&self, seat: &mut Seat<C>, word: u32) -> bool
        requires { (seat.old.table_id ≡ self.now.table.shared.table_id) × (word < self.now.size) × (0 < seat.old.me.0.portion) }
        ensures id { seat.new.table_id ≡ seat.old.table_id }
        ensures held { MatchBool result (seat.new.me ≡ (with_miss seat.old.me.0 word, seat.old.me.1)) (seat.new.me ≡ seat.old.me) }
    {
        let found = self.table.shared.load::<Look>(seat, place(word));
        found % 2 == 1
    }

    // Takes the turn of a word, or counts a miss if another seat has it. Returns what the word was: odd if the turn was missed.
    fn try_turn(&self, seat: &mut Seat<C>, word: u32) -> u64
        requires { (seat.old.table_id ≡ self.now.table.shared.table_id) × (word < self.now.size) × (0 < seat.old.me.0.portion) × (has_turn word seat.old.me.0 ≡ 0) }
        ensures id { seat.new.table_id ≡ seat.old.table_id }
        ensures taken { result % 2 ≡ 0 → Took C.laws seat.old.me word result seat.new.me }
        ensures missed { result % 2 ≡ 1 → seat.new.me ≡ (with_miss seat.old.me.0 word, seat.old.me.1) }
    {
        let found = self.table.shared.fetch_or::<Try>(seat, place(word), 1);
        found
    }

    // Takes the part out of the slot of the word whose turn was taken last.
    fn part_out(&self, seat: &mut Seat<C>, word: u32) -> Part<C>
        requires id { seat.old.table_id ≡ self.now.table.shared.table_id }
        requires held { Holds seat.old.me word (λ _. Unit {0}) }
        ensures id { seat.new.table_id ≡ seat.old.table_id }
        ensures part { seat.old.me.1 ≡ (word, Some result) ∷ rest seat.old.me.1 }
        ensures out { seat.new.me ≡ (seat.old.me.0, (word, None) ∷ rest seat.old.me.1) }
    {
        match self.table.shared.exchange(seat, word as usize, None) {
            Some(part) => part,
            None => unreachable!(),
        }
    }

    // Takes the turn of a word and its part, or counts a miss and returns `None` if another seat has the turn.
    pub(super) fn take(&self, seat: &mut Seat<C>, word: u32) -> Option<Held<C>>
        requires { (seat.old.table_id ≡ self.now.table.shared.table_id) × (word < self.now.size) × (0 < seat.old.me.0.portion) × (has_turn word seat.old.me.0 ≡ 0) }
        ensures id { seat.new.table_id ≡ seat.old.table_id }
        ensures taken { MatchOption result (seat.new.me ≡ (with_miss seat.old.me.0 word, seat.old.me.1)) (λ h. HoldsTurn C.laws seat.old.me word h.part seat.new.me) }
        ensures word { IfSome result (λ h. h.word ≡ word_of seat.old.me.0.key word h.part) }
    {
        let found = self.try_turn(seat, word);
        if found % 2 == 0 {
            Some(Held {
                part: self.part_out(seat, word),
                word: found,
            })
        } else {
            None
        }
    }

    // Takes the turns of an engine and an intake, in this order, with their parts. If the second turn is missed, the first is
    // given back. The error is the word that was missed.
    fn take_both(&self, seat: &mut Seat<C>, engine: u32, intake: u32) -> Result<Pair<C>, u32>
        requires id { (seat.old.table_id ≡ self.now.table.shared.table_id) × (engine < self.now.size) × (intake < self.now.size) × (engine ≢ intake) }
        requires idle { (0 < seat.old.me.0.portion) × (length seat.old.me.0.turns ≡ 0) }
        ensures id { seat.new.table_id ≡ seat.old.table_id }
        ensures taken { MatchResult result (λ p. TakenPair C.laws seat.old.me engine p.engine.part p.engine.word intake p.intake.part p.intake.word seat.new.me) (λ word. MissedPair C.laws seat.old.me engine intake word seat.new.me) }
    {
        let Some(first) = self.take(seat, engine) else {
            return Err(engine);
        };
        let Some(second) = self.take(seat, intake) else {
            self.give_plain(seat, engine, first);
            return Err(intake);
        };
        Ok(Pair {
            engine: first,
            intake: second,
        })
    }

    // Takes the turns of an engine and an intake like `take_both`, but looks at the second word first. If that word is held,
    // the first turn isn't taken at all.
    pub(super) fn take_pair(
        &self,
        seat: &mut Seat<C>,
        engine: u32,
        intake: u32,
    ) -> Result<Pair<C>, u32>
        requires id { (seat.old.table_id ≡ self.now.table.shared.table_id) × (engine < self.now.size) × (intake < self.now.size) × (engine ≢ intake) }
        requires idle { (0 < seat.old.me.0.portion) × (length seat.old.me.0.turns ≡ 0) }
        ensures id { seat.new.table_id ≡ seat.old.table_id }
        ensures taken { MatchResult result (λ p. TakenPair C.laws seat.old.me engine p.engine.part p.engine.word intake p.intake.part p.intake.word seat.new.me) (λ word. MissedPair C.laws seat.old.me engine intake word seat.new.me) }
    {
        if self.is_held(seat, intake) {
            return Err(intake);
        }
        let pair = self.take_both(seat, engine, intake)?;
        Ok(pair)
    }

    // Gives back the turn that was taken last, with its part. The call picks the seat's view afterwards, as `N`.
    fn give_back<N: After>(&self, seat: &mut Seat<C>, word: u32, held: Held<C>)
        requires id { (seat.old.table_id ≡ self.now.table.shared.table_id) × (word < self.now.size) }
        requires out { seat.old.me.1 ≡ (word, None) ∷ rest seat.old.me.1 }
        requires word { held.word ≡ word_of seat.old.me.0.key word held.part }
        requires turn { HasTurn seat.old.me.0 word held.part }
        requires part { Follows C.laws seat.old.me.0.key word held.part }
        requires after { Returns seat.old.me.0 word held.part N.after × GivesTurnBack seat.old.me.0 word held.part N.after }
        ensures id { seat.new.table_id ≡ seat.old.table_id }
        ensures after { seat.new.me ≡ (N.after, rest seat.old.me.1) }
    {
        let Held { part, word: new } = held;
        drop(self.table.shared.exchange(seat, word as usize, Some(part)));
        self.table.shared.store::<Give<N>>(seat, place(word), new)
    }

    // Gives back a part at which nothing was claimed or laid.
    pub(super) fn give_plain(&self, seat: &mut Seat<C>, word: u32, held: Held<C>)
        requires id { (seat.old.table_id ≡ self.now.table.shared.table_id) × (word < self.now.size) }
        requires word { held.word ≡ word_of seat.old.me.0.key word held.part }
        requires gives { GivesPlainly C.laws seat.old.me word held.part }
        ensures id { seat.new.table_id ≡ seat.old.table_id }
        ensures gave { seat.new.me ≡ (gave seat.old.me.0 word held.part, rest seat.old.me.1) }
    {
        self.give_back::<Brand>(seat, word, held);
    }

    // Gives back an engine to which the seat's work came back.
    pub(super) fn give_laid(&self, seat: &mut Seat<C>, word: u32, held: Held<C>)
        requires id { (seat.old.table_id ≡ self.now.table.shared.table_id) × (word < self.now.size) }
        requires word { held.word ≡ word_of seat.old.me.0.key word held.part }
        requires gives { GivesLaid C.laws seat.old.me word held.part }
        ensures id { seat.new.table_id ≡ seat.old.table_id }
        ensures gave { seat.new.me ≡ (laid_view seat.old.me.0 word held.part, rest seat.old.me.1) }
    {
        self.give_back::<Brand>(seat, word, held);
    }

    // Gives back an intake to which more came along an edge.
    pub(super) fn give_brought(&self, seat: &mut Seat<C>, word: u32, held: Held<C>)
        requires id { (seat.old.table_id ≡ self.now.table.shared.table_id) × (word < self.now.size) }
        requires word { held.word ≡ word_of seat.old.me.0.key word held.part }
        requires gives { GivesBrought C.laws seat.old.me word held.part }
        ensures id { seat.new.table_id ≡ seat.old.table_id }
        ensures gave { seat.new.me ≡ (gave seat.old.me.0 word held.part, rest seat.old.me.1) }
    {
        self.give_back::<Brand>(seat, word, held);
    }

    // Gives back a node's intake; the seat then notes what became of the node's engine.
    fn give_noting<N: After>(
        &self,
        seat: &mut Seat<C>,
        node: u32,
        held: Held<C>,
        _engine: &Part<C>,
        _claimed: &Claimed<C>,
    )
        requires id { (seat.old.table_id ≡ self.now.table.shared.table_id) × (node < self.now.nodes) }
        requires out { seat.old.me.1 ≡ (2 * node, None) ∷ rest seat.old.me.1 }
        requires word { held.word ≡ word_of seat.old.me.0.key (2 * node) held.part }
        requires turn { HasTurn seat.old.me.0 (2 * node) held.part }
        requires part { Follows C.laws seat.old.me.0.key (2 * node) held.part }
        requires after { Returns seat.old.me.0 (2 * node) held.part N.after × GivesTurnBack seat.old.me.0 (2 * node) held.part N.after }
        ensures id { seat.new.table_id ≡ seat.old.table_id }
        ensures after { seat.new.me ≡ (N.after, rest seat.old.me.1) }
    {
        self.give_back::<N>(seat, 2 * node, held);
    }

    fn give_claim(
        &self,
        seat: &mut Seat<C>,
        node: u32,
        held: Held<C>,
        engine: &Part<C>,
        claimed: &Claimed<C>,
    )
        requires id { (seat.old.table_id ≡ self.now.table.shared.table_id) × (node < self.now.nodes) }
        requires word { held.word ≡ word_of seat.old.me.0.key (2 * node) held.part }
        requires gives { GivesClaim C.laws seat.old.me node held.part engine.now (has_after claimed.now seat.old.me.0.work) }
        ensures id { seat.new.table_id ≡ seat.old.table_id }
        ensures gave { seat.new.me ≡ (claimed_view seat.old.me.0 node held.part engine.now (has_after claimed.now seat.old.me.0.work), rest seat.old.me.1) }
    {
        self.give_noting::<Brand>(seat, node, held, engine, claimed);
    }

    // Gives back the intake and then the engine of a node. The seat then has the work that was claimed, if there is one.
    pub(super) fn give_cell(
        &self,
        seat: &mut Seat<C>,
        node: u32,
        cell: HeldCell<C>,
        claimed: &Claimed<C>,
    )
        requires id { (seat.old.table_id ≡ self.now.table.shared.table_id) × (node < self.now.nodes) }
        requires words { CellWords seat.old.me.0.key node cell.engine.value cell.engine_word cell.laid cell.intake.value cell.intake_word }
        requires gives { GivesClaim C.laws seat.old.me node (an_intake cell.intake.value) (an_engine cell.engine.value) (has_after claimed.now seat.old.me.0.work) }
        requires slots { rest seat.old.me.1 ≡ (2 * node + 1, None) ∷ rest (rest seat.old.me.1) }
        requires follows { Follows C.laws seat.old.me.0.key (2 * node + 1) (an_engine cell.engine.value) }
        ensures id { seat.new.table_id ≡ seat.old.table_id }
        ensures gave { seat.new.me ≡ (cell_given seat.old.me.0 node (an_engine cell.engine.value) (an_intake cell.intake.value) (has_after claimed.now seat.old.me.0.work), rest (rest seat.old.me.1)) }
    {
        let HeldCell {
            engine,
            intake,
            engine_word,
            intake_word,
            laid,
        } = cell;
        let engine_word = counted(engine_word, engine.laid() - laid);
        let engine = Part::of_engine(engine);
        let intake = Held {
            part: Part::of_intake(intake),
            word: intake_word,
        };
        self.give_claim(seat, node, intake, &engine, claimed);
        let engine = Held {
            part: engine,
            word: engine_word,
        };
        self.give_plain(seat, 2 * node + 1, engine);
    }
}
