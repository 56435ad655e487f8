//! Laws of what packet lines mean: each function does nothing, and its contract is the law.
ghost use Rattle.std.specs.Prelude.{◌≡◌, ◌<◌, ◌++◌, max, ℕ, Bool, true, Option, List, [], ◌∷◌, length, slice_index_or};
ghost use Rattle.mg_value.specs.Payload.{Plain};
ghost use Rattle.mg_value.specs.Packet.{Stamped};
ghost use Rattle.mg_settled.specs.Prefix.{empty_prefix};
ghost use Rattle.mg_settled.specs.Extension.{AreExtendedBy};
ghost use Rattle.mg_calc.specs.declared.plan.Plan.{Plan};
ghost use Rattle.mg_edge.specs.Edge.{SourceTold};
ghost use Rattle.mg_edge.specs.Runs.{Gave};
ghost use Rattle.mg_feed.specs.Apart.{AreApart};
ghost use Rattle.mg_feed.specs.Graph.{GraphInputs, inputs_of};
ghost use Rattle.mg_feed.specs.Lines.{all_lines};
ghost use Rattle.mg_feed.specs.Accepted.{given_by, accepted};
ghost use Rattle.mg_feed.specs.Given.{ended_streams};
ghost use Rattle.mg_feed.specs.View.{View};
ghost use Rattle.mg_feed.specs.Stands.{AllGood, HasAccepted, nothing_taken, behind_all, taken_with, packets_of};
ghost use Rattle.mg_feed.specs.Recorded.{AllRecorded};
ghost use Rattle.mg_feed.specs.Fed.{Fed};
ghost use Rattle.mg_feed.specs.Came.{Came};
ghost use Rattle.mg_feed.specs.Ran.{MetEnd, Spends, Unfailed, FailedBy};
ghost use Rattle.mg_feed.specs.Batch.{naming};
ghost use Rattle.mg_feed.specs.declared.feed_end.FeedEnd.{FeedEnd};
ghost use Rattle.mg_feed.specs.OldText.{old_given_by, AllGoodBefore};

/// A feed from which nothing was taken has all that its lines gave.
pub fn all_that_lines_gave()
    ensures { (lines : List (List ℕ)) (v : View) → HasAccepted lines (nothing_taken v.graph) v → v.given ≡ given_by v.graph lines }
{}

/// The packets that were taken and the packets that weren't are all that the lines gave, stream by stream.
pub fn takings_together()
    ensures { (lines : List (List ℕ)) (gone : List (List (Stamped Plain))) (v : View) → HasAccepted lines gone v
        → (length gone ≡ length v.given.streams) × ((given_by v.graph lines).streams ≡ behind_all gone v.given.streams) }
{}

/// An input whose lines were all good before lines could name several streams is good, and gives the same.
pub fn old_lines()
    ensures good { (graph : GraphInputs) (lines : List (List ℕ)) → AllGoodBefore graph [] lines → AllGood graph [] lines }
    ensures same { (graph : GraphInputs) (lines : List (List ℕ)) → AllGoodBefore graph [] lines → given_by graph lines ≡ old_given_by graph lines }
{}

/// What lines gave is extended by what more lines give, also if the input ends after them. Once a line named a stream, no more side
/// packets come.
pub fn what_lines_give_grows()
    ensures streams { (graph : GraphInputs) (lines more : List (List ℕ)) (ended : Bool) → AllGood graph [] (lines ++ more)
        → AreExtendedBy (given_by graph lines).streams (ended_streams ended (given_by graph (lines ++ more)).streams) }
    ensures sides { (graph : GraphInputs) (lines more : List (List ℕ)) → AllGood graph [] (lines ++ more) → (given_by graph lines).named ≡ true
        → (given_by graph (lines ++ more)).sides ≡ (given_by graph lines).sides }
    ensures named { (graph : GraphInputs) (lines more : List (List ℕ)) → (given_by graph lines).named ≡ true
        → (given_by graph (lines ++ more)).named ≡ true }
{}

/// After a batch that has a line that names a stream, some line named a stream.
pub fn a_full_batch_names_a_stream()
    ensures { (graph : GraphInputs) (lines taken : List (List ℕ)) → 0 < naming taken → (given_by graph (lines ++ taken)).named ≡ true }
{}

/// If all that some lines gave was taken, the taking after more lines has the rest, stream by stream. The packets taken first and
/// then the later packets are all packets of the stream. The greater of both bounds is the stream's bound.
pub fn takings_join()
    ensures piece { (lines more : List (List ℕ)) (v : View) (ended : Bool) (input : ℕ)
        → HasAccepted (lines ++ more) (packets_of (given_by v.graph lines).streams) v → input < length v.given.streams
        → slice_index_or (ended_streams ended (given_by v.graph (lines ++ more)).streams) input empty_prefix ≡ record {
          packets = (slice_index_or (given_by v.graph lines).streams input empty_prefix).packets
              ++ (slice_index_or (ended_streams ended v.given.streams) input empty_prefix).packets;
          bound = max (slice_index_or (given_by v.graph lines).streams input empty_prefix).bound
              (slice_index_or (ended_streams ended v.given.streams) input empty_prefix).bound;
        } }
    ensures count { (lines more : List (List ℕ)) (v : View) → HasAccepted (lines ++ more) (packets_of (given_by v.graph lines).streams) v
        → length v.given.streams ≡ length (given_by v.graph lines).streams }
    ensures sides { (lines : List (List ℕ)) (gone : List (List (Stamped Plain))) (v : View) → HasAccepted lines gone v
        → v.given.sides ≡ (given_by v.graph lines).sides }
    ensures taken { (lines : List (List ℕ)) (gone : List (List (Stamped Plain))) (v : View) → HasAccepted lines gone v
        → taken_with gone v.given.streams ≡ packets_of (given_by v.graph lines).streams }
{}

/// The lines that a feed accepted of the bytes that came are the first accepted lines of the whole input.
pub fn what_came_is_a_front()
    ensures { (past rest : List ℕ) (lines : List (List ℕ)) (gone : List (List (Stamped Plain))) (f : Fed) → Came [] past lines gone f
        → (f.read.ended ≡ true → rest ≡ []) → (more : List (List ℕ)) × (accepted f.view.graph (all_lines (past ++ rest)) ≡ lines ++ more) }
{}

/// Two lines of different streams, one after the other, give a plan's graph the same in either order.
pub fn lines_of_different_streams_may_change_places()
    ensures { (plan : Plan) (front back : List (List ℕ)) (first second : List ℕ) → AreApart first second
        → given_by (inputs_of plan) (front ++ first ∷ second ∷ back) ≡ given_by (inputs_of plan) (front ++ second ∷ first ∷ back) }
{}

/// Accepted lines are all good.
pub fn accepted_lines_are_good()
    ensures { (graph : GraphInputs) (lines : List (List ℕ)) → AllGood graph [] (accepted graph lines) }
{}

/// Good lines are good as lines of a recorded job too.
pub fn good_lines_may_be_recorded()
    ensures { (graph : GraphInputs) (lines : List (List ℕ)) → AllGood graph [] lines → AllRecorded graph [] lines }
{}

/// What two calls, one after the other, did to a source follows from what each of them did. This holds for the bytes that the
/// source gave, whether it ended, and how many reads gave no byte. It holds too for whether a read failed: a failed read is the
/// last one.
pub fn batches_go_on()
    ensures gave { (first before now : Option (List ℕ)) (came more : List ℕ) → Gave first before came → Gave before now more
        → Gave first now (came ++ more) }
    ensures met { (a b c : Bool) (first before now : SourceTold) (came : List ℕ) → Gave first.left before.left came
        → MetEnd a b first before → MetEnd b c before now → MetEnd a c first now }
    ensures reads { (a b c : ℕ) (first before now : Option (List ℕ)) (was between reads : Option ℕ) → Spends a b first before was between
        → Spends b c before now between reads → Spends a c first now was reads }
    ensures unfailed { (first before now : SourceTold) → Unfailed first before → Unfailed before now → Unfailed first now }
    ensures failed { (end : FeedEnd) (first before now : SourceTold) (came : List ℕ) → Gave first.left before.left came
        → Unfailed first before → FailedBy end before now → FailedBy end first now }
{}
