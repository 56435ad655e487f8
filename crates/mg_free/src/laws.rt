//! Laws of logs: each function does nothing, and its contract is the law.
ghost use Rattle.std.specs.Prelude.{◌≡◌, ℕ, ◌<◌, ◌≤◌, ◌⊎◌, List, ◌∷◌, ◌++◌, length, sum_by, All};
ghost use Rattle.mg_value.specs.Payload.{Plain};
ghost use Rattle.mg_settled.specs.Prefix.{StreamPrefix, IsPrefix};
ghost use Rattle.mg_settled.specs.Extension.{IsExtendedBy, AreExtendedBy};
ghost use Rattle.mg_calc.specs.declared.inputs.Inputs.{Inputs};
ghost use Rattle.mg_calc.specs.declared.plan.Plan.{Plan};
ghost use Rattle.mg_calc.specs.Plan.{IsValidWithFree, InputsFit};
ghost use Rattle.mg_calc.specs.Rules.{Laws};
ghost use Rattle.mg_free.specs.declared.law.FreeLaw.{FreeLaw};
ghost use Rattle.mg_free.specs.declared.law.FreeLaw.TheVariants.{FirstCome, Limiter};
ghost use Rattle.mg_free.specs.declared.node.FreeNode.{FreeNode};
ghost use Rattle.mg_free.specs.declared.plan.FreePlan.{FreePlan};
ghost use Rattle.mg_free.specs.Free.{Arrival, Flow, begun, ports_of, arrived, MayArrive};
ghost use Rattle.mg_free.specs.Logs.{flow_of, MayAllArrive, arrived_at, IsLawfulSoFar, ending, output_of};
ghost use Rattle.mg_free.specs.Core.{split_of};
ghost use Rattle.mg_free.specs.Rounds.{Taken, none_taken, IsRound, AllRounds};
ghost use Rattle.mg_free.specs.Turns.{AreLawfulSoFar, AreLawful, taken_by_all, room_of_all, AreBatches, last_batch, HasCome};

/// After an arrival that may come, the output is a prefix by the rule of streams again, and extends the output before.
pub fn an_arrival_extends_the_output()
    ensures prefix { (law : FreeLaw) (flow : Flow Plain) (arrival : Arrival Plain) → MayArrive law flow arrival → IsPrefix flow.output → IsPrefix (arrived law flow arrival).output }
    ensures extends { (law : FreeLaw) (flow : Flow Plain) (arrival : Arrival Plain) → MayArrive law flow arrival → IsExtendedBy flow.output (arrived law flow arrival).output }
{}

/// Each arrival of a log that is lawful so far may come. The output that a log gives is a prefix by the rule of streams, also if it has
/// ended. The output of a longer log extends it.
pub fn a_logs_output_is_a_prefix()
    ensures may { (law : FreeLaw) (inputs : List (StreamPrefix Plain)) (log : List (Arrival Plain)) → length inputs ≡ ports_of law → All IsPrefix inputs
        → IsLawfulSoFar inputs log → MayAllArrive law begun log }
    ensures prefix { (law : FreeLaw) (log : List (Arrival Plain)) → MayAllArrive law begun log → IsPrefix (flow_of law log).output }
    ensures ended { (law : FreeLaw) (inputs : List (StreamPrefix Plain)) (log : List (Arrival Plain)) → MayAllArrive law begun log → IsPrefix (output_of law inputs log) }
    ensures extends { (law : FreeLaw) (log more : List (Arrival Plain)) → MayAllArrive law begun (log ++ more)
        → IsExtendedBy (flow_of law log).output (flow_of law (log ++ more)).output }
{}

/// A free node lays at most as many packets as have arrived, and Limiter at most as many as have arrived at its first port. So if the
/// log is lawful so far, the output has no more packets than the inputs have together. The output of Limiter then has no more packets
/// than its first input has. A Limiter never has more packets in flight than it may have.
pub fn outputs_are_no_longer_than_logs()
    ensures first_come { (lanes : ℕ) (log : List (Arrival Plain)) → length (flow_of (FirstCome lanes) log).output.packets ≤ length log }
    ensures limiter { (most : ℕ) (log : List (Arrival Plain)) → length (flow_of (Limiter most) log).output.packets ≤ length (arrived_at 0 log) }
    ensures inputs { (law : FreeLaw) (inputs : List (StreamPrefix Plain)) (log : List (Arrival Plain)) → length inputs ≡ ports_of law → IsLawfulSoFar inputs log
        → length (flow_of law log).output.packets ≤ sum_by (λ s. length s.packets) (ending law inputs) }
    ensures in_flight { (most : ℕ) (log : List (Arrival Plain)) → (flow_of (Limiter most) log).in_flight ≤ most }
{}

/// In a round something more is taken, or all stays as it was. No more is ever taken than there is: the packets at the ports of the
/// free nodes, and one closing for each. A log that is lawful so far stays so after a round, and if the streams are extended. If a
/// round leaves all as it was, each log is lawful: all packets have arrived.
pub fn rounds_take_what_there_is()
    ensures rises { (laws : Laws) (split : FreePlan) (inputs : Inputs) (before after : List Taken) → length split.free ≡ length before → IsRound laws split inputs before after
        → (after ≡ before) ⊎ (taken_by_all before < taken_by_all after) }
    ensures lawful { (laws : Laws) (split : FreePlan) (inputs : Inputs) (before after : List Taken) (round : IsRound laws split inputs before after)
        → AreLawfulSoFar round.streams split.free before → AreLawfulSoFar round.streams split.free after }
    ensures grows { (streams later : List (StreamPrefix Plain)) (frees : List FreeNode) (takens : List Taken) → AreExtendedBy streams later
        → AreLawfulSoFar streams frees takens → AreLawfulSoFar later frees takens }
    ensures most { (streams : List (StreamPrefix Plain)) (frees : List FreeNode) (takens : List Taken) → AreLawfulSoFar streams frees takens
        → taken_by_all takens ≤ room_of_all streams frees }
    ensures rest { (laws : Laws) (split : FreePlan) (inputs : Inputs) (takens : List Taken) (round : IsRound laws split inputs takens takens)
        → AreLawfulSoFar round.streams split.free takens → AreLawful round.streams split.free takens }
{}

/// The rounds of a run end, whatever its batches are, and they always end with the same logs. The core's inputs then make a job. In the
/// job's solution the log of each free node is lawful. The output of each free node is what its law gives for its log, and is closed if
/// it has ended.
pub fn rounds_end()
    ensures ends { (laws : Laws) (plan : Plan) (inputs : Inputs) (later : List Inputs) → IsValidWithFree plan → InputsFit plan inputs → AreBatches plan inputs later
        → (last : List Taken) × AllRounds laws (split_of plan) (inputs ∷ later) (none_taken (split_of plan)) last }
    ensures one { (laws : Laws) (split : FreePlan) (batches : List Inputs) (before last other : List Taken) → AllRounds laws split batches before last → AllRounds laws split batches before other
        → last ≡ other }
    ensures come { (laws : Laws) (plan : Plan) (inputs : Inputs) (later : List Inputs) (last : List Taken) → IsValidWithFree plan → InputsFit plan inputs → AreBatches plan inputs later
        → AllRounds laws (split_of plan) (inputs ∷ later) (none_taken (split_of plan)) last → HasCome laws (split_of plan) (last_batch inputs later) last }
{}
