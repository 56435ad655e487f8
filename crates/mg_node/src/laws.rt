//! Laws of cells: each function does nothing, and its contract is the law.
ghost use Rattle.std.specs.Prelude.{◌≡◌, ◌≤◌, ◌<◌, ◌+◌, ◌^◌, ℕ, Option, Some, None, true, false, is_some, List, [], ◌∷◌, All, min, length, slice_get, slice_index_or};
ghost use Rattle.mg_time.specs.Time.{done};
ghost use Rattle.mg_value.specs.Payload.{Plain};
ghost use Rattle.mg_value.specs.declared.policy.Policy.{Policy};
ghost use Rattle.mg_settled.specs.Prefix.{StreamPrefix, IsPrefix, empty_prefix};
ghost use Rattle.mg_settled.specs.Extension.{AreExtendedBy};
ghost use Rattle.mg_settled.specs.Settled.{settled_sets, reach};
ghost use Rattle.mg_stream.specs.Queue.{count_of as counted};
ghost use Rattle.mg_calc.specs.Rules.{Laws};
ghost use Rattle.mg_calc.specs.declared.plan_node.PlanNode.{PlanNode};
ghost use Rattle.mg_calc.specs.Shape.{IsOuter};
ghost use Rattle.mg_calc.specs.Told.{BoxTold};
ghost use Rattle.mg_calc.specs.Equations.{sides_of, inputs_of, outcome_of as becomes};
ghost use Rattle.mg_calc.specs.Meaning.{count_of, fault_of};
ghost use Rattle.mg_node.specs.Ports.{ports_in, port_queue, next_time, first_waiting};
ghost use Rattle.mg_node.specs.Views.{IntakeView, WorkView, PerformedView, OutcomeView, EngineView};
ghost use Rattle.mg_node.specs.Job.{LoggedJob, Solves, ports_of, streams_at};
ghost use Rattle.mg_node.specs.Lawful.{Owner, of_node, of_input, StandForAll, LawfulEngine, LawfulIntake, LawfulWork, LawfulPerformed, LawfulOutcome, Agree, AreCell};
ghost use Rattle.mg_node.specs.Begun.{LawfulUnbegun, SomeUnbegun};
ghost use Rattle.mg_node.specs.Known.{IsKnown, IsKnownInput};
ghost use Rattle.mg_node.specs.Leaving.{NoneOut, HasCalculator, HasHanded, handed_told, first_handed};
ghost use Rattle.mg_node.specs.WindingUp.{WindsUp};
ghost use Rattle.mg_node.specs.Had.{HadCalls, HadFront, HadClose};
ghost use Rattle.mg_node.specs.Batches.{Grows};
ghost use Rattle.mg_node.specs.IntakeStanding.{Stays, IntakeGrows};
ghost use Rattle.mg_node.specs.Standing.{EngineGrows};
ghost use Rattle.mg_node.specs.Commits.{SomeJobHasEngine, Commits};
ghost use Rattle.mg_node.specs.Claims.{first_unrun, TakesAnswer, Claims};
ghost use Rattle.mg_node.specs.declared.claimed.Claimed.{Claimed};
ghost use Rattle.mg_node.specs.declared.pending.Pending.{Pending};
ghost use Rattle.mg_node.specs.Advances.{advanced};
ghost use Rattle.mg_node.specs.Out.{GoesOut, ComesBack, KeepsOut, PutsOut, KeepsSetUp};
ghost use Rattle.mg_node.specs.Windows.{has_ended, starts_ready};
ghost use Rattle.mg_node.specs.Resting.{IsResting, HasCome, HasCarried};
ghost use Rattle.mg_node.specs.Carried.{HasLaid, HasReached};
ghost use Rattle.mg_node.specs.Shelves.{IsOut, shelved, outcome_of, shelf_at, performed_of, Unshelves};

/// A performed work that was shelved is found in its window again. No work is found there if the work came back unrun.
pub fn what_is_shelved_is_found()
    ensures { (engine : EngineView) (outcome : OutcomeView) → IsOut engine outcome.work → shelf_at (shelved engine outcome) outcome.work.number ≡ performed_of outcome }
{}

/// After a work came back unrun, there is a work that a claim hands out again.
pub fn what_came_back_unrun_is_claimed()
    ensures { (engine : EngineView) (outcome : OutcomeView) → IsOut engine outcome.work → outcome.answer ≡ None → is_some (first_unrun 0 (shelved engine outcome).window) ≡ true }
{}

/// The time below which no further set is claimed is the least of how far the sets reach and of the first time that waits.
pub fn horizons_are_least_times()
    ensures { (policy : Policy) (ss : List (StreamPrefix Plain)) → All IsPrefix ss
        → next_time (slice_get (settled_sets policy ss) 0) (reach policy ss) ≡ min (reach policy ss) (first_waiting policy ss) }
{}

/// If no work is out, the engine of a node with a user-supplied calculator has that calculator and no other. The calculator is idle, or
/// stands in an outcome in the window.
pub fn what_is_handed_in_is_there()
    ensures { (laws : Laws) (job : LoggedJob laws) (number : ℕ) (node : PlanNode) (engine : EngineView) → LawfulEngine job (of_node number) engine
        → slice_get job.job.plan.nodes number ≡ Some node → is_some node.box_number ≡ true → NoneOut engine → HasCalculator job node engine }
{}

/// The engine of a node with a user-supplied calculator has that calculator before it is begun, too, beside those that it makes itself.
pub fn what_is_handed_in_waits_to_begin()
    ensures { (laws : Laws) (job : LoggedJob laws) (number : ℕ) (node : PlanNode) (engine : EngineView) → LawfulUnbegun job number engine
        → slice_get job.job.plan.nodes number ≡ Some node → is_some node.box_number ≡ true → HasHanded job number node engine }
{}

/// While the input of a run comes in batches, parts stay lawful. A part that is lawful for the job of the lines so far is lawful for the
/// job of more lines. The engine of a graph input isn't among these parts: its output is the job's whole stream of that input.
pub fn stays_lawful()
    ensures intake { (laws : Laws) (first later : LoggedJob laws) (consumer : ℕ) (intake : IntakeView) → Grows first later → LawfulIntake first consumer intake → LawfulIntake later consumer intake }
    ensures engine { (laws : Laws) (first later : LoggedJob laws) (number : ℕ) (engine : EngineView) → Grows first later → LawfulEngine first (of_node number) engine → LawfulEngine later (of_node number) engine }
    ensures unbegun { (laws : Laws) (first later : LoggedJob laws) (number : ℕ) (engine : EngineView) → Grows first later → LawfulUnbegun first number engine → LawfulUnbegun later number engine }
    ensures work { (laws : Laws) (first later : LoggedJob laws) (work : WorkView) → Grows first later → LawfulWork first work → LawfulWork later work }
    ensures performed { (laws : Laws) (first later : LoggedJob laws) (performed : PerformedView) → Grows first later → LawfulPerformed first performed → LawfulPerformed later performed }
    ensures outcome { (laws : Laws) (first later : LoggedJob laws) (outcome : OutcomeView) → Grows first later → LawfulOutcome first outcome → LawfulOutcome later outcome }
{}

/// A performed work that was taken out of a window can be put back, which leaves the engine as it was.
pub fn what_is_taken_can_be_put_back()
    ensures { (laws : Laws) (job : LoggedJob laws) (owner : ℕ) (engine engine_now : EngineView) (number : ℕ) (p : PerformedView) → LawfulEngine job (of_node owner) engine
        → shelf_at engine number ≡ Some p → Unshelves (Some p) engine engine_now number → shelved engine_now (outcome_of p) ≡ engine }
{}

/// The engine of a node has a node of the plan, and is set up by it.
pub fn engines_are_known()
    ensures there { (laws : Laws) (job : LoggedJob laws) (number : ℕ) (engine : EngineView) → LawfulEngine job (of_node number) engine → number < length job.job.plan.nodes }
    ensures known { (laws : Laws) (job : LoggedJob laws) (number : ℕ) (engine : EngineView) (node : PlanNode) → LawfulEngine job (of_node number) engine
        → slice_get job.job.plan.nodes number ≡ Some node → IsKnown node number engine }
{}

/// The engine of a graph input has its number, and one output.
pub fn engines_of_inputs_are_known()
    ensures { (laws : Laws) (job : LoggedJob laws) (number : ℕ) (engine : EngineView) → LawfulEngine job (of_input number) engine → IsKnownInput job number engine }
{}

/// An engine that goes on has nothing ready at the front of its window: what is committed there is laid.
pub fn what_is_ready_is_laid()
    ensures { (laws : Laws) (job : LoggedJob laws) (number : ℕ) (engine : EngineView) → LawfulEngine job (of_node number) engine
        → has_ended engine ≡ false → starts_ready engine.window ≡ false }
{}

/// An intake has a port for each stream that its consumer reads.
pub fn ports_are_known()
    ensures { (laws : Laws) (job : LoggedJob laws) (consumer : ℕ) (intake : IntakeView) → LawfulIntake job consumer intake
        → ports_in intake.waits ≡ length (ports_of job.job.plan consumer) }
{}

/// The packets that wait at a port are few: a number of 64 bits counts them and one more.
pub fn few_wait()
    ensures { (laws : Laws) (job : LoggedJob laws) (consumer port : ℕ) (intake : IntakeView) → LawfulIntake job consumer intake
        → length (port_queue intake.waits port).packets + 1 < 2 ^ 64 }
{}

/// Counts fit in 64 bits, and bounds are times.
pub fn numbers_are_small()
    ensures claimed { (laws : Laws) (job : LoggedJob laws) (owner : Owner) (engine : EngineView) → LawfulEngine job owner engine → engine.claimed < 2 ^ 64 }
    ensures bounds { (laws : Laws) (job : LoggedJob laws) (owner : Owner) (engine : EngineView) → LawfulEngine job owner engine → All (λ b. b.bound ≤ done) engine.outputs }
    ensures counts { (laws : Laws) (job : LoggedJob laws) (consumer port : ℕ) (intake : IntakeView) → LawfulIntake job consumer intake → counted (port_queue intake.waits port) < 2 ^ 64 }
    ensures port_bounds { (laws : Laws) (job : LoggedJob laws) (consumer port : ℕ) (intake : IntakeView) → LawfulIntake job consumer intake → (port_queue intake.waits port).bound ≤ done }
{}

/// No more sets, calls or answers of a node are claimed than the solution counts and, beyond these, may be in flight.
pub fn claims_are_counted()
    ensures { (laws : Laws) (job : LoggedJob laws) (number : ℕ) (node : PlanNode) (engine : EngineView) (solution : List (StreamPrefix Plain)) → Solves job solution
        → slice_get job.job.plan.nodes number ≡ Some node → LawfulEngine job (of_node number) engine → engine.claimed ≤ count_of job.job solution node + node.in_flight }
{}

/// A commit leaves as many outputs as before, and the engine's standing only grows.
pub fn outputs_only_rise()
    ensures grows { (laws : Laws) (outcome : OutcomeView) (laid : ℕ) (before now : EngineView) → SomeJobHasEngine laws before → Commits outcome laid before now → EngineGrows before now }
    ensures same { (outcome : OutcomeView) (laid : ℕ) (before now : EngineView) → Commits outcome laid before now → length now.outputs ≡ length before.outputs }
{}

/// What a claim answers and leaves tells which works are out then. The engine stays as it was set up, and each port counts as many packets
/// as before. Both standings grow.
pub fn claims_put_works_out()
    ensures out { (laws : Laws) (result : Claimed ℕ) (engine engine_now : EngineView) (intake intake_now : IntakeView) → AreCell laws engine intake
        → Claims result engine engine_now intake intake_now → PutsOut result engine engine_now }
    ensures set_up { (result : Claimed ℕ) (engine engine_now : EngineView) (intake intake_now : IntakeView)
        → Claims result engine engine_now intake intake_now → KeepsSetUp engine engine_now }
    ensures ports { (result : Claimed ℕ) (engine engine_now : EngineView) (intake intake_now : IntakeView)
        → Claims result engine engine_now intake intake_now → (port : ℕ) → Stays (port_queue intake.waits port) (port_queue intake_now.waits port) }
    ensures engine_grows { (laws : Laws) (result : Claimed ℕ) (engine engine_now : EngineView) (intake intake_now : IntakeView) → AreCell laws engine intake
        → Claims result engine engine_now intake intake_now → EngineGrows engine engine_now }
    ensures intake_grows { (laws : Laws) (result : Claimed ℕ) (engine engine_now : EngineView) (intake intake_now : IntakeView) → AreCell laws engine intake
        → Claims result engine engine_now intake intake_now → IntakeGrows intake intake_now }
{}

/// A work that is committed, or shelved, is out no more. A work that is found in its window and taken is out again. All other works that
/// were out stay so, and the engine stays as it was set up.
pub fn works_come_back_one_by_one()
    ensures committed { (laws : Laws) (outcome : OutcomeView) (laid : ℕ) (before now : EngineView) → IsOut before outcome.work → SomeJobHasEngine laws before
        → Commits outcome laid before now → ComesBack before now outcome.work.number }
    ensures committed_set_up { (outcome : OutcomeView) (laid : ℕ) (before now : EngineView) → Commits outcome laid before now → KeepsSetUp before now }
    ensures shelved { (engine : EngineView) (outcome : OutcomeView) → IsOut engine outcome.work → ComesBack engine (shelved engine outcome) outcome.work.number }
    ensures shelved_set_up { (engine : EngineView) (outcome : OutcomeView) → KeepsSetUp engine (shelved engine outcome) }
    ensures shelved_grows { (engine : EngineView) (outcome : OutcomeView) → EngineGrows engine (shelved engine outcome) }
    ensures taken { (laws : Laws) (job : LoggedJob laws) (owner number : ℕ) (engine engine_now : EngineView) (p : PerformedView) → LawfulEngine job (of_node owner) engine
        → shelf_at engine number ≡ Some p → Unshelves (Some p) engine engine_now number → GoesOut engine engine_now p.work }
    ensures taken_set_up { (found : Option PerformedView) (number : ℕ) (engine engine_now : EngineView) → Unshelves found engine engine_now number → KeepsSetUp engine engine_now }
    ensures taken_grows { (found : Option PerformedView) (number : ℕ) (engine engine_now : EngineView) → Unshelves found engine engine_now number → EngineGrows engine engine_now }
{}

/// An advance leaves the same works out, and the engine as it was set up; and the engine's standing grows.
pub fn advances_leave_works_out()
    ensures out { (engine : EngineView) (waits : Pending) → KeepsOut engine (advanced engine waits) }
    ensures set_up { (engine : EngineView) (waits : Pending) → KeepsSetUp engine (advanced engine waits) }
    ensures grows { (engine : EngineView) (waits : Pending) → EngineGrows engine (advanced engine waits) }
{}

/// The growth of standings is transitive and reflexive.
pub fn standings_grow_on()
    ensures engine { (first second third : EngineView) → EngineGrows first second → EngineGrows second third → EngineGrows first third }
    ensures intake { (first second third : IntakeView) → IntakeGrows first second → IntakeGrows second third → IntakeGrows first third }
    ensures same_engine { (engine : EngineView) → EngineGrows engine engine }
    ensures same_intake { (intake : IntakeView) → IntakeGrows intake intake }
{}

/// An answer of a loopback leaves as many packets counted at both ports as before, and the same bounds.
pub fn what_is_answered_stays_counted()
    ensures { (engine engine_now : EngineView) (intake intake_now : IntakeView) (port : ℕ) → TakesAnswer engine engine_now intake intake_now
        → Stays (port_queue intake.waits port) (port_queue intake_now.waits port) }
{}

/// An engine that isn't begun may be begun with the side packets that its job has for its node.
pub fn what_is_unbegun_may_begin()
    ensures { (laws : Laws) (job : LoggedJob laws) (number : ℕ) (node : PlanNode) (sides : List (Option Plain)) (engine : EngineView) → LawfulUnbegun job number engine
        → slice_get job.job.plan.nodes number ≡ Some node → sides ≡ sides_of job.job node → SomeUnbegun laws sides engine }
{}

/// A cell that can go no further meets its equation: what it laid extends all that becomes of its node from what came.
pub fn what_rests_meets_its_equation()
    ensures { (laws : Laws) (job : LoggedJob laws) (number : ℕ) (node : PlanNode) (engine : EngineView) (intake : IntakeView) (solution streams laid : List (StreamPrefix Plain))
        → slice_get job.job.plan.nodes number ≡ Some node → LawfulEngine job (of_node number) engine → LawfulIntake job number intake → Agree engine intake
        → IsResting engine intake → HasCarried job solution streams node engine intake laid → AreExtendedBy (becomes job.job streams node).outputs laid }
{}

/// A node that has ended has the solution's count, its fault, and its streams.
pub fn what_has_ended_has_the_solution()
    ensures count { (laws : Laws) (job : LoggedJob laws) (number : ℕ) (node : PlanNode) (engine : EngineView) (solution : List (StreamPrefix Plain)) → Solves job solution
        → slice_get job.job.plan.nodes number ≡ Some node → LawfulEngine job (of_node number) engine → has_ended engine ≡ true → engine.laid ≡ count_of job.job solution node }
    ensures fault { (laws : Laws) (job : LoggedJob laws) (number : ℕ) (node : PlanNode) (engine : EngineView) (solution : List (StreamPrefix Plain)) → Solves job solution
        → slice_get job.job.plan.nodes number ≡ Some node → LawfulEngine job (of_node number) engine → has_ended engine ≡ true → engine.fault ≡ fault_of job.job solution (number, node) }
    ensures streams { (laws : Laws) (job : LoggedJob laws) (number : ℕ) (node : PlanNode) (engine : EngineView) (solution : List (StreamPrefix Plain)) → Solves job solution
        → slice_get job.job.plan.nodes number ≡ Some node → LawfulEngine job (of_node number) engine → has_ended engine ≡ true → StandForAll engine.outputs (streams_at solution node.outputs) }
{}

/// The solution's streams extend what was laid at the outputs of a node. What was laid at the output of a graph input is the input's
/// stream.
pub fn what_is_laid_is_of_the_solution()
    ensures node { (laws : Laws) (job : LoggedJob laws) (number : ℕ) (node : PlanNode) (engine : EngineView) (solution : List (StreamPrefix Plain)) → Solves job solution
        → slice_get job.job.plan.nodes number ≡ Some node → LawfulEngine job (of_node number) engine → HasLaid engine (streams_at solution node.outputs) }
    ensures input { (laws : Laws) (job : LoggedJob laws) (number : ℕ) (engine : EngineView) (solution : List (StreamPrefix Plain)) → Solves job solution
        → LawfulEngine job (of_input number) engine → StandForAll engine.outputs (slice_index_or solution number empty_prefix ∷ []) }
{}

/// The solution's streams extend what came at the ports of a consumer.
pub fn what_came_is_of_the_solution()
    ensures { (laws : Laws) (job : LoggedJob laws) (consumer : ℕ) (intake : IntakeView) (solution : List (StreamPrefix Plain)) → Solves job solution
        → LawfulIntake job consumer intake → HasReached intake (streams_at solution (ports_of job.job.plan consumer)) }
{}

/// A cell that can go no further, to which the solution's streams came in whole, has the solution's count and its fault.
pub fn what_rests_has_the_solution()
    ensures count { (laws : Laws) (job : LoggedJob laws) (number : ℕ) (node : PlanNode) (engine : EngineView) (intake : IntakeView) (solution : List (StreamPrefix Plain)) → Solves job solution
        → slice_get job.job.plan.nodes number ≡ Some node → LawfulEngine job (of_node number) engine → LawfulIntake job number intake → Agree engine intake
        → IsResting engine intake → HasCome intake (inputs_of solution node) → engine.laid ≡ count_of job.job solution node }
    ensures fault { (laws : Laws) (job : LoggedJob laws) (number : ℕ) (node : PlanNode) (engine : EngineView) (intake : IntakeView) (solution : List (StreamPrefix Plain)) → Solves job solution
        → slice_get job.job.plan.nodes number ≡ Some node → LawfulEngine job (of_node number) engine → LawfulIntake job number intake → Agree engine intake
        → IsResting engine intake → HasCome intake (inputs_of solution node) → engine.fault ≡ fault_of job.job solution (number, node) }
{}

/// Once a run came to rest and was wound up, the user-supplied calculator of a node had all its calls, and keeps what these leave.
pub fn what_was_wound_up_had_its_calls()
    ensures { (laws : Laws) (job : LoggedJob laws) (number : ℕ) (node : PlanNode) (engine engine_now : EngineView) (intake : IntakeView) (solution : List (StreamPrefix Plain)) → Solves job solution
        → slice_get job.job.plan.nodes number ≡ Some node → is_some node.box_number ≡ true → IsOuter node.law → LawfulEngine job (of_node number) engine → LawfulIntake job number intake
        → Agree engine intake → IsResting engine intake → HasCome intake (inputs_of solution node) → WindsUp laws engine engine_now
        → (told : BoxTold) × (first_handed engine_now ≡ Some told) × HadCalls job solution node told }
{}

/// At any time the user-supplied calculator of a node had a prefix of its node's calls, and perhaps Close after them. It may stand anywhere
/// in its cell.
pub fn what_is_under_way_had_a_front()
    ensures engine { (laws : Laws) (job : LoggedJob laws) (number : ℕ) (node : PlanNode) (engine : EngineView) (solution : List (StreamPrefix Plain)) (told : BoxTold) → Solves job solution
        → slice_get job.job.plan.nodes number ≡ Some node → is_some node.box_number ≡ true → IsOuter node.law → LawfulEngine job (of_node number) engine
        → first_handed engine ≡ Some told → HadFront job solution node told }
    ensures unbegun { (laws : Laws) (job : LoggedJob laws) (number : ℕ) (node : PlanNode) (engine : EngineView) (solution : List (StreamPrefix Plain)) (told : BoxTold) → Solves job solution
        → slice_get job.job.plan.nodes number ≡ Some node → is_some node.box_number ≡ true → IsOuter node.law → LawfulUnbegun job number engine
        → first_handed engine ≡ Some told → HadFront job solution node told }
    ensures work { (laws : Laws) (job : LoggedJob laws) (number : ℕ) (node : PlanNode) (engine : EngineView) (work : WorkView) (solution : List (StreamPrefix Plain)) (told : BoxTold) → Solves job solution
        → slice_get job.job.plan.nodes number ≡ Some node → is_some node.box_number ≡ true → IsOuter node.law → LawfulEngine job (of_node number) engine → LawfulWork job work
        → work.node ≡ number → IsOut engine work → handed_told work.context.told ≡ Some told → HadFront job solution node told }
    ensures wound { (laws : Laws) (job : LoggedJob laws) (number : ℕ) (node : PlanNode) (engine engine_now : EngineView) (solution : List (StreamPrefix Plain)) (told : BoxTold) → Solves job solution
        → slice_get job.job.plan.nodes number ≡ Some node → is_some node.box_number ≡ true → IsOuter node.law → LawfulEngine job (of_node number) engine → WindsUp laws engine engine_now
        → first_handed engine_now ≡ Some told → HadFront job solution node told }
{}

/// Once an engine was wound up, a calculator of its node that stands there isn't left open, whatever had been done. It had Close after Open
/// and some of its sets, or its Open failed. A calculator whose work is out doesn't stand there.
pub fn what_was_wound_up_had_close()
    ensures { (laws : Laws) (job : LoggedJob laws) (number : ℕ) (node : PlanNode) (engine engine_now : EngineView) (solution : List (StreamPrefix Plain)) (told : BoxTold) → Solves job solution
        → slice_get job.job.plan.nodes number ≡ Some node → is_some node.box_number ≡ true → IsOuter node.law → LawfulEngine job (of_node number) engine → WindsUp laws engine engine_now
        → first_handed engine_now ≡ Some told → HadClose job solution node told }
{}
