//! Laws of the definitions: each function does nothing, and its contract is the law.
ghost use Rattle.std.specs.Prelude.{◌≡◌, ◌⊎◌, ℕ, ◌+◌, ◌-◌, ◌<◌, ◌≤◌, Bool, true, false, List, length, map, All, Option, Some, None, slice_get};
ghost use Rattle.mg_value.specs.Payload.{Plain};
ghost use Rattle.mg_value.specs.Packet.{Stamped};
ghost use Rattle.mg_value.specs.declared.policy.Policy.TheVariants.{Default};
ghost use Rattle.mg_settled.specs.Prefix.{StreamPrefix};
ghost use Rattle.mg_settled.specs.Ends.{end_of};
ghost use Rattle.mg_settled.specs.Extension.{IsExtendedBy};
ghost use Rattle.mg_settled.specs.Settled.{settled_sets, inputs_of};
ghost use Rattle.mg_stream.specs.Queue.{StandsFor as IsQueueOf};
ghost use Rattle.mg_calc.specs.Rules.{Laws};
ghost use Rattle.mg_calc.specs.declared.plan_node.PlanNode.{PlanNode};
ghost use Rattle.mg_calc.specs.declared.plan_stream.PlanStream.{PlanStream};
ghost use Rattle.mg_calc.specs.Equations.{stream_of};
ghost use Rattle.mg_calc.specs.Told.{BoxTold};
ghost use Rattle.mg_calc.specs.Shape.{IsOuter};
ghost use Rattle.mg_calc.specs.Meaning.{count_of, fault_of, counts, faults, weight};
ghost use Rattle.mg_calc.specs.declared.inputs.Inputs.{Inputs};
ghost use Rattle.mg_stream.specs.Pool.{Backlog};
ghost use Rattle.mg_node.specs.Looking.{kept_packet};
ghost use Rattle.mg_node.specs.Views.{IntakeView, EngineView};
ghost use Rattle.mg_node.specs.Outputs.{laid_at};
ghost use Rattle.mg_node.specs.Intakes.{next_set_of};
ghost use Rattle.mg_node.specs.Job.{LoggedJob, Solves, ports_of, streams_at};
ghost use Rattle.mg_node.specs.Resting.{HasCome};
ghost use Rattle.mg_node.specs.Had.{HadCalls, HadFront, HadClose};
ghost use Rattle.mg_node.specs.Batches.{Grows};
ghost use Rattle.mg_sched.specs.Views.{NetView};
ghost use Rattle.mg_sched.specs.Places.{place_of};
ghost use Rattle.mg_sched.specs.StandsFor.{StandsFor, StandsForSome, IsRunning};
ghost use Rattle.mg_sched.specs.AtRest.{IsAtRest};
ghost use Rattle.mg_sched.specs.Sweeps.{Becomes};
ghost use Rattle.mg_sched.specs.Taking.{collector_of, taken_out, TakesOut, settled_outputs, HasAllOutputs, LeavesNodes};
ghost use Rattle.mg_sched.specs.WindsUp.{WindsUpNet};
ghost use Rattle.mg_sched.specs.Begins.{BeginsNet};
ghost use Rattle.mg_sched.specs.Extends.{MayGoOnWith, Extends};
ghost use Rattle.mg_sched.specs.Trims.{is_kept, Trims};
ghost use Rattle.mg_sched.specs.Looks.{IsOutputOf, HasFrom};
ghost use Rattle.mg_sched.specs.GivesBack.{given_back, StoodFor};
ghost use Rattle.mg_sched.specs.Reports.{claimed_in, report_of};
ghost use Rattle.mg_sched.specs.ComesApart.{PartsView, NoneOnWorkQueues, ArePartsOf, IsInPlace};
ghost use Rattle.mg_calc.specs.declared.edge.Edge.{Edge};

/// A net that can go no further has the solution, in whatever order its steps were made. What is laid at each output is the solution's
/// stream in whole. So is what came at each port of a node or of the collector. Each node has laid as many sets, calls or answers as the
/// solution counts. The fault of each node is the solution's.
pub fn what_rests_is_the_solution()
    ensures streams { (laws : Laws) (job : LoggedJob laws) (net : NetView) (solution : List (StreamPrefix Plain)) (number : ℕ) (stream : PlanStream) (engine : EngineView)
        → StandsFor job net → IsRunning net → IsAtRest laws net → Solves job solution
        → slice_get net.plan.streams number ≡ Some stream → slice_get net.engines (place_of net.plan stream.producer) ≡ Some engine
        → IsQueueOf (laid_at engine (number - engine.first)) (stream_of solution number) }
    ensures inputs { (laws : Laws) (job : LoggedJob laws) (net : NetView) (solution : List (StreamPrefix Plain)) (consumer : ℕ) (intake : IntakeView)
        → StandsFor job net → IsRunning net → IsAtRest laws net → Solves job solution
        → consumer ≤ length net.plan.nodes → slice_get net.intakes consumer ≡ Some intake → HasCome intake (streams_at solution (ports_of net.plan consumer)) }
    ensures counts { (laws : Laws) (job : LoggedJob laws) (net : NetView) (solution : List (StreamPrefix Plain)) (number : ℕ) (node : PlanNode) (engine : EngineView)
        → StandsFor job net → IsRunning net → IsAtRest laws net → Solves job solution
        → slice_get net.plan.nodes number ≡ Some node → slice_get net.engines number ≡ Some engine → engine.laid ≡ count_of job.job solution node }
    ensures faults { (laws : Laws) (job : LoggedJob laws) (net : NetView) (solution : List (StreamPrefix Plain)) (number : ℕ) (node : PlanNode) (engine : EngineView)
        → StandsFor job net → IsRunning net → IsAtRest laws net → Solves job solution
        → slice_get net.plan.nodes number ≡ Some node → slice_get net.engines number ≡ Some engine → engine.fault ≡ fault_of job.job solution (number, node) }
{}

/// The nodes of a net have claimed at most as many sets, calls and answers, all together, as the weight of its job is.
pub fn claims_are_within_the_weight()
    ensures { (laws : Laws) (job : LoggedJob laws) (net : NetView) (solution : List (StreamPrefix Plain))
        → StandsFor job net → IsRunning net → Solves job solution → claimed_in net ≤ weight job.job solution }
{}

/// The next set that the collector of a net at rest gives is the solution's set of the same number. It gives none if the solution has no
/// set of that number. So repeated `take_out` gives the settled sets of the graph's outputs, from the first set that wasn't taken.
pub fn what_is_left_to_take()
    ensures next { (laws : Laws) (job : LoggedJob laws) (net : NetView) (solution : List (StreamPrefix Plain)) (intake : IntakeView)
        → StandsFor job net → IsRunning net → IsAtRest laws net → Solves job solution
        → collector_of net ≡ Some intake → next_set_of intake.waits ≡ slice_get (settled_outputs net.plan solution) intake.claimed }
    ensures all { (laws : Laws) (job : LoggedJob laws) (net : NetView) (solution : List (StreamPrefix Plain)) (intake : IntakeView)
        → StandsFor job net → IsRunning net → IsAtRest laws net → Solves job solution
        → collector_of net ≡ Some intake → next_set_of intake.waits ≡ None → intake.claimed ≡ length (settled_outputs net.plan solution) }
{}

/// The report of a net at rest is that of the solution.
pub fn what_rests_reports_the_solution()
    ensures sets { (laws : Laws) (job : LoggedJob laws) (net : NetView) (solution : List (StreamPrefix Plain))
        → StandsFor job net → IsRunning net → IsAtRest laws net → Solves job solution → (report_of net).sets ≡ counts job.job solution }
    ensures faults { (laws : Laws) (job : LoggedJob laws) (net : NetView) (solution : List (StreamPrefix Plain))
        → StandsFor job net → IsRunning net → IsAtRest laws net → Solves job solution → (report_of net).faults ≡ faults job.job solution }
    ensures streams { (laws : Laws) (job : LoggedJob laws) (net : NetView) (solution : List (StreamPrefix Plain))
        → StandsFor job net → IsRunning net → IsAtRest laws net → Solves job solution → (report_of net).streams ≡ map end_of solution }
{}

/// Each edge of the parts of one net leads from an engine that has the edge's stream. It leads to the port of that stream, and no other
/// edge leads to this port.
pub fn edges_of_parts_are_in_place()
    ensures { (laws : Laws) (job : LoggedJob laws) (parts : PartsView) (number : ℕ) (e : Edge) → ArePartsOf job parts → slice_get parts.plan.edges number ≡ Some e
        → IsInPlace parts number e }
{}

/// No step changes the plan or the calculators that no node uses, begins a node, or takes a set from the collector.
pub fn steps_leave_what_no_node_uses()
    ensures plan { (laws : Laws) (before now : NetView) → Becomes laws before now → now.plan ≡ before.plan }
    ensures spare { (laws : Laws) (before now : NetView) → Becomes laws before now → now.spare ≡ before.spare }
    ensures begun { (laws : Laws) (before now : NetView) → Becomes laws before now → now.begun ≡ before.begun }
    ensures taken { (laws : Laws) (before now : NetView) → Becomes laws before now → taken_out now ≡ taken_out before }
{}

/// A set that is taken from the collector is counted, and leaves the nodes as they are. If no set is taken nothing changes. At no time more
/// sets are taken than the solution has. The solution's sets are those that the default policy settles at the graph's outputs.
pub fn takings_are_counted()
    ensures takes { (set set_now : List (Option (Stamped Plain))) (before now : NetView) → TakesOut true set set_now before now → taken_out now ≡ taken_out before + 1 }
    ensures nothing { (set set_now : List (Option (Stamped Plain))) (before now : NetView) → TakesOut false set set_now before now → (now ≡ before) × (set_now ≡ set) }
    ensures left { (taken : Bool) (set set_now : List (Option (Stamped Plain))) (before now : NetView) → TakesOut taken set set_now before now → LeavesNodes before now }
    ensures few { (laws : Laws) (job : LoggedJob laws) (solution : List (StreamPrefix Plain)) (net : NetView) → StandsFor job net → Solves job solution
        → taken_out net ≤ length (settled_outputs net.plan solution) }
    ensures outputs { (laws : Laws) (job : LoggedJob laws) (solution : List (StreamPrefix Plain)) → Solves job solution
        → settled_outputs job.job.plan solution ≡ settled_sets Default (inputs_of solution job.job.plan.outputs) }
{}

/// All sets that the solution has at the graph's outputs can be taken from a net at rest. The collector has got all of these streams, and
/// that stays so when a set is taken. Once there is no set to take, as many were taken as the solution has.
pub fn all_outputs_are_taken()
    ensures rest { (laws : Laws) (job : LoggedJob laws) (solution : List (StreamPrefix Plain)) (net : NetView) → StandsFor job net → IsRunning net → IsAtRest laws net → Solves job solution
        → HasAllOutputs solution net }
    ensures kept { (laws : Laws) (job : LoggedJob laws) (solution : List (StreamPrefix Plain)) (taken : Bool) (set set_now : List (Option (Stamped Plain))) (before now : NetView)
        → StandsFor job before → Solves job solution → HasAllOutputs solution before → TakesOut taken set set_now before now → HasAllOutputs solution now }
    ensures all { (laws : Laws) (job : LoggedJob laws) (solution : List (StreamPrefix Plain)) (set set_now : List (Option (Stamped Plain))) (net now : NetView)
        → StandsFor job net → Solves job solution → HasAllOutputs solution net → TakesOut false set set_now net now → taken_out net ≡ length (settled_outputs net.plan solution) }
{}

/// A change that leaves the nodes of a net as they were, such as taking a set, leaves its report as it was. Two such changes, one after the
/// other, are such a change too.
pub fn what_leaves_nodes_leaves_the_report()
    ensures itself { (net : NetView) → LeavesNodes net net }
    ensures further { (before between now : NetView) → LeavesNodes before between → LeavesNodes between now → LeavesNodes before now }
    ensures report { (before now : NetView) → LeavesNodes before now → report_of now ≡ report_of before }
{}

/// A net that came to rest, perhaps had sets taken, and was wound up gives back each calculator in its place. The calculator of a node has
/// had all its calls. A calculator that no node uses is as it lay.
pub fn what_comes_back_had_its_calls()
    ensures used { (laws : Laws) (job : LoggedJob laws) (rested net wound : NetView) (solution : List (StreamPrefix Plain)) (number place : ℕ) (node : PlanNode)
        → StandsFor job rested → IsRunning rested → IsAtRest laws rested → Solves job solution
        → LeavesNodes rested net → WindsUpNet laws net wound → wound.wound ≡ length net.plan.nodes
        → slice_get net.plan.nodes number ≡ Some node → node.box_number ≡ Some place → IsOuter node.law
        → (told : BoxTold) × (slice_get (given_back wound) place ≡ Some told) × HadCalls job solution node told }
    ensures count { (laws : Laws) (job : LoggedJob laws) (net : NetView) → StoodFor job net → length (given_back net) ≡ length job.boxes }
    ensures unused { (laws : Laws) (job : LoggedJob laws) (net : NetView) (place : ℕ) (told : BoxTold) → StoodFor job net
        → slice_get net.spare place ≡ Some (Some told) → slice_get (given_back net) place ≡ Some told }
    ensures unused_there { (laws : Laws) (job : LoggedJob laws) (net : NetView) (place : ℕ) → StandsFor job net → place < length job.boxes
        → All (λ n. ¬ (n.box_number ≡ Some place)) net.plan.nodes → (told : BoxTold) × (slice_get net.spare place ≡ Some (Some told)) }
{}

/// Whenever a run ends, the calculator of a node comes back with a prefix of the calls that it has in the solution. This is true of the
/// solution of the net's job, and of that of every job with more lines.
pub fn what_comes_back_had_a_front()
    ensures { (laws : Laws) (job later : LoggedJob laws) (net : NetView) (solution : List (StreamPrefix Plain)) (number place : ℕ) (node : PlanNode)
        → StoodFor job net → (later ≡ job) ⊎ Grows job later → Solves later solution
        → slice_get net.plan.nodes number ≡ Some node → node.box_number ≡ Some place → IsOuter node.law
        → (told : BoxTold) × (slice_get (given_back net) place ≡ Some told) × HadFront later solution node told }
{}

/// Wherever a run ends, no calculator is left open once no work lies in a work queue and all nodes are wound up. The calculator of a node
/// comes back with Close after Open and some of its sets, or its Open failed.
pub fn what_comes_back_had_close()
    ensures { (laws : Laws) (job : LoggedJob laws) (net wound : NetView) (solution : List (StreamPrefix Plain)) (number place : ℕ) (node : PlanNode)
        → StandsFor job net → IsRunning net → NoneOnWorkQueues net → WindsUpNet laws net wound → wound.wound ≡ length net.plan.nodes → Solves job solution
        → slice_get net.plan.nodes number ≡ Some node → node.box_number ≡ Some place → IsOuter node.law
        → (told : BoxTold) × (slice_get (given_back wound) place ≡ Some told) × HadClose job solution node told }
{}

/// However far a net that stands for a job has come, the solution's streams extend its streams. What is laid of each stream, with the
/// packets that were given up, is a prefix that the solution's stream extends.
pub fn streams_are_extended_by_the_solution()
    ensures { (laws : Laws) (job : LoggedJob laws) (net : NetView) (solution : List (StreamPrefix Plain)) (number : ℕ) (stream : PlanStream) (engine : EngineView)
        → StandsFor job net → IsRunning net → Solves job solution
        → slice_get net.plan.streams number ≡ Some stream → slice_get net.engines (place_of net.plan stream.producer) ≡ Some engine
        → (laid : StreamPrefix Plain) × IsQueueOf (laid_at engine (number - engine.first)) laid × IsExtendedBy laid (stream_of solution number) }
{}

/// Two nets at rest that stand for one job are alike, in whatever order the steps of each were made. Their reports are equal: the counts,
/// the faults, and how far each stream came. What they have laid of each stream is one stream. If as many sets of the graph's outputs were
/// taken from each, the next set is the same.
pub fn nets_at_rest_for_one_job_are_alike()
    ensures report { (laws : Laws) (job : LoggedJob laws) (net other : NetView) → StandsFor job net → IsRunning net → IsAtRest laws net
        → StandsFor job other → IsRunning other → IsAtRest laws other → report_of net ≡ report_of other }
    ensures streams { (laws : Laws) (job : LoggedJob laws) (net other : NetView) (number : ℕ) (stream : PlanStream) (engine twin : EngineView)
        → StandsFor job net → IsRunning net → IsAtRest laws net → StandsFor job other → IsRunning other → IsAtRest laws other
        → slice_get net.plan.streams number ≡ Some stream
        → slice_get net.engines (place_of net.plan stream.producer) ≡ Some engine → slice_get other.engines (place_of other.plan stream.producer) ≡ Some twin
        → (laid : StreamPrefix Plain) × IsQueueOf (laid_at engine (number - engine.first)) laid × IsQueueOf (laid_at twin (number - twin.first)) laid }
    ensures outputs { (laws : Laws) (job : LoggedJob laws) (net other : NetView) (intake twin : IntakeView)
        → StandsFor job net → IsRunning net → IsAtRest laws net → StandsFor job other → IsRunning other → IsAtRest laws other
        → collector_of net ≡ Some intake → collector_of other ≡ Some twin → intake.claimed ≡ twin.claimed
        → next_set_of intake.waits ≡ next_set_of twin.waits }
{}

/// What can be read of a stream stays there. No step gives up anything of it, and neither does the begin of nodes or further input. A trim
/// gives up nothing of a stream that is kept. A change that leaves the nodes as they are gives up nothing.
pub fn what_is_kept_stays()
    ensures begins { (laws : Laws) (before now : NetView) (stream number : ℕ) → BeginsNet laws before now → HasFrom before stream number → HasFrom now stream number }
    ensures steps { (laws : Laws) (before now : NetView) (stream number : ℕ) → Becomes laws before now → HasFrom before stream number → HasFrom now stream number }
    ensures further { (laws : Laws) (more : Inputs) (before now : NetView) (stream number : ℕ) → MayGoOnWith laws more before → Extends more before now → HasFrom before stream number → HasFrom now stream number }
    ensures trims { (laws : Laws) (before now : NetView) (stream number : ℕ) → StandsForSome laws before → Trims before now → is_kept before stream ≡ true → HasFrom before stream number → HasFrom now stream number }
    ensures leaves { (before now : NetView) (stream number : ℕ) → LeavesNodes before now → HasFrom before stream number → HasFrom now stream number }
{}

/// What is read of a stream of a net at rest is the solution's: a packet that isn't given up, and the bound.
pub fn what_is_read_at_rest_is_the_solution()
    ensures packet { (laws : Laws) (job : LoggedJob laws) (net : NetView) (solution : List (StreamPrefix Plain)) (stream number : ℕ) (output : Backlog Plain) → StandsFor job net → IsRunning net → IsAtRest laws net → Solves job solution
        → IsOutputOf net stream output → HasFrom net stream number → kept_packet output number ≡ slice_get (stream_of solution stream).packets number }
    ensures bound { (laws : Laws) (job : LoggedJob laws) (net : NetView) (solution : List (StreamPrefix Plain)) (stream : ℕ) (output : Backlog Plain) → StandsFor job net → IsRunning net → IsAtRest laws net → Solves job solution
        → IsOutputOf net stream output → output.bound ≡ (stream_of solution stream).bound }
{}
