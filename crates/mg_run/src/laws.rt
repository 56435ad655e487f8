//! Laws of the definitions: each function does nothing, and its contract is the law.
ghost use Rattle.std.specs.Prelude.{◌≡◌, ◌∷◌, ℕ, ℤ, Bool, false, List, map, take, length, All, Option, None, Some};
ghost use Rattle.std.specs.List.Sorted.{IsStrictlyIncreasing};
ghost use Rattle.mg_value.specs.Payload.{Plain};
ghost use Rattle.mg_settled.specs.Prefix.{StreamPrefix, IsPrefix};
ghost use Rattle.mg_settled.specs.Extension.{AreExtendedBy};
ghost use Rattle.mg_settled.specs.Settled.{settled_sets, IsBelowBounds};
ghost use Rattle.mg_calc.specs.Rules.{Laws};
ghost use Rattle.mg_calc.specs.declared.plan.Plan.{Plan};
ghost use Rattle.mg_calc.specs.declared.plan_node.PlanNode.{PlanNode};
ghost use Rattle.mg_calc.specs.Shape.{IsOuter};
ghost use Rattle.mg_calc.specs.Equations.{Job, MeetsEquations, inputs_of as ports_of};
ghost use Rattle.mg_calc.specs.Meaning.{shown_sets};
ghost use Rattle.mg_free.specs.Core.{split_of};
ghost use Rattle.mg_free.specs.Rounds.{core_job};
ghost use Rattle.mg_free.specs.Turns.{last_batch};
ghost use Rattle.mg_calc.specs.Told.{BoxTold};
ghost use Rattle.mg_files.specs.Files.{Files};
ghost use Rattle.mg_edge.specs.Edge.{SourceTold, StoreTold};
ghost use Rattle.mg_feed.specs.Graph.{inputs_of};
ghost use Rattle.mg_answer.specs.Answer.{Read, ended_input};
ghost use Rattle.mg_answer.specs.Ran.{CameTo};
ghost use Rattle.mg_answer.specs.declared.status.Status.{Status};
ghost use Rattle.mg_answer.specs.declared.run.Reporting.{Reporting};
ghost use Rattle.mg_node.specs.Had.{state_by};
ghost use Rattle.mg_drive.specs.Leaves.{kept_by};
ghost use Rattle.mg_run.specs.Invocation.{Invocation};
ghost use Rattle.mg_run.specs.Devices.{Device, CallDevices, Unrisen};
ghost use Rattle.mg_files.specs.Loads.{LoadedAll, loads_of};
ghost use Rattle.mg_run.specs.Headline.{Headline, LiveHeadline, bare, job_from};
ghost use Rattle.mg_words.specs.declared.words.Verb.TheVariants.{Use};
ghost use Rattle.mg_words.specs.declared.words.Way.TheVariants.{Run};
ghost use Rattle.mg_run.specs.Answer.{RunAnswer, Action, run_plan, solve, trace, action_of, with_limit, AnswersAction, Records, Replays, EndsEarly};

/// The program has at most one answer to the bytes of an input. Only the events of a run that it records may differ: they are those of any
/// run of the action. A recorded run, too, has one status and one text of notes, which are those of the run. A run of a graph with free nodes
/// isn't part of this law if its batches may end early.
pub fn one_answer()
    ensures one { (laws : Laws) (action : Action) (boxes : List BoxTold) (input : List ℕ) (a b : RunAnswer) → ¬ Records action → ¬ EndsEarly action → AnswersAction laws action boxes input a → AnswersAction laws action boxes input b → a ≡ b }
    ensures ends { (laws : Laws) (action : Action) (boxes : List BoxTold) (input : List ℕ) (a b : RunAnswer) → ¬ EndsEarly action → AnswersAction laws action boxes input a → AnswersAction laws action boxes input b → (a.notes ≡ b.notes) × (a.status ≡ b.status) }
    ensures as_run { (laws : Laws) (report : Reporting) (plan : Plan) (boxes : List BoxTold) (input : List ℕ) (a b : RunAnswer) → AnswersAction laws (trace report plan) boxes input a → AnswersAction laws (run_plan report plan) boxes input b
        → (a.notes ≡ b.notes) × (a.status ≡ b.status) }
{}

/// Neither the limit of queues nor the number of workers changes an answer. Whatever the words ask for, the answer is that of the same
/// words without these options. For a recorded run, the notes and the status are the same. A recorded run that is made again isn't part of
/// this law, since that is done under the limit that the words ask for.
pub fn limits_and_workers_change_no_answer()
    ensures words { (laws : Laws) (invocation : Invocation) (files : Files) (boxes : List BoxTold) (input : List ℕ) (a : RunAnswer) → ¬ Records (action_of invocation files) → ¬ Replays (action_of invocation files)
        → AnswersAction laws (action_of invocation files) boxes input a → AnswersAction laws (action_of (record invocation { instruction = record invocation.instruction { limit = None; workers = None } }) files) boxes input a }
    ensures recorded { (laws : Laws) (report : Reporting) (limit : Option ℤ) (plan : Plan) (boxes : List BoxTold) (input : List ℕ) (a b : RunAnswer)
        → AnswersAction laws (trace report (with_limit limit plan)) boxes input a → AnswersAction laws (run_plan report plan) boxes input b
        → (a.notes ≡ b.notes) × (a.status ≡ b.status) }
{}

/// A graph without free nodes has the same answer whether it is run, with any limit of queues, or solved.
pub fn run_and_solve_answer_the_same()
    ensures { (laws : Laws) (report : Reporting) (limit : Option ℤ) (plan : Plan) (boxes : List BoxTold) (input : List ℕ) (a b : RunAnswer)
        → AnswersAction laws (run_plan report (with_limit limit plan)) boxes input a → AnswersAction laws (solve report plan) boxes input b → a ≡ b }
{}

/// Devices that tell what they hold determine what was run. The contents of the files are those that the store tells. If no read failed,
/// what came is the whole input.
pub fn told_devices_pin_a_headline()
    ensures contents { (names contents told : List (List ℕ)) (store : Device StoreTold) → LoadedAll names contents store → loads_of store.before.content names ≡ Some told → contents ≡ told }
    ensures reading { (plan : Plan) (input : Device SourceTold) (read : Read) (bytes : List ℕ) → CameTo (inputs_of plan) input read → input.before.left ≡ Some bytes
        → Unrisen input.before.faults input.now.faults → read ≡ ended_input (inputs_of plan) bytes }
{}

/// Two calls have the same headline if no node is free. Suppose that they have the same words and boxes, that their stores and inputs tell
/// the same, and that no read of an input failed. Then they have the same plan, the same reading and the same solution.
pub fn one_headline()
    ensures { (laws : Laws) (invocation : Invocation) (status other_status : Status) (devices other : CallDevices) (contents : List (List ℕ)) (bytes : List ℕ) (a : Headline laws invocation status devices) (b : Headline laws invocation other_status other)
        → loads_of devices.store.before.content invocation.files ≡ Some contents → loads_of other.store.before.content invocation.files ≡ Some contents
        → devices.input.before.left ≡ Some bytes → other.input.before.left ≡ Some bytes
        → Unrisen devices.input.before.faults devices.input.now.faults → Unrisen other.input.before.faults other.input.now.faults
        → (a.plan ≡ b.plan) × (a.from ≡ b.from) × (a.run.streams ≡ b.run.streams) }
{}

/// Two calls have the same headline if some node is free. Suppose that they have the same words and boxes, that their stores and inputs
/// tell the same, and that no read of an input failed. Suppose also that batches of lines may not end early. Then they have the same plan,
/// reading and batches, the same logs of the free nodes, and the same solution of the core.
pub fn one_live_headline()
    ensures { (laws : Laws) (invocation : Invocation) (status other_status : Status) (devices other : CallDevices) (contents : List (List ℕ)) (bytes : List ℕ) (a : LiveHeadline laws invocation status devices) (b : LiveHeadline laws invocation other_status other)
        → (invocation.instruction.verb ≡ Use Run → invocation.instruction.unbuffered ≡ false)
        → loads_of devices.store.before.content invocation.files ≡ Some contents → loads_of other.store.before.content invocation.files ≡ Some contents
        → devices.input.before.left ≡ Some bytes → other.input.before.left ≡ Some bytes
        → Unrisen devices.input.before.faults devices.input.now.faults → Unrisen other.input.before.faults other.input.now.faults
        → (a.plan ≡ b.plan) × (a.from ≡ b.from) × (a.first ∷ a.later ≡ b.first ∷ b.later) × (a.run.comes.takens ≡ b.run.comes.takens) × (a.run.comes.streams ≡ b.run.comes.streams) }
{}

/// The streams of a headline are the least solution of its job. They are prefixes by the rule of streams, and they meet the equations. All
/// prefixes that meet the equations extend them.
pub fn a_headline_has_the_least_solution()
    ensures prefixes { (laws : Laws) (invocation : Invocation) (status : Status) (devices : CallDevices) (h : Headline laws invocation status devices) → All IsPrefix h.run.streams }
    ensures meets { (laws : Laws) (invocation : Invocation) (status : Status) (devices : CallDevices) (h : Headline laws invocation status devices) → MeetsEquations (job_from laws (bare h.plan) h.from) h.run.streams }
    ensures least { (laws : Laws) (invocation : Invocation) (status : Status) (devices : CallDevices) (h : Headline laws invocation status devices) (others : List (StreamPrefix Plain))
        → All IsPrefix others → MeetsEquations (job_from laws (bare h.plan) h.from) others → AreExtendedBy h.run.streams others }
{}

/// The sets that a node is shown in a headline ascend in time, so each comes once. They are settled. Each is below the bounds that the
/// node's policy asks for, and all stay as they are, however the streams may go on.
pub fn a_headline_shows_settled_sets()
    ensures ascend { (laws : Laws) (invocation : Invocation) (status : Status) (devices : CallDevices) (h : Headline laws invocation status devices) (node : PlanNode)
        → IsStrictlyIncreasing (map (λ e. e.at) (shown_sets (job_from laws (bare h.plan) h.from) h.run.streams node)) }
    ensures bounds { (laws : Laws) (invocation : Invocation) (status : Status) (devices : CallDevices) (h : Headline laws invocation status devices) (node : PlanNode)
        → All (λ e. IsBelowBounds node.policy (ports_of h.run.streams node) e.at) (shown_sets (job_from laws (bare h.plan) h.from) h.run.streams node) }
    ensures stay { (laws : Laws) (invocation : Invocation) (status : Status) (devices : CallDevices) (h : Headline laws invocation status devices) (node : PlanNode) (further : List (StreamPrefix Plain))
        → let sets = shown_sets (job_from laws (bare h.plan) h.from) h.run.streams node in
        AreExtendedBy h.run.streams further → take (length sets) (settled_sets node.policy (ports_of further node)) ≡ sets }
{}

/// The same holds if some node is free: the streams are the least solution of the core's job, for what the free nodes took.
pub fn a_live_headline_has_the_least_solution()
    ensures prefixes { (laws : Laws) (invocation : Invocation) (status : Status) (devices : CallDevices) (h : LiveHeadline laws invocation status devices) → All IsPrefix h.run.comes.streams }
    ensures meets { (laws : Laws) (invocation : Invocation) (status : Status) (devices : CallDevices) (h : LiveHeadline laws invocation status devices)
        → MeetsEquations (core_job laws (split_of (bare h.plan)) (last_batch h.first h.later) h.run.comes.takens) h.run.comes.streams }
    ensures least { (laws : Laws) (invocation : Invocation) (status : Status) (devices : CallDevices) (h : LiveHeadline laws invocation status devices) (others : List (StreamPrefix Plain))
        → All IsPrefix others → MeetsEquations (core_job laws (split_of (bare h.plan)) (last_batch h.first h.later) h.run.comes.takens) others → AreExtendedBy h.run.comes.streams others }
{}

/// The same holds of the sets that the core's nodes are shown if some node is free.
pub fn a_live_headline_shows_settled_sets()
    ensures ascend { (laws : Laws) (invocation : Invocation) (status : Status) (devices : CallDevices) (h : LiveHeadline laws invocation status devices) (node : PlanNode)
        → IsStrictlyIncreasing (map (λ e. e.at) (shown_sets (core_job laws (split_of (bare h.plan)) (last_batch h.first h.later) h.run.comes.takens) h.run.comes.streams node)) }
    ensures bounds { (laws : Laws) (invocation : Invocation) (status : Status) (devices : CallDevices) (h : LiveHeadline laws invocation status devices) (node : PlanNode)
        → All (λ e. IsBelowBounds node.policy (ports_of h.run.comes.streams node) e.at)
        (shown_sets (core_job laws (split_of (bare h.plan)) (last_batch h.first h.later) h.run.comes.takens) h.run.comes.streams node) }
    ensures stay { (laws : Laws) (invocation : Invocation) (status : Status) (devices : CallDevices) (h : LiveHeadline laws invocation status devices) (node : PlanNode) (further : List (StreamPrefix Plain))
        → let sets = shown_sets (core_job laws (split_of (bare h.plan)) (last_batch h.first h.later) h.run.comes.takens) h.run.comes.streams node in
        AreExtendedBy h.run.comes.streams further → take (length sets) (settled_sets node.policy (ports_of further node)) ≡ sets }
{}

/// What a user-supplied calculator keeps after some sets of its node, and perhaps Close, is the state that mg_node says of the node. A node
/// that is a source or a loopback has no such calculator.
pub fn a_calculator_keeps_the_state_of_its_node()
    ensures { (job : Job) (streams : List (StreamPrefix Plain)) (node : PlanNode) (shown : ℕ) (close : Bool) → IsOuter node.law → kept_by job streams node shown close ≡ state_by job streams node shown close }
{}
