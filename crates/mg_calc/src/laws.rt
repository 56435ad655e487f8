//! Laws of what a graph means: each function does nothing, and its contract is the law.
ghost use Rattle.std.specs.Prelude.{◌≡◌, ◌↔◌, ℕ, ◌<◌, ◌+◌, List, [], length, map, All, None, false};
ghost use Rattle.std.specs.List.Sorted.{IsStrictlyIncreasing};
ghost use Rattle.mg_time.specs.Time.{done};
ghost use Rattle.mg_value.specs.Payload.{Plain};
ghost use Rattle.mg_settled.specs.Prefix.{StreamPrefix, IsPrefix};
ghost use Rattle.mg_settled.specs.Extension.{AreExtendedBy};
ghost use Rattle.mg_calc.specs.declared.inputs.Inputs.{Inputs};
ghost use Rattle.mg_calc.specs.declared.plan.Plan.{Plan};
ghost use Rattle.mg_settled.specs.Settled.{IsBelowBounds};
ghost use Rattle.mg_calc.specs.declared.plan_node.PlanNode.{PlanNode};
ghost use Rattle.mg_calc.specs.Rules.{Laws};
ghost use Rattle.mg_calc.specs.Shape.{IsOuter};
ghost use Rattle.mg_calc.specs.Plan.{IsValid, IsValidWithFree, HasNoFree};
ghost use Rattle.mg_calc.specs.Equations.{Job, IsJob, stream_of, inputs_of, outcome_of, next_round, round, MeetsEquations, IsSolution};
ghost use Rattle.mg_calc.specs.Meaning.{faults, stalled, count_of, counts, shown_sets, last_call, log_of, weight};
ghost use Rattle.mg_calc.specs.Reaching.{MayDepend};

/// The equations are monotone. If one list of streams is extended by another, then the equations' results for the one are extended by
/// their results for the other.
pub fn equations_are_monotone()
    ensures { (job : Job) (streams more : List (StreamPrefix Plain)) → IsJob job → All IsPrefix streams → All IsPrefix more → AreExtendedBy streams more
        → AreExtendedBy (next_round job streams) (next_round job more) }
{}

/// The rounds come to rest: there is one that meets the equations, and so there is a solution.
pub fn rounds_settle()
    ensures round { (job : Job) → IsJob job → (n : ℕ) × MeetsEquations job (round job n) }
    ensures solution { (job : Job) → IsJob job → (streams : List (StreamPrefix Plain)) × IsSolution job streams }
{}

/// There is one solution, and each list of prefixes that meets the equations extends it.
pub fn the_solution_is_least()
    ensures least { (job : Job) (solution streams : List (StreamPrefix Plain)) → IsJob job → IsSolution job solution → All IsPrefix streams → MeetsEquations job streams
        → AreExtendedBy solution streams }
    ensures one { (job : Job) (solution other : List (StreamPrefix Plain)) → IsSolution job solution → IsSolution job other → solution ≡ other }
{}

/// If the graph inputs are extended, and the side packets are the same, then the solution is extended.
pub fn the_solution_grows()
    ensures { (plan : Plan) (laws : Laws) (inputs more : Inputs) (solution later : List (StreamPrefix Plain))
        → IsJob (record { plan = plan; inputs = inputs; laws = laws }) → IsJob (record { plan = plan; inputs = more; laws = laws })
        → inputs.sides ≡ more.sides → AreExtendedBy inputs.streams more.streams
        → IsSolution (record { plan = plan; inputs = inputs; laws = laws }) solution → IsSolution (record { plan = plan; inputs = more; laws = laws }) later
        → AreExtendedBy solution later }
{}

/// Each round, and the solution, consists of prefixes by the rule of streams. Each round is extended by the next. The solution has a
/// prefix for each stream.
pub fn streams_are_prefixes()
    ensures round { (job : Job) (n : ℕ) → IsJob job → All IsPrefix (round job n) }
    ensures rises { (job : Job) (n : ℕ) → IsJob job → AreExtendedBy (round job n) (next_round job (round job n)) }
    ensures solution { (job : Job) (solution : List (StreamPrefix Plain)) → IsJob job → IsSolution job solution → All IsPrefix solution }
    ensures each { (job : Job) (solution : List (StreamPrefix Plain)) → IsJob job → IsSolution job solution → length solution ≡ length job.plan.streams }
{}

/// A stream of the solution depends only on the graph inputs from which it can be reached. Whatever the other graph inputs are, the
/// stream is the same.
pub fn streams_depend_on_what_reaches_them()
    ensures { (plan : Plan) (laws : Laws) (inputs others : Inputs) (solution changed : List (StreamPrefix Plain)) (stream : ℕ)
        → IsJob (record { plan = plan; inputs = inputs; laws = laws }) → IsJob (record { plan = plan; inputs = others; laws = laws }) → inputs.sides ≡ others.sides
        → stream < length plan.streams
        → ((input : ℕ) → MayDepend plan input stream → stream_of inputs.streams input ≡ stream_of others.streams input)
        → IsSolution (record { plan = plan; inputs = inputs; laws = laws }) solution → IsSolution (record { plan = plan; inputs = others; laws = laws }) changed
        → stream_of solution stream ≡ stream_of changed stream }
{}

/// The sets that a node is shown ascend in time, and are settled. The time of each set is below the bounds that the node's policy asks
/// for. A node's count is the number of these sets. The node's log has one call for each of these sets, one for Open, and, unless Open
/// failed, one for Close.
pub fn shown_sets_are_settled()
    ensures ascend { (job : Job) (streams : List (StreamPrefix Plain)) (node : PlanNode) → All IsPrefix streams
        → IsStrictlyIncreasing (map (λ e. e.at) (shown_sets job streams node)) }
    ensures bounds { (job : Job) (streams : List (StreamPrefix Plain)) (node : PlanNode) → All IsPrefix streams
        → All (λ e. IsBelowBounds node.policy (inputs_of streams node) e.at) (shown_sets job streams node) }
    ensures counted { (job : Job) (streams : List (StreamPrefix Plain)) (node : PlanNode) → IsOuter node.law
        → length (shown_sets job streams node) ≡ count_of job streams node }
    ensures logged { (job : Job) (streams : List (StreamPrefix Plain)) (node : PlanNode)
        → length (log_of job streams node) ≡ length (shown_sets job streams node) + 1 + length (last_call (outcome_of job streams node).fault) }
{}

/// The list of faults is empty exactly if no node failed, and that of stalled streams exactly if each stream has ended. There is a
/// count for each node, and each count is less than the weight of the job.
pub fn faults_and_stalls_are_told()
    ensures faults { (job : Job) (streams : List (StreamPrefix Plain))
        → (faults job streams ≡ []) ↔ All (λ node. (outcome_of job streams node).fault ≡ None) job.plan.nodes }
    ensures stalled { (streams : List (StreamPrefix Plain)) → (stalled streams ≡ []) ↔ All (λ s. s.bound ≡ done) streams }
    ensures counts { (job : Job) (streams : List (StreamPrefix Plain)) → length (counts job streams) ≡ length job.plan.nodes }
    ensures weight { (job : Job) (streams : List (StreamPrefix Plain)) → All (λ node. count_of job streams node < weight job streams) job.plan.nodes }
{}

/// A plan is valid exactly if it is valid as a plan that may have free nodes, and has none.
pub fn free_nodes_alone_keep_a_plan_from_being_valid()
    ensures without { (plan : Plan) → IsValidWithFree plan → HasNoFree plan → IsValid plan }
    ensures with_none { (plan : Plan) → IsValid plan → IsValidWithFree plan × HasNoFree plan }
{}

/// No stream stalls without a cause. If a graph has no back edges, each of its inputs ended and no node failed, every stream has ended.
pub fn without_back_edges_every_stream_ends()
    ensures { (job : Job) (solution : List (StreamPrefix Plain)) → IsJob job → IsSolution job solution
        → All (λ e. e.back ≡ false) job.plan.edges → All (λ s. s.bound ≡ done) job.inputs.streams → faults job solution ≡ []
        → stalled solution ≡ [] }
{}
