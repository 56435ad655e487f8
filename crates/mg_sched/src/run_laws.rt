//! Laws of runs: each function does nothing, and its contract is the law.
ghost use Rattle.std.specs.Prelude.{◌≡◌, ◌≢◌, List, [], ◌∷◌, ◌++◌, map};
ghost use Rattle.mg_value.specs.Payload.{Plain};
ghost use Rattle.mg_settled.specs.Prefix.{StreamPrefix};
ghost use Rattle.mg_settled.specs.Ends.{end_of};
ghost use Rattle.mg_calc.specs.Rules.{Laws};
ghost use Rattle.mg_calc.specs.declared.event.Event.{Event};
ghost use Rattle.mg_calc.specs.declared.event.Effect.{Effect};
ghost use Rattle.mg_calc.specs.declared.event.Effect.TheVariants.{Did, OutOfMemory};
ghost use Rattle.mg_calc.specs.declared.inputs.Inputs.{Inputs};
ghost use Rattle.mg_calc.specs.declared.plan.Plan.{Plan};
ghost use Rattle.mg_calc.specs.Told.{BoxTold};
ghost use Rattle.mg_calc.specs.Meaning.{counts, faults};
ghost use Rattle.mg_node.specs.Job.{LoggedJob, Solves};
ghost use Rattle.mg_sched.specs.Views.{NetView};
ghost use Rattle.mg_sched.specs.StandsFor.{StandsFor, StandsForSome, IsRunning};
ghost use Rattle.mg_sched.specs.Acts.{IsEventOf, Acts};
ghost use Rattle.mg_sched.specs.Made.{job_of};
ghost use Rattle.mg_sched.specs.Reports.{report_of};
ghost use Rattle.mg_sched.specs.Runs.{IsRun, IsBegun, IsRunAtRest};
ghost use Rattle.mg_sched.specs.Sweeps.{Becomes};
ghost use Rattle.mg_sched.specs.AtRest.{IsAtRest, MayGoOn};
ghost use Rattle.mg_sched.specs.SameNets.{AreAlike};

/// The empty list is a run from a net to itself. An event that does something is a run. Two runs are one run if the second begins where the
/// first ended.
pub fn runs_go_on()
    ensures none { (laws : Laws) (net : NetView) → IsRun laws [] net net }
    ensures one { (laws : Laws) (event : Event) (before now : NetView) → IsEventOf before event → Acts laws event Did before now → IsRun laws (event ∷ []) before now }
    ensures further { (laws : Laws) (events more : List Event) (before between now : NetView) → IsRun laws events before between → IsRun laws more between now
        → IsRun laws (events ++ more) before now }
{}

/// Whatever the events of a run are, at its end every node is begun and the net stands for its job, as at its begin. A run that has an
/// event leaves no net as it was.
pub fn runs_stand_for_their_job()
    ensures running { (laws : Laws) (events : List Event) (before now : NetView) → IsRun laws events before now → IsRunning before → IsRunning now }
    ensures stands { (laws : Laws) (job : LoggedJob laws) (events : List Event) (before now : NetView) → IsRun laws events before now → IsRunning before → StandsFor job before
        → StandsFor job now }
    ensures moves { (laws : Laws) (job : LoggedJob laws) (events : List Event) (before now : NetView) → IsRun laws events before now → IsRunning before → StandsFor job before
        → events ≢ [] → now ≢ before }
{}

/// Whatever steps a net makes, at the end every node is begun and the net stands for its job, as at the begin. The steps may do something,
/// or find nothing to do or no memory. A run is a way to make steps.
pub fn steps_keep_what_a_net_stands_for()
    ensures running { (laws : Laws) (before now : NetView) → Becomes laws before now → IsRunning before → IsRunning now }
    ensures stands { (laws : Laws) (job : LoggedJob laws) (before now : NetView) → Becomes laws before now → IsRunning before → StandsFor job before → StandsFor job now }
    ensures run { (laws : Laws) (events : List Event) (before now : NetView) → IsRun laws events before now → Becomes laws before now }
{}

/// The runs of a job begin at one place. Two nets that were made for a job with the same calculators, and whose nodes are begun, differ in
/// nothing but the room of their queues, and in the table of which feeder reaches which node.
pub fn runs_of_a_job_begin_at_one_place()
    ensures { (laws : Laws) (plan : Plan) (inputs : Inputs) (boxes : List BoxTold) (net other : NetView) → IsBegun laws plan inputs boxes net → IsBegun laws plan inputs boxes other → AreAlike net other }
{}

/// An event has one effect at a net of a run: it does something, or there is nothing to do. What it does is one thing, up to the room of
/// queues. The same events lead a run of a job to one place, and a net of a run that is at rest may not go on.
pub fn an_event_has_one_effect()
    ensures effect { (laws : Laws) (event : Event) (effect twin : Effect) (net now other also : NetView) → StandsForSome laws net → IsRunning net → IsEventOf net event → AreAlike net other
        → effect ≢ OutOfMemory → twin ≢ OutOfMemory → Acts laws event effect net now → Acts laws event twin other also → (effect ≡ twin) × AreAlike now also }
    ensures run { (laws : Laws) (plan : Plan) (inputs : Inputs) (boxes : List BoxTold) (events : List Event) (begun now twin also : NetView)
        → IsBegun laws plan inputs boxes begun → IsBegun laws plan inputs boxes twin → IsRun laws events begun now → IsRun laws events twin also → AreAlike now also }
    ensures rests { (laws : Laws) (net other : NetView) → StandsForSome laws net → IsRunning net → AreAlike net other → IsAtRest laws net → ¬ MayGoOn laws other }
{}

/// Whatever its events are, a run of a job to rest reaches the job's solution. The net reports what the solution has: how many sets each
/// node has, the faults, and how far each stream comes.
pub fn runs_at_rest_have_the_solution()
    ensures sets { (laws : Laws) (plan : Plan) (inputs : Inputs) (boxes : List BoxTold) (events : List Event) (solution : List (StreamPrefix Plain))
        (run : IsRunAtRest laws plan inputs boxes events) → Solves (job_of laws plan inputs boxes) solution → (report_of run.rested).sets ≡ counts (job_of laws plan inputs boxes).job solution }
    ensures faults { (laws : Laws) (plan : Plan) (inputs : Inputs) (boxes : List BoxTold) (events : List Event) (solution : List (StreamPrefix Plain))
        (run : IsRunAtRest laws plan inputs boxes events) → Solves (job_of laws plan inputs boxes) solution → (report_of run.rested).faults ≡ faults (job_of laws plan inputs boxes).job solution }
    ensures streams { (laws : Laws) (plan : Plan) (inputs : Inputs) (boxes : List BoxTold) (events : List Event) (solution : List (StreamPrefix Plain))
        (run : IsRunAtRest laws plan inputs boxes events) → Solves (job_of laws plan inputs boxes) solution → (report_of run.rested).streams ≡ map end_of solution }
{}
