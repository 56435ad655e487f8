//! Laws of what a recorded run says: each function does nothing, and its contract is the law.
ghost use Rattle.std.specs.Prelude.{◌≡◌, List, All, ◌∷◌, [], ◌++◌};
ghost use Rattle.mg_calc.specs.Plan.{IsValid};
ghost use Rattle.mg_calc.specs.declared.event.Event.{Event};
ghost use Rattle.mg_calc.specs.declared.inputs.Inputs.{Inputs};
ghost use Rattle.mg_calc.specs.declared.plan.Plan.{Plan};
ghost use Rattle.mg_feed.specs.Graph.{inputs_of};
ghost use Rattle.mg_feed.specs.Accepted.{given_by};
ghost use Rattle.mg_feed.specs.Given.{ended_streams};
ghost use Rattle.mg_feed.specs.Stands.{AllGood};
ghost use Rattle.mg_feed.specs.Recorded.{AllRecorded};
ghost use Rattle.mg_trace.specs.Event.{IsEventOf, event_text};
ghost use Rattle.mg_trace.specs.Job.{job_lines, end_word};
ghost use Rattle.mg_trace.specs.Told.{IsTold, HasKinds, FitsInput};
ghost use Rattle.mg_trace.specs.Trace.{trace_text};

/// Two events of a plan with the same text are the same event.
pub fn an_event_has_its_own_text()
    ensures { (plan : Plan) (one other : Event) → IsValid plan → IsEventOf plan one → IsEventOf plan other → event_text one ≡ event_text other → one ≡ other }
{}

/// Two recorded runs of a job with the same text made the same events in the same order.
pub fn a_trace_has_its_own_events()
    ensures { (plan : Plan) (inputs : Inputs) (one other : List Event) → IsValid plan → All (IsEventOf plan) one → All (IsEventOf plan) other
        → trace_text plan inputs one ≡ trace_text plan inputs other → one ≡ other }
{}

/// The canonical lines of a job give just its inputs again.
pub fn canonical_lines_give_the_job()
    ensures streams { (plan : Plan) (inputs : Inputs) → IsTold plan inputs
        → ended_streams inputs.ended (given_by (inputs_of plan) (job_lines plan inputs)).streams ≡ inputs.streams }
    ensures sides { (plan : Plan) (inputs : Inputs) → IsTold plan inputs → (given_by (inputs_of plan) (job_lines plan inputs)).sides ≡ inputs.sides }
{}

/// The canonical lines of a job are good lines of a recorded job, each after the lines before it, whatever their length and number.
/// Each packet has to be of its stream's kind. They are good packet lines too, if they are no longer and no more than those of an
/// input may be.
pub fn canonical_lines_are_good()
    ensures recorded { (plan : Plan) (inputs : Inputs) → IsTold plan inputs → HasKinds plan inputs → AllRecorded (inputs_of plan) [] (job_lines plan inputs) }
    ensures good { (plan : Plan) (inputs : Inputs) → IsTold plan inputs → FitsInput plan inputs → AllGood (inputs_of plan) [] (job_lines plan inputs) }
{}

/// Two jobs with the same canonical lines, the last one included, are the same job.
pub fn a_job_has_its_own_lines()
    ensures { (plan : Plan) (one other : Inputs) → IsTold plan one → IsTold plan other
        → job_lines plan one ++ end_word one.ended ∷ [] ≡ job_lines plan other ++ end_word other.ended ∷ [] → one ≡ other }
{}
