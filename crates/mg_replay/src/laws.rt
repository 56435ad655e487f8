//! Laws of recorded runs that are made again: each function does nothing, and its contract is the law.
ghost use Rattle.std.specs.Prelude.{◌≡◌, ℕ, List, [], Option, Some};
ghost use Rattle.mg_edge.specs.Edge.{SourceTold};
ghost use Rattle.mg_calc.specs.Rules.{Laws};
ghost use Rattle.mg_calc.specs.Plan.{IsValid};
ghost use Rattle.mg_calc.specs.declared.inputs.Inputs.{Inputs};
ghost use Rattle.mg_calc.specs.declared.plan.Plan.{Plan};
ghost use Rattle.mg_calc.specs.Told.{BoxTold};
ghost use Rattle.mg_feed.specs.Graph.{inputs_of};
ghost use Rattle.mg_feed.specs.Lines.{all_lines};
ghost use Rattle.mg_feed.specs.Stands.{AllGood};
ghost use Rattle.mg_feed.specs.declared.feed_end.FeedEnd.TheVariants.{Ended};
ghost use Rattle.mg_trace.specs.Job.{job_lines};
ghost use Rattle.mg_trace.specs.Told.{HasNames, IsTold, HasKinds};
ghost use Rattle.mg_answer.specs.Answer.{Read, RunAnswer, IsAnswer, is_ended, inputs_by};
ghost use Rattle.mg_answer.specs.Devices.{Device, Unrisen};
ghost use Rattle.mg_answer.specs.declared.run.Reporting.{Reporting};
ghost use Rattle.mg_drive.specs.Traced.{IsTrace, IsTraced};
ghost use Rattle.mg_replay.specs.Opening.{ArePackets, inputs_with};
ghost use Rattle.mg_replay.specs.Replay.{LinesComeTo, WasRead};
ghost use Rattle.mg_replay.specs.Replayed.{AnswersTrace};
ghost use Rattle.mg_replay.specs.declared.trace_end.TraceEnd.{TraceEnd};
ghost use Rattle.mg_replay.specs.declared.trace_end.TraceEnd.TheVariants.{Accepted};

/// The lines of a recorded run come to one job, if any, and to one end: they are accepted, or one line is refused with one cause. So there is
/// one answer to them. Two calls that read the same bytes come to the same, if their sources tell these bytes and no read failed.
pub fn a_recorded_run_is_read_in_one_way()
    ensures lines { (laws : Laws) (plan : Plan) (boxes : List BoxTold) (lines : List (List ℕ)) (job other : Option Inputs) (end twin : TraceEnd)
        → LinesComeTo laws plan boxes lines job end → LinesComeTo laws plan boxes lines other twin → (job ≡ other) × (end ≡ twin) }
    ensures bytes { (laws : Laws) (plan : Plan) (boxes : List BoxTold) (input twin_input : Device SourceTold) (job other : Option Inputs) (end twin : TraceEnd) (bytes : List ℕ)
        → WasRead laws plan boxes input job end → WasRead laws plan boxes twin_input other twin → input.before.left ≡ Some bytes → twin_input.before.left ≡ Some bytes
        → Unrisen input.before.faults input.now.faults → Unrisen twin_input.before.faults twin_input.now.faults → (job ≡ other) × (end ≡ twin) }
    ensures answer { (laws : Laws) (report : Reporting) (plan : Plan) (boxes : List BoxTold) (lines : List (List ℕ)) (answer other : RunAnswer)
        → AnswersTrace laws report plan boxes lines answer → AnswersTrace laws report plan boxes lines other → answer ≡ other }
{}

/// A job that packet lines give can be told by packet lines again. Its canonical lines are packet lines of a recorded run, and give just
/// its inputs.
pub fn what_lines_give_can_be_told()
    ensures told { (plan : Plan) (read : Read) → IsValid plan → HasNames plan → AllGood (inputs_of plan) [] read.lines → IsTold plan (inputs_by (inputs_of plan) read) }
    ensures kinds { (plan : Plan) (read : Read) → AllGood (inputs_of plan) [] read.lines → HasKinds plan (inputs_by (inputs_of plan) read) }
    ensures packets { (plan : Plan) (read : Read) → IsValid plan → HasNames plan → AllGood (inputs_of plan) [] read.lines → ArePackets (inputs_of plan) [] (job_lines plan (inputs_by (inputs_of plan) read)) }
    ensures again { (plan : Plan) (read : Read) → IsValid plan → HasNames plan → AllGood (inputs_of plan) [] read.lines
        → inputs_by (inputs_of plan) read ≡ inputs_with plan (job_lines plan (inputs_by (inputs_of plan) read)) (is_ended read.end) }
{}

/// A trace is accepted, with the job that its lines tell. So whatever text is written of a recorded run over good lines can be made again,
/// however long its lines are and however many. If the input ended well, the answer to that text is the answer of a run over the same
/// input.
pub fn a_trace_is_accepted()
    ensures trace { (laws : Laws) (plan : Plan) (inputs : Inputs) (boxes : List BoxTold) (text : List ℕ) → IsValid plan → IsTold plan inputs → HasKinds plan inputs → IsTrace laws plan inputs boxes text
        → LinesComeTo laws plan boxes (all_lines text) (Some inputs) Accepted }
    ensures traced { (laws : Laws) (report : Reporting) (plan : Plan) (boxes : List BoxTold) (read : Read) (answer : RunAnswer) → IsValid plan → HasNames plan → AllGood (inputs_of plan) [] read.lines
        → IsTraced laws report plan boxes read answer → LinesComeTo laws plan boxes (all_lines answer.output) (Some (inputs_by (inputs_of plan) read)) Accepted }
    ensures answer { (laws : Laws) (report : Reporting) (plan : Plan) (boxes : List BoxTold) (read : Read) (answer run : RunAnswer) → IsValid plan → HasNames plan → AllGood (inputs_of plan) [] read.lines → read.end ≡ Ended
        → IsTraced laws report plan boxes read answer → IsAnswer laws report plan read run → AnswersTrace laws report plan boxes (all_lines answer.output) run }
{}
