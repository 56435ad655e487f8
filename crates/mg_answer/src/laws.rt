//! Laws of what a run answers: each function does nothing, and its contract is the law.
ghost use Rattle.std.specs.Prelude.{◌≡◌, ◌≢◌, ◌⊎◌, ◌<◌, ◌^◌, ℕ, length, Bool, false, List, [], ◌∷◌, ◌++◌, None};
ghost use Rattle.mg_edge.specs.Edge.{SourceTold, SinkTold};
ghost use Rattle.mg_edge.specs.Runs.{Gave};
ghost use Rattle.mg_value.specs.Payload.{Plain};
ghost use Rattle.mg_value.specs.declared.policy.Policy.TheVariants.{Default};
ghost use Rattle.mg_settled.specs.Prefix.{StreamPrefix};
ghost use Rattle.mg_settled.specs.Settled.{settled_sets, inputs_of as ports_of};
ghost use Rattle.mg_calc.specs.declared.plan.Plan.{Plan};
ghost use Rattle.mg_calc.specs.Plan.{IsValid, IsValidWithFree, InputsFit};
ghost use Rattle.mg_calc.specs.Rules.{Laws};
ghost use Rattle.mg_calc.specs.Equations.{Job, IsJob, IsSolution};
ghost use Rattle.mg_calc.specs.Meaning.{faults, stalled};
ghost use Rattle.mg_feed.specs.declared.feed_end.FeedEnd.{FeedEnd};
ghost use Rattle.mg_feed.specs.declared.feed_end.FeedEnd.TheVariants as ends;
ghost use Rattle.mg_feed.specs.Apart.{AreApart};
ghost use Rattle.mg_feed.specs.Graph.{GraphInputs, inputs_of};
ghost use Rattle.mg_feed.specs.Lines.{all_lines};
ghost use Rattle.mg_feed.specs.Accepted.{given_by, accepted, first_refused_after};
ghost use Rattle.mg_feed.specs.Stands.{AllGood};
ghost use Rattle.mg_feed.specs.Ran.{EndCame, MetEnd, FailedBy};
ghost use Rattle.mg_feed.specs.Once.{ReadsOnce};
ghost use Rattle.mg_feed.specs.Batch.{EndsAs};
ghost use Rattle.mg_answer.specs.Text.{output_text_of};
ghost use Rattle.mg_answer.specs.Summary.{summary_of};
ghost use Rattle.mg_answer.specs.Report.{report_of, asked_report};
ghost use Rattle.mg_answer.specs.Answer.{Read, Telling, by_lines, by_summary, RunAnswer, ended_input, inputs_by, job_of, generated_inputs, generated_job, IsAnswerOf, AnswersEnded, AnswersCut, AnswersGenerated};
ghost use Rattle.mg_answer.specs.Devices.{Device, device, RunDevices, HasRisen, Unrisen, NoneFailed, IsFront, TookFront};
ghost use Rattle.mg_answer.specs.Put.{TextView, nothing_put, HasPut};
ghost use Rattle.mg_answer.specs.Wrote.{Wrote, Meets};
ghost use Rattle.mg_answer.specs.Status.{IsOneOf};
ghost use Rattle.mg_answer.specs.Ran.{CameTo, RanOn, RanGenerated, IsAnswered};
ghost use Rattle.mg_answer.specs.declared.status.Status.{Status};
ghost use Rattle.mg_answer.specs.declared.status.Status.TheVariants.{Good, NodeFault, Stalled, ReadFault, WriteFault, OutOfMemory};
ghost use Rattle.mg_answer.specs.declared.run.Reporting.{Reporting};

/// What good lines give the graph of a valid plan fits the plan. Each input has a prefix, by the rule of streams, and each side
/// packet has a place. The plan may have free nodes.
pub fn what_lines_give_fits()
    ensures { (plan : Plan) (read : Read) → IsValidWithFree plan → AllGood (inputs_of plan) [] read.lines → InputsFit plan (inputs_by (inputs_of plan) read) }
{}

/// The packets that are made for the graph of a valid plan fit the plan: each input has a prefix that has ended. The plan may have
/// free nodes.
pub fn generated_packets_fit()
    ensures { (plan : Plan) (number : ℕ) → IsValidWithFree plan → number < 2 ^ 32 → InputsFit plan (generated_inputs (inputs_of plan) number) }
{}

/// A valid plan's graph has one answer over any bytes, both if the input ended after them and if a read failed. It has one answer
/// over any number of packets that are made.
pub fn there_is_one_answer()
    ensures ended { (laws : Laws) (report : Reporting) (plan : Plan) (bytes : List ℕ) → IsValid plan → (answer : RunAnswer) × AnswersEnded laws report plan bytes answer }
    ensures cut { (laws : Laws) (report : Reporting) (plan : Plan) (bytes : List ℕ) → IsValid plan → (answer : RunAnswer) × AnswersCut laws report plan bytes answer }
    ensures generated { (laws : Laws) (report : Reporting) (plan : Plan) (number : ℕ) → IsValid plan → number < 2 ^ 32 → (answer : RunAnswer) × AnswersGenerated laws report plan number answer }
    ensures one { (telling : Telling) (job : Job) (end : FeedEnd) (answer other : RunAnswer) → IsAnswerOf telling job end answer → IsAnswerOf telling job end other → answer ≡ other }
{}

/// If each line is good, no node fails and no stream stalls, the answer over an input that ends well is good. It has all of the
/// output text, and no note but the report if it is asked for. The same holds over packets that are made: they have no lines, and
/// the output is the summary.
pub fn what_has_no_fault_is_good()
    ensures read { (laws : Laws) (report : Reporting) (plan : Plan) (bytes : List ℕ) (streams : List (StreamPrefix Plain)) (answer : RunAnswer)
        → let job = job_of laws plan (ended_input (inputs_of plan) bytes) in IsSolution job streams
        → first_refused_after (inputs_of plan) [] (all_lines bytes) ≡ None → faults job streams ≡ [] → stalled streams ≡ []
        → AnswersEnded laws report plan bytes answer → answer ≡ record { output = output_text_of plan streams; notes = asked_report report (report_of job streams); status = Good } }
    ensures generated { (laws : Laws) (report : Reporting) (plan : Plan) (number : ℕ) (streams : List (StreamPrefix Plain)) (answer : RunAnswer)
        → let job = generated_job laws plan number in IsSolution job streams → faults job streams ≡ [] → stalled streams ≡ []
        → AnswersGenerated laws report plan number answer → answer ≡ record { output = summary_of plan streams; notes = asked_report report (report_of job streams); status = Good } }
{}

/// The empty text was put into a new text. The sink took a prefix of the text that was put so far, and nothing else.
pub fn what_is_put_is_taken_in_front()
    ensures nothing { (first : SinkTold) (names : List (List ℕ)) → HasPut first first (nothing_put names) [] }
    ensures front { (first now : SinkTold) (view : TextView) (text : List ℕ) → HasPut first now view text → TookFront (device first now) text }
{}

/// A sink that took a prefix of a text took a prefix of each longer text that begins with this text.
pub fn the_front_of_the_text()
    ensures { (sink : Device SinkTold) (text longer : List ℕ) → IsFront text longer → TookFront sink text → TookFront sink longer }
{}

/// What follows if a run that writes as it goes ended with a status. Unless memory ran out, its input was read to its end, its
/// first line that isn't good, or its first fault. Unless memory ran out, the run wrote the answer if no device failed. If the run
/// went well, a node failed or a stream never closed, the input's end was met. Another status never hides a fault of a device.
pub fn runs_that_write_as_they_go()
    ensures read { (laws : Laws) (report : Reporting) (plan : Plan) (status : Status) (devices : RunDevices) → RanOn laws report plan status devices → status ≢ OutOfMemory
        → (read : Read) × CameTo (inputs_of plan) devices.input read }
    ensures ended { (laws : Laws) (report : Reporting) (plan : Plan) (status : Status) (devices : RunDevices) → RanOn laws report plan status devices → IsOneOf status (Good ∷ NodeFault ∷ Stalled ∷ [])
        → EndCame devices.input.before devices.input.now }
    ensures answered { (laws : Laws) (report : Reporting) (plan : Plan) (status : Status) (devices : RunDevices) → RanOn laws report plan status devices → NoneFailed devices → status ≢ OutOfMemory
        → IsAnswered laws report plan status devices }
    ensures read_rose { (laws : Laws) (report : Reporting) (plan : Plan) (status : Status) (devices : RunDevices) → RanOn laws report plan status devices
        → HasRisen devices.input.before.faults devices.input.now.faults → IsOneOf status (ReadFault ∷ WriteFault ∷ OutOfMemory ∷ []) }
    ensures write_rose { (laws : Laws) (report : Reporting) (plan : Plan) (status : Status) (devices : RunDevices) → RanOn laws report plan status devices
        → HasRisen devices.output.before.faults devices.output.now.faults ⊎ HasRisen devices.notes.before.faults devices.notes.now.faults
        → IsOneOf status (WriteFault ∷ OutOfMemory ∷ []) }
{}

/// What follows if a run over packets that are made ended with a status. Unless memory ran out, the run wrote the answer if neither
/// the output nor the notes failed. Another status never hides a fault of the output or the notes.
pub fn runs_over_generated_packets()
    ensures answered { (laws : Laws) (report : Reporting) (plan : Plan) (number : ℕ) (status : Status) (devices : RunDevices) → RanGenerated laws report plan number status devices
        → Unrisen devices.output.before.faults devices.output.now.faults → Unrisen devices.notes.before.faults devices.notes.now.faults → status ≢ OutOfMemory
        → (answer : RunAnswer) × AnswersGenerated laws report plan number answer × Meets answer status devices.output devices.notes }
    ensures write_rose { (laws : Laws) (report : Reporting) (plan : Plan) (number : ℕ) (status : Status) (devices : RunDevices) → RanGenerated laws report plan number status devices
        → HasRisen devices.output.before.faults devices.output.now.faults ⊎ HasRisen devices.notes.before.faults devices.notes.now.faults
        → IsOneOf status (WriteFault ∷ OutOfMemory ∷ []) }
{}

/// Suppose an input gave some lines and an end, and the answer over these was written with a status. Then a run that writes as it
/// goes has ended with that status. The same holds of a run over packets that are made, if the answer over these packets was
/// written.
pub fn what_is_written_ran()
    ensures read { (laws : Laws) (report : Reporting) (plan : Plan) (read : Read) (devices : RunDevices) (status : Status) → CameTo (inputs_of plan) devices.input read
        → Wrote (by_lines report) (job_of laws plan read) read.end status devices.output devices.notes → RanOn laws report plan status devices }
    ensures generated { (laws : Laws) (report : Reporting) (plan : Plan) (number : ℕ) (devices : RunDevices) (status : Status)
        → Wrote (by_summary report) (generated_job laws plan number) ends.Ended status devices.output devices.notes → RanGenerated laws report plan number status devices }
{}

/// The outputs of a solution have fewer than 2^64 settled sets.
pub fn sets_are_few()
    ensures { (job : Job) (streams : List (StreamPrefix Plain)) → IsJob job → IsSolution job streams
        → length (settled_sets Default (ports_of streams job.plan.outputs)) < 2 ^ 64 }
{}

/// The input gave these lines and this end, if four things hold. The source gave some bytes. These lines were accepted of the
/// bytes. The end is that of the lines and of the source's calls, and not that memory ran out. The bytes were read once.
pub fn what_batches_came_to()
    ensures { (graph : GraphInputs) (input : Device SourceTold) (came : List ℕ) (lines : List (List ℕ)) (end : FeedEnd) (ended : Bool)
        → Gave input.before.left input.now.left came → EndsAs end graph [] came lines ended → MetEnd false ended input.before input.now
        → FailedBy end input.before input.now → end ≢ ends.OutOfMemory → ReadsOnce graph input.before input.now came
        → CameTo graph input (record { lines = lines; end = end }) }
{}

/// What was read of an input makes a job of a valid plan: its inputs fit the plan.
pub fn what_was_read_is_a_job()
    ensures { (laws : Laws) (plan : Plan) (input : Device SourceTold) (read : Read) → IsValid plan → CameTo (inputs_of plan) input read → IsJob (job_of laws plan read) }
{}

/// The output text of some lines is a prefix of the output text of a whole input that begins with these lines. No side packet may
/// come after the lines.
pub fn texts_grow()
    ensures { (laws : Laws) (plan : Plan) (bytes : List ℕ) (lines more : List (List ℕ)) (streams longer : List (StreamPrefix Plain)) → IsValid plan
        → accepted (inputs_of plan) (all_lines bytes) ≡ lines ++ more
        → (given_by (inputs_of plan) lines).sides ≡ (given_by (inputs_of plan) (lines ++ more)).sides
        → IsSolution (record {
          plan = plan;
          inputs = record { streams = (given_by (inputs_of plan) lines).streams; sides = (given_by (inputs_of plan) lines).sides; ended = false };
          laws = laws;
        }) streams
        → IsSolution (job_of laws plan (ended_input (inputs_of plan) bytes)) longer → IsFront (output_text_of plan streams) (output_text_of plan longer) }
{}

/// Lines of different streams may change places. If two lines that stand one after the other name different streams, and all lines
/// are good in either order, the answer is the same.
pub fn lines_of_different_streams_answer_the_same()
    ensures { (laws : Laws) (report : Reporting) (plan : Plan) (input other : List ℕ) (front back : List (List ℕ)) (first second : List ℕ) (answer : RunAnswer)
        → all_lines input ≡ front ++ first ∷ second ∷ back → all_lines other ≡ front ++ second ∷ first ∷ back → AreApart first second
        → AllGood (inputs_of plan) [] (all_lines input) → AllGood (inputs_of plan) [] (all_lines other)
        → AnswersEnded laws report plan input answer → AnswersEnded laws report plan other answer }
{}
