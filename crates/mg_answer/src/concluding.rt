//! The end of a run: the rest of its output text, its notes and its status.
ghost use Rattle.std.specs.Prelude.{◌≡◌, ◌<◌, ◌^◌, if◌then◌else◌, All, length, List, ℕ, IfOk, OnErr};
ghost use Rattle.mg_edge.specs.Edge.{SinkTold};
ghost use Rattle.mg_value.specs.Payload.{Plain};
ghost use Rattle.mg_settled.specs.Prefix.{StreamPrefix};
ghost use Rattle.mg_calc.specs.Equations.{Job, IsSolution};
ghost use Rattle.mg_answer.specs.Told.{status_of as the_status};
ghost use Rattle.mg_answer.specs.Answer.{OutputForm, output_in};
ghost use Rattle.mg_answer.specs.Outcomes.{TellsOf, told_notes, told_answer, told_failed};
ghost use Rattle.mg_answer.specs.Devices.{device, TookFront};
ghost use Rattle.mg_answer.specs.Put.{HasPut};
ghost use Rattle.mg_answer.specs.Wrote.{Wrote, WroteBy};
ghost use Rattle.mg_answer.specs.Frozen.{WroteFrozen};

use crate::notes::{put_end, put_faults, put_status};
use crate::report::put_asked;
use crate::told::{stalled_of, status_of};
use crate::{Outcomes, OutputText, Run, Status};
use mg_edge::Sink;
use mg_feed::{FeedEnd, put_all};
use std::alloc::AllocError;

/// Ends a run whose sets are all put, and returns the status. Writes the rest of the output text, then the notes, and then the
/// report if it is asked for. The notes say how the input ended and what became of the nodes and streams. The lines of arrivals at
/// free nodes stand between these notes and the report.
///
/// If a write of the text has failed, or a write of the rest fails, the notes are written all the same, and say so. If memory runs
/// out (`Err`) no note is written.
pub fn conclude<K: Sink, E: Sink>(
    run: &Run<'_>,
    end: FeedEnd,
    outcomes: &Outcomes,
    mut text: OutputText,
    output: &mut K,
    notes: &mut E,
) -> Result<Status, AllocError>
    requires few { length outcomes.now.ends.items < 2 ^ 32 }
    requires many { length outcomes.now.ends.items ≡ length run.now.plan.now.streams }
    requires sets { length outcomes.now.sets ≡ length run.now.plan.now.nodes }
    requires nodes { All (λ fault. fault.node < length run.now.plan.now.nodes) outcomes.now.faults }

    // For each job of the plan the answer was written, if two things hold. The outcomes tell the job's solution. The text that was
    // put is the solution's output in one of the forms.
    ensures wrote { IfOk result (λ status. (form : OutputForm) (job : Job) (streams : List (StreamPrefix Plain)) (first : SinkTold)
        → job.plan ≡ run.now.plan.now → IsSolution job streams → TellsOf job streams outcomes.now
        → HasPut first (K.told output.old) text (output_in form run.now.plan.now streams)
        → Wrote (record { form = form; report = run.now.report }) job end status (device first (K.told output.new)) (device (E.told notes.old) (E.told notes.new))) }

    // Whatever text was put, it was written with the notes of the outcomes; or a write failed, and the status says so.
    ensures told { IfOk result (λ status. (first : SinkTold) (whole : List ℕ) → HasPut first (K.told output.old) text whole
        → WroteBy status (told_answer run.now.report run.now.plan.now end outcomes.now whole) (told_failed run.now.report run.now.plan.now end outcomes.now) (device first (K.told output.new)) (device (E.told notes.old) (E.told notes.new))) }

    // If memory ran out, the output took a prefix of the text.
    ensures front { OnErr result ((first : SinkTold) (whole : List ℕ) → HasPut first (K.told output.old) text whole
        → TookFront (device first (K.told output.new)) whole) }
    ensures unnoted { OnErr result (E.told notes.new ≡ E.told notes.old) }
{
    text.flush(output);
    let stalled = stalled_of(run.alloc, outcomes.ends.as_slice())?;
    let told = tell(run, end, outcomes, &stalled, !text.has_failed())?;
    let noted = put_all(notes, &told.notes);
    Ok(unless_failed(noted, told.status))
}

/// Ends a run whose input was frozen, once its sets are all put, as `conclude` ends any other run. Such an input didn't end well,
/// but nothing is noted of that, and no stream is told to have stalled.
pub fn conclude_frozen<K: Sink, E: Sink>(
    run: &Run<'_>,
    outcomes: &Outcomes,
    mut text: OutputText,
    output: &mut K,
    notes: &mut E,
) -> Result<Status, AllocError>
    requires few { length outcomes.now.ends.items < 2 ^ 32 }
    requires many { length outcomes.now.ends.items ≡ length run.now.plan.now.streams }
    requires sets { length outcomes.now.sets ≡ length run.now.plan.now.nodes }
    requires nodes { All (λ fault. fault.node < length run.now.plan.now.nodes) outcomes.now.faults }
    ensures wrote { IfOk result (λ status. (form : OutputForm) (job : Job) (streams : List (StreamPrefix Plain)) (first : SinkTold)
        → job.plan ≡ run.now.plan.now → IsSolution job streams → TellsOf job streams outcomes.now
        → HasPut first (K.told output.old) text (output_in form run.now.plan.now streams)
        → WroteFrozen (record { form = form; report = run.now.report }) job status (device first (K.told output.new)) (device (E.told notes.old) (E.told notes.new))) }
    ensures front { OnErr result ((first : SinkTold) (whole : List ℕ) → HasPut first (K.told output.old) text whole
        → TookFront (device first (K.told output.new)) whole) }
    ensures unnoted { OnErr result (E.told notes.new ≡ E.told notes.old) }
{
    text.flush(output);
    let told = tell(run, FeedEnd::Ended, outcomes, &[], !text.has_failed())?;
    let noted = put_all(notes, &told.notes);
    Ok(unless_failed(noted, told.status))
}

// Returns a status, or `WriteFault` if something wasn't written.
fn unless_failed(written: bool, status: Status) -> Status
    ensures { result ≡ (if written then status else Status.WriteFault) }
{
    if written { status } else { Status::WriteFault }
}

// The status of a run, and the bytes of its notes.
#[derive(Drop)]
struct Told {
    status: Status,
    notes: Vec<u8>,
}

// Returns the status and the notes of a run, by how its input ended, which streams stalled, and whether its text was written.
fn tell(
    run: &Run<'_>,
    end: FeedEnd,
    outcomes: &Outcomes,
    stalled: &[u32],
    written: bool,
) -> Result<Told, AllocError>
    requires few { length outcomes.now.ends.items < 2 ^ 32 }
    requires numbers { All (λ number. number < length outcomes.now.ends.items) stalled.now }
    requires many { length outcomes.now.ends.items ≡ length run.now.plan.now.streams }
    requires sets { length outcomes.now.sets ≡ length run.now.plan.now.nodes }
    requires nodes { All (λ fault. fault.node < length run.now.plan.now.nodes) outcomes.now.faults }
    ensures status { IfOk result (λ told. told.status ≡ (if written then the_status end outcomes.now.faults stalled.now else Status.WriteFault)) }
    ensures notes { IfOk result (λ told. told.notes.items ≡ told_notes told.status run.now.report run.now.plan.now end outcomes.now stalled.now) }
{
    let faults = outcomes.faults.as_slice();
    let status = unless_failed(written, status_of(end, faults, stalled));
    let mut notes = Vec::new(run.alloc);
    put_end(&mut notes, end)?;
    put_faults(&mut notes, run.plan, faults)?;
    put_status(
        &mut notes,
        status,
        run.plan,
        outcomes.ends.as_slice(),
        stalled,
    )?;
    notes.extend_from_slice(&outcomes.arrivals)?;
    put_asked(
        &mut notes,
        run.report,
        run.plan,
        outcomes.sets.as_slice(),
        outcomes.ends.as_slice(),
    )?;
    Ok(Told { status, notes })
}
