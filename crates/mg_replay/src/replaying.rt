//! Recorded runs: their lines are read, their events are made, and the answer or the one note is written.
ghost use Rattle.std.specs.Prelude.{◌≡◌, List, map, IfOk, OnOk, OnErr};
ghost use Rattle.mg_edge.specs.Edge.{SourceTold};
ghost use Rattle.mg_value.specs.Payload.{Plain};
ghost use Rattle.mg_settled.specs.Prefix.{StreamPrefix};
ghost use Rattle.mg_calc.specs.declared.inputs.Inputs.{Inputs as Given};
ghost use Rattle.mg_calc.specs.Plan.{IsValid};
ghost use Rattle.mg_calc.specs.Equations.{IsJob, IsSolution};
ghost use Rattle.mg_calc.specs.Told.{BoxTold};
ghost use Rattle.mg_node.specs.Job.{LoggedJob};
ghost use Rattle.mg_feed.specs.LinesSeen.{reading, number_of};
ghost use Rattle.mg_answer.specs.Answer.{packet_lines};
ghost use Rattle.mg_answer.specs.Text.{output_text_of};
ghost use Rattle.mg_answer.specs.Devices.{device, TookFront};
ghost use Rattle.mg_answer.specs.Held.{told_by, SameDevices};
ghost use Rattle.mg_sched.specs.Made.{BoxesFit, IsMade};
ghost use Rattle.mg_sched.specs.StandsFor.{StandsFor, StandsForSome, IsRunning};
ghost use Rattle.mg_sched.specs.AtRest.{IsAtRest};
ghost use Rattle.mg_sched.specs.Taking.{taken_out};
ghost use Rattle.mg_sched.specs.GivesBack.{StoodFor};
ghost use Rattle.mg_drive.specs.Nets.{Keeps};
ghost use Rattle.mg_drive.specs.OneRun.{CalculatorsCameBack};
ghost use Rattle.mg_drive.specs.Code.Tracing.{IsSomeMade};
ghost use Rattle.mg_drive.specs.Code.Running.{HasRested};
ghost use Rattle.mg_drive.specs.Code.Ending.{IsWhole, HadAllOf};
ghost use Rattle.mg_replay.specs.Replayed.{job_over, WroteJob, ReplayedBy, Replayed, ReplayedSome};
ghost use Rattle.mg_replay.specs.Note.{WroteNote};
ghost use Rattle.mg_replay.specs.Code.Reading.{HasReadInputs};
ghost use Rattle.mg_replay.specs.Code.Nets.{told_since, accepts, StandsForPlan, ClosedAllOf, NetReplayed, NetShort, JobReplayed, JobShort};

use crate::TraceEnd;
use crate::events::replay_events;
use crate::noting::note_end;
use crate::opening::{Opened, read_job};
use mg_answer::{Devices, OutputText, Run, Status, note_out_of_memory};
use mg_calc::{Inputs, NodeCalculator};
use mg_drive::{OneThread, finish, finish_frozen, take_all};
use mg_edge::{Gate, Sink, Source};
use mg_feed::{Feed, FeedEnd, Lines};
use mg_sched::Net;
use mg_settled::InputSet;
use std::alloc::{AllocError, Global};
use std::mem;

/// Makes a recorded run of a plan again, with user-supplied calculators, and leaves these in their places. It reads the lines of
/// the run's job, begins the nodes, and makes the events one by one, each Process call through the gate. The run is accepted if its
/// events are a run of its job to rest and nothing stands after them. Only then the output text of the job is written, then the
/// notes, and then the report if it is asked for.
///
/// Otherwise nothing is written but one note: which line is refused and why, or that a read failed. The run breaks off where it is then:
/// no set is shown any more, and nodes that were opened are closed.
///
/// The status reports a write that fails, as the status of a run does. If memory runs out, the notes say that alone.
pub fn replay_lines<G: Gate, C: NodeCalculator, S: Source, K: Sink, E: Sink>(
    run: &Run<'_>,
    gate: &G,
    boxes: &mut Vec<C>,
    devices: &mut Devices<'_, '_, '_, S, K, E>,
) -> Status
    requires valid { IsValid run.now.plan.now }
    requires boxes { BoxesFit run.now.plan.now (map C.told boxes.old.items) }

    // What each status says of the run, the devices and the calculators.
    ensures replayed { ReplayedBy C.laws result run.now.report run.now.plan.now (told_by S.told K.told E.told devices.old devices.new) (device (map C.told boxes.old.items) (map C.told boxes.new.items)) }
    ensures back { CalculatorsCameBack run.now.plan.now (map C.told boxes.old.items) (map C.told boxes.new.items) }
    ensures same { SameDevices devices.old devices.new }
{
    match replay_whole(run, gate, boxes, devices) {
        Ok(status) => status,
        Err(_) => note_out_of_memory(devices.notes),
    }
}

// Reads the lines of the job, and makes the run again.
fn replay_whole<G: Gate, C: NodeCalculator, S: Source, K: Sink, E: Sink>(
    run: &Run<'_>,
    gate: &G,
    boxes: &mut Vec<C>,
    devices: &mut Devices<'_, '_, '_, S, K, E>,
) -> Result<Status, AllocError>
    requires valid { IsValid run.now.plan.now }
    requires boxes { BoxesFit run.now.plan.now (map C.told boxes.old.items) }
    ensures replayed { IfOk result (λ status. Replayed C.laws run.now.report run.now.plan.now status (told_by S.told K.told E.told devices.old devices.new) (device (map C.told boxes.old.items) (map C.told boxes.new.items))) }
    ensures some { OnErr result (ReplayedSome C.laws run.now.plan.now (told_by S.told K.told E.told devices.old devices.new) (device (map C.told boxes.old.items) (map C.told boxes.new.items))) }
    ensures unnoted { OnErr result (E.told devices.new.notes.now ≡ E.told devices.old.notes.now) }
    ensures back { CalculatorsCameBack run.now.plan.now (map C.told boxes.old.items) (map C.told boxes.new.items) }
    ensures same { SameDevices devices.old devices.new }
{
    let mut feed = Feed::new(run.alloc, run.plan)?;
    let mut lines = Lines::new(run.alloc)?;
    let opened = read_job(&mut feed, &mut lines, devices.input)?;
    match opened {
        Opened::Job(ended) => {
            let inputs = feed.into_inputs(ended);
            let status = replay_job(run, gate, boxes, Opening { inputs, lines }, devices)?;
            Ok(status)
        }
        Opened::Stopped(end) => {
            let status = note_end(run.alloc, end, devices.notes)?;
            Ok(status)
        }
    }
}

// The inputs that the lines of a job give a graph, and the lines after them.
#[derive(Drop)]
struct Opening {
    inputs: Inputs,
    lines: Lines,
}

// Makes the net of a job, makes the run on it, and takes the calculators out of it again.
fn replay_job<G: Gate, C: NodeCalculator, S: Source, K: Sink, E: Sink>(
    run: &Run<'_>,
    gate: &G,
    boxes: &mut Vec<C>,
    opening: Opening,
    devices: &mut Devices<'_, '_, '_, S, K, E>,
) -> Result<Status, AllocError>
    requires job { IsJob (job_over C.laws run.now.plan.now opening.inputs) }
    requires boxes { BoxesFit run.now.plan.now (map C.told boxes.old.items) }
    ensures replayed { IfOk result (λ status. (first : SourceTold) → HasReadInputs run.now.plan.now opening.inputs first (S.told devices.old.input.now) (reading opening.lines) (number_of opening.lines)
        → JobReplayed C.laws run.now.report run.now.plan.now opening.inputs status (told_since first (told_by S.told K.told E.told devices.old devices.new)) (device (map C.told boxes.old.items) (map C.told boxes.new.items))) }
    ensures some { OnErr result ((first : SourceTold) → HasReadInputs run.now.plan.now opening.inputs first (S.told devices.old.input.now) (reading opening.lines) (number_of opening.lines)
        → JobShort C.laws run.now.plan.now opening.inputs (told_since first (told_by S.told K.told E.told devices.old devices.new)) (device (map C.told boxes.old.items) (map C.told boxes.new.items))) }
    ensures unnoted { OnErr result (E.told devices.new.notes.now ≡ E.told devices.old.notes.now) }
    ensures back { CalculatorsCameBack run.now.plan.now (map C.told boxes.old.items) (map C.told boxes.new.items) }
    ensures same { SameDevices devices.old devices.new }
{
    let Opening { inputs, lines } = opening;
    let handed = mem::replace(boxes, Vec::new(run.alloc));
    match Net::new(run.alloc, run.plan, &inputs, handed) {
        Ok(net) => {
            let mut driven = OneThread { net, gate };
            let replayed = replay_net(run, &mut driven, inputs.ended, lines, devices);
            let OneThread { net, gate: _ } = driven;
            *boxes = net.give_back();
            replayed
        }
        Err(back) => {
            *boxes = back;
            Err(AllocError)
        }
    }
}

// Begins a net that was made, and makes the run on it.
fn replay_net<G: Gate, C: NodeCalculator, S: Source, K: Sink, E: Sink>(
    run: &Run<'_>,
    net: &mut OneThread<'_, C, G>,
    ended: bool,
    lines: Lines,
    devices: &mut Devices<'_, '_, '_, S, K, E>,
) -> Result<Status, AllocError>
    requires valid { IsValid run.now.plan.now }
    requires made { IsSomeMade C.laws run.now.plan.now net.old.net }
    ensures replayed { IfOk result (λ status. (inputs : Given) (boxes : List BoxTold) (first : SourceTold) → IsMade C.laws run.now.plan.now inputs boxes net.old.net → ended ≡ inputs.ended
        → HasReadInputs run.now.plan.now inputs first (S.told devices.old.input.now) (reading lines) (number_of lines)
        → NetReplayed C.laws run.now.report run.now.plan.now inputs boxes status (told_since first (told_by S.told K.told E.told devices.old devices.new)) net.new.net) }
    ensures some { OnErr result ((inputs : Given) (boxes : List BoxTold) (first : SourceTold) → IsMade C.laws run.now.plan.now inputs boxes net.old.net → ended ≡ inputs.ended
        → HasReadInputs run.now.plan.now inputs first (S.told devices.old.input.now) (reading lines) (number_of lines)
        → NetShort C.laws run.now.plan.now inputs boxes (told_since first (told_by S.told K.told E.told devices.old devices.new)) net.new.net) }
    ensures unnoted { OnErr result (E.told devices.new.notes.now ≡ E.told devices.old.notes.now) }
    ensures stood { (job : LoggedJob C.laws) → StandsFor job net.old.net → StoodFor job net.new.net }
    ensures keeps { Keeps net.old.net net.new.net }
    ensures same { SameDevices devices.old devices.new }
{
    net.net.begin()?;
    let mut lines = lines;
    let end = replay_events(run.plan, &mut net.net, net.gate, &mut lines, devices.input)?;
    if is_accepted(end) {
        let status = accept(run, net, ended, devices.output, devices.notes)?;
        return Ok(status);
    }
    let status = refuse(run.alloc, &mut net.net, end, devices.notes)?;
    Ok(status)
}

// Returns whether the reading ended so that the run is accepted.
fn is_accepted(end: TraceEnd) -> bool
    ensures { result ≡ accepts end }
{
    match end {
        TraceEnd::Accepted => true,
        TraceEnd::Refused { .. } => false,
        TraceEnd::Failed { .. } => false,
    }
}

// Closes the nodes of a run that isn't accepted where they are, and writes the note. Works that are claimed aren't performed.
fn refuse<C: NodeCalculator, E: Sink>(
    alloc: Global,
    net: &mut Net<C>,
    end: TraceEnd,
    notes: &mut E,
) -> Result<Status, AllocError>
    requires running { IsRunning net.old }
    requires stands { StandsForSome C.laws net.old }
    ensures wrote { IfOk result (λ status. WroteNote end status (device (E.told notes.old) (E.told notes.new))) }
    ensures closed { OnOk result ((job : LoggedJob C.laws) → StandsFor job net.old → ClosedAllOf job net.new) }
    ensures stood { (job : LoggedJob C.laws) → StandsFor job net.old → StoodFor job net.new }
    ensures unnoted { OnErr result (E.told notes.new ≡ E.told notes.old) }
    ensures keeps { Keeps net.old net.new }
{
    net.put_back_all();
    net.wind_up()?;
    let status = note_end(alloc, end, notes)?;
    Ok(status)
}

// Writes the output text of a run that is accepted, and the notes.
fn accept<G: Gate, C: NodeCalculator, K: Sink, E: Sink>(
    run: &Run<'_>,
    net: &mut OneThread<'_, C, G>,
    ended: bool,
    output: &mut K,
    notes: &mut E,
) -> Result<Status, AllocError>
    requires valid { IsValid run.now.plan.now }
    requires running { IsRunning net.old.net }
    requires rests { IsAtRest C.laws net.old.net }
    requires stands { StandsForPlan C.laws run.now.plan.now net.old.net }
    requires untaken { taken_out net.old.net ≡ 0 }
    ensures wrote { IfOk result (λ status. (job : LoggedJob C.laws) → job.job.plan ≡ run.now.plan.now → StandsFor job net.old.net
        → WroteJob ended run.now.report job.job status (device (K.told output.old) (K.told output.new)) (device (E.told notes.old) (E.told notes.new))) }
    ensures had { OnOk result ((job : LoggedJob C.laws) → StandsFor job net.old.net → HadAllOf job net.new.net) }
    ensures front { OnErr result ((job : LoggedJob C.laws) (streams : List (StreamPrefix Plain)) → job.job.plan ≡ run.now.plan.now → StandsFor job net.old.net → IsSolution job.job streams
        → TookFront (device (K.told output.old) (K.told output.new)) (output_text_of job.job.plan streams)) }
    ensures stood { (job : LoggedJob C.laws) → StandsFor job net.old.net → StoodFor job net.new.net }
    ensures unnoted { OnErr result (E.told notes.new ≡ E.told notes.old) }
    ensures keeps { Keeps net.old.net net.new.net }
{
    let text = tell_outputs(run, net, output)?;
    if ended {
        let status = finish(run, net, FeedEnd::Ended, text, output, notes)?;
        return Ok(status);
    }
    let status = finish_frozen(run, net, text, output, notes)?;
    Ok(status)
}

// Takes all sets of the outputs of a net at rest, and writes their lines.
fn tell_outputs<G: Gate, C: NodeCalculator, K: Sink>(
    run: &Run<'_>,
    net: &mut OneThread<'_, C, G>,
    output: &mut K,
) -> Result<OutputText, AllocError>
    requires valid { IsValid run.now.plan.now }
    requires running { IsRunning net.old.net }
    requires rests { IsAtRest C.laws net.old.net }
    requires stands { StandsForPlan C.laws run.now.plan.now net.old.net }
    requires untaken { taken_out net.old.net ≡ 0 }
    ensures rested { OnOk result ((job : LoggedJob C.laws) → StandsFor job net.old.net → HasRested job net.new.net) }
    ensures whole { IfOk result (λ text. (job : LoggedJob C.laws) → job.job.plan ≡ run.now.plan.now → StandsFor job net.old.net → IsWhole packet_lines (K.told output.old) (K.told output.new) job.job text) }
    ensures front { OnErr result ((job : LoggedJob C.laws) (streams : List (StreamPrefix Plain)) → job.job.plan ≡ run.now.plan.now → StandsFor job net.old.net → IsSolution job.job streams
        → TookFront (device (K.told output.old) (K.told output.new)) (output_text_of job.job.plan streams)) }
    ensures stands { (job : LoggedJob C.laws) → StandsFor job net.old.net → StandsFor job net.new.net }
    ensures keeps { Keeps net.old.net net.new.net }
{
    let mut set = InputSet::new(run.alloc, run.plan.outputs.len())?;
    let mut text = OutputText::new(run.alloc, run.plan)?;
    take_all(net, &mut set, &mut text, output)?;
    Ok(text)
}
