//! Runs that are recorded: the lines of the job are written, and then a line for each event as the net makes it.
ghost use Rattle.std.specs.Prelude.{◌≡◌, ◌⊎◌, false, List, map, IfOk, OnOk, OnErr};
ghost use Rattle.mg_edge.specs.Edge.{SinkTold};
ghost use Rattle.mg_calc.specs.declared.inputs.Inputs.{Inputs as Given};
ghost use Rattle.mg_calc.specs.Plan.{IsValid};
ghost use Rattle.mg_calc.specs.Equations.{IsJob};
ghost use Rattle.mg_calc.specs.Told.{BoxTold};
ghost use Rattle.mg_feed.specs.Graph.{inputs_of};
ghost use Rattle.mg_trace.specs.Job.{job_text};
ghost use Rattle.mg_answer.specs.Put.{HasPutIn};
ghost use Rattle.mg_answer.specs.Ran.{ReadSome};
ghost use Rattle.mg_answer.specs.Devices.{device, Untouched};
ghost use Rattle.mg_answer.specs.Held.{told_by, SameDevices};
ghost use Rattle.mg_sched.specs.Made.{BoxesFit, IsMade};
ghost use Rattle.mg_drive.specs.Nets.{Keeps};
ghost use Rattle.mg_drive.specs.Leaves.{AllHadCalls, HadSome, RunLeaves};
ghost use Rattle.mg_drive.specs.Traced.{Traced, TracedOut};
ghost use Rattle.mg_drive.specs.Code.Ending.{CalculatorsCameBack};
ghost use Rattle.mg_drive.specs.Code.Tracing.{plan_job, IsSomeMade, NetTraced, NetShort, JobTraced, JobShort};

use crate::{OneThread, finish, record_run};
use mg_answer::{BlockText, Devices, Run, Status, WholeInput, note_out_of_memory, read_whole};
use mg_calc::NodeCalculator;
use mg_edge::{Gate, Sink, Source};
use mg_feed::FeedEnd;
use mg_sched::Net;
use mg_trace::write_job;
use std::alloc::AllocError;
use std::mem;

/// Runs the graph of a plan over packet lines with the user-supplied calculators, and leaves these in their places. It reads all lines
/// before the nodes begin. It writes a trace: the lines of the job in canonical form, then a line for each event of the run, and a last
/// line. The line of an event is put as the event is made. After the trace come the notes, with the report if it is asked for. Each Process
/// call goes through the gate.
///
/// Once a write to the output has failed, nothing more is written to it. The run goes on all the same, and the notes say that the write
/// failed. If memory runs out, the notes say only that.
pub fn trace_lines<G: Gate, C: NodeCalculator, S: Source, K: Sink, E: Sink>(
    run: &Run<'_>,
    gate: &G,
    boxes: &mut Vec<C>,
    devices: &mut Devices<'_, '_, '_, S, K, E>,
) -> Status
    requires valid { IsValid run.now.plan.now }
    requires boxes { BoxesFit run.now.plan.now (map C.told boxes.old.items) }

    // What each status means: the same as in a run that isn't recorded, but the output took a trace.
    ensures traced { Traced C.laws run.now.report run.now.plan.now (map C.told boxes.old.items) result (told_by S.told K.told E.told devices.old devices.new) }

    // What the run leaves of the user-supplied calculators.
    ensures left { RunLeaves C.laws run.now.plan.now result (told_by S.told K.told E.told devices.old devices.new).input (device (map C.told boxes.old.items) (map C.told boxes.new.items)) }
    ensures same { SameDevices devices.old devices.new }
{
    match trace_whole(run, gate, boxes, devices) {
        Ok(status) => status,
        Err(_) => note_out_of_memory(devices.notes),
    }
}

// Reads the whole input, runs the graph over it, and writes the trace and the notes.
fn trace_whole<G: Gate, C: NodeCalculator, S: Source, K: Sink, E: Sink>(
    run: &Run<'_>,
    gate: &G,
    boxes: &mut Vec<C>,
    devices: &mut Devices<'_, '_, '_, S, K, E>,
) -> Result<Status, AllocError>
    requires valid { IsValid run.now.plan.now }
    requires boxes { BoxesFit run.now.plan.now (map C.told boxes.old.items) }
    ensures traced { IfOk result (λ status. Traced C.laws run.now.report run.now.plan.now (map C.told boxes.old.items) status (told_by S.told K.told E.told devices.old devices.new)) }
    ensures short { OnErr result (TracedOut C.laws run.now.plan.now (map C.told boxes.old.items) (told_by S.told K.told E.told devices.old devices.new)) }
    ensures read { OnErr result (ReadSome (inputs_of run.now.plan.now) (told_by S.told K.told E.told devices.old devices.new).input) }
    ensures unnoted { OnErr result (E.told devices.new.notes.now ≡ E.told devices.old.notes.now) }
    ensures used { OnOk result (AllHadCalls C.laws run.now.plan.now (told_by S.told K.told E.told devices.old devices.new).input (device (map C.told boxes.old.items) (map C.told boxes.new.items))) }
    ensures fronts { OnErr result (HadSome C.laws run.now.plan.now (told_by S.told K.told E.told devices.old devices.new).input (device (map C.told boxes.old.items) (map C.told boxes.new.items))) }
    ensures back { CalculatorsCameBack run.now.plan.now (map C.told boxes.old.items) (map C.told boxes.new.items) }
    ensures same { SameDevices devices.old devices.new }
{
    let whole = read_whole(run.alloc, run.plan, devices.input)?;
    let lines = write_job(run.alloc, run.plan, &whole.inputs)?;
    let opening = Opening {
        whole,
        blocks: BlockText::whole(lines),
    };
    let status = trace_job(run, gate, boxes, opening, devices.output, devices.notes)?;
    Ok(status)
}

// An input that was read, and a text. The text has the input's lines in canonical form, and takes the lines of events after them.
#[derive(Drop)]
struct Opening {
    whole: WholeInput,
    blocks: BlockText,
}

// Makes the net of a job, runs it on this thread, and takes the calculators out of it again.
fn trace_job<G: Gate, C: NodeCalculator, K: Sink, E: Sink>(
    run: &Run<'_>,
    gate: &G,
    boxes: &mut Vec<C>,
    opening: Opening,
    output: &mut K,
    notes: &mut E,
) -> Result<Status, AllocError>
    requires job { IsJob (plan_job C.laws run.now.plan.now opening.whole.inputs) }
    requires boxes { BoxesFit run.now.plan.now (map C.told boxes.old.items) }
    requires opened { opening.blocks ≡ record { kept = job_text run.now.plan.now opening.whole.inputs; failed = false } }
    ensures traced { IfOk result (λ status. JobTraced C.laws run.now.report run.now.plan.now opening.whole.inputs opening.whole.end status (device (K.told output.old) (K.told output.new)) (device (E.told notes.old) (E.told notes.new))
        (device (map C.told boxes.old.items) (map C.told boxes.new.items))) }
    ensures short { OnErr result ((Untouched (device (K.told output.old) (K.told output.new)) × Untouched (device (map C.told boxes.old.items) (map C.told boxes.new.items)))
        ⊎ JobShort C.laws run.now.plan.now opening.whole.inputs (device (K.told output.old) (K.told output.new)) (device (map C.told boxes.old.items) (map C.told boxes.new.items))) }
    ensures unnoted { OnErr result (E.told notes.new ≡ E.told notes.old) }
    ensures back { CalculatorsCameBack run.now.plan.now (map C.told boxes.old.items) (map C.told boxes.new.items) }
{
    let Opening { whole, blocks } = opening;
    let handed = mem::replace(boxes, Vec::new(run.alloc));
    match Net::new(run.alloc, run.plan, &whole.inputs, handed) {
        Ok(net) => {
            let mut driven = OneThread { net, gate };
            let traced = trace_net(run, &mut driven, whole.end, blocks, output, notes);
            let OneThread { net, gate: _ } = driven;
            *boxes = net.give_back();
            traced
        }
        Err(back) => {
            *boxes = back;
            Err(AllocError)
        }
    }
}

// Begins a net that was made, runs it to rest, and ends the run.
fn trace_net<G: Gate, C: NodeCalculator, K: Sink, E: Sink>(
    run: &Run<'_>,
    net: &mut OneThread<'_, C, G>,
    end: FeedEnd,
    blocks: BlockText,
    output: &mut K,
    notes: &mut E,
) -> Result<Status, AllocError>
    requires made { IsSomeMade C.laws run.now.plan.now net.old.net }
    ensures traced { IfOk result (λ status. (inputs : Given) (boxes : List BoxTold) (first : SinkTold) → IsMade C.laws run.now.plan.now inputs boxes net.old.net
        → HasPutIn first (K.told output.old) blocks (job_text run.now.plan.now inputs)
        → NetTraced C.laws run.now.report run.now.plan.now inputs boxes end status (device first (K.told output.new)) (device (E.told notes.old) (E.told notes.new)) net.new.net) }
    ensures short { OnErr result ((inputs : Given) (boxes : List BoxTold) (first : SinkTold) → IsMade C.laws run.now.plan.now inputs boxes net.old.net
        → HasPutIn first (K.told output.old) blocks (job_text run.now.plan.now inputs)
        → NetShort C.laws run.now.plan.now inputs boxes (K.told output.old) (device first (K.told output.new)) net.new.net) }
    ensures unnoted { OnErr result (E.told notes.new ≡ E.told notes.old) }
    ensures keeps { Keeps net.old.net net.new.net }
{
    net.net.begin()?;
    let text = record_run(run.alloc, net, blocks, output)?;
    let status = finish(run, net, end, text, output, notes)?;
    Ok(status)
}
