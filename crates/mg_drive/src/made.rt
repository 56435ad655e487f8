//! Runs over packets that are made.
ghost use Rattle.std.specs.Prelude.{◌≡◌, [], map, IfOk, OnErr};
ghost use Rattle.mg_calc.specs.Plan.{IsValid};
ghost use Rattle.mg_answer.specs.Text.{output_names};
ghost use Rattle.mg_answer.specs.Summary.{HasSummed};
ghost use Rattle.mg_answer.specs.Devices.{device};
ghost use Rattle.mg_answer.specs.Held.{told_by, SameDevices};
ghost use Rattle.mg_sched.specs.Made.{BoxesFit};
ghost use Rattle.mg_drive.specs.OneRun.{OneMade, MadeOut, RanOverPackets};
ghost use Rattle.mg_feed.specs.GeneratorSeen.{making};
ghost use Rattle.mg_drive.specs.Code.InPieces.{AreToCome};

use crate::pieces::Pieces;
use crate::{Crew, run_batches, run_batches_alone};
use mg_answer::{Devices, OutputSummary, Run, Status, note_out_of_memory};
use mg_calc::NodeCalculator;
use mg_edge::{Gate, Sink, Source};
use std::alloc::AllocError;
use std::sync::Wait;
use std::thread::Threads;

/// Runs the graph of a plan over `number` packets that are made, with the user-supplied calculators, and leaves these in their places. It
/// makes the packets piece by piece. It drives the net to rest over each piece, and adds the sets of the net's outputs to a summary. At the
/// end it writes the summary, then the notes, and after them the report if it is asked for. If enough packets have come, workers run the
/// net before a sweep, at most as many as the plan says. Each Process call goes through the crew's gate. The input is left as it was.
///
/// If a write of the summary fails, the notes are written all the same, and say so. If memory runs out, the notes say only that.
pub fn run_made<
    R: Threads + Wait + Sync,
    G: Gate + Sync,
    C: NodeCalculator + Send,
    S: Source,
    K: Sink,
    E: Sink,
>(
    run: &Run<'_>,
    number: u32,
    crew: &Crew<'_, R, G>,
    boxes: &mut Vec<C>,
    devices: &mut Devices<'_, '_, '_, S, K, E>,
) -> Status
    requires valid { IsValid run.now.plan.now }
    requires boxes { BoxesFit run.now.plan.now (map C.told boxes.old.items) }

    // Unless memory ran out, there is one job and one solution. All that is seen of the run belongs to these. The input has no part in it.
    ensures ran { RanOverPackets C.laws run.now.report run.now.plan.now number result (told_by S.told K.told E.told devices.old devices.new).output (told_by S.told K.told E.told devices.old devices.new).notes (device (map C.told boxes.old.items) (map C.told boxes.new.items)) }
    ensures unread { S.told devices.new.input.now ≡ S.told devices.old.input.now }
    ensures same { SameDevices devices.old devices.new }
{
    match run_whole(run, number, crew, boxes, devices) {
        Ok(status) => status,
        Err(_) => note_out_of_memory(devices.notes),
    }
}

// Makes a summary, and runs the graph over the packets, which are made as it goes on.
fn run_whole<
    R: Threads + Wait + Sync,
    G: Gate + Sync,
    C: NodeCalculator + Send,
    S: Source,
    K: Sink,
    E: Sink,
>(
    run: &Run<'_>,
    number: u32,
    crew: &Crew<'_, R, G>,
    boxes: &mut Vec<C>,
    devices: &mut Devices<'_, '_, '_, S, K, E>,
) -> Result<Status, AllocError>
    requires valid { IsValid run.now.plan.now }
    requires boxes { BoxesFit run.now.plan.now (map C.told boxes.old.items) }
    ensures ran { IfOk result (λ status. OneMade C.laws run.now.report run.now.plan.now number status (told_by S.told K.told E.told devices.old devices.new).output (told_by S.told K.told E.told devices.old devices.new).notes (device (map C.told boxes.old.items) (map C.told boxes.new.items))) }
    ensures short { OnErr result (MadeOut C.laws run.now.plan.now number (told_by S.told K.told E.told devices.old devices.new).output (device (map C.told boxes.old.items) (map C.told boxes.new.items))) }
    ensures unnoted { OnErr result (E.told devices.new.notes.now ≡ E.told devices.old.notes.now) }
    ensures unread { S.told devices.new.input.now ≡ S.told devices.old.input.now }
    ensures same { SameDevices devices.old devices.new }
{
    let ends = ends_of(run, number)?;
    let status = run_batches(run, crew, boxes, ends.0, ends.1, devices)?;
    Ok(status)
}

/// Runs the graph of a plan over `number` packets that are made without workers, and does all else as `run_made` does. It is handed no
/// runtime, so it returns.
pub fn run_made_alone<G: Gate, C: NodeCalculator, S: Source, K: Sink, E: Sink>(
    run: &Run<'_>,
    number: u32,
    gate: &G,
    boxes: &mut Vec<C>,
    devices: &mut Devices<'_, '_, '_, S, K, E>,
) -> Status
    requires valid { IsValid run.now.plan.now }
    requires boxes { BoxesFit run.now.plan.now (map C.told boxes.old.items) }

    // Unless memory ran out, there is one job and one solution. All that is seen of the run belongs to these. The input has no part in it.
    ensures ran { RanOverPackets C.laws run.now.report run.now.plan.now number result (told_by S.told K.told E.told devices.old devices.new).output (told_by S.told K.told E.told devices.old devices.new).notes (device (map C.told boxes.old.items) (map C.told boxes.new.items)) }
    ensures unread { S.told devices.new.input.now ≡ S.told devices.old.input.now }
    ensures same { SameDevices devices.old devices.new }
{
    match run_whole_alone(run, number, gate, boxes, devices) {
        Ok(status) => status,
        Err(_) => note_out_of_memory(devices.notes),
    }
}

fn run_whole_alone<G: Gate, C: NodeCalculator, S: Source, K: Sink, E: Sink>(
    run: &Run<'_>,
    number: u32,
    gate: &G,
    boxes: &mut Vec<C>,
    devices: &mut Devices<'_, '_, '_, S, K, E>,
) -> Result<Status, AllocError>
    requires valid { IsValid run.now.plan.now }
    requires boxes { BoxesFit run.now.plan.now (map C.told boxes.old.items) }
    ensures ran { IfOk result (λ status. OneMade C.laws run.now.report run.now.plan.now number status (told_by S.told K.told E.told devices.old devices.new).output (told_by S.told K.told E.told devices.old devices.new).notes (device (map C.told boxes.old.items) (map C.told boxes.new.items))) }
    ensures short { OnErr result (MadeOut C.laws run.now.plan.now number (told_by S.told K.told E.told devices.old devices.new).output (device (map C.told boxes.old.items) (map C.told boxes.new.items))) }
    ensures unnoted { OnErr result (E.told devices.new.notes.now ≡ E.told devices.old.notes.now) }
    ensures unread { S.told devices.new.input.now ≡ S.told devices.old.input.now }
    ensures same { SameDevices devices.old devices.new }
{
    let ends = ends_of(run, number)?;
    let status = run_batches_alone(run, gate, boxes, ends.0, ends.1, devices)?;
    Ok(status)
}

// Returns the packets that are to be made for a plan, and a summary to which nothing is added yet.
fn ends_of(run: &Run<'_>, number: u32) -> Result<(Pieces, OutputSummary), AllocError>
    requires { IsValid run.now.plan.now }
    ensures packets { IfOk result (λ ends. AreToCome run.now.plan.now number (making ends.0.generator)) }
    ensures names { IfOk result (λ ends. ends.1.names ≡ output_names run.now.plan.now) }
    ensures nothing { IfOk result (λ ends. HasSummed ends.1 []) }
{
    let pieces = Pieces::new(run.alloc, run.plan, number)?;
    let summary = OutputSummary::new(run.alloc, run.plan)?;
    Ok((pieces, summary))
}
