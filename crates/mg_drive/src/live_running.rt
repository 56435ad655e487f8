//! Runs of graphs with free nodes, over packet lines and over packets that are made.
ghost use Rattle.std.specs.Prelude.{◌≡◌, [], map, false, IfOk, OnErr};
ghost use Rattle.mg_edge.specs.Edge.{SinkTold};
ghost use Rattle.mg_calc.specs.declared.inputs.Inputs.{Inputs as Given};
ghost use Rattle.mg_calc.specs.declared.plan.Plan.{Plan};
ghost use Rattle.mg_calc.specs.Plan.{IsValidWithFree};
ghost use Rattle.mg_free.specs.Core.{split_of};
ghost use Rattle.mg_answer.specs.Devices.{device};
ghost use Rattle.mg_answer.specs.Held.{told_by, SameDevices};
ghost use Rattle.mg_sched.specs.Made.{BoxesFit};
ghost use Rattle.mg_drive.specs.OneLive.{OneLiveMade, OneLiveReading, LiveReadingOut, LiveMadeOut, RanLive, RanLiveMade};
ghost use Rattle.mg_drive.specs.Code.LiveRunning.{HasRunLive, HasRunLiveShort, ReadsWhere};

use crate::in_plan::InPlan;
use crate::lines::LineBatches;
use crate::pieces::Pieces;
use crate::readers::Readers;
use crate::{Batches, Crew, Live, Telling, run_batches, run_batches_alone};
use mg_answer::{Devices, OutputSummary, OutputText, Run, Status, note_out_of_memory};
use mg_calc::NodeCalculator;
use mg_edge::{Gate, Sink, Source};
use mg_feed::Feed;
use mg_free::{FreePlan, split};
use mg_live::{Due, LiveNodes};
use std::alloc::AllocError;
use std::sync::Wait;
use std::thread::Threads;

/// Runs the graph of a plan with free nodes over packet lines. With each batch of lines it brings the net of the graph's core to rest. Then
/// each free node takes a packet or closes its output, and the core goes on with what these laid. This repeats until no free node does
/// anything; then the next batch comes. `early` says whether batches end early: what arrives at free nodes depends on batches. All else is
/// as in `run_lines`. If the arrivals are asked for, the notes have a line for each arrival at a free node.
pub fn run_live_lines<
    R: Threads + Wait + Sync,
    G: Gate + Sync,
    C: NodeCalculator + Send,
    S: Source,
    K: Sink,
    E: Sink,
>(
    run: &Run<'_>,
    early: bool,
    crew: &Crew<'_, R, G>,
    boxes: &mut Vec<C>,
    devices: &mut Devices<'_, '_, '_, S, K, E>,
) -> Status
    requires valid { IsValidWithFree run.now.plan.now }
    requires boxes { BoxesFit (split_of run.now.plan.now).core (map C.told boxes.old.items) }

    // Unless memory ran out, there is one reading of the input, its batches, the free nodes' logs, and one solution. The logs are those
    // that the free nodes' rounds over the batches give. All that is seen of the run belongs to these.
    ensures ran { RanLive C.laws run.now.report early run.now.plan.now result (told_by S.told K.told E.told devices.old devices.new) (device (map C.told boxes.old.items) (map C.told boxes.new.items)) }
    ensures same { SameDevices devices.old devices.new }
{
    match lines_whole(run, early, crew, boxes, devices) {
        Ok(status) => status,
        Err(_) => note_out_of_memory(devices.notes),
    }
}

// Makes a feed and a text, and runs the graph over the lines.
fn lines_whole<
    R: Threads + Wait + Sync,
    G: Gate + Sync,
    C: NodeCalculator + Send,
    S: Source,
    K: Sink,
    E: Sink,
>(
    run: &Run<'_>,
    early: bool,
    crew: &Crew<'_, R, G>,
    boxes: &mut Vec<C>,
    devices: &mut Devices<'_, '_, '_, S, K, E>,
) -> Result<Status, AllocError>
    requires valid { IsValidWithFree run.now.plan.now }
    requires boxes { BoxesFit (split_of run.now.plan.now).core (map C.told boxes.old.items) }
    ensures ran { IfOk result (λ status. OneLiveReading C.laws run.now.report early run.now.plan.now status (told_by S.told K.told E.told devices.old devices.new) (device (map C.told boxes.old.items) (map C.told boxes.new.items))) }
    ensures short { OnErr result (LiveReadingOut C.laws early run.now.plan.now (told_by S.told K.told E.told devices.old devices.new).input (told_by S.told K.told E.told devices.old devices.new).output (device (map C.told boxes.old.items) (map C.told boxes.new.items))) }
    ensures unnoted { OnErr result (E.told devices.new.notes.now ≡ E.told devices.old.notes.now) }
    ensures same { SameDevices devices.old devices.new }
{
    let parts = split(run.alloc, run.plan)?;
    let feed = Feed::new(run.alloc, run.plan)?;
    let text = OutputText::new(run.alloc, &parts.core)?;
    let batches = LineBatches { feed, early };
    let status = run_live(run, crew, boxes, parts, (batches, text), devices)?;
    Ok(status)
}

/// Runs the graph of a plan with free nodes over `number` packets that are made, all in one batch. It writes a summary of the graph's
/// outputs.
pub fn run_live_made<
    R: Threads + Wait + Sync,
    G: Gate + Sync,
    C: NodeCalculator + Send,
    S: Source,
    K: Sink,
    E: Sink,
>(
    run: &Run<'_>,
    number: u32,
    crew: &Crew<'_, R, G>,
    boxes: &mut Vec<C>,
    devices: &mut Devices<'_, '_, '_, S, K, E>,
) -> Status
    requires valid { IsValidWithFree run.now.plan.now }
    requires boxes { BoxesFit (split_of run.now.plan.now).core (map C.told boxes.old.items) }

    // Unless memory ran out, there is one job, the logs that its rounds give, and one solution. All that is seen of the run belongs to
    // these. The input has no part in it.
    ensures ran { RanLiveMade C.laws run.now.report run.now.plan.now number result (told_by S.told K.told E.told devices.old devices.new).output (told_by S.told K.told E.told devices.old devices.new).notes (device (map C.told boxes.old.items) (map C.told boxes.new.items)) }
    ensures unread { S.told devices.new.input.now ≡ S.told devices.old.input.now }
    ensures same { SameDevices devices.old devices.new }
{
    match made_whole(run, number, crew, boxes, devices) {
        Ok(status) => status,
        Err(_) => note_out_of_memory(devices.notes),
    }
}

// Makes the packets and a summary, and runs the graph over them.
fn made_whole<
    R: Threads + Wait + Sync,
    G: Gate + Sync,
    C: NodeCalculator + Send,
    S: Source,
    K: Sink,
    E: Sink,
>(
    run: &Run<'_>,
    number: u32,
    crew: &Crew<'_, R, G>,
    boxes: &mut Vec<C>,
    devices: &mut Devices<'_, '_, '_, S, K, E>,
) -> Result<Status, AllocError>
    requires valid { IsValidWithFree run.now.plan.now }
    requires boxes { BoxesFit (split_of run.now.plan.now).core (map C.told boxes.old.items) }
    ensures ran { IfOk result (λ status. OneLiveMade C.laws run.now.report run.now.plan.now number status (told_by S.told K.told E.told devices.old devices.new).output (told_by S.told K.told E.told devices.old devices.new).notes (device (map C.told boxes.old.items) (map C.told boxes.new.items))) }
    ensures short { OnErr result (LiveMadeOut C.laws run.now.plan.now number (told_by S.told K.told E.told devices.old devices.new).output (device (map C.told boxes.old.items) (map C.told boxes.new.items))) }
    ensures unnoted { OnErr result (E.told devices.new.notes.now ≡ E.told devices.old.notes.now) }
    ensures unread { S.told devices.new.input.now ≡ S.told devices.old.input.now }
    ensures same { SameDevices devices.old devices.new }
{
    let parts = split(run.alloc, run.plan)?;
    let pieces = Pieces::at_once(run.alloc, run.plan, number)?;
    let summary = OutputSummary::new(run.alloc, &parts.core)?;
    let status = run_live(run, crew, boxes, parts, (pieces, summary), devices)?;
    Ok(status)
}

// Runs the core of a plan with free nodes, which was split into these parts, over batches. Between two batches the free nodes have their
// rounds.
fn run_live<
    R: Threads + Wait + Sync,
    G: Gate + Sync,
    C: NodeCalculator + Send,
    B: Batches,
    T: Telling,
    S: Source,
    K: Sink,
    E: Sink,
>(
    run: &Run<'_>,
    crew: &Crew<'_, R, G>,
    boxes: &mut Vec<C>,
    parts: FreePlan,
    ends: (B, T),
    devices: &mut Devices<'_, '_, '_, S, K, E>,
) -> Result<Status, AllocError>
    requires valid { IsValidWithFree run.now.plan.now }
    requires boxes { BoxesFit (split_of run.now.plan.now).core (map C.told boxes.old.items) }
    requires parts { parts ≡ split_of run.now.plan.now }
    requires fresh { B.is_fresh ends.0 run.now.plan.now }
    requires due { (batches : B) (plan : Plan) (inputs : Given) → B.is_due batches plan inputs }
    requires nothing { (sink : SinkTold) → T.has_told ends.1 (split_of run.now.plan.now).core sink sink [] }
    ensures ran { IfOk result (λ status. HasRunLive C.laws (B.gives C.laws) (B.came C.laws) T.form run.now.report ends.0 run.now.plan.now status (told_by S.told K.told E.told devices.old devices.new) (device (map C.told boxes.old.items) (map C.told boxes.new.items))) }
    ensures short { OnErr result (HasRunLiveShort C.laws (B.gives C.laws) (B.came C.laws) (ReadsWhere B.is_fresh B.is_due B.reads_on) T.has_told T.form ends.0 run.now.plan.now (told_by S.told K.told E.told devices.old devices.new) (device (map C.told boxes.old.items) (map C.told boxes.new.items))) }
    ensures unnoted { OnErr result (E.told devices.new.notes.now ≡ E.told devices.old.notes.now) }
    ensures unread { B.reads ≡ false → S.told devices.new.input.now ≡ S.told devices.old.input.now }
    ensures same { SameDevices devices.old devices.new }
{
    let FreePlan {
        core,
        numbers,
        streams,
        free,
    } = parts;
    let (batches, telling) = ends;
    let readers = Readers::new(run.alloc, &core, &free)?;
    let nodes = LiveNodes::new(run.alloc, free)?;
    let live = Live {
        batches,
        nodes,
        due: Due::new(run.alloc),
        readers,
        whole: InPlan {
            plan: run.plan,
            nodes: &numbers,
            streams: &streams,
        },
        alloc: run.alloc,
        end: None,
        rested: false,
    };
    let run = Run {
        alloc: run.alloc,
        plan: &core,
        report: run.report,
    };
    let status = run_batches(&run, crew, boxes, live, telling, devices)?;
    Ok(status)
}

/// Runs the graph of a plan with free nodes over packet lines without workers, and does all else as `run_live_lines` does. It is handed no
/// runtime, so it returns.
pub fn run_live_lines_alone<G: Gate, C: NodeCalculator, S: Source, K: Sink, E: Sink>(
    run: &Run<'_>,
    early: bool,
    gate: &G,
    boxes: &mut Vec<C>,
    devices: &mut Devices<'_, '_, '_, S, K, E>,
) -> Status
    requires valid { IsValidWithFree run.now.plan.now }
    requires boxes { BoxesFit (split_of run.now.plan.now).core (map C.told boxes.old.items) }

    // Unless memory ran out, there is one reading of the input, its batches, the free nodes' logs, and one solution. The logs are those
    // that the free nodes' rounds over the batches give. All that is seen of the run belongs to these.
    ensures ran { RanLive C.laws run.now.report early run.now.plan.now result (told_by S.told K.told E.told devices.old devices.new) (device (map C.told boxes.old.items) (map C.told boxes.new.items)) }
    ensures same { SameDevices devices.old devices.new }
{
    match lines_whole_alone(run, early, gate, boxes, devices) {
        Ok(status) => status,
        Err(_) => note_out_of_memory(devices.notes),
    }
}

fn lines_whole_alone<G: Gate, C: NodeCalculator, S: Source, K: Sink, E: Sink>(
    run: &Run<'_>,
    early: bool,
    gate: &G,
    boxes: &mut Vec<C>,
    devices: &mut Devices<'_, '_, '_, S, K, E>,
) -> Result<Status, AllocError>
    requires valid { IsValidWithFree run.now.plan.now }
    requires boxes { BoxesFit (split_of run.now.plan.now).core (map C.told boxes.old.items) }
    ensures ran { IfOk result (λ status. OneLiveReading C.laws run.now.report early run.now.plan.now status (told_by S.told K.told E.told devices.old devices.new) (device (map C.told boxes.old.items) (map C.told boxes.new.items))) }
    ensures short { OnErr result (LiveReadingOut C.laws early run.now.plan.now (told_by S.told K.told E.told devices.old devices.new).input (told_by S.told K.told E.told devices.old devices.new).output (device (map C.told boxes.old.items) (map C.told boxes.new.items))) }
    ensures unnoted { OnErr result (E.told devices.new.notes.now ≡ E.told devices.old.notes.now) }
    ensures same { SameDevices devices.old devices.new }
{
    let parts = split(run.alloc, run.plan)?;
    let feed = Feed::new(run.alloc, run.plan)?;
    let text = OutputText::new(run.alloc, &parts.core)?;
    let batches = LineBatches { feed, early };
    let status = run_live_alone(run, gate, boxes, parts, (batches, text), devices)?;
    Ok(status)
}

/// Runs the graph of a plan with free nodes over `number` packets that are made without workers, and does all else as `run_live_made`
/// does. It is handed no runtime, so it returns.
pub fn run_live_made_alone<G: Gate, C: NodeCalculator, S: Source, K: Sink, E: Sink>(
    run: &Run<'_>,
    number: u32,
    gate: &G,
    boxes: &mut Vec<C>,
    devices: &mut Devices<'_, '_, '_, S, K, E>,
) -> Status
    requires valid { IsValidWithFree run.now.plan.now }
    requires boxes { BoxesFit (split_of run.now.plan.now).core (map C.told boxes.old.items) }

    // Unless memory ran out, there is one job, the logs that its rounds give, and one solution. All that is seen of the run belongs to
    // these. The input has no part in it.
    ensures ran { RanLiveMade C.laws run.now.report run.now.plan.now number result (told_by S.told K.told E.told devices.old devices.new).output (told_by S.told K.told E.told devices.old devices.new).notes (device (map C.told boxes.old.items) (map C.told boxes.new.items)) }
    ensures unread { S.told devices.new.input.now ≡ S.told devices.old.input.now }
    ensures same { SameDevices devices.old devices.new }
{
    match made_whole_alone(run, number, gate, boxes, devices) {
        Ok(status) => status,
        Err(_) => note_out_of_memory(devices.notes),
    }
}

fn made_whole_alone<G: Gate, C: NodeCalculator, S: Source, K: Sink, E: Sink>(
    run: &Run<'_>,
    number: u32,
    gate: &G,
    boxes: &mut Vec<C>,
    devices: &mut Devices<'_, '_, '_, S, K, E>,
) -> Result<Status, AllocError>
    requires valid { IsValidWithFree run.now.plan.now }
    requires boxes { BoxesFit (split_of run.now.plan.now).core (map C.told boxes.old.items) }
    ensures ran { IfOk result (λ status. OneLiveMade C.laws run.now.report run.now.plan.now number status (told_by S.told K.told E.told devices.old devices.new).output (told_by S.told K.told E.told devices.old devices.new).notes (device (map C.told boxes.old.items) (map C.told boxes.new.items))) }
    ensures short { OnErr result (LiveMadeOut C.laws run.now.plan.now number (told_by S.told K.told E.told devices.old devices.new).output (device (map C.told boxes.old.items) (map C.told boxes.new.items))) }
    ensures unnoted { OnErr result (E.told devices.new.notes.now ≡ E.told devices.old.notes.now) }
    ensures unread { S.told devices.new.input.now ≡ S.told devices.old.input.now }
    ensures same { SameDevices devices.old devices.new }
{
    let parts = split(run.alloc, run.plan)?;
    let pieces = Pieces::at_once(run.alloc, run.plan, number)?;
    let summary = OutputSummary::new(run.alloc, &parts.core)?;
    let status = run_live_alone(run, gate, boxes, parts, (pieces, summary), devices)?;
    Ok(status)
}

fn run_live_alone<G: Gate, C: NodeCalculator, B: Batches, T: Telling, S: Source, K: Sink, E: Sink>(
    run: &Run<'_>,
    gate: &G,
    boxes: &mut Vec<C>,
    parts: FreePlan,
    ends: (B, T),
    devices: &mut Devices<'_, '_, '_, S, K, E>,
) -> Result<Status, AllocError>
    requires valid { IsValidWithFree run.now.plan.now }
    requires boxes { BoxesFit (split_of run.now.plan.now).core (map C.told boxes.old.items) }
    requires parts { parts ≡ split_of run.now.plan.now }
    requires fresh { B.is_fresh ends.0 run.now.plan.now }
    requires due { (batches : B) (plan : Plan) (inputs : Given) → B.is_due batches plan inputs }
    requires nothing { (sink : SinkTold) → T.has_told ends.1 (split_of run.now.plan.now).core sink sink [] }
    ensures ran { IfOk result (λ status. HasRunLive C.laws (B.gives C.laws) (B.came C.laws) T.form run.now.report ends.0 run.now.plan.now status (told_by S.told K.told E.told devices.old devices.new) (device (map C.told boxes.old.items) (map C.told boxes.new.items))) }
    ensures short { OnErr result (HasRunLiveShort C.laws (B.gives C.laws) (B.came C.laws) (ReadsWhere B.is_fresh B.is_due B.reads_on) T.has_told T.form ends.0 run.now.plan.now (told_by S.told K.told E.told devices.old devices.new) (device (map C.told boxes.old.items) (map C.told boxes.new.items))) }
    ensures unnoted { OnErr result (E.told devices.new.notes.now ≡ E.told devices.old.notes.now) }
    ensures unread { B.reads ≡ false → S.told devices.new.input.now ≡ S.told devices.old.input.now }
    ensures same { SameDevices devices.old devices.new }
{
    let FreePlan {
        core,
        numbers,
        streams,
        free,
    } = parts;
    let (batches, telling) = ends;
    let readers = Readers::new(run.alloc, &core, &free)?;
    let nodes = LiveNodes::new(run.alloc, free)?;
    let live = Live {
        batches,
        nodes,
        due: Due::new(run.alloc),
        readers,
        whole: InPlan {
            plan: run.plan,
            nodes: &numbers,
            streams: &streams,
        },
        alloc: run.alloc,
        end: None,
        rested: false,
    };
    let run = Run {
        alloc: run.alloc,
        plan: &core,
        report: run.report,
    };
    let status = run_batches_alone(&run, gate, boxes, live, telling, devices)?;
    Ok(status)
}
