//! A run of a graph over batches: its net is made of the first batch and driven, and its calculators come back. The two ways of a run
//! differ only in how the net is driven: with workers, or without a runtime.
ghost use Rattle.std.specs.Prelude.{◌≡◌, List, [], false, map, length, IfOk, OnErr};
ghost use Rattle.mg_edge.specs.Edge.{SourceTold, SinkTold};
ghost use Rattle.mg_calc.specs.Plan.{IsValid};
ghost use Rattle.mg_calc.specs.Equations.{IsJob};
ghost use Rattle.mg_calc.specs.Told.{BoxTold};
ghost use Rattle.mg_answer.specs.Devices.{device, run_devices};
ghost use Rattle.mg_answer.specs.Held.{told_by, SameDevices};
ghost use Rattle.mg_sched.specs.Made.{BoxesFit, IsMade};
ghost use Rattle.mg_drive.specs.Nets.{Keeps, AreThere, KnowsSince};
ghost use Rattle.mg_drive.specs.Code.Running.{Start, start_of, IsUnderWay, RunIsOver, IsDriven, IsShort, SomeRestedOf};
ghost use Rattle.mg_drive.specs.Code.Ending.{CalculatorsCameBack, HasEnded, HasRunBatches, ReadFirst, RanOutOfMemory, WasMade, WasShort};

use crate::crew::{has_sources, least_for, packets_in, workers_for};
use crate::finishing::finish_batches;
use crate::{
    Batches, Closing, Crew, Driven, ManyThreads, Moved, NetEnds, OneThread, Telling, drive,
    drive_alone,
};
use mg_answer::{Devices, Run, Status};
use mg_calc::{Inputs, NodeCalculator};
use mg_edge::{Gate, Sink, Source};
use mg_feed::{BatchEnd, FeedEnd};
use mg_sched::Net;
use mg_settled::InputSet;
use std::alloc::AllocError;
use std::mem;
use std::sync::Wait;
use std::thread::Threads;

// A run whose first batch was read: a net that was made of it, how it ended, and how many packets it has.
struct Begun<C: NodeCalculator, B, T> {
    net: Net<C>,
    ends: NetEnds<B, T>,
    first: BatchEnd,
    came: u64,
}

// Makes a net of a plan and the user-supplied calculators. If memory runs out, these calculators are left as they were.
fn make_net<C: NodeCalculator>(
    run: &Run<'_>,
    inputs: &Inputs,
    boxes: &mut Vec<C>,
) -> Result<Net<C>, AllocError>
    requires job { IsJob (record { plan = run.now.plan.now; inputs = inputs.now; laws = C.laws }) }
    requires boxes { BoxesFit run.now.plan.now (map C.told boxes.old.items) }
    ensures made { IfOk result (λ net. IsMade C.laws run.now.plan.now inputs.now (map C.told boxes.old.items) net) }
    ensures same { OnErr result (map C.told boxes.new.items ≡ map C.told boxes.old.items) }
{
    let handed = mem::replace(boxes, Vec::new(run.alloc));
    match Net::new(run.alloc, run.plan, inputs, handed) {
        Ok(net) => Ok(net),
        Err(back) => {
            *boxes = back;
            Err(AllocError)
        }
    }
}

// Begins a run: reads the first batch, and makes a net of it and of the user-supplied calculators.
fn begin_run<C: NodeCalculator, B: Batches, T: Telling, S: Source>(
    run: &Run<'_>,
    boxes: &mut Vec<C>,
    batches: B,
    telling: T,
    input: &mut S,
) -> Result<Begun<C, B, T>, AllocError>
    requires valid { IsValid run.now.plan.now }
    requires boxes { BoxesFit run.now.plan.now (map C.told boxes.old.items) }
    requires fresh { B.is_fresh batches run.now.plan.now }
    requires nothing { (sink : SinkTold) → T.has_told telling run.now.plan.now sink sink [] }
    ensures begun { IfOk result (λ begun. (sink : SinkTold) → IsUnderWay C.laws (B.gives C.laws) T.has_told (start_of run.now.plan.now (map C.told boxes.old.items) (S.told input.old) sink batches) begun.first (S.told input.new) sink
        begun.ends.batches begun.ends.telling begun.net) }
    ensures there { IfOk result (λ begun. AreThere (B.wants begun.ends.batches) begun.net) }
    ensures knows { IfOk result (λ begun. KnowsSince (B.knows C.laws begun.ends.batches) begun.ends.moved begun.net) }
    ensures set { IfOk result (λ begun. length begun.ends.set ≡ length run.now.plan.now.outputs) }
    ensures made { IfOk result (λ begun. WasMade C.laws run.now.plan.now (map C.told boxes.old.items) begun.net) }
    ensures short { OnErr result (ReadFirst (B.gives C.laws) B.reads_on batches run.now.plan.now (device (S.told input.old) (S.told input.new))) }
    ensures same { OnErr result (map C.told boxes.new.items ≡ map C.told boxes.old.items) }
    ensures unread { B.reads ≡ false → S.told input.new ≡ S.told input.old }
{
    let set = InputSet::new(run.alloc, run.plan.outputs.len())?;
    let mut ends = NetEnds {
        batches,
        telling,
        set,
        moved: Moved::new(run.alloc),
    };
    let first = ends.batches.next(input)?;
    let net = make_net(run, &first.inputs, boxes)?;
    Ok(Begun {
        net,
        ends,
        first: first.end,
        came: packets_in(&first.inputs.streams),
    })
}

// Ends a run whose net has come to rest over all batches: writes the rest of the text and the notes.
fn finish_net<N: Driven, B: Batches, T: Telling, S: Source, K: Sink, E: Sink>(
    run: &Run<'_>,
    net: &mut N,
    ends: NetEnds<B, T>,
    end: FeedEnd,
    devices: &mut Devices<'_, '_, '_, S, K, E>,
) -> Result<Status, AllocError>
    requires rested { SomeRestedOf N.laws (B.gives N.laws) run.now.plan.now end (N.net net.old) ends.batches }
    ensures ended { IfOk result (λ status. (start : Start B) → start.plan ≡ run.now.plan.now
        → RunIsOver N.laws (B.gives N.laws) T.has_told start end (S.told devices.old.input.now) (K.told devices.old.output.now) ends.batches ends.telling (N.net net.old)
        → HasEnded N.laws (B.gives N.laws) B.wrote T.form run.now.report start status (S.told devices.new.input.now) (K.told devices.new.output.now) (told_by S.told K.told E.told devices.old devices.new).notes (N.net net.new)) }
    ensures short { OnErr result ((start : Start B) → start.plan ≡ run.now.plan.now
        → RunIsOver N.laws (B.gives N.laws) T.has_told start end (S.told devices.old.input.now) (K.told devices.old.output.now) ends.batches ends.telling (N.net net.old)
        → IsShort N.laws (B.gives N.laws) B.reads_on T.has_told T.form start (S.told devices.new.input.now) (K.told devices.new.output.now) (N.net net.new)) }
    ensures unnoted { OnErr result (E.told devices.new.notes.now ≡ E.told devices.old.notes.now) }
    ensures keeps { Keeps (N.net net.old) (N.net net.new) }
    ensures unread { S.told devices.new.input.now ≡ S.told devices.old.input.now }
    ensures same { SameDevices devices.old devices.new }
{
    let text = ends.telling.into_text(run.alloc)?;
    let closing = Closing { end, text };
    let status = finish_batches(
        run,
        net,
        &ends.batches,
        closing,
        devices.output,
        devices.notes,
    )?;
    Ok(status)
}

// Ends a run whose steps ended with `end`.
fn finish_driven<N: Driven, B: Batches, T: Telling, S: Source, K: Sink, E: Sink>(
    run: &Run<'_>,
    net: &mut N,
    ends: NetEnds<B, T>,
    end: Result<FeedEnd, AllocError>,
    devices: &mut Devices<'_, '_, '_, S, K, E>,
) -> Result<Status, AllocError>
    requires rested { IfOk end (λ end. SomeRestedOf N.laws (B.gives N.laws) run.now.plan.now end (N.net net.old) ends.batches) }
    ensures ended { IfOk result (λ status. (start : Start B) → start.plan ≡ run.now.plan.now
        → IsDriven N.laws (B.gives N.laws) B.reads_on T.has_told T.form start end (S.told devices.old.input.now) (K.told devices.old.output.now) ends.batches ends.telling (N.net net.old)
        → HasEnded N.laws (B.gives N.laws) B.wrote T.form run.now.report start status (S.told devices.new.input.now) (K.told devices.new.output.now) (told_by S.told K.told E.told devices.old devices.new).notes (N.net net.new)) }
    ensures short { OnErr result ((start : Start B) → start.plan ≡ run.now.plan.now
        → IsDriven N.laws (B.gives N.laws) B.reads_on T.has_told T.form start end (S.told devices.old.input.now) (K.told devices.old.output.now) ends.batches ends.telling (N.net net.old)
        → IsShort N.laws (B.gives N.laws) B.reads_on T.has_told T.form start (S.told devices.new.input.now) (K.told devices.new.output.now) (N.net net.new)) }
    ensures unnoted { OnErr result (E.told devices.new.notes.now ≡ E.told devices.old.notes.now) }
    ensures keeps { Keeps (N.net net.old) (N.net net.new) }
    ensures unread { S.told devices.new.input.now ≡ S.told devices.old.input.now }
    ensures same { SameDevices devices.old devices.new }
{
    match end {
        Ok(end) => finish_net(run, net, ends, end, devices),
        Err(_) => Err(AllocError),
    }
}

// Ends a run whose steps ended with `end`, and takes the calculators out of its net again.
fn end_run<G: Gate, C: NodeCalculator, B: Batches, T: Telling, S: Source, K: Sink, E: Sink>(
    run: &Run<'_>,
    gate: &G,
    net: Net<C>,
    ends: NetEnds<B, T>,
    end: Result<FeedEnd, AllocError>,
    boxes: &mut Vec<C>,
    devices: &mut Devices<'_, '_, '_, S, K, E>,
) -> Result<Status, AllocError>
    requires rested { IfOk end (λ end. SomeRestedOf C.laws (B.gives C.laws) run.now.plan.now end net ends.batches) }
    ensures ran { IfOk result (λ status. (handed : List BoxTold) (source : SourceTold) (sink : SinkTold) (began : B) → BoxesFit run.now.plan.now handed
        → IsDriven C.laws (B.gives C.laws) B.reads_on T.has_told T.form (start_of run.now.plan.now handed source sink began) end (S.told devices.old.input.now) (K.told devices.old.output.now) ends.batches ends.telling net
        → HasRunBatches C.laws (B.gives C.laws) B.wrote T.form run.now.report began run.now.plan.now status (run_devices (device source (S.told devices.new.input.now)) (device sink (K.told devices.new.output.now)) (told_by S.told K.told E.told devices.old devices.new).notes)
        (device handed (map C.told boxes.new.items))) }
    ensures short { OnErr result ((handed : List BoxTold) (source : SourceTold) (sink : SinkTold) (began : B)
        → IsDriven C.laws (B.gives C.laws) B.reads_on T.has_told T.form (start_of run.now.plan.now handed source sink began) end (S.told devices.old.input.now) (K.told devices.old.output.now) ends.batches ends.telling net
        → WasShort C.laws (B.gives C.laws) B.reads_on T.has_told T.form began run.now.plan.now (run_devices (device source (S.told devices.new.input.now)) (device sink (K.told devices.new.output.now)) (told_by S.told K.told E.told devices.old devices.new).notes)
        (device handed (map C.told boxes.new.items))) }
    ensures back { (handed : List BoxTold) (source : SourceTold) (sink : SinkTold) (began : B) → WasMade C.laws run.now.plan.now handed net
        → IsDriven C.laws (B.gives C.laws) B.reads_on T.has_told T.form (start_of run.now.plan.now handed source sink began) end (S.told devices.old.input.now) (K.told devices.old.output.now) ends.batches ends.telling net
        → CalculatorsCameBack run.now.plan.now handed (map C.told boxes.new.items) }
    ensures unnoted { OnErr result (E.told devices.new.notes.now ≡ E.told devices.old.notes.now) }
    ensures unread { S.told devices.new.input.now ≡ S.told devices.old.input.now }
    ensures same { SameDevices devices.old devices.new }
{
    let mut driven = OneThread { net, gate };
    let ran = finish_driven(run, &mut driven, ends, end, devices);
    let OneThread { net, gate: _ } = driven;
    *boxes = net.give_back();
    ran
}

/// Runs the graph of a plan over batches with the user-supplied calculators, and leaves these in their places. At most as many workers as
/// the plan says run the net. All sets of the graph's outputs are told, and at the end the notes are written.
pub fn run_batches<
    R: Threads + Wait + Sync,
    G: Gate + Sync,
    C: NodeCalculator + Send,
    B: Batches,
    T: Telling,
    S: Source,
    K: Sink,
    E: Sink,
>(
    run: &Run<'_>,
    crew: &Crew<'_, R, G>,
    boxes: &mut Vec<C>,
    batches: B,
    telling: T,
    devices: &mut Devices<'_, '_, '_, S, K, E>,
) -> Result<Status, AllocError>
    requires valid { IsValid run.now.plan.now }
    requires boxes { BoxesFit run.now.plan.now (map C.told boxes.old.items) }
    requires fresh { B.is_fresh batches run.now.plan.now }
    requires nothing { (sink : SinkTold) → T.has_told telling run.now.plan.now sink sink [] }
    ensures ran { IfOk result (λ status. HasRunBatches C.laws (B.gives C.laws) B.wrote T.form run.now.report batches run.now.plan.now status (told_by S.told K.told E.told devices.old devices.new) (device (map C.told boxes.old.items) (map C.told boxes.new.items))) }
    ensures short { OnErr result (RanOutOfMemory C.laws (B.gives C.laws) B.reads_on T.has_told T.form batches run.now.plan.now (told_by S.told K.told E.told devices.old devices.new) (device (map C.told boxes.old.items) (map C.told boxes.new.items))) }
    ensures unnoted { OnErr result (E.told devices.new.notes.now ≡ E.told devices.old.notes.now) }
    ensures back { CalculatorsCameBack run.now.plan.now (map C.told boxes.old.items) (map C.told boxes.new.items) }
    ensures unread { B.reads ≡ false → S.told devices.new.input.now ≡ S.told devices.old.input.now }
    ensures same { SameDevices devices.old devices.new }
{
    let begun = begin_run(run, boxes, batches, telling, devices.input)?;
    let Begun {
        net,
        ends,
        first,
        came,
    } = begun;
    let mut ends = ends;
    let mut driven = ManyThreads {
        one: OneThread {
            net,
            gate: crew.gate,
        },
        rt: crew.rt,
        alloc: run.alloc,
        workers: workers_for(run.plan),
        least: least_for(run.plan),
        came,
        fresh: has_sources(run.plan),
    };
    let end = drive(&mut driven, &mut ends, first, devices.input, devices.output);
    let ManyThreads {
        one,
        rt: _,
        alloc: _,
        workers: _,
        least: _,
        came: _,
        fresh: _,
    } = driven;
    let OneThread { net, gate: _ } = one;
    end_run(run, crew.gate, net, ends, end, boxes, devices)
}

/// Runs the graph of a plan over batches without workers, and does all else as `run_batches` does. It is handed no runtime, so it returns.
pub fn run_batches_alone<
    G: Gate,
    C: NodeCalculator,
    B: Batches,
    T: Telling,
    S: Source,
    K: Sink,
    E: Sink,
>(
    run: &Run<'_>,
    gate: &G,
    boxes: &mut Vec<C>,
    batches: B,
    telling: T,
    devices: &mut Devices<'_, '_, '_, S, K, E>,
) -> Result<Status, AllocError>
    requires valid { IsValid run.now.plan.now }
    requires boxes { BoxesFit run.now.plan.now (map C.told boxes.old.items) }
    requires fresh { B.is_fresh batches run.now.plan.now }
    requires nothing { (sink : SinkTold) → T.has_told telling run.now.plan.now sink sink [] }
    ensures ran { IfOk result (λ status. HasRunBatches C.laws (B.gives C.laws) B.wrote T.form run.now.report batches run.now.plan.now status (told_by S.told K.told E.told devices.old devices.new) (device (map C.told boxes.old.items) (map C.told boxes.new.items))) }
    ensures short { OnErr result (RanOutOfMemory C.laws (B.gives C.laws) B.reads_on T.has_told T.form batches run.now.plan.now (told_by S.told K.told E.told devices.old devices.new) (device (map C.told boxes.old.items) (map C.told boxes.new.items))) }
    ensures unnoted { OnErr result (E.told devices.new.notes.now ≡ E.told devices.old.notes.now) }
    ensures back { CalculatorsCameBack run.now.plan.now (map C.told boxes.old.items) (map C.told boxes.new.items) }
    ensures unread { B.reads ≡ false → S.told devices.new.input.now ≡ S.told devices.old.input.now }
    ensures same { SameDevices devices.old devices.new }
{
    let begun = begin_run(run, boxes, batches, telling, devices.input)?;
    let Begun {
        net,
        ends,
        first,
        came: _,
    } = begun;
    let mut ends = ends;
    let mut driven = OneThread { net, gate };
    let end = drive_alone(&mut driven, &mut ends, first, devices.input, devices.output);
    let OneThread { net, gate: _ } = driven;
    end_run(run, gate, net, ends, end, boxes, devices)
}
