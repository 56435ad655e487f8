//! Runs over packet lines.
ghost use Rattle.std.specs.Prelude.{◌≡◌, ◌↔◌, true, false, ℕ, List, [], map, IfOk, OnErr};
ghost use Rattle.mg_edge.specs.Edge.{SourceTold};
ghost use Rattle.mg_calc.specs.declared.plan.Plan.{Plan};
ghost use Rattle.mg_calc.specs.Plan.{IsValid};
ghost use Rattle.mg_feed.specs.FeedSeen.{fed};
ghost use Rattle.mg_answer.specs.Text.{output_names};
ghost use Rattle.mg_answer.specs.Put.{nothing_put};
ghost use Rattle.mg_answer.specs.Devices.{device};
ghost use Rattle.mg_answer.specs.Wrote.{Wrote};
ghost use Rattle.mg_answer.specs.Held.{told_by, SameDevices};
ghost use Rattle.mg_sched.specs.Made.{BoxesFit};
ghost use Rattle.mg_drive.specs.OneRun.{OneReading, ReadingOut, RanOverLines};
ghost use Rattle.mg_drive.specs.Code.Lines.{has_ended as the_end, HadMemory, IsRead, HasBatch, ReadsOn, IsNew, LinesGave, LinesCame, lines_left};

use crate::onward::plain_onward;
use crate::{Batch, Batches, Closing, Crew, Driven, Moved, Onward, run_batches, run_batches_alone};
use mg_answer::{
    Devices, Outcomes, OutputText, Run, Status, conclude, is_ended, note_out_of_memory, ran_out,
};
use mg_calc::NodeCalculator;
use mg_edge::{Gate, Sink, Source};
use mg_feed::{BatchEnd, Feed};
use std::alloc::AllocError;
use std::sync::Wait;
use std::thread::Threads;

/// The most lines that name a stream in one batch. If batches don't end early, each but the last has so many.
pub const BATCH: u32 = 4096;

/// The lines of a feed, in batches.
pub struct LineBatches {
    pub feed: Feed,
    /// Whether batches end early. A batch then also ends if the last read gave fewer bytes than were asked for. So the results of its lines
    /// are written at once.
    pub early: bool,
}

// Written out, so that a proof about code that drops it needn't open the feed.
impl Drop for LineBatches {
    fn drop(self) {
        let LineBatches { feed, early: _ } = self;
        drop(feed);
    }
}

// Whether the input ended well with a batch.
fn has_ended(end: BatchEnd) -> bool
    ensures { result ≡ the_end end }
{
    match end {
        BatchEnd::More => false,
        BatchEnd::End(end) => is_ended(end),
    }
}

// Whether memory ran out while a batch was read.
fn lacks_memory(end: BatchEnd) -> bool
    ensures { (result ≡ false) ↔ HadMemory end }
{
    match end {
        BatchEnd::More => false,
        BatchEnd::End(end) => ran_out(end),
    }
}

// Reads a batch of lines, which may end early or not.
fn read_on<S: Source>(feed: &mut Feed, input: &mut S, early: bool) -> Result<Batch, AllocError>
    ensures batch { (plan : Plan) (first : SourceTold) (past : List ℕ) (lines : List (List ℕ)) → IsRead plan first BatchEnd.More (S.told input.old) (fed feed.old) past lines
        → IfOk result (λ b. HasBatch early plan first b.end b.inputs (S.told input.new) (fed feed.new) past lines) }
    ensures further { (plan : Plan) (first : SourceTold) → ReadsOn (fed feed.old) plan first (S.told input.old) (S.told input.new) }
{
    let end = feed.read_batch(input, BATCH, early);
    if lacks_memory(end) {
        return Err(AllocError);
    }
    let inputs = feed.take_inputs(has_ended(end))?;
    Ok(Batch { end, inputs })
}

impl Batches for LineBatches {
    ghost is_fresh = { λ l plan. IsNew (fed l.feed) plan };

    ghost gives = { λ laws began l plan first now end inputs. LinesGave (fed l.feed) plan first now end inputs };

    ghost came = { λ laws began l plan first now end history. (l.early ≡ began.early) × LinesCame began.early (fed l.feed) plan first now end history };

    ghost is_due = { λ l plan so_far. Unit {0} };

    ghost wants = { λ l. [] };

    ghost knows = { λ laws l net. Unit {0} };

    ghost reads_on = { λ l plan first at now. ReadsOn (fed l.feed) plan first at now };

    ghost left = { λ l. lines_left (fed l.feed) };

    ghost reads = { true };

    ghost wrote = { λ l form report job end status output notes. Wrote (record { form = form; report = report }) job end status output notes };

    fn next<S: Source>(&mut self, input: &mut S) -> Result<Batch, AllocError> {
        let batch = read_on(&mut self.feed, input, self.early)?;
        Ok(batch)
    }

    fn onward<N: Driven>(
        &mut self,
        last: BatchEnd,
        net: &N,
        moved: &mut Moved,
    ) -> Result<Onward, AllocError> {
        let _ = net;
        let _ = moved.all;
        Ok(plain_onward(last))
    }

    fn conclude<K: Sink, E: Sink>(
        &self,
        run: &Run<'_>,
        closing: Closing,
        outcomes: Outcomes,
        output: &mut K,
        notes: &mut E,
    ) -> Result<Status, AllocError> {
        let status = conclude(run, closing.end, &outcomes, closing.text, output, notes)?;
        Ok(status)
    }
}

/// Runs the graph of a plan over packet lines with the user-supplied calculators, and leaves these in their places. It reads batches of
/// lines, drives a net over them, and writes the sets of the net's outputs as they come. It stops at the input's end, its first fault or
/// its first line that isn't good. Then it writes the notes, and after them the report if it is asked for. If enough packets have come,
/// workers run the net before a sweep, at most as many as the plan says. Each Process call goes through the crew's gate.
///
/// Once a write to the output has failed, nothing more is written to it. The run goes on all the same, and the notes say that the write
/// failed. If memory runs out, the notes say only that.
pub fn run_lines<
    R: Threads + Wait + Sync,
    G: Gate + Sync,
    C: NodeCalculator + Send,
    S: Source,
    K: Sink,
    E: Sink,
>(
    run: &Run<'_>,
    crew: &Crew<'_, R, G>,
    boxes: &mut Vec<C>,
    devices: &mut Devices<'_, '_, '_, S, K, E>,
) -> Status
    requires valid { IsValid run.now.plan.now }
    requires boxes { BoxesFit run.now.plan.now (map C.told boxes.old.items) }

    // Unless memory ran out, there is one reading of the input, one job and one solution. All that is seen of the run belongs to these.
    ensures ran { RanOverLines C.laws run.now.report run.now.plan.now result (told_by S.told K.told E.told devices.old devices.new) (device (map C.told boxes.old.items) (map C.told boxes.new.items)) }
    ensures same { SameDevices devices.old devices.new }
{
    match run_whole(run, crew, boxes, devices) {
        Ok(status) => status,
        Err(_) => note_out_of_memory(devices.notes),
    }
}

// Makes a feed and a text, and runs the graph over the lines.
fn run_whole<
    R: Threads + Wait + Sync,
    G: Gate + Sync,
    C: NodeCalculator + Send,
    S: Source,
    K: Sink,
    E: Sink,
>(
    run: &Run<'_>,
    crew: &Crew<'_, R, G>,
    boxes: &mut Vec<C>,
    devices: &mut Devices<'_, '_, '_, S, K, E>,
) -> Result<Status, AllocError>
    requires valid { IsValid run.now.plan.now }
    requires boxes { BoxesFit run.now.plan.now (map C.told boxes.old.items) }
    ensures ran { IfOk result (λ status. OneReading C.laws run.now.report run.now.plan.now status (told_by S.told K.told E.told devices.old devices.new) (device (map C.told boxes.old.items) (map C.told boxes.new.items))) }
    ensures short { OnErr result (ReadingOut C.laws run.now.plan.now (told_by S.told K.told E.told devices.old devices.new).input (told_by S.told K.told E.told devices.old devices.new).output (device (map C.told boxes.old.items) (map C.told boxes.new.items))) }
    ensures unnoted { OnErr result (E.told devices.new.notes.now ≡ E.told devices.old.notes.now) }
    ensures same { SameDevices devices.old devices.new }
{
    let ends = ends_of(run)?;
    let status = run_batches(run, crew, boxes, ends.0, ends.1, devices)?;
    Ok(status)
}

/// Runs the graph of a plan over packet lines without workers, and does all else as `run_lines` does. It is handed no runtime, so it
/// returns.
pub fn run_lines_alone<G: Gate, C: NodeCalculator, S: Source, K: Sink, E: Sink>(
    run: &Run<'_>,
    gate: &G,
    boxes: &mut Vec<C>,
    devices: &mut Devices<'_, '_, '_, S, K, E>,
) -> Status
    requires valid { IsValid run.now.plan.now }
    requires boxes { BoxesFit run.now.plan.now (map C.told boxes.old.items) }

    // Unless memory ran out, there is one reading of the input, one job and one solution. All that is seen of the run belongs to these.
    ensures ran { RanOverLines C.laws run.now.report run.now.plan.now result (told_by S.told K.told E.told devices.old devices.new) (device (map C.told boxes.old.items) (map C.told boxes.new.items)) }
    ensures same { SameDevices devices.old devices.new }
{
    match run_whole_alone(run, gate, boxes, devices) {
        Ok(status) => status,
        Err(_) => note_out_of_memory(devices.notes),
    }
}

fn run_whole_alone<G: Gate, C: NodeCalculator, S: Source, K: Sink, E: Sink>(
    run: &Run<'_>,
    gate: &G,
    boxes: &mut Vec<C>,
    devices: &mut Devices<'_, '_, '_, S, K, E>,
) -> Result<Status, AllocError>
    requires valid { IsValid run.now.plan.now }
    requires boxes { BoxesFit run.now.plan.now (map C.told boxes.old.items) }
    ensures ran { IfOk result (λ status. OneReading C.laws run.now.report run.now.plan.now status (told_by S.told K.told E.told devices.old devices.new) (device (map C.told boxes.old.items) (map C.told boxes.new.items))) }
    ensures short { OnErr result (ReadingOut C.laws run.now.plan.now (told_by S.told K.told E.told devices.old devices.new).input (told_by S.told K.told E.told devices.old devices.new).output (device (map C.told boxes.old.items) (map C.told boxes.new.items))) }
    ensures unnoted { OnErr result (E.told devices.new.notes.now ≡ E.told devices.old.notes.now) }
    ensures same { SameDevices devices.old devices.new }
{
    let ends = ends_of(run)?;
    let status = run_batches_alone(run, gate, boxes, ends.0, ends.1, devices)?;
    Ok(status)
}

// Returns the lines of a feed and a text for a plan. No line is read yet, and nothing is put into the text. Batches end early, as how lines
// are split into batches changes no answer of a graph without free nodes.
fn ends_of(run: &Run<'_>) -> Result<(LineBatches, OutputText), AllocError>
    requires { IsValid run.now.plan.now }
    ensures feed { IfOk result (λ ends. IsNew (fed ends.0.feed) run.now.plan.now) }
    ensures text { IfOk result (λ ends. ends.1 ≡ nothing_put (output_names run.now.plan.now)) }
{
    let feed = Feed::new(run.alloc, run.plan)?;
    let text = OutputText::new(run.alloc, run.plan)?;
    Ok((LineBatches { feed, early: true }, text))
}
