//! The loop of a run: a batch comes, the net is brought to rest, and the sets of its outputs are told. That is one step, for which no
//! runtime is needed.
ghost use Rattle.std.specs.Prelude.{◌≡◌, ◌<◌, List, length, false, IfOk, OnOk, OnErr};
ghost use Rattle.mg_edge.specs.Edge.{SourceTold, SinkTold};
ghost use Rattle.mg_calc.specs.declared.inputs.Inputs.{Inputs as Given};
ghost use Rattle.mg_calc.specs.declared.plan.Plan.{Plan};
ghost use Rattle.mg_value.specs.Payload.{Plain};
ghost use Rattle.mg_settled.specs.Prefix.{StreamPrefix};
ghost use Rattle.mg_node.specs.Job.{LoggedJob, Solves};
ghost use Rattle.mg_sched.specs.Views.{NetView};
ghost use Rattle.mg_sched.specs.StandsFor.{StandsFor, IsRunning};
ghost use Rattle.mg_sched.specs.Taking.{taken_out, settled_outputs, HasAllOutputs, LeavesNodes};
ghost use Rattle.mg_drive.specs.Nets.{Keeps, GaveNothingUp, AreThere, AreRead, NotesMoves, KnowsSince};
ghost use Rattle.mg_drive.specs.Batches.{IsMore};
ghost use Rattle.mg_drive.specs.Code.Running.{Start, job_with, IsTold, IsToldSome, IsSomeTold, IsUnderWay, IsSomeRun, IsSomeMore, WentOn, HasRested, IsAllTaken, RunIsOver, HasStepped, LeavesFewer, IsShort};

use crate::{Batches, Driven, ManyThreads, Moved, NetEnds, Onward, Telling};
use mg_calc::NodeCalculator;
use mg_edge::{Gate, Sink, Source};
use mg_feed::{BatchEnd, FeedEnd};
use mg_settled::InputSet;
use std::alloc::AllocError;
use std::sync::Wait;
use std::thread::Threads;

// Gives up the packets that all their readers have got, reads the next batch, and hands it to the net.
fn next_batch<N: Driven, B: Batches, S: Source>(
    net: &mut N,
    batches: &mut B,
    input: &mut S,
) -> Result<BatchEnd, AllocError>
    requires more { IsSomeMore N.laws (B.gives N.laws) B.is_due (S.told input.old) batches.old (N.net net.old) }
    requires read { AreRead (B.wants batches.old) (N.net net.old) }
    ensures goes_on { IfOk result (λ end. (start : Start B) (inputs : Given) → (B.gives N.laws) start.batches batches.old start.plan start.source (S.told input.old) BatchEnd.More inputs
        → B.is_due batches.old start.plan inputs → StandsFor (job_with N.laws start inputs) (N.net net.old) → WentOn N.laws (B.gives N.laws) start end (S.told input.new) batches.new inputs (N.net net.new)) }
    ensures fewer { IfOk result (λ end. IsMore end → B.left batches.new < B.left batches.old) }
    ensures there { AreThere (B.wants batches.new) (N.net net.new) }
    ensures knows { OnOk result ((seen : NetView) → B.knows N.laws batches.old seen → B.knows N.laws batches.new seen) }
    ensures same { OnErr result ((job : LoggedJob N.laws) → StandsFor job (N.net net.old) → StandsFor job (N.net net.new)) }
    ensures taken { taken_out (N.net net.new) ≡ taken_out (N.net net.old) }
    ensures running { IsRunning (N.net net.old) → IsRunning (N.net net.new) }
    ensures keeps { Keeps (N.net net.old) (N.net net.new) }
    ensures further { (plan : Plan) (first : SourceTold) (inputs : Given) → B.is_due batches.old plan inputs → B.reads_on batches.old plan first (S.told input.old) (S.told input.new) }
    ensures unread { B.reads ≡ false → S.told input.new ≡ S.told input.old }
{
    net.trim();
    let batch = batches.next(input)?;
    net.extend(&batch.inputs)?;
    Ok(batch.end)
}

/// Takes all settled sets of the graph's outputs that there are out of a net, and tells them.
pub fn take_all<N: Driven, T: Telling, K: Sink>(
    net: &mut N,
    set: &mut InputSet,
    telling: &mut T,
    output: &mut K,
) -> Result<(), AllocError>
    requires places { length set.old ≡ length (N.net net.old).plan.outputs }
    requires told { IsSomeTold N.laws T.has_told (K.told output.old) (N.net net.old) telling.old }
    ensures places { length set.new ≡ length (N.net net.new).plan.outputs }
    ensures left { LeavesNodes (N.net net.old) (N.net net.new) }
    ensures whole { GaveNothingUp (N.net net.old) (N.net net.new) }
    ensures stands { (job : LoggedJob N.laws) → StandsFor job (N.net net.old) → StandsFor job (N.net net.new) }
    ensures told { OnOk result ((job : LoggedJob N.laws) (first : SinkTold) → StandsFor job (N.net net.old) → IsTold T.has_told job.job first (K.told output.old) (taken_out (N.net net.old)) telling.old
        → IsTold T.has_told job.job first (K.told output.new) (taken_out (N.net net.new)) telling.new) }
    ensures front { OnErr result ((job : LoggedJob N.laws) (first : SinkTold) → StandsFor job (N.net net.old) → IsTold T.has_told job.job first (K.told output.old) (taken_out (N.net net.old)) telling.old
        → IsToldSome T.has_told job.job first (K.told output.new)) }

    // If all that a solution has at the graph's outputs had come, all of its sets were taken.
    ensures all { OnOk result ((job : LoggedJob N.laws) (streams : List (StreamPrefix Plain)) → StandsFor job (N.net net.old) → Solves job streams → HasAllOutputs streams (N.net net.old)
        → taken_out (N.net net.new) ≡ length (settled_outputs (N.net net.new).plan streams)) }
{
    'sets: while net.take_out(set) {
        telling.tell(set, output)?;
    }
    Ok(())
}

// Brings a net to rest, notes the engines that may have changed, and tells all sets that the net's outputs then have.
fn advance<N: Driven, T: Telling, K: Sink>(
    net: &mut N,
    moved: &mut Moved,
    set: &mut InputSet,
    telling: &mut T,
    output: &mut K,
) -> Result<(), AllocError>
    requires places { length set.old ≡ length (N.net net.old).plan.outputs }
    requires running { IsRunning (N.net net.old) }
    requires told { IsSomeTold N.laws T.has_told (K.told output.old) (N.net net.old) telling.old }
    ensures places { length set.new ≡ length (N.net net.new).plan.outputs }
    ensures running { IsRunning (N.net net.new) }
    ensures keeps { Keeps (N.net net.old) (N.net net.new) }
    ensures whole { GaveNothingUp (N.net net.old) (N.net net.new) }
    ensures stands { (job : LoggedJob N.laws) → StandsFor job (N.net net.old) → StandsFor job (N.net net.new) }
    ensures told { OnOk result ((job : LoggedJob N.laws) (first : SinkTold) → StandsFor job (N.net net.old) → IsTold T.has_told job.job first (K.told output.old) (taken_out (N.net net.old)) telling.old
        → IsTold T.has_told job.job first (K.told output.new) (taken_out (N.net net.new)) telling.new) }
    ensures front { OnErr result ((job : LoggedJob N.laws) (first : SinkTold) → StandsFor job (N.net net.old) → IsTold T.has_told job.job first (K.told output.old) (taken_out (N.net net.old)) telling.old
        → IsToldSome T.has_told job.job first (K.told output.new)) }
    ensures moved { OnOk result (NotesMoves moved.old moved.new (N.net net.old) (N.net net.new)) }
    ensures rested { OnOk result ((job : LoggedJob N.laws) → StandsFor job (N.net net.old) → HasRested job (N.net net.new) × IsAllTaken job (N.net net.new)) }
{
    net.to_rest(moved)?;
    take_all(net, set, telling, output)?;
    Ok(())
}

/// How a run goes on after a step of it.
#[derive(Drop)]
pub enum Step {
    /// The net has more to do. The last batch ended in this way.
    On(BatchEnd),
    /// The net is at rest, all sets of its outputs are told, and this is how the input ended.
    Over(FeedEnd),
}

/// Makes a step of a run: brings its net to rest, and tells the sets of its outputs. Then hands the next round or batch to the net, if
/// there is one. `last` tells how the last batch ended.
pub fn make_step<N: Driven, B: Batches, T: Telling, S: Source, K: Sink>(
    net: &mut N,
    ends: &mut NetEnds<B, T>,
    last: BatchEnd,
    input: &mut S,
    output: &mut K,
) -> Result<Step, AllocError>
    requires under_way { (plan : Plan) × IsSomeRun N.laws (B.gives N.laws) T.has_told plan last (S.told input.old) (K.told output.old) ends.old.batches ends.old.telling (N.net net.old) }
    requires running { IsRunning (N.net net.old) }
    requires there { AreThere (B.wants ends.old.batches) (N.net net.old) }
    requires knows { KnowsSince (B.knows N.laws ends.old.batches) ends.old.moved (N.net net.old) }
    requires places { length ends.old.set ≡ length (N.net net.old).plan.outputs }
    ensures stepped { IfOk result (λ step. (start : Start B) → IsUnderWay N.laws (B.gives N.laws) T.has_told start last (S.told input.old) (K.told output.old) ends.old.batches ends.old.telling (N.net net.old)
        → HasStepped N.laws (B.gives N.laws) T.has_told start step (S.told input.new) (K.told output.new) ends.new.batches ends.new.telling (N.net net.new)) }
    ensures short { OnErr result ((start : Start B) → IsUnderWay N.laws (B.gives N.laws) T.has_told start last (S.told input.old) (K.told output.old) ends.old.batches ends.old.telling (N.net net.old)
        → IsShort N.laws (B.gives N.laws) B.reads_on T.has_told T.form start (S.told input.new) (K.told output.new) (N.net net.new)) }
    ensures fewer { IfOk result (λ step. LeavesFewer step last (B.left ends.old.batches) (B.left ends.new.batches)) }
    ensures running { OnOk result (IsRunning (N.net net.new)) }
    ensures there { OnOk result (AreThere (B.wants ends.new.batches) (N.net net.new)) }
    ensures knows { OnOk result (KnowsSince (B.knows N.laws ends.new.batches) ends.new.moved (N.net net.new)) }
    ensures places { OnOk result (length ends.new.set ≡ length (N.net net.new).plan.outputs) }
    ensures keeps { Keeps (N.net net.old) (N.net net.new) }
    ensures unread { B.reads ≡ false → S.told input.new ≡ S.told input.old }
{
    advance(
        net,
        &mut ends.moved,
        &mut ends.set,
        &mut ends.telling,
        output,
    )?;
    let onward = ends.batches.onward(last, net, &mut ends.moved)?;
    match onward {
        Onward::Round(inputs, pieces) => {
            net.extend_some(&inputs, &pieces)?;
            Ok(Step::On(last))
        }
        Onward::Next => {
            ends.telling.pass_on(output);
            let end = next_batch(net, &mut ends.batches, input)?;
            ends.moved.note_all();
            Ok(Step::On(end))
        }
        Onward::End(end) => Ok(Step::Over(end)),
    }
}

/// Begins a net, and makes the steps of its run over the first batch, which it already has, and over all further ones. Returns how the
/// input ended: the net is at rest then, and all sets of its outputs are told. It is handed no runtime, so it returns.
pub fn drive_alone<N: Driven, B: Batches, T: Telling, S: Source, K: Sink>(
    net: &mut N,
    ends: &mut NetEnds<B, T>,
    first: BatchEnd,
    input: &mut S,
    output: &mut K,
) -> Result<FeedEnd, AllocError>
    requires under_way { (plan : Plan) × IsSomeRun N.laws (B.gives N.laws) T.has_told plan first (S.told input.old) (K.told output.old) ends.old.batches ends.old.telling (N.net net.old) }
    requires there { AreThere (B.wants ends.old.batches) (N.net net.old) }
    requires knows { KnowsSince (B.knows N.laws ends.old.batches) ends.old.moved (N.net net.old) }
    requires places { length ends.old.set ≡ length (N.net net.old).plan.outputs }
    ensures over { IfOk result (λ end. (start : Start B) → IsUnderWay N.laws (B.gives N.laws) T.has_told start first (S.told input.old) (K.told output.old) ends.old.batches ends.old.telling (N.net net.old)
        → RunIsOver N.laws (B.gives N.laws) T.has_told start end (S.told input.new) (K.told output.new) ends.new.batches ends.new.telling (N.net net.new)) }
    ensures short { OnErr result ((start : Start B) → IsUnderWay N.laws (B.gives N.laws) T.has_told start first (S.told input.old) (K.told output.old) ends.old.batches ends.old.telling (N.net net.old)
        → IsShort N.laws (B.gives N.laws) B.reads_on T.has_told T.form start (S.told input.new) (K.told output.new) (N.net net.new)) }
    ensures keeps { Keeps (N.net net.old) (N.net net.new) }
    ensures unread { B.reads ≡ false → S.told input.new ≡ S.told input.old }
{
    net.begin()?;
    ends.moved.note_all();
    let mut last = first;
    'steps: loop {
        let stepped = make_step(net, ends, last, input, output)?;
        match stepped {
            Step::On(end) => last = end,
            Step::Over(end) => return Ok(end),
        }
    }
}

/// Does what `drive_alone` does, and lets workers run the net before each step.
pub fn drive<
    R: Threads + Wait + Sync,
    G: Gate + Sync,
    C: NodeCalculator + Send,
    B: Batches,
    T: Telling,
    S: Source,
    K: Sink,
>(
    net: &mut ManyThreads<'_, C, R, G>,
    ends: &mut NetEnds<B, T>,
    first: BatchEnd,
    input: &mut S,
    output: &mut K,
) -> Result<FeedEnd, AllocError>
    requires under_way { (plan : Plan) × IsSomeRun C.laws (B.gives C.laws) T.has_told plan first (S.told input.old) (K.told output.old) ends.old.batches ends.old.telling net.old.one.net }
    requires there { AreThere (B.wants ends.old.batches) net.old.one.net }
    requires knows { KnowsSince (B.knows C.laws ends.old.batches) ends.old.moved net.old.one.net }
    requires places { length ends.old.set ≡ length net.old.one.net.plan.outputs }
    ensures over { IfOk result (λ end. (start : Start B) → IsUnderWay C.laws (B.gives C.laws) T.has_told start first (S.told input.old) (K.told output.old) ends.old.batches ends.old.telling net.old.one.net
        → RunIsOver C.laws (B.gives C.laws) T.has_told start end (S.told input.new) (K.told output.new) ends.new.batches ends.new.telling net.new.one.net) }
    ensures short { OnErr result ((start : Start B) → IsUnderWay C.laws (B.gives C.laws) T.has_told start first (S.told input.old) (K.told output.old) ends.old.batches ends.old.telling net.old.one.net
        → IsShort C.laws (B.gives C.laws) B.reads_on T.has_told T.form start (S.told input.new) (K.told output.new) net.new.one.net) }
    ensures keeps { Keeps net.old.one.net net.new.one.net }
    ensures unread { B.reads ≡ false → S.told input.new ≡ S.told input.old }
{
    net.begin()?;
    ends.moved.note_all();
    let mut last = first;
    'steps: loop {
        net.work(&mut ends.moved);
        let stepped = make_step(net, ends, last, input, output)?;
        match stepped {
            Step::On(end) => last = end,
            Step::Over(end) => return Ok(end),
        }
    }
}
