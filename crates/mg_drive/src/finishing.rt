//! How a run ends once its net has come to rest.
ghost use Rattle.std.specs.Prelude.{◌≡◌, ◌<◌, ◌^◌, ◌⊎◌, length, IfOk, OnOk, OnErr};
ghost use Rattle.mg_edge.specs.Edge.{SinkTold};
ghost use Rattle.mg_calc.specs.Equations.{Job};
ghost use Rattle.mg_node.specs.Job.{LoggedJob};
ghost use Rattle.mg_answer.specs.Answer.{OutputForm};
ghost use Rattle.mg_answer.specs.Frozen.{WroteFrozen};
ghost use Rattle.mg_answer.specs.Put.{TextView};
ghost use Rattle.mg_answer.specs.Wrote.{Wrote};
ghost use Rattle.mg_answer.specs.Devices.{device};
ghost use Rattle.mg_sched.specs.StandsFor.{StandsFor};
ghost use Rattle.mg_sched.specs.WindsUp.{WindsUpNet};
ghost use Rattle.mg_drive.specs.Batches.{OutcomesFit, TellsSolution};
ghost use Rattle.mg_drive.specs.Code.Running.{HasRested, SomeRested, SomeRestedOf, FrontIn};
ghost use Rattle.mg_drive.specs.Code.Ending.{IsWhole, TellsNet};

use crate::{Batches, Closing, Driven};
use mg_answer::{Outcomes, OutputText, Run, Status, conclude, conclude_frozen};
use mg_edge::Sink;
use mg_feed::FeedEnd;
use std::alloc::{AllocError, Global};

/// Ends a run whose net has come to rest: winds the nodes up, and writes the rest of the text and then the notes. If the report is asked
/// for, it is written after the notes. The text may have any form.
pub fn finish<N: Driven, K: Sink, E: Sink>(
    run: &Run<'_>,
    net: &mut N,
    end: FeedEnd,
    text: OutputText,
    output: &mut K,
    notes: &mut E,
) -> Result<Status, AllocError>
    requires rested { SomeRested N.laws run.now.plan.now (N.net net.old) }
    ensures wrote { IfOk result (λ status. (form : OutputForm) (job : LoggedJob N.laws) (first : SinkTold) → job.job.plan ≡ run.now.plan.now → StandsFor job (N.net net.old) → HasRested job (N.net net.old)
        → IsWhole form first (K.told output.old) job.job text
        → Wrote (record { form = form; report = run.now.report }) job.job end status (device first (K.told output.new)) (device (E.told notes.old) (E.told notes.new))) }
    ensures front { OnErr result ((form : OutputForm) (job : Job) (first : SinkTold) → IsWhole form first (K.told output.old) job text → FrontIn form first (K.told output.new) job) }
    ensures unnoted { OnErr result (E.told notes.new ≡ E.told notes.old) }
    ensures since { (N.net net.new ≡ N.net net.old) ⊎ WindsUpNet N.laws (N.net net.old) (N.net net.new) }
    ensures wound { OnOk result (WindsUpNet N.laws (N.net net.old) (N.net net.new) × ((N.net net.new).wound ≡ length (N.net net.old).plan.nodes)) }
{
    let outcomes = wound_up(run, net)?;
    let status = conclude(run, end, &outcomes, text, output, notes)?;
    Ok(status)
}

/// Ends a run over batches whose net has come to rest, as `finish` does. But the batches write the text and the notes.
pub(crate) fn finish_batches<N: Driven, B: Batches, K: Sink, E: Sink>(
    run: &Run<'_>,
    net: &mut N,
    batches: &B,
    closing: Closing,
    output: &mut K,
    notes: &mut E,
) -> Result<Status, AllocError>
    requires rested { SomeRestedOf N.laws (B.gives N.laws) run.now.plan.now closing.end (N.net net.old) batches.now }
    ensures wrote { IfOk result (λ status. (form : OutputForm) (job : LoggedJob N.laws) (first : SinkTold) → job.job.plan ≡ run.now.plan.now → StandsFor job (N.net net.old) → HasRested job (N.net net.old)
        → IsWhole form first (K.told output.old) job.job closing.text
        → B.wrote batches.now form run.now.report job.job closing.end status (device first (K.told output.new)) (device (E.told notes.old) (E.told notes.new))) }
    ensures front { OnErr result ((form : OutputForm) (job : Job) (first : SinkTold) → IsWhole form first (K.told output.old) job closing.text → FrontIn form first (K.told output.new) job) }
    ensures unnoted { OnErr result (E.told notes.new ≡ E.told notes.old) }
    ensures since { (N.net net.new ≡ N.net net.old) ⊎ WindsUpNet N.laws (N.net net.old) (N.net net.new) }
    ensures wound { OnOk result (WindsUpNet N.laws (N.net net.old) (N.net net.new) × ((N.net net.new).wound ≡ length (N.net net.old).plan.nodes)) }
{
    let outcomes = wound_up(run, net)?;
    let status = batches.conclude(run, closing, outcomes, output, notes)?;
    Ok(status)
}

/// Ends a run with a frozen input after its net has come to rest, as `finish` ends any other run.
pub fn finish_frozen<N: Driven, K: Sink, E: Sink>(
    run: &Run<'_>,
    net: &mut N,
    text: OutputText,
    output: &mut K,
    notes: &mut E,
) -> Result<Status, AllocError>
    requires rested { SomeRested N.laws run.now.plan.now (N.net net.old) }
    ensures wrote { IfOk result (λ status. (form : OutputForm) (job : LoggedJob N.laws) (first : SinkTold) → job.job.plan ≡ run.now.plan.now → StandsFor job (N.net net.old) → HasRested job (N.net net.old)
        → IsWhole form first (K.told output.old) job.job text
        → WroteFrozen (record { form = form; report = run.now.report }) job.job status (device first (K.told output.new)) (device (E.told notes.old) (E.told notes.new))) }
    ensures front { OnErr result ((form : OutputForm) (job : Job) (first : SinkTold) → IsWhole form first (K.told output.old) job text → FrontIn form first (K.told output.new) job) }
    ensures unnoted { OnErr result (E.told notes.new ≡ E.told notes.old) }
    ensures since { (N.net net.new ≡ N.net net.old) ⊎ WindsUpNet N.laws (N.net net.old) (N.net net.new) }
    ensures wound { OnOk result (WindsUpNet N.laws (N.net net.old) (N.net net.new) × ((N.net net.new).wound ≡ length (N.net net.old).plan.nodes)) }
{
    let outcomes = wound_up(run, net)?;
    let status = conclude_frozen(run, &outcomes, text, output, notes)?;
    Ok(status)
}

// Returns the outcomes of a net that has come to rest, and winds its nodes up.
fn wound_up<N: Driven>(run: &Run<'_>, net: &mut N) -> Result<Outcomes, AllocError>
    requires rested { SomeRested N.laws run.now.plan.now (N.net net.old) }
    ensures told { IfOk result (λ outcomes. TellsNet (N.net net.old) outcomes) }
    ensures tells { IfOk result (λ outcomes. OutcomesFit run.now.plan.now outcomes) }
    ensures ends { IfOk result (λ outcomes. (form : OutputForm) (job : LoggedJob N.laws) (first sink : SinkTold) (text : TextView) → job.job.plan ≡ run.now.plan.now → StandsFor job (N.net net.old) → HasRested job (N.net net.old)
        → IsWhole form first sink job.job text → TellsSolution form job.job first sink run.now.plan.now text outcomes) }
    ensures since { (N.net net.new ≡ N.net net.old) ⊎ WindsUpNet N.laws (N.net net.old) (N.net net.new) }
    ensures wound { OnOk result (WindsUpNet N.laws (N.net net.old) (N.net net.new) × ((N.net net.new).wound ≡ length (N.net net.old).plan.nodes)) }
{
    let outcomes = outcomes_of(run.alloc, net)?;
    net.wind_up()?;
    Ok(outcomes)
}

// Returns the outcomes of a net, by what it reports.
fn outcomes_of<N: Driven>(alloc: Global, net: &N) -> Result<Outcomes, AllocError>
    ensures tells { IfOk result (λ outcomes. TellsNet (N.net net.now) outcomes) }
    ensures few { IfOk result (λ outcomes. length outcomes.ends.items < 2 ^ 32) }
{
    let report = net.report(alloc)?;
    Ok(Outcomes {
        faults: report.faults,
        sets: report.sets,
        ends: report.streams.into_vec(),
        arrivals: Vec::new(alloc),
    })
}
