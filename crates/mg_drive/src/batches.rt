ghost use Rattle.std.specs.Prelude.{◌≡◌, ◌<◌, ◌∷◌, [], ℕ, List, Bool, false, IfOk, OnOk, OnErr};
ghost use Rattle.mg_calc.specs.Rules.{Laws};
ghost use Rattle.mg_edge.specs.Edge.{SourceTold, SinkTold};
ghost use Rattle.mg_calc.specs.declared.plan.Plan.{Plan};
ghost use Rattle.mg_calc.specs.declared.inputs.Inputs.{Inputs as Given};
ghost use Rattle.mg_calc.specs.Plan.{IsValidWithFree};
ghost use Rattle.mg_calc.specs.Equations.{Job};
ghost use Rattle.mg_sched.specs.Views.{NetView};
ghost use Rattle.mg_feed.specs.declared.feed_end.BatchEnd.{BatchEnd as Ending};
ghost use Rattle.mg_feed.specs.declared.feed_end.FeedEnd.{FeedEnd as FeedEnding};
ghost use Rattle.mg_answer.specs.Answer.{OutputForm};
ghost use Rattle.mg_answer.specs.Put.{HasPut};
ghost use Rattle.mg_answer.specs.Devices.{Device, device, TookFront};
ghost use Rattle.mg_answer.specs.declared.status.Status.{Status as Stands};
ghost use Rattle.mg_answer.specs.declared.run.Reporting.{Reporting};
ghost use Rattle.mg_drive.specs.Nets.{Wanted, AreThere, KnowsSince};
ghost use Rattle.mg_drive.specs.Batches.{IsMore, MayRead, IsFirst, BatchesGoOn, GoesOnward, InputsAreNoted, RoundLeaves, SomeGiven, IsAsGiven, OutcomesFit, AreOfGiven, TellsSolution};

use crate::{Driven, Moved};
use mg_answer::{Outcomes, OutputText, Run, Status};
use mg_calc::Inputs;
use mg_edge::{Sink, Source};
use mg_feed::{BatchEnd, FeedEnd};
use mg_settled::PrefixList;
use mg_value::NumberList;
use std::alloc::AllocError;

/// A batch: how it ended, and what it hands to the graph.
#[derive(Drop)]
pub struct Batch {
    pub end: BatchEnd,
    pub inputs: Inputs,
}

/// How a run goes on once its net has come to rest.
#[derive(Drop)]
pub enum Onward {
    /// Before the next batch is read, some graph inputs get further input: their numbers, in rising order, and a piece for each.
    Round(NumberList, PrefixList),
    /// The next batch is due.
    Next,
    /// No batch is left, and this is how the input ended.
    End(FeedEnd),
}

/// What a run has at its end: how its input ended, and the text of its outputs.
#[derive(Drop)]
pub struct Closing {
    pub end: FeedEnd,
    pub text: OutputText,
}

/// Where the batches of a run come from.
pub trait Batches: Drop {
    /// It is new for a plan: no batch was read yet.
    ghost is_fresh: { Self → Plan → Type 0 };

    /// Between two states it has given these inputs for a plan, all batches together. The source told the first of the two `SourceTold`
    /// before that, and tells the second now; and the last batch ended in this way. What free nodes give goes by the rules of a net's
    /// stated laws.
    ghost gives: { Laws → Self → Self → Plan → SourceTold → SourceTold → Ending → Given → Type 0 };

    /// As `gives`, but batch by batch: the list has what all batches up to each one gave together, the newest batch first.
    ghost came: { Laws → Self → Self → Plan → SourceTold → SourceTold → Ending → List Given → Type 0 };

    /// After it has given these inputs for a plan, the next batch is due: nothing else comes before that batch.
    ghost is_due: { Self → Plan → Given → Type 0 };

    /// Which packets of a net's streams it still has to read. The net mustn't give them up.
    ghost wants: { Self → List Wanted };

    /// What it knows of a net that it saw at rest, by the rules of the net's stated laws. It knows this of the net still, as far as no engine
    /// has changed since.
    ghost knows: { Laws → Self → NetView → Type 0 };

    /// What a further call of `next` reads of its source for a plan, whatever that call returns. The source told the first `SourceTold`
    /// when the run began, the second before the call, and the third after it.
    ghost reads_on: { Self → Plan → SourceTold → SourceTold → SourceTold → Type 0 };

    /// A bound on the batches and rounds that may still come.
    ghost left: { Self → ℕ };

    /// Whether it reads its source.
    ghost reads: { Bool };

    /// What is written at the end of a run over these batches. The first arguments are the form, what the notes report, the job over what
    /// was given, and how its input ended. The last arguments are the status, what the output took, and what the notes took.
    ghost wrote: { Self → OutputForm → Reporting → Job → FeedEnding → Stands → Device SinkTold → Device SinkTold → Type 0 };

    /// Reads the next batch. After a batch with which the input ended there is none.
    fn next<S: Source>(&mut self, input: &mut S) -> Result<Batch, AllocError>
        ensures first { (laws : Laws) (plan : Plan) → IsValidWithFree plan → is_fresh self.old plan
            → IfOk result (λ b. IsFirst (gives laws self.old self.new plan (S.told input.old) (S.told input.new)) plan b.end b.inputs) }
        ensures goes_on { (laws : Laws) (began : Self) (plan : Plan) (first : SourceTold) (so_far : Given) → IsValidWithFree plan
            → gives laws began self.old plan first (S.told input.old) BatchEnd.More so_far → is_due self.old plan so_far
            → IfOk result (λ b. BatchesGoOn (gives laws began self.new plan first (S.told input.new) b.end) plan so_far b.inputs) }
        ensures first_came { (laws : Laws) (plan : Plan) → IsValidWithFree plan → is_fresh self.old plan
            → IfOk result (λ b. IsFirst (λ end inputs. gives laws self.old self.new plan (S.told input.old) (S.told input.new) end inputs × came laws self.old self.new plan (S.told input.old) (S.told input.new) end (inputs ∷ [])) plan b.end b.inputs) }
        ensures comes_on { (laws : Laws) (began : Self) (plan : Plan) (first : SourceTold) (so_far : Given) (earlier : List Given) → IsValidWithFree plan
            → came laws began self.old plan first (S.told input.old) BatchEnd.More (so_far ∷ earlier) → is_due self.old plan so_far
            → IfOk result (λ b. BatchesGoOn (λ all. gives laws began self.new plan first (S.told input.new) b.end all × came laws began self.new plan first (S.told input.new) b.end (all ∷ so_far ∷ earlier)) plan so_far b.inputs) }
        ensures fewer { (laws : Laws) (began : Self) (plan : Plan) (first : SourceTold) (so_far : Given)
            → gives laws began self.old plan first (S.told input.old) BatchEnd.More so_far → is_due self.old plan so_far
            → IfOk result (λ b. IsMore b.end → left self.new < left self.old) }
        ensures wants { wants self.new ≡ wants self.old }
        ensures knows { OnOk result ((laws : Laws) (net : NetView) → knows laws self.old net → knows laws self.new net) }
        ensures knows_first { OnOk result ((laws : Laws) (plan : Plan) (net : NetView) → is_fresh self.old plan → net.plan ≡ plan → knows laws self.new net) }
        ensures further { (plan : Plan) (first : SourceTold) → MayRead is_fresh is_due self.old plan → reads_on self.old plan first (S.told input.old) (S.told input.new) }
        ensures unread { reads ≡ false → S.told input.new ≡ S.told input.old };

    /// Returns how the run goes on, once its net has come to rest over all that was given. `last` tells how the last batch ended. `moved` has
    /// the engines that may have changed since the net was last seen here. Then it has those that change if the run goes on so.
    fn onward<N: Driven>(
        &mut self,
        last: BatchEnd,
        net: &N,
        moved: &mut Moved,
    ) -> Result<Onward, AllocError>
        requires given { SomeGiven N.laws (gives N.laws) last (N.net net.now) self.old }
        requires there { AreThere (wants self.old) (N.net net.now) }
        requires knows { KnowsSince (knows N.laws self.old) moved.old (N.net net.now) }
        ensures knows { OnOk result (KnowsSince (knows N.laws self.new) moved.new (N.net net.now)) }
        ensures noted { IfOk result (λ onward. InputsAreNoted onward moved.new (N.net net.now)) }
        ensures onward { (began : Self) (plan : Plan) (first source : SourceTold) (so_far : Given) → IsAsGiven N.laws (gives N.laws) began plan first source last so_far (N.net net.now) self.old
            → IfOk result (GoesOnward (gives N.laws) is_due wants began plan first source last so_far (N.net net.now) self.new) }
        ensures there { OnOk result (AreThere (wants self.new) (N.net net.now)) }
        ensures leaves { IfOk result (λ onward. RoundLeaves onward (left self.old) (left self.new)) };

    /// Ends a run over all batches: writes the rest of the text, and the notes. `outcomes` are those of the net, by the numbers of the
    /// net's plan.
    fn conclude<K: Sink, E: Sink>(
        &self,
        run: &Run<'_>,
        closing: Closing,
        outcomes: Outcomes,
        output: &mut K,
        notes: &mut E,
    ) -> Result<Status, AllocError>
        requires tells { OutcomesFit run.now.plan.now outcomes }
        requires of { (laws : Laws) × AreOfGiven laws (gives laws) run.now.plan.now closing.end self.now outcomes }
        ensures wrote { IfOk result (λ status. (form : OutputForm) (job : Job) (first : SinkTold) → TellsSolution form job first (K.told output.old) run.now.plan.now closing.text outcomes
            → wrote self.now form run.now.report job closing.end status (device first (K.told output.new)) (device (E.told notes.old) (E.told notes.new))) }
        ensures front { OnErr result ((first : SinkTold) (whole : List ℕ) → HasPut first (K.told output.old) closing.text whole → TookFront (device first (K.told output.new)) whole) }
        ensures unnoted { OnErr result (E.told notes.new ≡ E.told notes.old) };
}
