ghost use Rattle.std.specs.Prelude.{◌≡◌, true, length, is_some, IfSome, IfNone, IfOk, IfErr, option_map, OnOk, OnErr};
ghost use Rattle.mg_policy.specs.declared.readiness.Readiness.TheVariants.{Ready};
ghost use Rattle.mg_calc.specs.Answer.{GivesEmission};
ghost use Rattle.mg_calc.specs.Told.{KeepsAtOpen, Logs};
ghost use Rattle.mg_route.specs.HolderView.{held_rules, holder_view, told_by};
ghost use Rattle.mg_node.specs.Ports.{ports_in, IsNext};
ghost use Rattle.mg_node.specs.Intakes.{HasSets, SomeJobHasIntake};
ghost use Rattle.mg_node.specs.Claims.{Takes};
ghost use Rattle.mg_node.specs.Running.{MayRun, HasRun};
ghost use Rattle.mg_calc.specs.declared.node_fault.Phase.TheVariants.{Process};
ghost use Rattle.mg_node.specs.Begun.{IsOpened};
ghost use Rattle.mg_node.specs.Code.Showing.{HasShown};
ghost use Rattle.mg_node.specs.Leaving.{handed_told};
ghost use Rattle.mg_node.specs.WindingUp.{IsFinished};

use crate::Intake;
use mg_calc::{CalcFault, Call, Cause, Emission, GivenList, NodeCalculator, Phase};
use mg_route::Holder;
use mg_settled::InputSet;
use mg_time::Timestamp;
use std::alloc::{AllocError, Global};
use std::marker::Model;

/// A calculator, with the set that it is shown. The set's memory stays from one work to the next, so that no work takes memory for it.
#[derive(Drop)]
pub struct Context<C: NodeCalculator> {
    // On the heap: a context moves with each work that is claimed and comes back.
    holder: Box<Holder<C>>,
    set: InputSet,
}

impl<C: NodeCalculator> Model for Context<C> {
    ghost use Rattle.mg_node.specs.Views.{ContextView};
    ghost use Rattle.mg_node.specs.Codes.{context_code};

    ghost Value = { ContextView };

    ghost coded = { context_code };

    ghost view = { λ b. record { told = b.holder.value; set = b.set } };
}

impl<C: NodeCalculator> Context<C> {
    /// Returns a context of a calculator and a set. Out of memory: returns the calculator.
    pub fn new(alloc: Global, holder: Holder<C>, set: InputSet) -> Result<Context<C>, Holder<C>>
        ensures made { IfOk result (λ b. b ≡ record { told = holder; set = set }) }
        ensures returned { IfErr result (λ h. h ≡ holder) }
    {
        match Box::new(alloc, holder) {
            Ok(holder) => Ok(Context { holder, set }),
            Err(refused) => Err(refused.value),
        }
    }

    /// Returns the context with a user-supplied calculator in place of its own.
    pub(crate) fn with(self, calculator: C) -> Context<C>
        ensures { result ≡ record { told = holder_view true (C.told calculator); set = self.set } }
    {
        let Context { mut holder, set } = self;
        *holder = Holder::outer(calculator);
        Context { holder, set }
    }

    /// Opens the calculator with side packets. Out of memory: nothing has changed.
    pub(crate) fn begin(&mut self, alloc: Global, sides: &GivenList) -> Result<Emission, CalcFault>
        ensures answer { GivesEmission result self.new.told.state ((held_rules C.laws self.old.told).opening sides.now) }
        ensures kept { KeepsAtOpen result self.old.told.state self.new.told.state }
        ensures log { Logs result self.old.told.log self.new.told.log Call.Begun }
        ensures law { self.new.told.law ≡ self.old.told.law }
        ensures shape { self.new.told.shape ≡ self.old.told.shape }
        ensures handed { self.new.told.handed ≡ self.old.told.handed }
        ensures set { self.new.set ≡ self.old.set }
    {
        self.holder.begin(alloc, sides)
    }

    /// Opens the calculator with side packets, and returns its answer. Out of memory: returns `None`, and nothing has changed.
    pub(crate) fn open(
        &mut self,
        alloc: Global,
        sides: &GivenList,
    ) -> Option<Result<Emission, Cause>>
        ensures opened { IfSome result (λ answer. IsOpened C.laws self.old.told self.new.told sides.now answer) }
        ensures set { self.new.set ≡ self.old.set }
        ensures unchanged { IfNone result (self.new ≡ self.old) }
    {
        match self.begin(alloc, sides) {
            Ok(emission) => Some(Ok(emission)),
            Err(CalcFault::Fault(cause)) => Some(Err(cause)),
            Err(CalcFault::OutOfMemory) => None,
        }
    }

    /// Runs the calculator in a phase: it is shown the set, called by a number, or closed. Out of memory: nothing has changed.
    #[inline(always)]
    pub(crate) fn run(&mut self, alloc: Global, phase: Phase) -> Result<Emission, CalcFault>
        requires { MayRun phase self.old }
        ensures { HasRun C.laws result phase self.old self.new }
    {
        match phase {
            Phase::Open => unreachable!(),
            Phase::Call(number) => self.holder.call(alloc, number),
            Phase::Process(at) => self.holder.process(alloc, at, &self.set),
            Phase::Close => self.holder.finish(alloc),
        }
    }

    /// Shows the calculator the context's set, and returns its answer. Out of memory: returns `None`, and nothing has changed.
    #[inline(always)]
    pub(crate) fn show(&mut self, alloc: Global, at: Timestamp) -> Option<Result<Emission, Cause>>
        requires { MayRun (Process at) self.old }
        ensures shown { IfSome result (λ answer. HasShown C.laws at answer self.old self.new) }
        ensures unchanged { IfNone result (self.new ≡ self.old) }
    {
        match self.run(alloc, Phase::Process(at)) {
            Ok(emission) => Some(Ok(emission)),
            Err(CalcFault::Fault(cause)) => Some(Err(cause)),
            Err(CalcFault::OutOfMemory) => None,
        }
    }

    /// Closes the calculator, and drops what it answers. Out of memory: nothing has changed.
    pub(crate) fn finish(&mut self, alloc: Global) -> Result<(), AllocError>
        ensures finished { OnOk result (IsFinished C.laws self.old self.new) }
        ensures unchanged { OnErr result (self.new ≡ self.old) }
    {
        match self.run(alloc, Phase::Close) {
            Ok(_) => Ok(()),
            Err(CalcFault::Fault(_)) => Ok(()),
            Err(CalcFault::OutOfMemory) => Err(AllocError),
        }
    }

    /// Takes the next input set of an intake, which must stand at `at`, into the context's set.
    #[inline(always)]
    pub(crate) fn fill(&mut self, at: Timestamp, intake: &mut Intake)
        requires places { length self.old.set ≡ ports_in intake.old.waits }
        requires lawful { SomeJobHasIntake intake.old }
        requires sets { HasSets intake.old.waits }
        requires next { IsNext intake.old.waits (Ready at) }
        ensures takes { Takes intake.old intake.new self.new.set }
        ensures told { self.new.told ≡ self.old.told }
    {
        intake.claim_at(at, &mut self.set);
    }

    /// Returns the calculator, if it is user-supplied.
    pub(crate) fn into_calculator(self) -> Option<C>
        ensures there { is_some result ≡ self.told.handed }
        ensures told { IfSome result (λ c. C.told c ≡ told_by self.told) }

        // What the calculator tells of itself, as one equation for both cases.
        ensures handed { option_map C.told result ≡ handed_told self.told }
    {
        let Context { holder, .. } = self;
        Box::into_inner(holder).into_outer()
    }
}
