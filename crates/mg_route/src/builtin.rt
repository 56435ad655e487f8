ghost use Rattle.std.specs.Prelude.{◌≡◌, ◌<◌, [], None, IfOk, OnErr, Ok};
ghost use Rattle.mg_calc.specs.Answer.{GivesEmission};
ghost use Rattle.mg_calc.specs.Law.{opening, step, call as its_call, finish as closing};
ghost use Rattle.mg_calc.specs.Shape.{ParametersFit, IsShapeOf, IsServed, IsOuter, IsSource, calls_of};
ghost use Rattle.mg_calc.specs.Told.{KeepsAtOpen};

use crate::in_place::{begin_in, outer_step_in};
use mg_calc::{
    CalcFault, Emission, GivenList, Law, Shape, State, TryClone, no_emission, source_step,
};
use mg_settled::InputSet;
use mg_time::Timestamp;
use std::alloc::{AllocError, Global};
use std::marker::Model;

/// A built-in calculator: its law, its shape and its state. Contracts see what it tells of itself; it keeps no log. It computes what
/// the table of laws gives. For a stated law that is nothing: a built-in calculator of such a law only keeps the place of a
/// user-supplied one.
#[derive(Drop)]
pub struct Builtin {
    law: Law,
    shape: Shape,
    state: State,
}

impl Model for Builtin {
    ghost use Rattle.std.specs.Prelude.{None};
    ghost use Rattle.mg_calc.specs.Told.{BoxTold};
    ghost use Rattle.mg_calc.specs.ToldCodes.{told_code};
    ghost use Rattle.mg_calc.specs.Shape.{ParametersFit, IsShapeOf, IsServed};

    ghost Value = { BoxTold };

    ghost coded = { told_code };

    ghost view = { λ b. record { law = b.law; shape = b.shape; state = b.state; log = None } };

    ghost invariant = { λ b. ParametersFit b.law × IsShapeOf b.law b.shape × IsServed b.law };
}

impl Builtin {
    /// Returns a calculator of a law and a shape, which hasn't been opened.
    pub fn new(alloc: Global, law: &Law, shape: &Shape) -> Result<Builtin, AllocError>
        requires ranges { ParametersFit law.now }
        requires of_law { IsShapeOf law.now shape.now }
        requires served { IsServed law.now }
        ensures { IfOk result (λ b. b ≡ record { law = law.now; shape = shape.now; state = []; log = None }) }
    {
        Ok(Builtin {
            law: law.try_clone(alloc)?,
            shape: shape.try_clone(alloc)?,
            state: State::empty(),
        })
    }

    /// Returns the calculator's law, which never changes.
    pub fn law(&self) -> &Law
        ensures law { result.now ≡ self.now.law }
        ensures ranges { ParametersFit result.now }
        ensures served { IsServed result.now }
    {
        &self.law
    }

    /// Returns the calculator's shape, which never changes.
    pub fn shape(&self) -> &Shape
        ensures shape { result.now ≡ self.now.shape }
        ensures of_law { IsShapeOf self.now.law result.now }
    {
        &self.shape
    }

    // Opens the calculator with its side packets, and returns what it emits. If it fails, it keeps nothing.
    pub(crate) fn begin(&mut self, alloc: Global, sides: &GivenList) -> Result<Emission, CalcFault>
        ensures answer { GivesEmission result self.new.state (opening self.old.law sides.now) }
        ensures kept { KeepsAtOpen result self.old.state self.new.state }
        ensures law { self.new.law ≡ self.old.law }
        ensures shape { self.new.shape ≡ self.old.shape }
        ensures untold { self.old.log ≡ None }
        ensures log { self.new.log ≡ None }
    {
        match begin_in(alloc, &self.law, &mut self.state, sides) {
            Err(CalcFault::Fault(cause)) => {
                self.state = State::empty();
                Err(CalcFault::Fault(cause))
            }
            answer => answer,
        }
    }

    // Shows the calculator the set at a time, and returns what it emits. On an error the state stays.
    #[inline(always)]
    pub(crate) fn process(
        &mut self,
        alloc: Global,
        at: Timestamp,
        set: &InputSet,
    ) -> Result<Emission, CalcFault>
        requires { IsOuter self.old.law }
        ensures answer { GivesEmission result self.new.state (step self.old.law self.old.state at set.now) }
        ensures kept { OnErr result (self.new.state ≡ self.old.state) }
        ensures law { self.new.law ≡ self.old.law }
        ensures shape { self.new.shape ≡ self.old.shape }
        ensures untold { self.old.log ≡ None }
        ensures log { self.new.log ≡ None }
    {
        outer_step_in(alloc, &self.law, &mut self.state, at, set)
    }

    // Returns what the calculator, a source, emits at the call of a number.
    pub(crate) fn called(&self, alloc: Global, number: u64) -> Result<Emission, CalcFault>
        requires source { IsSource self.now.law }
        requires number { number < calls_of self.now.law }
        ensures { GivesEmission result self.now.state (its_call self.now.law self.now.state number) }
    {
        source_step(alloc, &self.law, &self.state, number)
    }

    // Returns what the calculator emits in Close.
    pub(crate) fn closed(&self, alloc: Global) -> Result<Emission, AllocError>
        ensures emission { IfOk result (λ emission. closing self.now.law self.now.state ≡ Ok (self.now.state, emission)) }
        ensures untold { self.now.log ≡ None }
    {
        match &self.law {
            Law::Scripted { last, .. } => last.try_clone(alloc),
            _ => no_emission(alloc),
        }
    }
}
