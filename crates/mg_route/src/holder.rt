ghost use Rattle.std.specs.Prelude.{◌≡◌, ◌<◌, OnErr, IfSome, is_some, true, false};
ghost use Rattle.mg_calc.specs.Answer.{GivesEmission};
ghost use Rattle.mg_calc.specs.Law.{call as its_call};
ghost use Rattle.mg_calc.specs.Shape.{ParametersFit, IsShapeOf, IsOuter, IsSource, calls_of, FitsInputs};
ghost use Rattle.mg_calc.specs.Told.{KeepsAtOpen, Logs};
ghost use Rattle.mg_route.specs.HolderView.{held_rules, holder_view, told_by};

use crate::Builtin;
use mg_calc::{CalcFault, Call, Emission, GivenList, Law, NodeCalculator, Shape};
use mg_settled::InputSet;
use mg_time::Timestamp;
use std::alloc::Global;
use std::marker::Model;

/// The calculator of a node: a built-in or a user-supplied one. Contracts see what it tells of itself, and which of the two it is.
///
/// Each call returns what the rules of the calculator's law give for its state, and the calculator then keeps the new state. A call
/// that fails leaves the state. If it was to open the calculator, it leaves no state. A call that returns `OutOfMemory` leaves state
/// and log, and may be made again.
#[derive(Drop)]
pub struct Holder<C: NodeCalculator> {
    held: Held<C>,
}

#[derive(Drop)]
enum Held<C> {
    Own(Builtin),
    Outer(C),
}

impl<C: NodeCalculator> Model for Holder<C> {
    ghost use Rattle.mg_route.specs.HolderView.{HolderView};
    ghost use Rattle.mg_route.specs.HolderCodes.{holder_code};
    ghost use Rattle.mg_route.specs.Held.{held_view};

    ghost Value = { HolderView };

    ghost coded = { holder_code };

    ghost view = { λ h. held_view C.told h.held };
}

impl<C: NodeCalculator> Holder<C> {
    /// Returns the holder of a built-in calculator.
    pub fn own(builtin: Builtin) -> Holder<C>
        ensures { result ≡ holder_view false builtin }
    {
        Holder {
            held: Held::Own(builtin),
        }
    }

    /// Returns the holder of a user-supplied calculator.
    pub fn outer(calculator: C) -> Holder<C>
        ensures { result ≡ holder_view true (C.told calculator) }
    {
        Holder {
            held: Held::Outer(calculator),
        }
    }

    /// Returns the calculator's law, which never changes.
    pub fn law(&self) -> &Law
        ensures law { result.now ≡ self.now.law }
        ensures ranges { ParametersFit result.now }
    {
        match &self.held {
            Held::Own(builtin) => builtin.law(),
            Held::Outer(calculator) => calculator.law(),
        }
    }

    /// Returns the calculator's shape, which never changes.
    pub fn shape(&self) -> &Shape
        ensures shape { result.now ≡ self.now.shape }
        ensures of_law { IsShapeOf self.now.law result.now }
    {
        match &self.held {
            Held::Own(builtin) => builtin.shape(),
            Held::Outer(calculator) => calculator.shape(),
        }
    }

    /// Opens the calculator with its side packets. It comes before all sets.
    pub fn begin(&mut self, alloc: Global, sides: &GivenList) -> Result<Emission, CalcFault>
        ensures answer { GivesEmission result self.new.state ((held_rules C.laws self.old).opening sides.now) }
        ensures kept { KeepsAtOpen result self.old.state self.new.state }
        ensures log { Logs result self.old.log self.new.log Call.Begun }
        ensures law { self.new.law ≡ self.old.law }
        ensures shape { self.new.shape ≡ self.old.shape }
        ensures handed { self.new.handed ≡ self.old.handed }
    {
        match &mut self.held {
            Held::Own(builtin) => builtin.begin(alloc, sides),
            Held::Outer(calculator) => calculator.begin(alloc, sides),
        }
    }

    /// Shows the calculator the set at a time, which has a place for each of its inputs.
    #[inline(always)]
    pub fn process(
        &mut self,
        alloc: Global,
        at: Timestamp,
        set: &InputSet,
    ) -> Result<Emission, CalcFault>
        requires shown { IsOuter self.old.law }
        requires places { FitsInputs self.old.shape set.now }
        ensures answer { GivesEmission result self.new.state ((held_rules C.laws self.old).step self.old.state at set.now) }
        ensures kept { OnErr result (self.new.state ≡ self.old.state) }
        ensures log { Logs result self.old.log self.new.log (Call.Shown at set.now) }
        ensures law { self.new.law ≡ self.old.law }
        ensures shape { self.new.shape ≡ self.old.shape }
        ensures handed { self.new.handed ≡ self.old.handed }
    {
        match &mut self.held {
            Held::Own(builtin) => builtin.process(alloc, at, set),
            Held::Outer(calculator) => calculator.process(alloc, at, set),
        }
    }

    /// Calls the calculator, a source, by a number, from 0 on. The holder stays as it is.
    pub fn call(&mut self, alloc: Global, number: u64) -> Result<Emission, CalcFault>
        requires source { IsSource self.old.law }
        requires number { number < calls_of self.old.law }
        ensures answer { GivesEmission result self.new.state (its_call self.old.law self.old.state number) }
        ensures kept { self.new ≡ self.old }
    {
        match &self.held {
            Held::Own(builtin) => builtin.called(alloc, number),
            Held::Outer(calculator) => {
                let _law = calculator.law();
                unreachable!()
            }
        }
    }

    /// Closes the calculator, after all sets.
    pub fn finish(&mut self, alloc: Global) -> Result<Emission, CalcFault>
        ensures answer { GivesEmission result self.new.state ((held_rules C.laws self.old).finish self.old.state) }
        ensures kept { OnErr result (self.new.state ≡ self.old.state) }
        ensures log { Logs result self.old.log self.new.log Call.Finished }
        ensures law { self.new.law ≡ self.old.law }
        ensures shape { self.new.shape ≡ self.old.shape }
        ensures handed { self.new.handed ≡ self.old.handed }
    {
        match &mut self.held {
            Held::Own(builtin) => Ok(builtin.closed(alloc)?),
            Held::Outer(calculator) => calculator.finish(alloc),
        }
    }

    /// Returns the calculator if it is user-supplied, and none if it is built in.
    pub fn into_outer(self) -> Option<C>
        ensures there { is_some result ≡ self.handed }
        ensures told { IfSome result (λ c. C.told c ≡ told_by self) }
    {
        match self.held {
            Held::Own(_) => None,
            Held::Outer(calculator) => Some(calculator),
        }
    }
}
