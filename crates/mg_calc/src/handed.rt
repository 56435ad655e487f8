ghost use Rattle.std.specs.Prelude.{◌≡◌};
ghost use Rattle.mg_calc.specs.Told.{IsOfLaw, in_box};

use crate::{
    CalcFault, Calculator, CallList, Emission, GivenList, Law, NodeCalculator, OwnLaws, Shape,
};
use mg_settled::InputSet;
use mg_time::Timestamp;
use std::alloc::Global;
use std::marker::{Model, PhantomData};

/// A user-supplied calculator in its box, with the law that has its rules: a law of the table, or one of the program `W`.
#[derive(Drop)]
pub struct Handed<W: OwnLaws, C: Calculator> {
    calculator: C,
    law: Law,
    of: PhantomData<W>,
}

impl<W: OwnLaws, C: Calculator> Model for Handed<W, C> {
    ghost use Rattle.mg_calc.specs.Told.{BoxTold, IsOfLaw, in_box};
    ghost use Rattle.mg_calc.specs.ToldCodes.{told_code};

    ghost Value = { BoxTold };

    ghost coded = { told_code };

    ghost view = { λ h. in_box h.law (C.told h.calculator) };

    ghost invariant = { λ h. IsOfLaw W.laws h.law (C.told h.calculator) };
}

impl<W: OwnLaws, C: Calculator> Handed<W, C> {
    /// Puts a calculator into a box. Its rules and its shape are those of the law. The law is shown sets, and its parameters are in
    /// their ranges.
    pub fn of_law(calculator: C, law: Law) -> Handed<W, C>
        requires { IsOfLaw W.laws law (C.told calculator) }
        ensures { result ≡ in_box law (C.told calculator) }
    {
        Handed {
            calculator,
            law,
            of: PhantomData,
        }
    }
}

impl<W: OwnLaws, C: Calculator> NodeCalculator for Handed<W, C> {
    ghost laws = { W.laws };

    ghost told = { λ h. h };

    fn shape(&self) -> &Shape {
        self.calculator.shape()
    }

    fn law(&self) -> &Law {
        &self.law
    }

    fn begin(&mut self, alloc: Global, sides: &GivenList) -> Result<Emission, CalcFault> {
        self.calculator.begin(alloc, sides)
    }

    fn process(
        &mut self,
        alloc: Global,
        at: Timestamp,
        set: &InputSet,
    ) -> Result<Emission, CalcFault> {
        self.calculator.process(alloc, at, set)
    }

    fn finish(&mut self, alloc: Global) -> Result<Emission, CalcFault> {
        self.calculator.finish(alloc)
    }

    fn log(&self) -> &CallList {
        self.calculator.log()
    }
}
