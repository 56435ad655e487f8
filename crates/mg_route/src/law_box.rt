ghost use Rattle.std.specs.Prelude.{◌≡◌, [], IfOk};
ghost use Rattle.mg_calc.specs.Shape.{ParametersFit, IsShapeOf, IsServed, IsOuter};
ghost use Rattle.mg_calc.specs.Told.{of_table};
ghost use Rattle.mg_batch.specs.Logged.{told_log};
ghost use Rattle.mg_route.specs.TableLaws.{table_laws};

use crate::Builtin;
use mg_batch::CallLog;
use mg_calc::{
    CalcFault, Calculator, Call, CallList, Emission, GivenList, Law, NodeCalculator, OuterShape,
    Shape,
};
use mg_settled::InputSet;
use mg_time::Timestamp;
use std::alloc::{AllocError, Global};
use std::marker::Model;

/// A calculator that a caller can supply, of any law of the table that is shown sets. The caller can supply it without a further box
/// too. If it is telling, it keeps a log of its calls, whose sets share the payloads of the sets that it was shown.
#[derive(Drop)]
pub struct LawBox {
    inner: Builtin,
    log: CallLog,
}

impl Model for LawBox {
    ghost use Rattle.mg_calc.specs.Told.{BoxTold};
    ghost use Rattle.mg_calc.specs.ToldCodes.{told_code};
    ghost use Rattle.mg_calc.specs.Shape.{IsOuter};

    ghost Value = { BoxTold };

    ghost coded = { told_code };

    ghost view = { λ b. record { law = b.inner.law; shape = b.inner.shape; state = b.inner.state; log = b.log } };

    ghost invariant = { λ b. IsOuter b.inner.law };
}

impl LawBox {
    /// Returns a calculator of a law and a shape, which hasn't been opened. If `telling` is set, it keeps a log of its calls.
    pub fn new(alloc: Global, outer: OuterShape, telling: bool) -> Result<LawBox, AllocError>
        requires outer { IsOuter outer.law }
        requires ranges { ParametersFit outer.law }
        requires of_law { IsShapeOf outer.law outer.shape }
        requires served { IsServed outer.law }
        ensures { IfOk result (λ b. b ≡ record { law = outer.law; shape = outer.shape; state = []; log = told_log telling [] }) }
    {
        let inner = Builtin::new(alloc, &outer.law, &outer.shape)?;
        Ok(LawBox {
            inner,
            log: CallLog::new(alloc, telling),
        })
    }
}

impl NodeCalculator for LawBox {
    ghost laws = { table_laws };

    ghost told = { λ b. b };

    fn shape(&self) -> &Shape {
        self.inner.shape()
    }

    fn law(&self) -> &Law {
        self.inner.law()
    }

    fn begin(&mut self, alloc: Global, sides: &GivenList) -> Result<Emission, CalcFault> {
        self.log.note(alloc, Call::Begun)?;
        let answer = self.inner.begin(alloc, sides);
        self.log.keep_answered(alloc, &answer);
        answer
    }

    fn process(
        &mut self,
        alloc: Global,
        at: Timestamp,
        set: &InputSet,
    ) -> Result<Emission, CalcFault> {
        self.log.note_set(alloc, at, set)?;
        let answer = self.inner.process(alloc, at, set);
        self.log.keep_answered(alloc, &answer);
        answer
    }

    fn finish(&mut self, alloc: Global) -> Result<Emission, CalcFault> {
        let emission = self.inner.closed(alloc)?;
        self.log.note(alloc, Call::Finished)?;
        Ok(emission)
    }

    fn log(&self) -> &CallList {
        self.log.calls()
    }
}

impl Calculator for LawBox {
    ghost told = { λ b. of_table b };

    fn shape(&self) -> &Shape {
        self.inner.shape()
    }

    fn begin(&mut self, alloc: Global, sides: &GivenList) -> Result<Emission, CalcFault> {
        self.log.note(alloc, Call::Begun)?;
        let answer = self.inner.begin(alloc, sides);
        self.log.keep_answered(alloc, &answer);
        answer
    }

    fn process(
        &mut self,
        alloc: Global,
        at: Timestamp,
        set: &InputSet,
    ) -> Result<Emission, CalcFault> {
        self.log.note_set(alloc, at, set)?;
        let answer = self.inner.process(alloc, at, set);
        self.log.keep_answered(alloc, &answer);
        answer
    }

    fn finish(&mut self, alloc: Global) -> Result<Emission, CalcFault> {
        let emission = self.inner.closed(alloc)?;
        self.log.note(alloc, Call::Finished)?;
        Ok(emission)
    }

    fn log(&self) -> &CallList {
        self.log.calls()
    }
}
