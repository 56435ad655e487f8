ghost use Rattle.std.specs.Prelude.{◌≡◌, [], IfOk};
ghost use Rattle.mg_calc.specs.Shape.{IsBatch, IsShapeOf};
ghost use Rattle.mg_calc.specs.Told.{of_table};
ghost use Rattle.mg_batch.specs.Logged.{told_log};

use crate::call_log::CallLog;
use crate::step::batch_step_in;
use mg_calc::{
    CalcFault, Calculator, Call, CallList, Emission, GivenList, Law, OuterShape, Shape, State,
    no_emission, own_begin,
};
use mg_settled::InputSet;
use mg_time::Timestamp;
use std::alloc::{AllocError, Global};
use std::marker::Model;

/// A BeginLoop or EndLoop calculator that a caller can supply. If it is telling, it keeps a log of its calls, whose sets share the
/// payloads of the sets that it was shown.
#[derive(Drop)]
pub struct BatchBox {
    law: Law,
    shape: Shape,
    state: State,
    log: CallLog,
}

impl Model for BatchBox {
    ghost use Rattle.mg_calc.specs.Told.{BoxTold};
    ghost use Rattle.mg_calc.specs.ToldCodes.{told_code};
    ghost use Rattle.mg_calc.specs.Shape.{IsBatch, IsShapeOf};

    ghost Value = { BoxTold };

    ghost coded = { told_code };

    ghost view = { λ b. record { law = b.law; shape = b.shape; state = b.state; log = b.log } };

    ghost invariant = { λ b. IsBatch b.law × IsShapeOf b.law b.shape };
}

impl BatchBox {
    /// Returns a calculator of a law and a shape, which hasn't been opened. If `telling` is set, it keeps a log of its calls.
    pub fn new(alloc: Global, outer: OuterShape, telling: bool) -> Result<BatchBox, AllocError>
        requires batch { IsBatch outer.law }
        requires of_law { IsShapeOf outer.law outer.shape }
        ensures { IfOk result (λ b. b ≡ record { law = outer.law; shape = outer.shape; state = []; log = told_log telling [] }) }
    {
        let OuterShape { shape, law } = outer;
        Ok(BatchBox {
            law,
            shape,
            state: State::empty(),
            log: CallLog::new(alloc, telling),
        })
    }
}

impl Calculator for BatchBox {
    ghost told = { λ b. of_table b };

    fn shape(&self) -> &Shape {
        &self.shape
    }

    fn begin(&mut self, alloc: Global, sides: &GivenList) -> Result<Emission, CalcFault> {
        match own_begin(alloc, &self.law, sides) {
            Ok((state, emission)) => {
                self.log.note(alloc, Call::Begun)?;
                self.state = state;
                Ok(emission)
            }
            Err(CalcFault::Fault(cause)) => {
                self.log.note(alloc, Call::Begun)?;
                Err(CalcFault::Fault(cause))
            }
            Err(CalcFault::OutOfMemory) => Err(CalcFault::OutOfMemory),
        }
    }

    fn process(
        &mut self,
        alloc: Global,
        at: Timestamp,
        set: &InputSet,
    ) -> Result<Emission, CalcFault> {
        self.log.note_set(alloc, at, set)?;
        let answer = batch_step_in(alloc, &self.law, &mut self.state, at, set);
        self.log.keep_answered(alloc, &answer);
        answer
    }

    fn finish(&mut self, alloc: Global) -> Result<Emission, CalcFault> {
        let emission = no_emission(alloc)?;
        self.log.note(alloc, Call::Finished)?;
        Ok(emission)
    }

    fn log(&self) -> &CallList {
        self.log.calls()
    }
}
