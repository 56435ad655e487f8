ghost use Rattle.std.specs.Prelude.{◌≡◌, OnErr};
ghost use Rattle.mg_calc.specs.Answer.{GivesEmission};
ghost use Rattle.mg_calc.specs.Shape.{FitsInputs};
ghost use Rattle.mg_calc.specs.Told.{CalculatorTold, KeepsAtOpen, Logs, shown_calls};

use crate::{CalcFault, Call, CallList, Emission, GivenList, Shape};
use mg_settled::InputSet;
use mg_time::Timestamp;
use std::alloc::Global;

/// A user-supplied calculator (MediaPipe, Calculators: Open, Process and Close are `begin`, `process` and `finish`).
///
/// The author states what the calculator computes, as its rules: three functions of plain data. Each call returns what they give for
/// the calculator's state, and the calculator then keeps the new state. A call that fails leaves the state. If it was to open the
/// calculator, it leaves no state. A call that returns `OutOfMemory` leaves state and log, and may be made again.
pub trait Calculator: Drop {
    /// What the calculator tells of itself: its rules, its shape, its state, and its log, if it keeps one.
    ghost told: { Self → CalculatorTold };

    /// Returns the calculator's shape, which never changes.
    fn shape(&self) -> &Shape
        ensures { result.now ≡ (told self.now).shape };

    /// Opens the calculator with its side packets, one place for each side port. It comes before all sets.
    fn begin(&mut self, alloc: Global, sides: &GivenList) -> Result<Emission, CalcFault>
        ensures answer { GivesEmission result (told self.new).state ((told self.old).rules.opening sides.now) }
        ensures kept { KeepsAtOpen result (told self.old).state (told self.new).state }
        ensures log { Logs result (told self.old).log (told self.new).log Call.Begun }
        ensures rules { (told self.new).rules ≡ (told self.old).rules }
        ensures shape { (told self.new).shape ≡ (told self.old).shape };

    /// Shows the calculator the set at a time, which has a place for each of its inputs.
    fn process(
        &mut self,
        alloc: Global,
        at: Timestamp,
        set: &InputSet,
    ) -> Result<Emission, CalcFault>
        requires { FitsInputs (told self.old).shape set.now }
        ensures answer { GivesEmission result (told self.new).state ((told self.old).rules.step (told self.old).state at set.now) }
        ensures kept { OnErr result ((told self.new).state ≡ (told self.old).state) }
        ensures log { Logs result (told self.old).log (told self.new).log (Call.Shown at set.now) }
        ensures rules { (told self.new).rules ≡ (told self.old).rules }
        ensures shape { (told self.new).shape ≡ (told self.old).shape };

    /// Closes the calculator, after all sets.
    fn finish(&mut self, alloc: Global) -> Result<Emission, CalcFault>
        ensures answer { GivesEmission result (told self.new).state ((told self.old).rules.finish (told self.old).state) }
        ensures kept { OnErr result ((told self.new).state ≡ (told self.old).state) }
        ensures log { Logs result (told self.old).log (told self.new).log Call.Finished }
        ensures rules { (told self.new).rules ≡ (told self.old).rules }
        ensures shape { (told self.new).shape ≡ (told self.old).shape };

    /// Returns the calls that the calculator has had, in order, or an empty list if it keeps no log.
    fn log(&self) -> &CallList
        ensures { result.now ≡ shown_calls (told self.now).log };
}

impl Calculator for Box<dyn Calculator + Send> {
    ghost told = { λ b. (Calculator-box b).told b.value };

    fn shape(&self) -> &Shape {
        (**self).shape()
    }

    fn begin(&mut self, alloc: Global, sides: &GivenList) -> Result<Emission, CalcFault> {
        (**self).begin(alloc, sides)
    }

    fn process(
        &mut self,
        alloc: Global,
        at: Timestamp,
        set: &InputSet,
    ) -> Result<Emission, CalcFault> {
        (**self).process(alloc, at, set)
    }

    fn finish(&mut self, alloc: Global) -> Result<Emission, CalcFault> {
        (**self).finish(alloc)
    }

    fn log(&self) -> &CallList {
        (**self).log()
    }
}
