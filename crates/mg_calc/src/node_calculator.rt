ghost use Rattle.std.specs.Prelude.{◌≡◌, OnErr};
ghost use Rattle.mg_calc.specs.Answer.{GivesEmission};
ghost use Rattle.mg_calc.specs.Law.{rules_of};
ghost use Rattle.mg_calc.specs.Shape.{ParametersFit, IsOuter, IsServed, IsShapeOf, FitsInputs};
ghost use Rattle.mg_calc.specs.Rules.{Laws};
ghost use Rattle.mg_calc.specs.Told.{BoxTold, KeepsAtOpen, Logs, shown_calls};

use crate::{CalcFault, Call, CallList, Emission, GivenList, Law, Shape};
use mg_settled::InputSet;
use mg_time::Timestamp;
use std::alloc::Global;

/// A calculator as the engine of a node has it: a user-supplied calculator in its box, with a law.
///
/// Each call returns what the rules of the calculator's law give for its state, and the calculator then keeps the new state. A call
/// that fails leaves the state. If it was to open the calculator, it leaves no state. A call that returns `OutOfMemory` leaves state
/// and log, and may be made again.
pub trait NodeCalculator: Drop {
    /// The rules of the stated laws.
    ghost laws: { Laws };

    /// What the calculator tells of itself: its law, its shape, its state, and its log, if it keeps one.
    ghost told: { Self → BoxTold };

    /// Returns the calculator's shape, which never changes.
    fn shape(&self) -> &Shape
        ensures shape { result.now ≡ (told self.now).shape }
        ensures of_law { IsShapeOf (told self.now).law result.now };

    /// Returns the calculator's law, which never changes: one that is shown sets.
    fn law(&self) -> &Law
        ensures law { result.now ≡ (told self.now).law }
        ensures outer { IsOuter result.now }
        ensures served { IsServed result.now }
        ensures ranges { ParametersFit result.now };

    /// Opens the calculator with its side packets, one place for each side port. It comes before all sets.
    fn begin(&mut self, alloc: Global, sides: &GivenList) -> Result<Emission, CalcFault>
        ensures answer { GivesEmission result (told self.new).state ((rules_of laws (told self.old).law).opening sides.now) }
        ensures kept { KeepsAtOpen result (told self.old).state (told self.new).state }
        ensures log { Logs result (told self.old).log (told self.new).log Call.Begun }
        ensures law { (told self.new).law ≡ (told self.old).law }
        ensures shape { (told self.new).shape ≡ (told self.old).shape };

    /// Shows the calculator the set at a time, which has a place for each of its inputs.
    fn process(
        &mut self,
        alloc: Global,
        at: Timestamp,
        set: &InputSet,
    ) -> Result<Emission, CalcFault>
        requires { FitsInputs (told self.old).shape set.now }
        ensures answer { GivesEmission result (told self.new).state ((rules_of laws (told self.old).law).step (told self.old).state at set.now) }
        ensures kept { OnErr result ((told self.new).state ≡ (told self.old).state) }
        ensures log { Logs result (told self.old).log (told self.new).log (Call.Shown at set.now) }
        ensures law { (told self.new).law ≡ (told self.old).law }
        ensures shape { (told self.new).shape ≡ (told self.old).shape };

    /// Closes the calculator, after all sets.
    fn finish(&mut self, alloc: Global) -> Result<Emission, CalcFault>
        ensures answer { GivesEmission result (told self.new).state ((rules_of laws (told self.old).law).finish (told self.old).state) }
        ensures kept { OnErr result ((told self.new).state ≡ (told self.old).state) }
        ensures log { Logs result (told self.old).log (told self.new).log Call.Finished }
        ensures law { (told self.new).law ≡ (told self.old).law }
        ensures shape { (told self.new).shape ≡ (told self.old).shape };

    /// Returns the calls that the calculator has had, in order, or an empty list if it keeps no log.
    fn log(&self) -> &CallList
        ensures { result.now ≡ shown_calls (told self.now).log };
}
