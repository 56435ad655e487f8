//! The last Close of the nodes of a net that has come to rest.
ghost use Rattle.std.specs.Prelude.{◌≡◌, ◌<◌, ◌^◌, length, OnOk, OnErr};
ghost use Rattle.mg_sched.specs.WindsUp.{MayWindUp, WindsNext, WindsUpNet};

use super::Net;
use mg_calc::NodeCalculator;
use std::alloc::AllocError;

impl<C: NodeCalculator> Net<C> {
    /// Winds up each node that isn't wound up, in order. It closes each node's calculator that was opened and had no Close. Out of memory:
    /// the nodes wound up so far stay so, and this may be called again.
    pub fn wind_up(&mut self) -> Result<(), AllocError>
        requires may { MayWindUp self.old }
        ensures wound_up { WindsUpNet C.laws self.old self.new }
        ensures all { OnOk result (self.new.wound ≡ length self.old.plan.nodes) }
    {
        while self.wound < self.plan.nodes.len() {
            self.wind_up_next()?;
        }
        Ok(())
    }

    // Winds up the next node.
    fn wind_up_next(&mut self) -> Result<(), AllocError>
        requires may { MayWindUp self.old }
        requires there { self.old.wound < length self.old.plan.nodes }
        requires few { length self.old.plan.nodes < 2 ^ 32 }
        ensures next { OnOk result (WindsNext C.laws self.old self.new) }
        ensures unchanged { OnErr result (self.new ≡ self.old) }
    {
        self.known = false;
        let node = self.wound as usize;
        self.engines[node].wind_up()?;
        self.wound += 1;
        Ok(())
    }
}
