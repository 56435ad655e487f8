ghost use Rattle.std.specs.Prelude.{◌≡◌, OnOk};
ghost use Rattle.mg_node.specs.Job.{LoggedJob};
ghost use Rattle.mg_sched.specs.StandsFor.{StandsFor, StandsForSome, IsRunning};
ghost use Rattle.mg_sched.specs.AtRest.{IsAtRest};
ghost use Rattle.mg_sched.specs.Heard.{Heard};
ghost use Rattle.mg_sched.specs.Taking.{taken_out};
ghost use Rattle.mg_drive.specs.Nets.{Keeps, GaveNothingUp};

use crate::{Driven, Moved};
use mg_calc::{Inputs, NodeCalculator};
use mg_edge::Gate;
use mg_sched::{Deaf, Hears, Net, Report};
use mg_settled::{InputSet, PrefixList};
use mg_time::Timestamp;
use mg_value::{NumberList, Packet};
use std::alloc::{AllocError, Global};

/// A net whose nodes run on the one thread that drives it, each Process call through a gate.
pub struct OneThread<'a, C: NodeCalculator, G: Gate> {
    pub net: Net<C>,
    pub gate: &'a G,
}

impl<'a, C: NodeCalculator, G: Gate> OneThread<'a, C, G> {
    // Sweeps the net until no node can go further, and lets a hearer hear the events.
    fn sweep<H: Hears>(&mut self, hearer: &mut H) -> Result<(), AllocError>
        requires running { IsRunning self.old.net }
        requires stands { StandsForSome C.laws self.old.net }
        ensures rest { OnOk result (IsAtRest C.laws self.new.net) }
        ensures heard { OnOk result (Heard C.laws H.has_heard hearer.old hearer.new self.old.net self.new.net) }
        ensures running { IsRunning self.new.net }
        ensures keeps { Keeps self.old.net self.new.net }
        ensures whole { GaveNothingUp self.old.net self.new.net }
        ensures taken { taken_out self.new.net ≡ taken_out self.old.net }
        ensures stands { (job : LoggedJob C.laws) → StandsFor job self.old.net → StandsFor job self.new.net }
    {
        self.net.sweep(self.gate, hearer)?;
        Ok(())
    }
}

impl<'a, C: NodeCalculator, G: Gate> Driven for OneThread<'a, C, G> {
    ghost laws = { C.laws };

    ghost net = { λ t. t.net };

    fn begin(&mut self) -> Result<(), AllocError> {
        self.net.begin()?;
        Ok(())
    }

    fn to_rest(&mut self, moved: &mut Moved) -> Result<(), AllocError> {
        if moved.all {
            self.sweep(&mut Deaf)?;
            return Ok(());
        }
        self.sweep(moved)?;
        Ok(())
    }

    fn extend(&mut self, more: &Inputs) -> Result<(), AllocError> {
        self.net.extend(more)?;
        Ok(())
    }

    fn extend_some(&mut self, inputs: &NumberList, pieces: &PrefixList) -> Result<(), AllocError> {
        self.net.extend_some(inputs.as_slice(), pieces)?;
        Ok(())
    }

    fn trim(&mut self) {
        self.net.trim();
    }

    fn take_out(&mut self, into: &mut InputSet) -> bool {
        self.net.take_out(into)
    }

    fn packet(&self, stream: u32, number: u64) -> Option<&Packet> {
        self.net.packet(stream, number)
    }

    fn bound(&self, stream: u32) -> Timestamp {
        self.net.bound(stream)
    }

    fn report(&self, alloc: Global) -> Result<Report, AllocError> {
        let report = self.net.report(alloc)?;
        Ok(report)
    }

    fn wind_up(&mut self) -> Result<(), AllocError> {
        self.net.wind_up()?;
        Ok(())
    }
}
