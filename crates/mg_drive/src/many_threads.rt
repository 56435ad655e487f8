ghost use Rattle.mg_sched.specs.StandsFor.{StandsForSome, IsRunning};
ghost use Rattle.mg_workers.specs.Became.{Became};
ghost use Rattle.mg_drive.specs.Nets.{NotesMoves};

use crate::crew::packets_in;
use crate::nothing::net_of_nothing;
use crate::{Driven, Moved, OneThread};
use mg_calc::{Inputs, NodeCalculator};
use mg_crew::run_workers;
use mg_edge::Gate;
use mg_sched::Report;
use mg_settled::{InputSet, PrefixList};
use mg_time::Timestamp;
use mg_value::{NumberList, Packet};
use std::alloc::{AllocError, Global};
use std::mem;
use std::sync::Wait;
use std::thread::Threads;

/// A net that workers run side by side, if `work` lets them. The thread that drives it does what they leave undone.
pub struct ManyThreads<'a, C: NodeCalculator, R, G: Gate> {
    pub one: OneThread<'a, C, G>,
    pub rt: &'a R,
    pub alloc: Global,
    pub workers: u32,
    /// How many packets have to come before workers are called. With fewer, the thread that drives the net runs it alone.
    pub least: u64,
    /// How many packets have come since the net was last at rest. A batch sets it to how many packets the net holds, as all that waits may
    /// go on then.
    pub came: u64,
    /// Whether workers are called however few packets have come. This is so once in a net with sources, which may have packets to bring.
    pub fresh: bool,
}

impl<'a, C: NodeCalculator + Send, R: Threads + Wait + Sync, G: Gate + Sync> ManyThreads<
    'a,
    C,
    R,
    G,
> {
    /// Lets workers run the net, if enough packets have come or `fresh` is set. Meanwhile a net of no node stands in its place. Nothing
    /// else that drives a net gets the runtime. Once workers had the net, any engine may have changed.
    pub fn work(&mut self, moved: &mut Moved)
        requires running { IsRunning self.old.one.net }
        requires stands { StandsForSome C.laws self.old.one.net }
        ensures running { IsRunning self.new.one.net }
        ensures became { Became C.laws self.old.one.net self.new.one.net }
        ensures moved { NotesMoves moved.old moved.new self.old.one.net self.new.one.net }
    {
        if self.workers == 0 || !self.fresh && self.came < self.least {
            return;
        }
        self.fresh = false;
        moved.note_all();
        let Ok(nothing) = net_of_nothing(self.alloc) else {
            return;
        };
        let net = mem::replace(&mut self.one.net, nothing);
        let (net, _) = run_workers(self.rt, self.alloc, net, self.workers, self.one.gate);
        self.one.net = net;
    }
}

impl<'a, C: NodeCalculator, R, G: Gate> Driven for ManyThreads<'a, C, R, G> {
    ghost laws = { C.laws };

    ghost net = { λ t. t.one.net };

    fn begin(&mut self) -> Result<(), AllocError> {
        self.one.begin()?;
        Ok(())
    }

    fn to_rest(&mut self, moved: &mut Moved) -> Result<(), AllocError> {
        self.one.to_rest(moved)?;
        self.came = 0;
        Ok(())
    }

    fn extend(&mut self, more: &Inputs) -> Result<(), AllocError> {
        self.one.extend(more)?;
        self.came = self.one.net.held();
        Ok(())
    }

    fn extend_some(&mut self, inputs: &NumberList, pieces: &PrefixList) -> Result<(), AllocError> {
        self.one.extend_some(inputs, pieces)?;
        self.came = self.came.saturating_add(packets_in(pieces));
        Ok(())
    }

    fn trim(&mut self) {
        self.one.trim();
    }

    fn take_out(&mut self, into: &mut InputSet) -> bool {
        self.one.take_out(into)
    }

    fn packet(&self, stream: u32, number: u64) -> Option<&Packet> {
        self.one.packet(stream, number)
    }

    fn bound(&self, stream: u32) -> Timestamp {
        self.one.bound(stream)
    }

    fn report(&self, alloc: Global) -> Result<Report, AllocError> {
        let report = self.one.report(alloc)?;
        Ok(report)
    }

    fn wind_up(&mut self) -> Result<(), AllocError> {
        self.one.wind_up()?;
        Ok(())
    }
}
