//! Winding up an engine: the last Close once a run has ended.
ghost use Rattle.std.specs.Prelude.{◌≡◌, ◌<◌, length, OnOk, OnErr};
ghost use Rattle.mg_node.specs.Standing.{EngineGrows};
ghost use Rattle.mg_node.specs.WindingUp.{closes_after, closes_despite, lacks_close, FinishesLast, FinishesFront, WindsUp};

use super::Engine;
use crate::window::finish_first;
use mg_calc::{NodeCalculator, NodeFault, Phase};
use std::alloc::AllocError;

fn closes_after(phase: Phase) -> bool
    ensures { result ≡ closes_after phase }
{
    match phase {
        Phase::Open => false,
        Phase::Call(_) => true,
        Phase::Process(_) => true,
        Phase::Close => false,
    }
}

fn closes_despite(fault: Option<NodeFault>) -> bool
    ensures { result ≡ closes_despite fault }
{
    match fault {
        None => true,
        Some(fault) => closes_after(fault.phase),
    }
}

impl<C: NodeCalculator> Engine<C> {
    /// Closes the calculator of a node that was opened and had no Close, once a run has ended. Closes it also if the node has failed at a
    /// set or in a call. It is the calculator in the last idle context. If no context is idle, it is that of the first work in the window,
    /// if that work came back and wasn't a performed Close. Drops what the calculator emits or answers, and changes nothing else; the
    /// engine isn't used any more. A node that isn't begun, was closed, or failed in Open or in Close stays as it is. Out of memory:
    /// nothing has changed, and this may be called again.
    pub fn wind_up(&mut self) -> Result<(), AllocError>
        ensures wound_up { OnOk result (WindsUp C.laws self.old self.new) }
        ensures unchanged { OnErr result (self.new ≡ self.old) }

        // The engine's standing only grows.
        ensures grows { EngineGrows self.old self.new }
    {
        if !self.lacks_close() {
            return Ok(());
        }
        if self.idle.is_empty() {
            return self.finish_front();
        }
        self.finish_last()
    }

    // Whether the node was opened and had no Close.
    fn lacks_close(&self) -> bool
        ensures { result ≡ lacks_close self.now }
    {
        self.begun && !self.closed && closes_despite(self.fault)
    }

    // Closes the calculator of the first work in the window, if that came back and wasn't a performed Close.
    fn finish_front(&mut self) -> Result<(), AllocError>
        ensures finished { OnOk result (FinishesFront C.laws self.old self.new) }
        ensures unchanged { OnErr result (self.new ≡ self.old) }
    {
        finish_first(&mut self.window, self.alloc)
    }

    // Closes the calculator of the last idle context.
    fn finish_last(&mut self) -> Result<(), AllocError>
        requires { 0 < length self.old.idle }
        ensures finished { OnOk result (FinishesLast C.laws self.old self.new) }
        ensures unchanged { OnErr result (self.new ≡ self.old) }
    {
        let mut context = self.idle.take_last();
        match context.finish(self.alloc) {
            Ok(()) => {
                self.idle.push_reserved(context);
                Ok(())
            }
            Err(_) => {
                self.idle.push_reserved(context);
                Err(AllocError)
            }
        }
    }
}
