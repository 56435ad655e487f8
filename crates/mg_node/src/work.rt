ghost use Rattle.std.specs.Prelude.{◌≡◌, is_some, IfSome, OnOk, OnErr};
ghost use Rattle.mg_route.specs.HolderView.{told_by};
ghost use Rattle.mg_node.specs.Running.{MayRun, HasRun};
ghost use Rattle.mg_node.specs.WindingUp.{IsFinished};

use crate::Context;
use mg_calc::{CalcFault, Emission, NodeCalculator, Phase};
use mg_edge::Gate;
use std::alloc::{AllocError, Global};
use std::marker::Model;

/// A work: a set that was claimed, or a call of a source, or Close, with the calculator that is to work on it.
#[derive(Drop)]
pub struct Work<C: NodeCalculator> {
    node: u32,
    number: u64,
    phase: Phase,
    context: Context<C>,
}

impl<C: NodeCalculator> Model for Work<C> {
    ghost use Rattle.mg_node.specs.Views.{WorkView};
    ghost use Rattle.mg_node.specs.Codes.{work_code};

    ghost Value = { WorkView };

    ghost coded = { work_code };

    ghost view = { λ w. record { node = w.node; number = w.number; phase = w.phase; context = w.context } };
}

impl<C: NodeCalculator> Work<C> {
    /// Makes the work of a node with this number, to be done in a phase by a context.
    pub(crate) fn new(node: u32, number: u64, phase: Phase, context: Context<C>) -> Work<C>
        ensures { result ≡ record { node = node; number = number; phase = phase; context = context } }
    {
        Work {
            node,
            number,
            phase,
            context,
        }
    }

    /// Returns the number of the node whose work it is.
    pub fn node(&self) -> u32
        ensures { result ≡ self.now.node }
    {
        self.node
    }

    /// Returns the work's number, counted from 0: that of its set or call. Close has the number after the last one.
    pub fn number(&self) -> u64
        ensures { result ≡ self.now.number }
    {
        self.number
    }

    /// Returns what is to be done: Process, Call or Close.
    pub fn phase(&self) -> Phase
        ensures { result ≡ self.now.phase }
    {
        self.phase
    }

    /// Returns the context of the work.
    pub(crate) fn into_context(self) -> Context<C>
        ensures { result ≡ self.context }
    {
        let Work { context, .. } = self;
        context
    }

    /// Runs the work's calculator in its phase, with the gate round each call but Close. Out of memory: nothing has changed.
    pub(crate) fn run<G: Gate>(&mut self, alloc: Global, gate: &G) -> Result<Emission, CalcFault>
        requires { MayRun self.old.phase self.old.context }
        ensures ran { HasRun C.laws result self.old.phase self.old.context self.new.context }
        ensures same { self.new ≡ record self.old { context = self.new.context } }
    {
        if let Phase::Close = self.phase {
            return self.context.run(alloc, self.phase);
        }
        gate.enter(self.node, self.number);
        let answer = self.context.run(alloc, self.phase);
        gate.leave(self.node, self.number);
        answer
    }

    /// Closes the work's calculator, and drops its answer. Out of memory: nothing has changed.
    pub(crate) fn finish(&mut self, alloc: Global) -> Result<(), AllocError>
        ensures finished { OnOk result (IsFinished C.laws self.old.context self.new.context) }
        ensures same { self.new ≡ record self.old { context = self.new.context } }
        ensures unchanged { OnErr result (self.new ≡ self.old) }
    {
        self.context.finish(alloc)
    }

    /// Returns the work's calculator, if it is user-supplied. The work itself is dropped undone.
    pub fn into_calculator(self) -> Option<C>
        ensures there { is_some result ≡ self.context.told.handed }
        ensures told { IfSome result (λ c. C.told c ≡ told_by self.context.told) }
    {
        self.into_context().into_calculator()
    }
}
