//! What becomes of a node: it is opened, shown its settled sets one after the other, and closed. It stops at its first fault
//! (MediaPipe, Calculators).
ghost use Rattle.std.specs.Prelude.{◌≡◌, ◌<◌, ◌^◌, ◌+◌, replicate, length, None, OnOk, IfOk};
ghost use Rattle.mg_settled.specs.Prefix.{empty_prefix};
ghost use Rattle.mg_calc.specs.Shape.{IsServed, IsOuter, IsSource, calls_of};
ghost use Rattle.mg_calc.specs.Laying.{laid_behind, all_raised};
ghost use Rattle.mg_calc.specs.Outcome.{unopened, opened as the_opened, after_laying, shown, called, finished, ended, with_last_call};
ghost use Rattle.mg_equations.specs.Code.Seen.{seen, with_outputs, with_answers, Fails, TakesEmission};
ghost use Rattle.mg_calc.specs.Law.{table_rules};

use crate::laying::{close_all, emission_fault, lay_all, raise_all};
use crate::output::Output;
use mg_calc::{CalcFault, Cause, Emission, GivenList, Law, Phase, State, source_step};
use mg_route::{begin_in, outer_step_in};
use mg_settled::TimedSet;
use mg_time::Timestamp;
use mg_value::PacketList;
use std::alloc::{AllocError, Global};

/// A fault: what a node was doing, and why it failed.
#[derive(Clone, Copy, Debug, PartialEq, Eq)]
pub struct Failure {
    pub phase: Phase,
    pub cause: Cause,
}

/// What has become of a node: its state, its output streams, its count and its fault.
#[derive(Debug, Drop)]
pub struct Outcome {
    /// What the node's calculator keeps.
    pub state: State,
    pub outputs: Vec<Output>,
    /// How many sets or calls were taken, the one that failed included.
    pub taken: u64,
    pub fault: Option<Failure>,
}

// Returns `count` outputs about which nothing is known yet.
fn empty_outputs(alloc: Global, count: u32) -> Result<Vec<Output>, AllocError>
    ensures { IfOk result (λ outputs. outputs.items ≡ replicate count empty_prefix) }
{
    let mut outputs = Vec::with_capacity(alloc, count as usize)?;
    for _ in 0..count {
        outputs.push(Output::new(alloc))?;
    }
    Ok(outputs)
}

impl Outcome {
    /// Returns the outcome of a node before it is opened, by the number of its outputs.
    pub fn before_open(alloc: Global, outputs: u32) -> Result<Outcome, AllocError>
        ensures { IfOk result (λ outcome. seen outcome ≡ unopened outputs) }
    {
        Ok(Outcome {
            state: State::empty(),
            outputs: empty_outputs(alloc, outputs)?,
            taken: 0,
            fault: None,
        })
    }

    /// Returns the outcome of a node that was opened with side packets.
    pub fn opened(
        alloc: Global,
        law: &Law,
        offset: Option<i64>,
        outputs: u32,
        sides: &GivenList,
    ) -> Result<Outcome, AllocError>
        requires { IsServed law.now }
        ensures { IfOk result (λ outcome. seen outcome ≡ the_opened (table_rules law.now) offset outputs sides.now) }
    {
        let mut outcome = Outcome::before_open(alloc, outputs)?;
        let answer = begin_in(alloc, law, &mut outcome.state, sides);
        outcome.take(offset, &Phase::Open, answer)?;
        Ok(outcome)
    }

    /// Shows the node a set; before that its outputs are raised to the set's time plus its offset. A node that has failed stays as it is.
    pub fn show(
        &mut self,
        alloc: Global,
        law: &Law,
        offset: Option<i64>,
        timed: &TimedSet,
    ) -> Result<(), AllocError>
        requires law { IsOuter law.now }
        requires served { IsServed law.now }
        requires room { self.old.taken + 1 < 2 ^ 64 }
        ensures { OnOk result (seen self.new ≡ shown (table_rules law.now) offset (seen self.old) timed.now) }
    {
        if self.fault.is_some() {
            return Ok(());
        }
        self.raise(offset, timed.at);
        self.taken += 1;
        let phase = Phase::Process(timed.at);
        let answer = outer_step_in(alloc, law, &mut self.state, timed.at, &timed.set);
        self.take(offset, &phase, answer)
    }

    /// Tells the node that no more sets come below a time. Its outputs are raised, and if the time is Done, the node is closed.
    /// A node that has failed stays as it is.
    pub fn end(
        &mut self,
        law: &Law,
        offset: Option<i64>,
        reached: Timestamp,
    ) -> Result<(), AllocError>
        ensures { OnOk result (seen self.new ≡ ended (table_rules law.now) offset reached (seen self.old)) }
    {
        if self.fault.is_some() {
            return Ok(());
        }
        self.raise(offset, reached);
        if reached == Timestamp::DONE {
            self.finish(law, offset)
        } else {
            Ok(())
        }
    }

    /// Calls the node, a source, by a number. A node that has failed stays as it is.
    pub fn call(&mut self, alloc: Global, law: &Law, number: u64) -> Result<(), AllocError>
        requires source { IsSource law.now }
        requires number { number < calls_of law.now }
        requires room { self.old.taken + 1 < 2 ^ 64 }
        ensures { OnOk result (seen self.new ≡ called law.now (seen self.old) number) }
    {
        if self.fault.is_some() {
            return Ok(());
        }
        self.taken += 1;
        let answer = source_step(alloc, law, &self.state, number);
        self.take(None, &Phase::Call(number), answer)
    }

    /// Closes the node's outputs, as after the last call of a source. A node that has failed stays as it is.
    pub fn close(&mut self)
        ensures { seen self.new ≡ with_last_call (seen self.old) }
    {
        if self.fault.is_none() {
            close_all(&mut self.outputs);
        }
    }

    /// Appends further answers of a loopback to its only output, sets the output's bound, and sets how many packets were
    /// answered.
    pub fn answer(
        &mut self,
        packets: &PacketList,
        bound: Timestamp,
        taken: u64,
    ) -> Result<(), AllocError>
        requires { length self.old.outputs.items ≡ 1 }
        ensures { OnOk result (seen self.new ≡ with_answers (seen self.old) packets.now bound taken) }
    {
        self.outputs[0].extend(packets.as_slice(), bound)?;
        self.taken = taken;
        Ok(())
    }

    // Calls Close, lays what it emits, and then closes the outputs.
    fn finish(&mut self, law: &Law, offset: Option<i64>) -> Result<(), AllocError>
        requires { (seen self.old).fault ≡ None }
        ensures { OnOk result (seen self.new ≡ finished (table_rules law.now) offset (seen self.old)) }
    {
        match law {
            Law::Scripted { last, .. } => {
                self.lay(offset, &Phase::Close, last)?;
                self.close();
                Ok(())
            }
            _ => {
                self.close();
                Ok(())
            }
        }
    }

    // Takes the answer to a call of the calculator, which has kept its new state already: lays what it emits, or fails.
    fn take(
        &mut self,
        offset: Option<i64>,
        phase: &Phase,
        answer: Result<Emission, CalcFault>,
    ) -> Result<(), AllocError>
        ensures { OnOk result (TakesEmission offset phase.now answer (seen self.old) (seen self.new)) }
    {
        match answer {
            Ok(emission) => self.lay(offset, phase, &emission),
            Err(fault) => self.fail(phase, fault),
        }
    }

    // Lays an emission. If it can't be laid, the node has failed, and the whole emission is dropped.
    fn lay(
        &mut self,
        offset: Option<i64>,
        phase: &Phase,
        emission: &Emission,
    ) -> Result<(), AllocError>
        ensures { OnOk result (seen self.new ≡ after_laying phase.now (seen self.old) (laid_behind offset phase.now (seen self.old).outputs emission.now)) }
    {
        match emission_fault(offset, phase, &self.outputs, emission) {
            Some(cause) => self.fail(phase, CalcFault::Fault(cause)),
            None => {
                lay_all(&mut self.outputs, emission)?;
                Ok(())
            }
        }
    }

    // Sets the fault of the node. Want of memory isn't a fault of the node, and is returned as an error.
    fn fail(&mut self, phase: &Phase, fault: CalcFault) -> Result<(), AllocError>
        ensures { OnOk result (Fails fault phase.now (seen self.old) (seen self.new)) }
    {
        match fault {
            CalcFault::Fault(cause) => {
                self.fault = Some(Failure {
                    phase: *phase,
                    cause,
                });
                Ok(())
            }
            CalcFault::OutOfMemory => Err(AllocError),
        }
    }

    fn raise(&mut self, offset: Option<i64>, bound: Timestamp)
        ensures { seen self.new ≡ with_outputs (seen self.old) (all_raised offset bound (seen self.old).outputs) }
    {
        raise_all(offset, bound, &mut self.outputs);
    }
}
