//! What a round does: the nodes that read a changed stream go on, each once.
ghost use Rattle.std.specs.Prelude.{◌≡◌, ℕ, ◌<◌, [], false, true, All, Contains, Some, length, replicate, slice_get, slice_index_or, IfOk, OnOk};
ghost use Rattle.std.specs.List.{flat_map};
ghost use Rattle.mg_settled.specs.Prefix.{IsPrefix};
ghost use Rattle.mg_settled.specs.Settled.{inputs_of as inputs_at};
ghost use Rattle.mg_calc.specs.declared.plan_node.PlanNode.{PlanNode as Node};
ghost use Rattle.mg_calc.specs.Plan.{IsValid};
ghost use Rattle.mg_equations.specs.declared.progress.Progress.{Progress as Kept};
ghost use Rattle.mg_equations.specs.Code.Progress.{CanGoOn};
ghost use Rattle.mg_equations.specs.Code.Readers.{HasReaders};
ghost use Rattle.mg_equations.specs.Code.RoundNodes.{has_gone, outputs_at, IsBegun, Goes, HaveGone, HaveGoneOn};

use crate::output::Output;
use crate::progress::Progress;
use crate::readers::{Readers, readers_among};
use mg_calc::Plan;
use std::alloc::{AllocError, Global};

/// The nodes of a graph, and which of them have gone on in a round.
#[derive(Debug, Drop)]
pub struct RoundNodes {
    pub nodes: Vec<Progress>,
    /// For each node whether it has gone on.
    pub gone: Vec<bool>,
    /// The numbers of the nodes that have gone on, each once.
    pub listed: Vec<u32>,
}

// Returns `count` marks that aren't set.
fn no_marks(alloc: Global, count: usize) -> Result<Vec<bool>, AllocError>
    ensures { IfOk result (λ marks. marks.items ≡ replicate count false) }
{
    vec![in alloc; false; count]
}

// Takes the marks of the listed nodes away.
fn unmark(marks: &mut Vec<bool>, listed: &[u32])
    requires within { All (λ k. k < length marks.old.items) listed.now }
    requires listed { (k : ℕ) → slice_index_or marks.old.items k false ≡ true → Contains listed.now k }
    ensures many { length marks.new.items ≡ length marks.old.items }
    ensures none { (k : ℕ) → slice_index_or marks.new.items k false ≡ false }
{
    for number in listed {
        marks[*number as usize] = false;
    }
}

// Returns the streams that these nodes write.
fn outputs_among(alloc: Global, plan: &Plan, nodes: &[u32]) -> Result<Vec<u32>, AllocError>
    requires { All (λ k. k < length plan.now.nodes) nodes.now }
    ensures { IfOk result (λ streams. streams.items ≡ flat_map (outputs_at plan.now.nodes) nodes.now) }
{
    let mut streams = Vec::new(alloc);
    for number in nodes {
        let node = &plan.nodes.as_slice()[*number as usize];
        streams.extend_from_slice(node.outputs.as_slice())?;
    }
    Ok(streams)
}

impl RoundNodes {
    /// Returns nodes that haven't gone on yet.
    pub fn begun(alloc: Global, nodes: Vec<Progress>) -> Result<RoundNodes, AllocError>
        ensures nodes { IfOk result (λ going. going.nodes.items ≡ nodes.items) }
        ensures begun { IfOk result IsBegun }
    {
        let gone = no_marks(alloc, nodes.len())?;
        Ok(RoundNodes {
            nodes,
            gone,
            listed: Vec::new(alloc),
        })
    }

    // Lets a node go on, if it hasn't.
    fn go_on(
        &mut self,
        alloc: Global,
        plan: &Plan,
        streams: &[Output],
        number: u32,
    ) -> Result<(), AllocError>
        requires plan { IsValid plan.now }
        requires streams { All IsPrefix streams.now }
        requires many { length streams.now ≡ length plan.now.streams }
        requires nodes { length self.old.nodes.items ≡ length plan.now.nodes }
        requires marks { length self.old.gone.items ≡ length plan.now.nodes }
        requires number { number < length plan.now.nodes }
        requires can { has_gone self.old number ≡ false → (node : Node) (progress : Kept) → slice_get plan.now.nodes number ≡ Some node
            → slice_get self.old.nodes.items number ≡ Some progress → CanGoOn node (inputs_at streams.now node.inputs) progress }
        ensures { OnOk result (Goes (has_gone self.old number) plan.now.nodes streams.now number self.old self.new) }
    {
        let place = number as usize;
        if self.gone[place] {
            return Ok(());
        }
        self.gone[place] = true;
        self.listed.push(number)?;
        self.nodes[place].go_on(alloc, &plan.nodes.as_slice()[place], streams)
    }

    // Lets nodes go on, each once.
    fn go_on_all(
        &mut self,
        alloc: Global,
        plan: &Plan,
        streams: &[Output],
        numbers: &[u32],
    ) -> Result<(), AllocError>
        requires plan { IsValid plan.now }
        requires streams { All IsPrefix streams.now }
        requires many { length streams.now ≡ length plan.now.streams }
        requires nodes { length self.old.nodes.items ≡ length plan.now.nodes }
        requires begun { IsBegun self.old }
        requires numbers { All (λ k. k < length plan.now.nodes) numbers.now }
        requires can { (k : ℕ) (node : Node) (progress : Kept) → slice_get plan.now.nodes k ≡ Some node → slice_get self.old.nodes.items k ≡ Some progress
            → CanGoOn node (inputs_at streams.now node.inputs) progress }
        ensures { OnOk result (HaveGone plan.now.nodes streams.now self.old.nodes.items numbers.now (length numbers.now) self.new) }
    {
        for number in numbers {
            self.go_on(alloc, plan, streams, *number)?;
        }
        Ok(())
    }

    /// Lets the nodes go on that read a changed stream, and returns the streams that they write.
    pub fn take(
        &mut self,
        alloc: Global,
        plan: &Plan,
        streams: &[Output],
        readers: &[Readers],
        changed: &[u32],
    ) -> Result<Vec<u32>, AllocError>
        requires plan { IsValid plan.now }
        requires streams { All IsPrefix streams.now }
        requires many { length streams.now ≡ length plan.now.streams }
        requires nodes { length self.old.nodes.items ≡ length plan.now.nodes }
        requires begun { IsBegun self.old }
        requires readers { HasReaders plan.now (length plan.now.nodes) readers.now }
        requires changed { All (λ s. s < length plan.now.streams) changed.now }
        requires can { (k : ℕ) (node : Node) (progress : Kept) → slice_get plan.now.nodes k ≡ Some node → slice_get self.old.nodes.items k ≡ Some progress
            → CanGoOn node (inputs_at streams.now node.inputs) progress }
        ensures begun { OnOk result (IsBegun self.new) }
        ensures gone_on { IfOk result (λ due. HaveGoneOn plan.now streams.now changed.now self.old.nodes.items self.new.nodes.items due.items) }
    {
        let numbers = readers_among(alloc, readers, changed)?;
        self.go_on_all(alloc, plan, streams, &numbers)?;
        let due = outputs_among(alloc, plan, &self.listed)?;
        unmark(&mut self.gone, &self.listed);
        self.listed.clear();
        Ok(due)
    }
}
