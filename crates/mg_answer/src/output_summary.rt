//! The summary of a run's output text, which counts sets in place of writing their lines.
ghost use Rattle.std.specs.Prelude.{◌≡◌, ◌<◌, ◌^◌, ◌-◌, ◌+◌, ◌++◌, ◌∷◌, [], All, length, List, replicate, IfOk};
ghost use Rattle.mg_edge.specs.Edge.{SinkTold};
ghost use Rattle.mg_value.specs.Payload.{Plain};
ghost use Rattle.mg_settled.specs.Settled.{TimedSet};
ghost use Rattle.mg_answer.specs.Text.{output_names};
ghost use Rattle.mg_answer.specs.Summary.{HasSummed, summary_text, total_of};
ghost use Rattle.mg_answer.specs.Put.{HasPut};
ghost use Rattle.mg_answer.specs.Code.Adding.{with_set, IsWithin};

use crate::OutputText;
use crate::set_lines::stream_name;
use crate::total::Total;
use crate::total_lines::put_totals;
use mg_calc::Plan;
use mg_settled::InputSet;
use mg_value::MgText;
use std::alloc::{AllocError, Global};
use std::marker::Model;

/// A summary of a graph's outputs. For each output it has the number of packets in the sets that were put, and the times of the
/// first and last packet. It also has the exact sum of the output's whole numbers.
///
/// `HasSummed` of `specs/Summary.antt` says which sets were put.
#[derive(Drop)]
pub struct OutputSummary {
    names: Vec<MgText>,
    totals: Vec<Total>,
    sets: u64,
}

impl Model for OutputSummary {
    ghost use Rattle.std.specs.Prelude.{◌≡◌, ◌<◌, ◌^◌, length, All};
    ghost use Rattle.mg_answer.specs.Summary.{SummaryView};
    ghost use Rattle.mg_answer.specs.Code.Adding.{IsWithin};

    ghost Value = { SummaryView };

    ghost view = { λ s. record { names = s.names.items; totals = s.totals.items; sets = s.sets } };

    ghost invariant = { λ s. (length s.totals.items ≡ length s.names.items) × (length s.totals.items < 2 ^ 32) × All (IsWithin s.sets) s.totals.items };
}

impl OutputSummary {
    /// Makes a summary for the outputs of a plan. No set is put into it yet.
    pub fn new(alloc: Global, plan: &Plan) -> Result<OutputSummary, AllocError>
        requires shown { All (λ s. s < length plan.now.streams) plan.now.outputs }
        ensures names { IfOk result (λ s. s.names ≡ output_names plan.now) }
        ensures nothing { IfOk result (λ s. HasSummed s []) }
    {
        let names = names_of(alloc, plan)?;
        let totals = no_totals(alloc, names.as_slice().len())?;
        Ok(OutputSummary {
            names,
            totals,
            sets: 0,
        })
    }

    /// Counts a set, and adds its packets to the totals of the outputs.
    pub fn put_set(&mut self, set: &InputSet)
        requires { self.old.sets < 2 ^ 64 - 1 }
        ensures names { self.new.names ≡ self.old.names }
        ensures put { (sets : List (TimedSet Plain)) (timed : TimedSet Plain) → timed.set ≡ set.now → HasSummed self.old sets
            → HasSummed self.new (sets ++ timed ∷ []) }
    {
        add_set(&mut self.totals, set, self.sets);
        self.sets += 1;
    }

    /// Returns the text of the summary. Nothing of it is written yet.
    pub fn text(&self, alloc: Global) -> Result<OutputText, AllocError>
        ensures { IfOk result (λ text. (sets : List (TimedSet Plain)) (first : SinkTold) → HasSummed self.now sets
            → HasPut first first text (summary_text self.now.names sets)) }
    {
        let mut text = Vec::new(alloc);
        put_totals(&mut text, self.names.as_slice(), self.totals.as_slice())?;
        Ok(OutputText::whole(alloc, text))
    }
}

// Returns the names of a graph's outputs.
fn names_of(alloc: Global, plan: &Plan) -> Result<Vec<MgText>, AllocError>
    requires { All (λ s. s < length plan.now.streams) plan.now.outputs }
    ensures names { IfOk result (λ names. names.items ≡ output_names plan.now) }
    ensures few { IfOk result (λ names. length names.items < 2 ^ 32) }
{
    let mut names = Vec::with_capacity(alloc, plan.outputs.len() as usize)?;
    for number in plan.outputs.as_slice() {
        names.push(stream_name(plan, *number).try_clone(alloc)?)?;
    }
    Ok(names)
}

// Returns the totals of `count` outputs that have no packet yet.
fn no_totals(alloc: Global, count: usize) -> Result<Vec<Total>, AllocError>
    ensures { IfOk result (λ totals. totals.items ≡ replicate count (total_of [])) }
{
    let mut totals = Vec::with_capacity(alloc, count)?;
    for _ in 0..count {
        totals.push(Total {
            packets: 0,
            first: None,
            last: None,
            sum: 0,
        })?;
    }
    Ok(totals)
}

// Adds a set to the totals of the outputs. `sets` is how many sets were added before.
fn add_set(totals: &mut Vec<Total>, set: &InputSet, sets: u64)
    requires few { sets < 2 ^ 64 - 1 }
    requires ports { length totals.old.items < 2 ^ 32 }
    requires within { All (IsWithin sets) totals.old.items }
    ensures totals { totals.new.items ≡ with_set totals.old.items set.now }
    ensures within { All (IsWithin (sets + 1)) totals.new.items }
    ensures ports { length totals.new.items ≡ length totals.old.items }
{
    for port in 0..totals.as_slice().len() {
        totals[port].add(set.get(port as u32), sets);
    }
}
