//! The note of a graph that the check refuses, and the text of one that it passes.
ghost use Rattle.std.specs.Prelude.{◌≡◌, ◌≢◌, ◌++◌, OnOk, IfOk, decimal, codes};
ghost use Rattle.std.specs.List.{flat_map};
ghost use Rattle.mg_files.specs.CheckNotes as notes;

use crate::refusal::{at_place, of_text, put_next_number, put_next_text, stage_note};
use mg_answer::put_number;
use mg_calc::Plan;
use mg_check::{CheckFault, Many};
use mg_value::MgText;
use std::alloc::{AllocError, Global};

/// Returns the note that the check refuses a graph, or an error if memory ran out. Running out of memory isn't noted.
pub fn check_note(alloc: Global, fault: &CheckFault) -> Result<Vec<u8>, AllocError>
    ensures some { OnOk result (fault.now ≢ CheckFault.OutOfMemory) }
    ensures note { IfOk result (λ v. v.items ≡ notes.check_note fault.now) }
{
    let refusal = check_refusal(alloc, fault)?;
    let note = stage_note(alloc, b"check", &refusal)?;
    Ok(note)
}

fn check_refusal(alloc: Global, fault: &CheckFault) -> Result<Vec<u8>, AllocError>
    ensures some { OnOk result (fault.now ≢ CheckFault.OutOfMemory) }
    ensures text { IfOk result (λ v. v.items ≡ notes.check_refusal fault.now) }
{
    match fault {
        CheckFault::UnknownCalculator { node } => at_place(alloc, b"UnknownCalculator ", *node),
        CheckFault::NoMoreBoxes { name, has, needs } => short_refusal(alloc, name, *has, *needs),
        CheckFault::BadPorts { node } => at_place(alloc, b"BadPorts ", *node),
        CheckFault::BadOptions { node } => at_place(alloc, b"BadOptions ", *node),
        CheckFault::Unsupported { node, field } => field_refusal(alloc, *node, field),
        CheckFault::TwoProducers { name } => of_text(alloc, b"TwoProducers ", name),
        CheckFault::NoProducer { name } => of_text(alloc, b"NoProducer ", name),
        CheckFault::SideMissing { name } => of_text(alloc, b"SideMissing ", name),
        CheckFault::KindClash { name } => of_text(alloc, b"KindClash ", name),
        CheckFault::BackEdgeMisplaced { node } => at_place(alloc, b"BackEdgeMisplaced ", *node),
        CheckFault::Cycle { nodes } => cycle_refusal(alloc, nodes.as_slice()),
        CheckFault::TooMany { what } => many_refusal(alloc, *what),
        CheckFault::OutOfMemory => Err(AllocError),
    }
}

fn short_refusal(alloc: Global, name: &MgText, has: u32, needs: u32) -> Result<Vec<u8>, AllocError>
    ensures { IfOk result (λ v. v.items ≡ notes.check_refusal (CheckFault.NoMoreBoxes name.now has needs)) }
{
    let mut text = of_text(alloc, b"NoMoreBoxes ", name)?;
    put_next_number(&mut text, has)?;
    put_next_number(&mut text, needs)?;
    Ok(text)
}

fn field_refusal(alloc: Global, node: u32, field: &MgText) -> Result<Vec<u8>, AllocError>
    ensures { IfOk result (λ v. v.items ≡ notes.check_refusal (CheckFault.Unsupported node field.now)) }
{
    let mut text = at_place(alloc, b"Unsupported ", node)?;
    put_next_text(&mut text, field)?;
    Ok(text)
}

fn cycle_refusal(alloc: Global, nodes: &[u32]) -> Result<Vec<u8>, AllocError>
    ensures { IfOk result (λ v. v.items ≡ notes.check_refusal (CheckFault.Cycle nodes.now)) }
{
    let mut text = Vec::from_slice(alloc, b"Cycle")?;
    put_numbers(&mut text, nodes)?;
    Ok(text)
}

fn put_numbers(text: &mut Vec<u8>, numbers: &[u32]) -> Result<(), AllocError>
    ensures { OnOk result (text.new.items ≡ text.old.items ++ flat_map (λ n. codes " " ++ decimal n) numbers.now) }
{
    for number in numbers {
        put_next_number(text, *number)?;
    }
    Ok(())
}

fn many_refusal(alloc: Global, what: Many) -> Result<Vec<u8>, AllocError>
    ensures { IfOk result (λ v. v.items ≡ notes.check_refusal (CheckFault.TooMany what)) }
{
    match what {
        Many::Edges => Vec::from_slice(alloc, b"TooMany Edges"),
        Many::Outputs => Vec::from_slice(alloc, b"TooMany Outputs"),
    }
}

/// Returns what `check` writes of a graph that has a plan: how many nodes and streams the plan has.
pub fn check_text(alloc: Global, plan: &Plan) -> Result<Vec<u8>, AllocError>
    ensures { IfOk result (λ v. v.items ≡ notes.check_text plan.now) }
{
    let mut text = at_place(alloc, b"ok nodes=", plan.nodes.len())?;
    text.extend_from_slice(b" streams=")?;
    put_number(&mut text, u64::from(plan.streams.len()))?;
    text.extend_from_slice(b"\n")?;
    Ok(text)
}
