//! How the answers of a cell are written in tables.
use mg_calc::{NodeFault, Phase};
use mg_node::Delivered;
use mg_tables::text_of;
use std::alloc::Global;
use std::test::Fail;

/// Writes what a delivery moved: how many packets, and whether the bound after them rose.
pub(crate) fn show_delivered(alloc: Global, delivered: Delivered) -> Result<String, Fail> {
    match delivered {
        Delivered::Moved { packets, raised } => Ok(format!(in alloc; "{packets} {raised}")?),
        Delivered::OutOfMemory { .. } => Err(Fail::from("no memory")),
    }
}

/// Writes a work's number and phase.
pub(crate) fn show_work(alloc: Global, number: u64, phase: Phase) -> Result<String, Fail> {
    let phase = show_phase(alloc, phase)?;
    Ok(format!(in alloc; "{number} {}", phase.as_str())?)
}

/// Writes a phase, with the time of its set.
fn show_phase(alloc: Global, phase: Phase) -> Result<String, Fail> {
    match phase {
        Phase::Open => Ok(String::from_str(alloc, "open")?),
        Phase::Call(_) => Ok(String::from_str(alloc, "call")?),
        Phase::Process(at) => {
            let at = text_of(alloc, at)?;
            Ok(format!(in alloc; "at {}", at.as_str())?)
        }
        Phase::Close => Ok(String::from_str(alloc, "close")?),
    }
}

/// Writes a fault, or `-` if there is none.
pub(crate) fn show_fault(alloc: Global, fault: Option<NodeFault>) -> Result<String, Fail> {
    let Some(fault) = fault else {
        return Ok(String::from_str(alloc, "-")?);
    };
    let phase = show_phase(alloc, fault.phase)?;
    Ok(format!(in alloc; "{} {:?}", phase.as_str(), fault.cause)?)
}
