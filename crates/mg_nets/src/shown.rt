//! How what a net gives and tells is written in tables: a packet as its number, `@` and its timestamp.
use mg_calc::{Call, CallList, NodeCalculator, NodeFault, Phase};
use mg_route::LawBox;
use mg_sched::Report;
use mg_settled::StreamEnd;
use mg_tables::{show_packet_at, text_of};
use mg_value::Packet;
use std::alloc::Global;
use std::test::Fail;

/// Shows packets, each followed by a blank.
pub fn show_packets(alloc: Global, packets: &[Packet]) -> Result<String, Fail> {
    let mut shown = String::new(alloc);
    for packet in packets {
        write!(shown, "{} ", show_packet_at(alloc, packet)?.as_str())?;
    }
    Ok(shown)
}

// Shows numbers, each followed by a blank.
fn show_numbers(alloc: Global, numbers: &[u64]) -> Result<String, Fail> {
    let mut shown = String::new(alloc);
    for number in numbers {
        write!(shown, "{number} ")?;
    }
    Ok(shown)
}

// Shows how many packets each stream has, `@` and its bound, each stream followed by a blank.
fn show_ends(alloc: Global, ends: &[StreamEnd]) -> Result<String, Fail> {
    let mut shown = String::new(alloc);
    for end in ends {
        let bound = text_of(alloc, end.bound)?;
        write!(shown, "{}@{} ", end.packets, bound.as_str())?;
    }
    Ok(shown)
}

// Shows a phase, with the time of its set.
fn show_phase(alloc: Global, phase: Phase) -> Result<String, Fail> {
    match phase {
        Phase::Open => Ok(String::from_str(alloc, "open")?),
        Phase::Call(number) => Ok(format!(in alloc; "call {number}")?),
        Phase::Process(at) => {
            let at = text_of(alloc, at)?;
            Ok(format!(in alloc; "at {}", at.as_str())?)
        }
        Phase::Close => Ok(String::from_str(alloc, "close")?),
    }
}

// Shows faults, each preceded by a blank: the node, when it failed, and why.
fn show_faults(alloc: Global, faults: &[NodeFault]) -> Result<String, Fail> {
    let mut shown = String::new(alloc);
    for fault in faults {
        let phase = show_phase(alloc, fault.phase)?;
        write!(
            shown,
            " {} {} {:?}",
            fault.node,
            phase.as_str(),
            fault.cause
        )?;
    }
    Ok(shown)
}

/// Shows a report. For each node it has how many sets were laid. For each stream it has how many packets the stream has, `@` and
/// its bound. The faults follow.
pub fn show_report(alloc: Global, report: &Report) -> Result<String, Fail> {
    let sets = show_numbers(alloc, report.sets.as_slice())?;
    let streams = show_ends(alloc, report.streams.as_slice())?;
    let faults = show_faults(alloc, report.faults.as_slice())?;
    Ok(format!(in alloc;
        "{}; {};{}",
        sets.as_str(),
        streams.as_str(),
        faults.as_str()
    )?)
}

// Shows the calls that a calculator had, each preceded by a blank: a set by its time.
fn show_calls(alloc: Global, calls: &CallList) -> Result<String, Fail> {
    let mut shown = String::new(alloc);
    for call in calls.as_slice() {
        match call {
            Call::Begun => shown.push_str(" begun")?,
            Call::Finished => shown.push_str(" finished")?,
            Call::Shown { at, .. } => {
                let at = text_of(alloc, *at)?;
                write!(shown, " {}", at.as_str())?;
            }
        }
    }
    Ok(shown)
}

/// Shows the calls of calculators, with `;` after the calls of each calculator.
pub(crate) fn show_boxes(alloc: Global, boxes: &[LawBox]) -> Result<String, Fail> {
    let mut shown = String::new(alloc);
    for calculator in boxes {
        let calls = show_calls(alloc, calculator.log())?;
        write!(shown, "{};", calls.as_str())?;
    }
    Ok(shown)
}
