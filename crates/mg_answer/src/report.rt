//! The report of a run: a line for how far each node and each stream has come.
ghost use Rattle.std.specs.Prelude.{◌≡◌, ◌<◌, ◌^◌, ◌++◌, length, OnOk};
ghost use Rattle.std.specs.List.{flat_map};
ghost use Rattle.mg_calc.specs.Meaning.{numbered};
ghost use Rattle.mg_answer.specs.Report.{node_line, stream_line, report_by, asked_report};

use crate::Reporting;
use crate::pieces::{label_at, put, put_number, put_time};
use crate::set_lines::stream_name;
use crate::shown::put_shown;
use mg_calc::Plan;
use mg_settled::StreamEnd;
use std::alloc::AllocError;

/// Puts the report at a text's end, if it is asked for.
pub fn put_asked(
    text: &mut Vec<u8>,
    asked: Reporting,
    plan: &Plan,
    sets: &[u64],
    ends: &[StreamEnd],
) -> Result<(), AllocError>
    requires nodes { length sets.now ≡ length plan.now.nodes }
    requires streams { length ends.now ≡ length plan.now.streams }
    requires few { length ends.now < 2 ^ 32 }
    ensures { OnOk result (text.new.items ≡ text.old.items ++ asked_report asked (report_by plan.now sets.now ends.now)) }
{
    if !asked.counts {
        return Ok(());
    }
    put_report(text, plan, sets, ends)
}

/// Puts the report at a text's end: a line for each node, and then one for each stream.
pub fn put_report(
    text: &mut Vec<u8>,
    plan: &Plan,
    sets: &[u64],
    ends: &[StreamEnd],
) -> Result<(), AllocError>
    requires nodes { length sets.now ≡ length plan.now.nodes }
    requires streams { length ends.now ≡ length plan.now.streams }
    requires few { length ends.now < 2 ^ 32 }
    ensures { OnOk result (text.new.items ≡ text.old.items ++ report_by plan.now sets.now ends.now) }
{
    put_nodes(text, plan, sets)?;
    put_streams(text, plan, ends)
}

// Puts a line for each node.
fn put_nodes(text: &mut Vec<u8>, plan: &Plan, sets: &[u64]) -> Result<(), AllocError>
    requires { length sets.now ≡ length plan.now.nodes }
    ensures { OnOk result (text.new.items ≡ text.old.items ++ flat_map (node_line plan.now) (numbered sets.now)) }
{
    for (node, count) in sets.iter().enumerate() {
        put_node_line(text, plan, node, *count)?;
    }
    Ok(())
}

// Puts the line of a node: its number, its label, and how many sets it was shown.
fn put_node_line(text: &mut Vec<u8>, plan: &Plan, node: usize, count: u64) -> Result<(), AllocError>
    requires { node < length plan.now.nodes }
    ensures { OnOk result (text.new.items ≡ text.old.items ++ node_line plan.now (node, count)) }
{
    put(text, b"node ")?;
    put_number(text, node as u64)?;
    put(text, b" ")?;
    put_shown(text, label_at(plan, node).as_bytes())?;
    put(text, b" sets=")?;
    put_number(text, count)?;
    put(text, b"\n")
}

// Puts a line for each stream.
fn put_streams(text: &mut Vec<u8>, plan: &Plan, ends: &[StreamEnd]) -> Result<(), AllocError>
    requires streams { length ends.now ≡ length plan.now.streams }
    requires few { length ends.now < 2 ^ 32 }
    ensures { OnOk result (text.new.items ≡ text.old.items ++ flat_map (stream_line plan.now) (numbered ends.now)) }
{
    for (number, end) in ends.iter().enumerate() {
        put_stream_line(text, plan, number as u32, *end)?;
    }
    Ok(())
}

// Puts the line of a stream: its name, how many packets it has, and its bound.
fn put_stream_line(
    text: &mut Vec<u8>,
    plan: &Plan,
    number: u32,
    end: StreamEnd,
) -> Result<(), AllocError>
    requires { number < length plan.now.streams }
    ensures { OnOk result (text.new.items ≡ text.old.items ++ stream_line plan.now (number, end)) }
{
    put(text, b"stream ")?;
    put_shown(text, stream_name(plan, number).as_bytes())?;
    put(text, b" packets=")?;
    put_number(text, end.packets)?;
    put(text, b" bound=")?;
    put_time(text, end.bound)?;
    put(text, b"\n")
}
