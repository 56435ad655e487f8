//! The lines of a table, and the verdict on each.

use crate::call::{Asked, make_calls, outcome_of};
use crate::choice::{Choice, choice_of};
use crate::devices::InMemory;
use crate::member::{knows, number, text};
use crate::report::{Wanted, difference, wanted_of};
use crate::text::{Texts, bytes_of};
use crate::turn::turn_of;
use crate::watch::{Watch, watch_of};
use anyhow::{Result, ensure};
use serde_json::Value;
use std::alloc::Global;
use std::sync::Wait;
use std::sync::atomic::AtomicBool;
use std::thread::Threads;

// The keys that a case may have.
const KEYS: [&str; 26] = [
    "case",
    "words",
    "graphs",
    "files",
    "inputs",
    "last_line_feed",
    "pieces",
    "after_lines",
    "each_write_fails",
    "most_written",
    "failing_reads",
    "failing_writes",
    "failing_notes",
    "failing_load",
    "room",
    "notes_room",
    "meet",
    "waits_at",
    "output",
    "output_at_least",
    "notes",
    "status",
    "counts",
    "failed_name",
    "logs",
    "differs",
];

/// The verdict on a line.
#[derive(Drop)]
pub enum Verdict {
    /// The line names a text, or the section of the lines that follow.
    Said,
    /// All calls of the line's case came out as the case wants.
    Passed,
    /// A call of the line's case didn't come out as the case wants. The text tells how it differs.
    Failed(String),
    /// The line tells how many rows the table has: lines that pass or fail.
    Counts(u64),
}

/// Reads a line, and keeps the text that it names, or makes the calls of its case. An error says why it is no line of a table. A line with
/// the key `refused` passes if the text at that key is no line of a table.
pub fn judge<R: Threads + Wait + Sync>(
    rt: &R,
    alloc: Global,
    texts: &mut Texts,
    line: &str,
) -> Result<Verdict> {
    let said = read(alloc, line)?;
    let verdict = judge_said(rt, alloc, texts, &said);
    drop(said);
    verdict
}

fn judge_said<R: Threads + Wait + Sync>(
    rt: &R,
    alloc: Global,
    texts: &mut Texts,
    said: &Value,
) -> Result<Verdict> {
    let Some(refused) = text(said, "refused")? else {
        return act(rt, alloc, texts, said);
    };
    knows(said, &["refused"])?;
    ensure!(
        !is_line(rt, alloc, texts, refused),
        "taken for a line of a table: {refused}"
    );
    Ok(Verdict::Passed)
}

// Returns whether a text is a line of a table, and does what such a line says.
fn is_line<R: Threads + Wait + Sync>(rt: &R, alloc: Global, texts: &mut Texts, line: &str) -> bool {
    let Ok(said) = read(alloc, line) else {
        return false;
    };
    let acted = act(rt, alloc, texts, &said);
    drop(said);
    acted.is_ok()
}

// Does what a line says: makes the calls of a case, or keeps a text under its name.
fn act<R: Threads + Wait + Sync>(
    rt: &R,
    alloc: Global,
    texts: &mut Texts,
    said: &Value,
) -> Result<Verdict> {
    if let Some(name) = text(said, "case")? {
        knows(said, &KEYS)?;
        return judge_case(rt, alloc, texts, name, said);
    }
    if let Some(name) = text(said, "text")? {
        knows(said, &["text", "is"])?;
        name_text(alloc, texts, name, said)?;
        return Ok(Verdict::Said);
    }
    if let Some(rows) = number(said, "rows")? {
        knows(said, &["rows"])?;
        return Ok(Verdict::Counts(rows));
    }
    ensure!(
        text(said, "section")?.is_some(),
        "neither a case nor a text"
    );
    knows(said, &["section"])?;
    Ok(Verdict::Said)
}

// Reads the JSON value of a line. A line that isn't in compact form, or has a key twice, is an error. Such a line differs
// in length from its value in compact form.
fn read(alloc: Global, line: &str) -> Result<Value> {
    let said = Value::from_str(alloc, line)?;
    match expect_compact(alloc, &said, line) {
        Ok(()) => Ok(said),
        Err(why) => {
            drop(said);
            Err(why)
        }
    }
}

fn expect_compact(alloc: Global, said: &Value, line: &str) -> Result<()> {
    let compact = said.to_string(alloc)?;
    ensure!(
        compact.len() == line.len(),
        "not in compact form, or a key twice"
    );
    Ok(())
}

fn name_text(alloc: Global, texts: &mut Texts, name: &str, said: &Value) -> Result<()> {
    let is = said.get("is");
    ensure!(is.is_some(), "{name:?} names nothing");
    ensure!(!texts.contains_key(name), "{name:?} is named twice");
    let bytes = bytes_of(alloc, texts, is)?;
    texts.insert(String::from_str(alloc, name)?, bytes)?;
    Ok(())
}

fn judge_case<R: Threads + Wait + Sync>(
    rt: &R,
    alloc: Global,
    texts: &Texts,
    name: &str,
    case: &Value,
) -> Result<Verdict> {
    for number in 0..usize::MAX {
        let Some(choice) = choice_of(alloc, case, number)? else {
            break;
        };
        if let Some(how) = judge_choice(rt, alloc, texts, case, choice)? {
            let how = format!(in alloc; "{name}: call {number}: {choice}{how}")?;
            return Ok(Verdict::Failed(how));
        }
    }
    Ok(Verdict::Passed)
}

// Makes the calls of a choice, one for each turn. Returns how the first call that isn't as wanted differs.
fn judge_choice<R: Threads + Wait + Sync>(
    rt: &R,
    alloc: Global,
    texts: &Texts,
    case: &Value,
    choice: Choice,
) -> Result<Option<String>> {
    for number in 0..u64::MAX {
        let Some(turn) = turn_of(alloc, texts, case, choice, number)? else {
            break;
        };
        let asked = Asked {
            texts,
            case,
            choice,
            turn,
        };
        if let Some(how) = judge_turn(rt, alloc, asked)? {
            return Ok(Some(format!(in alloc; "{turn}{how}")?));
        }
    }
    Ok(None)
}

// Makes the calls of a turn. Returns how the first call that isn't as wanted differs.
fn judge_turn<R: Threads + Wait + Sync>(
    rt: &R,
    alloc: Global,
    asked: Asked<'_>,
) -> Result<Option<String>> {
    let wanted = wanted_of(alloc, asked)?;
    let how = judge_by(rt, alloc, asked, &wanted);
    drop(wanted);
    how
}

// Makes the calls of a turn. Returns how the first call that isn't as wanted differs.
fn judge_by<R: Threads + Wait + Sync>(
    rt: &R,
    alloc: Global,
    asked: Asked<'_>,
    wanted: &Wanted,
) -> Result<Option<String>> {
    let watch = watch_of(alloc, asked.case)?;
    let has_taken = AtomicBool::new(false);
    let mut outsides = Vec::new(alloc);
    let how = match make_calls(rt, alloc, asked, &watch, &has_taken, &mut outsides) {
        Ok(()) => first_difference(alloc, asked.case, wanted, &outsides, &watch),
        Err(why) => Err(why),
    };
    drop(outsides);
    how
}

// Returns how the first call that isn't as wanted differs, among some calls with the same boxes.
fn first_difference(
    alloc: Global,
    case: &Value,
    wanted: &Wanted,
    outsides: &[InMemory<'_>],
    watch: &Watch,
) -> Result<Option<String>> {
    for (place, outside) in outsides.iter().enumerate() {
        let came = outcome_of(outside, watch);
        if let Some(how) = difference(alloc, case, wanted, place, &came)? {
            return Ok(Some(how));
        }
    }
    Ok(None)
}
