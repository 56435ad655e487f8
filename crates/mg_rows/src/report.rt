//! What is wanted of a call, and how its outcome differs from that.

ghost use Rattle.std.specs.Prelude.{◌≢◌, ◌↔◌, IsTrue, IfOk};
ghost use Rattle.mg_rows.specs.Wanted.{IsEnough};

use crate::call::{Asked, COUNTS, Outcome};
use crate::member::{knows, list, number, text, truth};
use crate::text::bytes_of;
use crate::turn::Turn;
use anyhow::{Result, bail};
use serde_json::Value;
use std::alloc::{AllocError, Global};
use std::fmt::Write;

/// What a case wants of each of its calls.
#[derive(Drop)]
pub struct Wanted {
    output: Vec<u8>,
    // If there is a number, a prefix of the output with at least so many bytes is enough.
    output_at_least: Option<u64>,
    notes: Vec<u8>,
    status: u64,
}

// The names of the parts in which the outcome of a call may differ.
const PARTS: [&str; 6] = ["output", "notes", "status", "counts", "failed_name", "logs"];

/// Reads what the case wants of a call that is asked for, but for the counts and the logs.
pub fn wanted_of(alloc: Global, asked: Asked<'_>) -> Result<Wanted> {
    let Some(status) = number(asked.case, "status")? else {
        bail!("no status is wanted");
    };
    let output_at_least = number(asked.case, "output_at_least")?;
    let notes = wanted_notes(alloc, asked)?;
    let output = wanted_output(alloc, asked)?;
    Ok(Wanted {
        output,
        output_at_least,
        notes,
        status,
    })
}

// Returns the output that is wanted. If a read fails, it is what the case says of the whole lines before that read. If a write fails, it
// is the bytes before that write.
fn wanted_output(alloc: Global, asked: Asked<'_>) -> Result<Vec<u8>> {
    let Asked {
        texts,
        case,
        turn,
        ..
    } = asked;
    if let Turn::Read(_, lines) = turn {
        let Some(said) = list(case, "after_lines")?.get(lines) else {
            bail!("after_lines: nothing is said of {lines} lines");
        };
        return bytes_of(alloc, texts, Some(said));
    }
    let mut output = bytes_of(alloc, texts, case.get("output"))?;
    if let Turn::Write(_, bytes) = turn {
        output.truncate(bytes);
    }
    Ok(output)
}

// Returns the notes that are wanted. A read that fails is noted before all else.
fn wanted_notes(alloc: Global, asked: Asked<'_>) -> Result<Vec<u8>> {
    let mut notes = Vec::new(alloc);
    match put_notes(alloc, asked, &mut notes) {
        Ok(()) => Ok(notes),
        Err(why) => {
            drop(notes);
            Err(why)
        }
    }
}

fn put_notes(alloc: Global, asked: Asked<'_>, notes: &mut Vec<u8>) -> Result<()> {
    if let Turn::Read(_, lines) = asked.turn {
        let fault = format!(in alloc; "read fault after line {lines}\n")?;
        notes.extend_from_slice(fault.as_bytes())?;
    }
    let said = bytes_of(alloc, asked.texts, asked.case.get("notes"))?;
    notes.extend_from_slice(&said)?;
    Ok(())
}

/// Returns how the outcome of a call differs from what is wanted, or `None` if it doesn't. `place` is the call's place among the calls with
/// the same boxes. If a case says that some parts differ, exactly these parts have to differ.
pub fn difference(
    alloc: Global,
    case: &Value,
    wanted: &Wanted,
    place: usize,
    came: &Outcome<'_>,
) -> Result<Option<String>> {
    let mut told = String::new(alloc);
    match compare(&mut told, case, wanted, place, came) {
        Ok(false) => Ok(Some(told)),
        Ok(true) => {
            drop(told);
            Ok(None)
        }
        Err(why) => {
            drop(told);
            Err(why)
        }
    }
}

// Compares each part, tells the parts that differ, and returns whether they are the parts that a case says.
fn compare(
    told: &mut String,
    case: &Value,
    wanted: &Wanted,
    place: usize,
    came: &Outcome<'_>,
) -> Result<bool> {
    let found = [
        output_differs(told, wanted, came)?,
        notes_differ(told, wanted, came)?,
        status_differs(told, wanted, came)?,
        counts_differ(told, case, came)?,
        failed_name_differs(told, case, came)?,
        logs_differ(told, case, place, came)?,
    ];
    if are_as_said(case, found)? {
        return Ok(true);
    }
    if let Some(said) = case.get("differs") {
        write!(told, "; these had to differ: {said}")?;
    }
    Ok(false)
}

// Returns whether the parts that differ are the parts that a case says.
fn are_as_said(case: &Value, found: [bool; 6]) -> Result<bool> {
    let Some(said) = case.get("differs") else {
        return Ok(found == [false; 6]);
    };
    knows(said, &PARTS)?;
    for (part, differs) in PARTS.iter().zip(found) {
        if truth(said, part)?.unwrap_or(false) != differs {
            return Ok(false);
        }
    }
    Ok(true)
}

fn output_differs(
    told: &mut String,
    wanted: &Wanted,
    came: &Outcome<'_>,
) -> Result<bool, AllocError>
    ensures { IfOk result (λ differs. IsTrue differs
        ↔ ¬ (IsEnough wanted.now.output.items wanted.now.output_at_least came.now.output.now)) }
{
    let differs = !is_enough(&wanted.output, wanted.output_at_least, came.output);
    if differs {
        tell(told, "output", &wanted.output, came.output)?;
    }
    Ok(differs)
}

fn notes_differ(told: &mut String, wanted: &Wanted, came: &Outcome<'_>) -> Result<bool, AllocError>
    ensures { IfOk result (λ differs. IsTrue differs ↔ (came.now.notes.now ≢ wanted.now.notes.items)) }
{
    let differs = wanted.notes.as_slice() != came.notes;
    if differs {
        tell(told, "notes", &wanted.notes, came.notes)?;
    }
    Ok(differs)
}

fn status_differs(
    told: &mut String,
    wanted: &Wanted,
    came: &Outcome<'_>,
) -> Result<bool, AllocError>
    ensures { IfOk result (λ differs. IsTrue differs ↔ (came.now.status ≢ wanted.now.status)) }
{
    let (wanted, came) = (wanted.status, u64::from(came.status));
    if wanted != came {
        write!(told, "; status: wanted {wanted}, came {came}")?;
    }
    Ok(wanted != came)
}

// Returns whether counts differ from the counts that a case names. A count that the case doesn't name isn't compared.
fn counts_differ(told: &mut String, case: &Value, came: &Outcome<'_>) -> Result<bool> {
    let Some(said) = case.get("counts") else {
        return Ok(false);
    };
    knows(said, &COUNTS)?;
    let mut differs = false;
    for (name, came) in COUNTS.iter().zip(came.counts) {
        if let Some(wanted) = number(said, name)?
            && wanted != came
        {
            write!(told, "; {name}: wanted {wanted}, came {came}")?;
            differs = true;
        }
    }
    Ok(differs)
}

fn failed_name_differs(told: &mut String, case: &Value, came: &Outcome<'_>) -> Result<bool> {
    let Some(wanted) = text(case, "failed_name")? else {
        return Ok(false);
    };
    let came = came.failed_name;
    if came != Some(wanted) {
        write!(told, "; failed_name: wanted {wanted:?}, came {came:?}")?;
    }
    Ok(came != Some(wanted))
}

// Returns whether what the boxes tell of their calls differs from what a case says at the call's place.
fn logs_differ(told: &mut String, case: &Value, place: usize, came: &Outcome<'_>) -> Result<bool> {
    let Some(said) = list(case, "logs")?.get(place) else {
        return Ok(false);
    };
    let Some(wanted) = said.as_str() else {
        bail!("logs: no text: {said}");
    };
    let came = came.logs;
    if came != wanted {
        write!(told, "; logs: wanted {wanted:?}, came {came:?}")?;
    }
    Ok(came != wanted)
}

// Returns whether `came` is the text. If a least number of bytes is said, a prefix of the text with at least so many
// bytes is enough.
fn is_enough(text: &[u8], at_least: Option<u64>, came: &[u8]) -> bool
    ensures { IsTrue result ↔ IsEnough text.now at_least came.now }
{
    match at_least {
        None => came == text,
        Some(least) => {
            let len = came.len();
            len as u64 >= least && len <= text.len() && came == &text[..len]
        }
    }
}

// Writes the wanted text of a part and the text that came, from some bytes before the first byte that differs.
fn tell(told: &mut String, part: &str, wanted: &[u8], came: &[u8]) -> Result<(), AllocError> {
    let from = common_len(wanted, came).saturating_sub(40);
    let (wanted_len, came_len) = (wanted.len(), came.len());
    let (wanted, came) = (shown(wanted, from), shown(came, from));
    write!(
        told,
        "; {part}: wanted {wanted_len} bytes, from byte {from} \"{wanted}\", came {came_len}, \"{came}\""
    )
}

// Returns how many first bytes two texts have in common.
fn common_len(a: &[u8], b: &[u8]) -> usize {
    let len = a.len().min(b.len());
    for i in 0..len {
        if a[i] != b[i] {
            return i;
        }
    }
    len
}

// Returns the bytes from a place on, a few hundred at most, as they are shown.
fn shown(bytes: &[u8], from: usize) -> std::slice::EscapeAscii<'_> {
    let rest = bytes.get(from..).unwrap_or(&[]);
    rest.get(..300).unwrap_or(rest).escape_ascii()
}
