//! The turns of a case: reads or writes that each fail in a call of their own.

use crate::choice::{Choice, input_of};
use crate::member::{number, truth};
use crate::text::{Texts, bytes_of};
use anyhow::{Result, bail, ensure};
use serde_json::Value;
use std::alloc::Global;
use std::fmt;
use std::fmt::{Display, Formatter, Write};

/// What fails in one call of a case, beside what fails in each of its calls.
#[derive(Clone, Copy)]
pub enum Turn {
    Nothing,
    /// The read of this number fails, counted from 0, after so many whole lines.
    Read(u64, usize),
    /// The write of this number to the output fails, counted from 0, after so many bytes.
    Write(u64, usize),
}

/// Returns the turn of a number, counted from 0, and `None` past the last one. A case in which nothing fails in turn has one turn.
pub fn turn_of(
    alloc: Global,
    texts: &Texts,
    case: &Value,
    choice: Choice,
    number: u64,
) -> Result<Option<Turn>> {
    if case.get("after_lines").is_some() {
        let input = input_of(alloc, texts, case, choice)?;
        return Ok(read_turn(&input, choice.piece, number));
    }
    if truth(case, "each_write_fails")? == Some(true) {
        let output = bytes_of(alloc, texts, case.get("output"))?;
        ensure!(!output.is_empty(), "no write is made of an empty output");
        return Ok(write_turn(output.len(), most_written(case)?, number));
    }
    Ok((number == 0).then_some(Turn::Nothing))
}

// Returns the turn in which a read fails. Each read but the last gives a whole piece, and one more meets the end.
fn read_turn(input: &[u8], piece: u64, number: u64) -> Option<Turn> {
    let before = number.saturating_mul(piece);
    if number > 0 && before.saturating_sub(piece) >= input.len() as u64 {
        return None;
    }
    let came = input.get(..before as usize).unwrap_or(input);
    Some(Turn::Read(number, count_lines(came)))
}

// Returns the turn in which a write fails. Each write takes as many bytes as it may.
fn write_turn(len: usize, most: u64, number: u64) -> Option<Turn> {
    let before = number.saturating_mul(most);
    (before < len as u64).then_some(Turn::Write(number, before as usize))
}

// Returns how many lines are whole: how many line feeds there are.
fn count_lines(bytes: &[u8]) -> usize {
    let mut lines = 0usize;
    for byte in bytes {
        if *byte == b'\n' {
            lines = lines.saturating_add(1);
        }
    }
    lines
}

/// Returns the most bytes that a write takes in a case.
pub fn most_written(case: &Value) -> Result<u64> {
    match number(case, "most_written")? {
        Some(0) => bail!("no write takes 0 bytes"),
        Some(most) => Ok(most),
        None => Ok(u64::MAX),
    }
}

impl Display for Turn {
    fn fmt<W: Write>(&self, f: &mut Formatter<W>) -> fmt::Result {
        match self {
            Turn::Nothing => Ok(()),
            Turn::Read(number, _) => write!(f, ", read {number} fails"),
            Turn::Write(number, _) => write!(f, ", write {number} fails"),
        }
    }
}
