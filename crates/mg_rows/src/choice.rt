//! The alternatives of a case that a call takes.

ghost use Rattle.std.specs.Prelude.{◌≡◌, ◌+◌, ◌*◌, ◌<◌, max};

use crate::member::{list, numbers, truth};
use crate::text::{Texts, bytes_of};
use anyhow::{Result, bail};
use serde_json::Value;
use std::alloc::Global;
use std::fmt;
use std::fmt::{Display, Formatter, Write};

// The most bytes of a read that are tried if a case says none.
const PIECES: [u64; 4] = [1, 7, 64, 4096];

/// What a call takes of each list of alternatives of its case: a place in the list, or the alternative itself.
#[derive(Clone, Copy)]
pub struct Choice {
    pub words: usize,
    pub graph: usize,
    pub input: usize,
    /// Whether a line feed at the input's end stays there.
    pub last_line_feed: bool,
    /// The most bytes that a read gives.
    pub piece: u64,
}

/// Returns what the call of a number takes, counted from 0, and `None` past the last call. There are as many calls as combinations of
/// alternatives.
pub fn choice_of(alloc: Global, case: &Value, number: usize) -> Result<Option<Choice>> {
    let mut left = number;
    let words = place(&mut left, list(case, "words")?.len());
    let graph = place(&mut left, list(case, "graphs")?.len());
    let input = place(&mut left, list(case, "inputs")?.len());
    let choice = Choice {
        words,
        graph,
        input,
        last_line_feed: last_line_feed(case, &mut left)?,
        piece: piece(alloc, case, &mut left)?,
    };
    Ok((left == 0).then_some(choice))
}

// Returns the place in a list that a number stands for, and leaves a number for the further lists. The place is the number's last
// digit in the base of the list's length, and the other digits make the number that is left. An empty list counts as one alternative.
fn place(left: &mut usize, len: usize) -> usize
    ensures below { result < max len 1 }
    ensures digit { left.new * max len 1 + result ≡ left.old }
{
    let base = len.max(1);
    let place = *left % base;
    *left /= base;
    place
}

// Returns whether a line feed at the input's end stays, as the case says. If the case doesn't say it, two calls are made, with the line
// feed and without.
fn last_line_feed(case: &Value, left: &mut usize) -> Result<bool> {
    Ok(match truth(case, "last_line_feed")? {
        Some(said) => said,
        None => place(left, 2) == 0,
    })
}

fn piece(alloc: Global, case: &Value, left: &mut usize) -> Result<u64> {
    let said = numbers(alloc, case, "pieces")?;
    let pieces = if said.is_empty() {
        &PIECES
    } else {
        said.as_slice()
    };
    match pieces.get(place(left, pieces.len())) {
        Some(piece) if *piece > 0 => Ok(*piece),
        _ => bail!("no read gives pieces of 0 bytes"),
    }
}

/// Returns the bytes of the input that a call reads.
pub fn input_of(alloc: Global, texts: &Texts, case: &Value, choice: Choice) -> Result<Vec<u8>> {
    let mut input = bytes_of(alloc, texts, list(case, "inputs")?.get(choice.input))?;
    if !choice.last_line_feed && input.last() == Some(&b'\n') {
        let _ = input.pop();
    }
    Ok(input)
}

impl Display for Choice {
    fn fmt<W: Write>(&self, f: &mut Formatter<W>) -> fmt::Result {
        let Choice {
            words,
            graph,
            input,
            piece,
            ..
        } = self;
        write!(
            f,
            "words {words}, graph {graph}, input {input}, pieces of {piece} bytes"
        )
    }
}
