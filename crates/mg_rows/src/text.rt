//! Texts, in the forms in which a table says them.

use crate::member::{knows, list, number, numbers, text};
use anyhow::{Result, bail};
use serde_json::Value;
use std::alloc::{AllocError, Global};
use std::collections::BTreeMap;

/// The texts that the lines of a table have named so far, by their names.
pub type Texts = BTreeMap<String, Vec<u8>>;

/// Returns the bytes of a text, and no bytes if no text is said.
pub fn bytes_of(alloc: Global, texts: &Texts, said: Option<&Value>) -> Result<Vec<u8>> {
    let mut bytes = Vec::new(alloc);
    match put_bytes(alloc, texts, said, &mut bytes) {
        Ok(()) => Ok(bytes),
        Err(why) => {
            drop(bytes);
            Err(why)
        }
    }
}

fn put_bytes(
    alloc: Global,
    texts: &Texts,
    said: Option<&Value>,
    bytes: &mut Vec<u8>,
) -> Result<()> {
    match said {
        None => {}
        Some(Value::Array(parts)) => {
            for part in parts {
                append(alloc, texts, part, bytes)?;
            }
        }
        Some(part) => append(alloc, texts, part, bytes)?,
    }
    Ok(())
}

// Appends one part of a text: a string as it stands, or an object in one of five forms.
fn append(alloc: Global, texts: &Texts, part: &Value, bytes: &mut Vec<u8>) -> Result<()> {
    if let Some(plain) = part.as_str() {
        bytes.extend_from_slice(plain.as_bytes())?;
    } else if part.get("lines").is_some() {
        append_lines(alloc, part, bytes)?;
    } else if part.get("line").is_some() {
        append_numbered(alloc, part, bytes)?;
    } else if part.get("text").is_some() {
        append_repeated(part, bytes)?;
    } else if part.get("bytes").is_some() {
        knows(part, &["bytes"])?;
        append_bytes(&numbers(alloc, part, "bytes")?, bytes)?;
    } else {
        append_named(texts, part, bytes)?;
    }
    Ok(())
}

fn append_lines(alloc: Global, part: &Value, bytes: &mut Vec<u8>) -> Result<()> {
    knows(part, &["lines"])?;
    for line in list(part, "lines")? {
        let Some(line) = line.as_str() else {
            bail!("no line: {line}");
        };
        append_line(alloc, line, bytes)?;
    }
    Ok(())
}

// Appends a line for each number of a range. The number stands in place of each `#`.
fn append_numbered(alloc: Global, part: &Value, bytes: &mut Vec<u8>) -> Result<()> {
    knows(part, &["line", "from", "to"])?;
    let (Some(line), Some(from), Some(to)) = (
        text(part, "line")?,
        number(part, "from")?,
        number(part, "to")?,
    ) else {
        bail!("a line wants its first and its last number: {part}");
    };
    for number in from..=to {
        let digits = format!(in alloc; "{number}")?;
        append_line(alloc, &line.replace(alloc, "#", &digits)?, bytes)?;
    }
    Ok(())
}

fn append_repeated(part: &Value, bytes: &mut Vec<u8>) -> Result<()> {
    knows(part, &["text", "times"])?;
    let (Some(text), Some(times)) = (text(part, "text")?, number(part, "times")?) else {
        bail!("a text wants how many times it stands: {part}");
    };
    for _ in 0..times {
        bytes.extend_from_slice(text.as_bytes())?;
    }
    Ok(())
}

fn append_bytes(numbers: &[u64], bytes: &mut Vec<u8>) -> Result<()> {
    for number in numbers {
        let Ok(byte) = u8::try_from(*number) else {
            bail!("no byte: {number}");
        };
        bytes.push(byte)?;
    }
    Ok(())
}

// Appends a text that the table has named, or its first bytes if their number is said.
fn append_named(texts: &Texts, part: &Value, bytes: &mut Vec<u8>) -> Result<()> {
    knows(part, &["named", "front"])?;
    let Some(name) = text(part, "named")? else {
        bail!("no text: {part}");
    };
    let Some(whole) = texts.get(name) else {
        bail!("no text is named {name:?}");
    };
    let Some(front) = whole.get(..front_len(part, whole.len())?) else {
        bail!("{name:?} is shorter than its front: {part}");
    };
    bytes.extend_from_slice(front)?;
    Ok(())
}

fn front_len(part: &Value, whole: usize) -> Result<usize> {
    Ok(match number(part, "front")? {
        Some(len) => len as usize,
        None => whole,
    })
}

// Appends a line with its line feed, and `"` in place of each `'`.
fn append_line(alloc: Global, line: &str, bytes: &mut Vec<u8>) -> Result<(), AllocError> {
    bytes.extend_from_slice(line.replace(alloc, "'", "\"")?.as_bytes())?;
    bytes.push(b'\n')?;
    Ok(())
}
