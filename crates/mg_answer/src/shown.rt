//! Texts that a note repeats, which may hold any byte.
ghost use Rattle.std.specs.Prelude.{◌≡◌, ◌++◌, ℕ, List, OnOk, OnErr};
ghost use Rattle.mg_answer.specs.Shown.{is_control, escaped_byte, escaped};

use mg_feed::whole_or_none;
use std::alloc::AllocError;

/// Puts a text at a note's end, so that the note stays one line: its control bytes as escapes. After an `Err` the note is as it was.
pub fn put_shown(note: &mut Vec<u8>, text: &[u8]) -> Result<(), AllocError>
    ensures put { OnOk result (note.new.items ≡ note.old.items ++ escaped text.now) }
    ensures unchanged { OnErr result (note.new.items ≡ note.old.items) }
{
    let len = note.len();
    let put = put_bytes(note, text);
    whole_or_none(note, len, put)
}

// Puts a text at a note's end. After an `Err` some of it may stand there.
fn put_bytes(note: &mut Vec<u8>, text: &[u8]) -> Result<(), AllocError>
    ensures put { OnOk result (note.new.items ≡ note.old.items ++ escaped text.now) }
    ensures part { OnErr result ((part : List ℕ) × (note.new.items ≡ note.old.items ++ part)) }
{
    for b in text {
        put_byte(note, *b)?;
    }
    Ok(())
}

fn put_byte(note: &mut Vec<u8>, b: u8) -> Result<(), AllocError>
    ensures put { OnOk result (note.new.items ≡ note.old.items ++ escaped_byte b) }
    ensures unchanged { OnErr result (note.new.items ≡ note.old.items) }
{
    match b {
        b'\n' => note.extend_from_slice(b"\\n")?,
        b'\r' => note.extend_from_slice(b"\\r")?,
        b'\t' => note.extend_from_slice(b"\\t")?,
        _ if is_control(b) => {
            note.extend_from_slice(&[b'\\', b'0' + b / 64, b'0' + b / 8 % 8, b'0' + b % 8])?;
        }
        _ => note.push(b)?,
    }
    Ok(())
}

fn is_control(b: u8) -> bool
    ensures { result ≡ is_control b }
{
    b < 32 || b == 127
}
