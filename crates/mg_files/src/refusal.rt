//! The pieces that the notes of refusals are made of.
ghost use Rattle.std.specs.Prelude.{◌≡◌, ◌++◌, OnOk, IfOk, codes, decimal};
ghost use Rattle.mg_answer.specs.Shown.{escaped};

use mg_answer::{put_number, put_shown};
use mg_value::MgText;
use std::alloc::{AllocError, Global};

/// Returns the note that a graph is refused. `stage` is what refuses it, and `refusal` says why.
pub fn stage_note(alloc: Global, stage: &[u8], refusal: &[u8]) -> Result<Vec<u8>, AllocError>
    ensures { IfOk result (λ v. v.items ≡ codes "refused: " ++ stage.now ++ codes " " ++ refusal.now ++ codes "\n") }
{
    let mut note = Vec::from_slice(alloc, b"refused: ")?;
    note.extend_from_slice(stage)?;
    note.extend_from_slice(b" ")?;
    note.extend_from_slice(refusal)?;
    note.extend_from_slice(b"\n")?;
    Ok(note)
}

/// Returns the words of a refusal: `refusal`, followed by the number of a place.
pub fn at_place(alloc: Global, refusal: &[u8], place: u32) -> Result<Vec<u8>, AllocError>
    ensures { IfOk result (λ v. v.items ≡ refusal.now ++ decimal place) }
{
    let mut text = Vec::from_slice(alloc, refusal)?;
    put_number(&mut text, u64::from(place))?;
    Ok(text)
}

/// Returns the words of a refusal: `refusal`, followed by the text that it is about.
pub fn of_text(alloc: Global, refusal: &[u8], part: &MgText) -> Result<Vec<u8>, AllocError>
    ensures { IfOk result (λ v. v.items ≡ refusal.now ++ escaped part.now) }
{
    let mut text = Vec::from_slice(alloc, refusal)?;
    put_shown(&mut text, part.as_bytes())?;
    Ok(text)
}

/// Puts a space and a number at a text's end.
pub fn put_next_number(text: &mut Vec<u8>, number: u32) -> Result<(), AllocError>
    ensures { OnOk result (text.new.items ≡ text.old.items ++ codes " " ++ decimal number) }
{
    text.extend_from_slice(b" ")?;
    put_number(text, u64::from(number))
}

/// Puts a space and a text at a text's end.
pub fn put_next_text(text: &mut Vec<u8>, part: &MgText) -> Result<(), AllocError>
    ensures { OnOk result (text.new.items ≡ text.old.items ++ codes " " ++ escaped part.now) }
{
    text.extend_from_slice(b" ")?;
    put_shown(text, part.as_bytes())
}
