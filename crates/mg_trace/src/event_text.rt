ghost use Rattle.std.specs.Prelude.{◌≡◌, ℕ, List, ◌∷◌, [], ◌++◌, IfOk, OnOk, OnErr, decimal};
ghost use Rattle.mg_trace.specs.Event.{event_text};

use itoa::Buffer;
use mg_calc::Event;
use mg_feed::{push_bytes, whole_or_none};
use std::alloc::{AllocError, Global};

/// Returns the line of an event, with its line feed.
pub fn write_event(alloc: Global, event: &Event) -> Result<Vec<u8>, AllocError>
    ensures { IfOk result (λ text. text.items ≡ event_text event.now) }
{
    let mut text = Vec::new(alloc);
    push_event(&mut text, event)?;
    Ok(text)
}

/// Puts the line of an event at the end of a text. After an `Err` the text is as it was.
pub fn push_event(text: &mut Vec<u8>, event: &Event) -> Result<(), AllocError>
    ensures put { OnOk result (text.new.items ≡ text.old.items ++ event_text event.now) }
    ensures unchanged { OnErr result (text.new.items ≡ text.old.items) }
{
    let len = text.len();
    let put = push_words(text, event);
    whole_or_none(text, len, put)
}

// Puts the line of an event at the end of a text. After an `Err` the text may end with a part of the line.
fn push_words(text: &mut Vec<u8>, event: &Event) -> Result<(), AllocError>
    ensures put { OnOk result (text.new.items ≡ text.old.items ++ event_text event.now) }
    ensures part { OnErr result ((part : List ℕ) × (text.new.items ≡ text.old.items ++ part)) }
{
    match event {
        Event::Deliver { edge } => push_one(text, b"deliver ", *edge),
        Event::Advance { node } => push_one(text, b"advance ", *node),
        Event::Claim { node } => push_one(text, b"claim ", *node),
        Event::Perform { node, number } => push_two(text, b"perform ", *node, *number),
        Event::Commit { node, number } => push_two(text, b"commit ", *node, *number),
        Event::Relax => push_relax(text),
    }
}

// Puts a line of a word and a number at the end of a text.
fn push_one(text: &mut Vec<u8>, word: &[u8], part: u32) -> Result<(), AllocError>
    ensures put { OnOk result (text.new.items ≡ text.old.items ++ (word.now ++ (decimal part ++ 10 ∷ []))) }
    ensures part { OnErr result ((part : List ℕ) × (text.new.items ≡ text.old.items ++ part)) }
{
    push_bytes(text, word)?;
    push_number(text, u64::from(part))?;
    push_bytes(text, b"\n")?;
    Ok(())
}

// Puts a line of a word and two numbers at the end of a text.
fn push_two(text: &mut Vec<u8>, word: &[u8], node: u32, number: u64) -> Result<(), AllocError>
    ensures put { OnOk result (text.new.items ≡ text.old.items ++ (word.now ++ (decimal node ++ 32 ∷ (decimal number ++ 10 ∷ [])))) }
    ensures part { OnErr result ((part : List ℕ) × (text.new.items ≡ text.old.items ++ part)) }
{
    push_bytes(text, word)?;
    push_number(text, u64::from(node))?;
    push_bytes(text, b" ")?;
    push_number(text, number)?;
    push_bytes(text, b"\n")?;
    Ok(())
}

// Puts a number's digits at the end of a text.
fn push_number(text: &mut Vec<u8>, number: u64) -> Result<(), AllocError>
    ensures put { OnOk result (text.new.items ≡ text.old.items ++ decimal number) }
    ensures unchanged { OnErr result (text.new.items ≡ text.old.items) }
{
    let mut digits = Buffer::new();
    push_bytes(text, digits.format(number).as_bytes())
}

// Puts the line of the event that relaxes limits at the end of a text.
fn push_relax(text: &mut Vec<u8>) -> Result<(), AllocError>
    ensures put { OnOk result (text.new.items ≡ text.old.items ++ event_text Event.Relax) }
    ensures part { OnErr result ((part : List ℕ) × (text.new.items ≡ text.old.items ++ part)) }
{
    push_bytes(text, b"relax\n")?;
    Ok(())
}
