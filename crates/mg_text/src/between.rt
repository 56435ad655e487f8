ghost use Rattle.std.specs.Prelude.{◌≡◌, ℕ, List};
ghost use Rattle.std.specs.Option.{option_map};
ghost use Rattle.mg_text.specs.Code.Machine.{comment_spot, colon_spot, comma_spot, semicolon_spot, list_end_spot, same_mark};
ghost use Rattle.mg_text.specs.Grammar.{scalar_slot, message_slot, list_slot, after};
ghost use Rattle.mg_text.specs.Code.Running.{place_of, spot_of, named_slot, named_list};

use crate::class::{follow, lead};
use crate::parts::{Class, Mark, Slot, Tail};
use crate::state::{Between, Reading};

impl Between {
    /// Returns the place after a value that stands in this slot.
    pub fn after(slot: Slot) -> Between
        ensures { (name bytes : List ℕ) → place_of result name bytes ≡ after name slot }
    {
        match slot {
            Slot::One => Between::Start(true),
            Slot::Scalars => Between::Behind(false),
            Slot::Messages => Between::Behind(true),
        }
    }

    /// Returns the slot of a word, a number or a string that begins here, or none if none may begin.
    pub fn scalar_slot(self) -> Option<Slot>
        ensures { (name bytes : List ℕ) → named_slot name result ≡ scalar_slot (place_of self name bytes) }
    {
        match self {
            Between::Valued => Some(Slot::One),
            Between::Opened(true) => Some(Slot::Scalars),
            Between::Element(false) => Some(Slot::Scalars),
            _ => None,
        }
    }

    /// Returns the slot of a message that begins here, or none if none may begin.
    pub fn message_slot(self) -> Option<Slot>
        ensures { (name bytes : List ℕ) → named_slot name result ≡ message_slot (place_of self name bytes) }
    {
        match self {
            Between::Named => Some(Slot::One),
            Between::Valued => Some(Slot::One),
            Between::Opened(_) => Some(Slot::Messages),
            Between::Element(true) => Some(Slot::Messages),
            _ => None,
        }
    }

    /// Returns whether a list that begins here has a colon before it, or none if no list may begin.
    pub fn list_slot(self) -> Option<bool>
        ensures { (name bytes : List ℕ) → named_list name result ≡ list_slot (place_of self name bytes) }
    {
        match self {
            Between::Named => Some(false),
            Between::Valued => Some(true),
            _ => None,
        }
    }

    /// Returns what is read after a colon, or none if no colon may stand here.
    pub fn colon(self) -> Option<Reading>
        ensures { (name bytes : List ℕ) → option_map (λ r. spot_of r name bytes) result ≡ colon_spot (place_of self name bytes) }
    {
        match self {
            Between::Named => Some(Reading::At(Between::Valued)),
            _ => None,
        }
    }

    /// Returns what is read after a comma, or none if no comma may stand here.
    pub fn comma(self) -> Option<Reading>
        ensures { (name bytes : List ℕ) → option_map (λ r. spot_of r name bytes) result ≡ comma_spot (place_of self name bytes) }
    {
        match self {
            Between::Start(true) => Some(Reading::At(Between::Start(false))),
            Between::Behind(messages) => Some(Reading::At(Between::Element(messages))),
            _ => None,
        }
    }

    /// Returns what is read after a semicolon, or none if no semicolon may stand here.
    pub fn semicolon(self) -> Option<Reading>
        ensures { (name bytes : List ℕ) → option_map (λ r. spot_of r name bytes) result ≡ semicolon_spot (place_of self name bytes) }
    {
        match self {
            Between::Start(true) => Some(Reading::At(Between::Start(false))),
            _ => None,
        }
    }

    /// Returns what is read after the bracket that closes a list, or none if no list may end here.
    pub fn list_end(self) -> Option<Reading>
        ensures { (name bytes : List ℕ) → option_map (λ r. spot_of r name bytes) result ≡ list_end_spot (place_of self name bytes) }
    {
        match self {
            Between::Opened(_) | Between::Behind(_) => Some(Reading::At(Between::Start(true))),
            _ => None,
        }
    }
}

fn awaits(p: Between, t: Option<Tail>) -> Option<Reading>
    ensures { result ≡ option_map (λ t. Reading.Comment p t) t }
{
    match t {
        Some(t) => Some(Reading::Comment(p, t)),
        None => None,
    }
}

fn comment_start(p: Between, c: Class, b: u8) -> Option<Reading>
    ensures { (name bytes : List ℕ) → option_map (λ r. spot_of r name bytes) result ≡ comment_spot (place_of p name bytes) Tail.Whole c b }
{
    match c {
        Class::LineFeed => Some(Reading::At(p)),
        Class::Beyond => awaits(p, lead(b)),
        _ => Some(Reading::Comment(p, Tail::Whole)),
    }
}

/// Returns what is read after one more byte of a comment, or none if the byte can't stand there.
pub fn comment_next(p: Between, t: Tail, c: Class, b: u8) -> Option<Reading>
    ensures { (name bytes : List ℕ) → option_map (λ r. spot_of r name bytes) result ≡ comment_spot (place_of p name bytes) t c b }
{
    match t {
        Tail::Whole => comment_start(p, c, b),
        _ => awaits(p, follow(t, b)),
    }
}

/// Whether two marks are the same.
pub fn same_mark(x: Mark, y: Mark) -> bool
    ensures { result ≡ same_mark x y }
{
    matches!(
        (x, y),
        (Mark::Brace, Mark::Brace) | (Mark::Angle, Mark::Angle)
    )
}
