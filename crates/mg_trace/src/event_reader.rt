ghost use Rattle.std.specs.Prelude.{◌≡◌, ◌≢◌, ◌<◌, ◌^◌, ◌↔◌, ◌∷◌, ◌++◌, ℕ, List, Some, IfSome, IsNone, decimal, position};
ghost use Rattle.mg_calc.specs.declared.event.Event.{Event as AnEvent};
ghost use Rattle.mg_trace.specs.Code.{is_space};
ghost use Rattle.mg_trace.specs.Event.{IsEventOf, event_line, event_text};

use itoa::Buffer;
use mg_calc::{Event, Plan};

/// Returns the event of a plan whose line this is, with its line feed. Returns None if the text has none of the six forms, or names
/// an edge or a node that isn't there. Returns None too if it has a number past 2^64 - 1.
pub fn read_event(text: &[u8], plan: &Plan) -> Option<Event>
    ensures read { (event : AnEvent) → (result ≡ Some event) ↔ (IsEventOf plan.now event × (text.now ≡ event_text event)) }
    ensures none { IsNone result ↔ ((event : AnEvent) → ¬ (IsEventOf plan.now event × (text.now ≡ event_text event))) }
{
    let (last, line) = text.split_last()?;
    if *last == b'\n' {
        event_of(line, plan)
    } else {
        None
    }
}

/// Returns the event of a plan whose line this is, without a line feed.
pub fn event_of(line: &[u8], plan: &Plan) -> Option<Event>
    ensures { (event : AnEvent) → (result ≡ Some event) ↔ (IsEventOf plan.now event × (line.now ≡ event_line event)) }
{
    if let Some(rest) = behind(line, b"deliver ") {
        let edge = number_below(rest, plan.edges.len())?;
        return Some(Event::Deliver { edge });
    }
    if let Some(rest) = behind(line, b"advance ") {
        let node = number_below(rest, plan.nodes.len())?;
        return Some(Event::Advance { node });
    }
    if let Some(rest) = behind(line, b"claim ") {
        let node = number_below(rest, plan.nodes.len())?;
        return Some(Event::Claim { node });
    }
    if let Some(rest) = behind(line, b"perform ") {
        let (node, number) = pair_below(rest, plan.nodes.len())?;
        return Some(Event::Perform { node, number });
    }
    if let Some(rest) = behind(line, b"commit ") {
        let (node, number) = pair_below(rest, plan.nodes.len())?;
        return Some(Event::Commit { node, number });
    }
    if line == b"relax".as_slice() {
        Some(Event::Relax)
    } else {
        None
    }
}

// Returns what stands after a word, if the line begins with this word.
fn behind<'a>(line: &'a [u8], word: &[u8]) -> Option<&'a [u8]>
    ensures some { IfSome result (λ rest. line.now ≡ word.now ++ rest.now) }
    ensures none { IsNone result → (rest : List ℕ) → line.now ≢ word.now ++ rest }
{
    if line.starts_with(word) {
        Some(line.split_at(word.len()).1)
    } else {
        None
    }
}

// Reads a decimal number, if it is below `count`.
fn number_below(text: &[u8], count: u32) -> Option<u32>
    ensures { (n : ℕ) → (result ≡ Some n) ↔ ((n < count) × (text.now ≡ decimal n)) }
{
    let number = number_of(text)?;
    if number < u64::from(count) {
        Some(number as u32)
    } else {
        None
    }
}

// Reads two decimal numbers with a space between them, if the first is below `count`.
fn pair_below(text: &[u8], count: u32) -> Option<(u32, u64)>
    ensures { (m n : ℕ) → (result ≡ Some (m, n)) ↔ ((m < count) × (n < 2 ^ 64) × (text.now ≡ decimal m ++ 32 ∷ decimal n)) }
{
    let space = space_in(text)?;
    let (front, back) = text.split_at(space);
    let first = number_below(front, count)?;
    let second = number_of(back.split_at(1).1)?;
    Some((first, second))
}

// Returns the place of the first space.
fn space_in(text: &[u8]) -> Option<usize>
    ensures { result ≡ position is_space text.now }
{
    text.iter().position(|byte| *byte == b' ')
}

// Reads a decimal number of 64 bits, in its one spelling.
fn number_of(text: &[u8]) -> Option<u64>
    ensures { (n : ℕ) → (result ≡ Some n) ↔ ((n < 2 ^ 64) × (text.now ≡ decimal n)) }
{
    let Ok(digits) = str::from_utf8(text) else {
        return None;
    };
    let Ok(number) = digits.parse::<u64>() else {
        return None;
    };
    if Buffer::new().format(number).as_bytes() == text {
        Some(number)
    } else {
        None
    }
}
