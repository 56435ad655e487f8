ghost use Rattle.std.specs.Prelude.{◌≡◌};
ghost use Rattle.std.specs.Option.{option_map};
ghost use Rattle.mg_text.specs.Code.Machine.{inside_next, is_closing_quote, plain_next, escape_next, digit_onto};
ghost use Rattle.mg_text.specs.Grammar.{escaped, is_first_octal, in_piece};
ghost use Rattle.mg_text.specs.Code.Running.{spelling_of};

use crate::class::{follow, lead};
use crate::parts::{Class, Quote, Tail};
use crate::state::Inside;

/// Whether a byte of this class stands for itself in a piece with these quotes.
pub fn in_piece(q: Quote, c: Class) -> bool
    ensures { result ≡ in_piece q c }
{
    match (q, c) {
        (Quote::Single, Class::SingleQuote) => false,
        (Quote::Double, Class::DoubleQuote) => false,
        (_, Class::Backslash) => false,
        (_, Class::LineFeed) => false,
        (_, Class::Beyond) => false,
        _ => true,
    }
}

/// The byte that a letter or a mark stands for after a backslash.
fn escaped(c: Class) -> Option<u8>
    ensures { result ≡ escaped c }
{
    match c {
        Class::LetterN => Some(10),
        Class::LetterT => Some(9),
        Class::LetterR => Some(13),
        Class::Backslash => Some(92),
        Class::SingleQuote => Some(39),
        Class::DoubleQuote => Some(34),
        _ => None,
    }
}

fn is_first_octal(c: Class) -> bool
    ensures { result ≡ is_first_octal c }
{
    matches!(c, Class::Zero | Class::One)
}

/// Returns the value, as a byte, of the octal digits with value `v` and one more digit.
fn digit_onto(v: u8, b: u8) -> u8
    ensures { result ≡ digit_onto v b }
{
    v.wrapping_mul(8).wrapping_add(b.saturating_sub(48))
}

fn in_char(t: Option<Tail>, b: u8) -> Option<(Inside, Option<u8>)>
    ensures { option_map spelling_of result ≡ option_map (λ t. spelling_of (Inside.Plain t, Some b)) t }
{
    match t {
        Some(t) => Some((Inside::Plain(t), Some(b))),
        None => None,
    }
}

fn plain_next(q: Quote, c: Class, b: u8) -> Option<(Inside, Option<u8>)>
    ensures { option_map spelling_of result ≡ plain_next q c b }
{
    match c {
        Class::Backslash => Some((Inside::Escape, None)),
        Class::Beyond => in_char(lead(b), b),
        _ => {
            if in_piece(q, c) {
                Some((Inside::Plain(Tail::Whole), Some(b)))
            } else {
                None
            }
        }
    }
}

fn escape_next(c: Class, b: u8) -> Option<(Inside, Option<u8>)>
    ensures { option_map spelling_of result ≡ escape_next (escaped c) c b }
{
    match escaped(c) {
        Some(v) => Some((Inside::Plain(Tail::Whole), Some(v))),
        None => {
            if is_first_octal(c) {
                Some((Inside::Second(b.saturating_sub(48)), None))
            } else {
                None
            }
        }
    }
}

/// Returns what is read of a piece after a byte that doesn't close it, and the byte that the string gets, if any.
/// Returns none if the byte can't stand there.
pub fn inside_next(q: Quote, i: Inside, c: Class, b: u8) -> Option<(Inside, Option<u8>)>
    ensures { option_map spelling_of result ≡ inside_next q i c b }
{
    match i {
        Inside::Plain(Tail::Whole) => plain_next(q, c, b),
        Inside::Plain(t) => in_char(follow(t, b), b),
        Inside::Escape => escape_next(c, b),
        Inside::Second(v) => {
            if c.is_octal() {
                Some((Inside::Third(digit_onto(v, b)), None))
            } else {
                None
            }
        }
        Inside::Third(v) => {
            if c.is_octal() {
                Some((Inside::Plain(Tail::Whole), Some(digit_onto(v, b))))
            } else {
                None
            }
        }
    }
}

/// Whether a byte is the quote that closes the piece.
pub fn is_closing_quote(q: Quote, i: Inside, c: Class) -> bool
    ensures { result ≡ is_closing_quote q i c }
{
    match (q, i, c) {
        (Quote::Single, Inside::Plain(Tail::Whole), Class::SingleQuote) => true,
        (Quote::Double, Inside::Plain(Tail::Whole), Class::DoubleQuote) => true,
        _ => false,
    }
}
