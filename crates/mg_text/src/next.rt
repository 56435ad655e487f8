ghost use Rattle.std.specs.Prelude.{◌≡◌, if◌then◌else◌};
ghost use Rattle.mg_text.specs.Code.Machine.{name_next, is_whole_name, scalar_next, is_whole_scalar};

use crate::parts::Class;
use crate::state::{NamePart, ScalarPart};

fn name_if(holds: bool, next: NamePart) -> Option<NamePart>
    ensures { result ≡ (if holds then Some next else None) }
{
    if holds { Some(next) } else { None }
}

/// Returns how far a name is read after one more byte, or none if the byte doesn't belong to the name.
pub fn name_next(part: NamePart, c: Class) -> Option<NamePart>
    ensures { result ≡ name_next part c }
{
    match (part, c) {
        (NamePart::Word, _) => name_if(c.is_word_byte(), NamePart::Word),
        (NamePart::Begins, _) => name_if(c.is_letter(), NamePart::Inner),
        (NamePart::Inner, Class::Dot) => Some(NamePart::Begins),
        (NamePart::Inner, Class::Slash) => Some(NamePart::SlashBegins),
        (NamePart::Inner, Class::BracketClose) => Some(NamePart::Closed),
        (NamePart::Inner, _) => name_if(c.is_word_byte(), NamePart::Inner),
        (NamePart::SlashBegins, _) => name_if(c.is_letter(), NamePart::SlashInner),
        (NamePart::SlashInner, Class::Dot) => Some(NamePart::SlashBegins),
        (NamePart::SlashInner, Class::BracketClose) => Some(NamePart::Closed),
        (NamePart::SlashInner, _) => name_if(c.is_word_byte(), NamePart::SlashInner),
        (NamePart::Closed, _) => None,
    }
}

/// Whether a name may end after this part.
pub fn is_whole_name(part: NamePart) -> bool
    ensures { result ≡ is_whole_name part }
{
    matches!(part, NamePart::Word | NamePart::Closed)
}

fn scalar_if(holds: bool, next: ScalarPart) -> Option<ScalarPart>
    ensures { result ≡ (if holds then Some next else None) }
{
    if holds { Some(next) } else { None }
}

/// Returns how far a word or a number is read after one more byte, or none if the byte doesn't belong to it.
pub fn scalar_next(part: ScalarPart, c: Class) -> Option<ScalarPart>
    ensures { result ≡ scalar_next part c }
{
    match (part, c) {
        (ScalarPart::Word, _) => scalar_if(c.is_word_byte(), ScalarPart::Word),
        (ScalarPart::Minus, Class::Zero) => Some(ScalarPart::Zero),
        (ScalarPart::Minus, Class::Dot) => Some(ScalarPart::Point),
        (ScalarPart::Minus, _) => scalar_if(c.is_digit(), ScalarPart::Whole),
        (ScalarPart::Zero, Class::LetterX) => Some(ScalarPart::HexStart),
        (ScalarPart::Zero, Class::LetterE) => Some(ScalarPart::Exponent),
        (ScalarPart::Zero, Class::LetterF) => Some(ScalarPart::Suffix),
        (ScalarPart::Zero, Class::Dot) => Some(ScalarPart::Point),
        (ScalarPart::Zero, _) => scalar_if(c.is_digit(), ScalarPart::Whole),
        (ScalarPart::Whole, Class::LetterE) => Some(ScalarPart::Exponent),
        (ScalarPart::Whole, Class::LetterF) => Some(ScalarPart::Suffix),
        (ScalarPart::Whole, Class::Dot) => Some(ScalarPart::Point),
        (ScalarPart::Whole, _) => scalar_if(c.is_digit(), ScalarPart::Whole),
        (ScalarPart::Point, _) => scalar_if(c.is_digit(), ScalarPart::Fraction),
        (ScalarPart::Fraction, Class::LetterE) => Some(ScalarPart::Exponent),
        (ScalarPart::Fraction, Class::LetterF) => Some(ScalarPart::Suffix),
        (ScalarPart::Fraction, _) => scalar_if(c.is_digit(), ScalarPart::Fraction),
        (ScalarPart::Exponent, Class::Minus) => Some(ScalarPart::Sign),
        (ScalarPart::Exponent, Class::Plus) => Some(ScalarPart::Sign),
        (ScalarPart::Exponent, _) => scalar_if(c.is_digit(), ScalarPart::Power),
        (ScalarPart::Sign, _) => scalar_if(c.is_digit(), ScalarPart::Power),
        (ScalarPart::Power, Class::LetterF) => Some(ScalarPart::Suffix),
        (ScalarPart::Power, _) => scalar_if(c.is_digit(), ScalarPart::Power),
        (ScalarPart::HexStart, _) => scalar_if(c.is_hex(), ScalarPart::Hex),
        (ScalarPart::Hex, _) => scalar_if(c.is_hex(), ScalarPart::Hex),
        (ScalarPart::Suffix, _) => None,
    }
}

/// Whether a word or a number may end after this part.
pub fn is_whole_scalar(part: ScalarPart) -> bool
    ensures { result ≡ is_whole_scalar part }
{
    matches!(
        part,
        ScalarPart::Word
            | ScalarPart::Zero
            | ScalarPart::Whole
            | ScalarPart::Fraction
            | ScalarPart::Power
            | ScalarPart::Hex
            | ScalarPart::Suffix
    )
}
