ghost use Rattle.std.specs.Prelude.{◌≡◌, if◌then◌else◌};
ghost use Rattle.mg_text.specs.Byte.{class_of, is_blank, is_letter, is_digit, is_octal, is_hex, is_word_byte, joins, lead, follow, is_within};
ghost use Rattle.mg_text.specs.Grammar.{in_line};

use crate::parts::{Class, Tail};
use crate::table::CLASSES;

/// The class of a byte.
#[inline(always)]
pub fn class_of(b: u8) -> Class
    ensures { result ≡ class_of b }
{
    if b < 128 {
        CLASSES[b as usize]
    } else {
        Class::Beyond
    }
}

impl Class {
    pub(crate) fn is_blank(self) -> bool
        ensures { result ≡ is_blank self }
    {
        matches!(self, Class::Blank | Class::LineFeed)
    }

    /// Whether a byte of this class is a character of a comment by itself: ASCII, and no line feed.
    pub(crate) fn in_line(self) -> bool
        ensures { result ≡ in_line self }
    {
        match self {
            Class::LineFeed => false,
            Class::Beyond => false,
            _ => true,
        }
    }

    pub(crate) fn is_letter(self) -> bool
        ensures { result ≡ is_letter self }
    {
        matches!(
            self,
            Class::LetterE
                | Class::LetterF
                | Class::HexLetter
                | Class::LetterX
                | Class::LetterN
                | Class::LetterR
                | Class::LetterT
                | Class::Letter
        )
    }

    pub(crate) fn is_digit(self) -> bool
        ensures { result ≡ is_digit self }
    {
        matches!(
            self,
            Class::Zero | Class::One | Class::OctalDigit | Class::Digit
        )
    }

    pub(crate) fn is_octal(self) -> bool
        ensures { result ≡ is_octal self }
    {
        matches!(self, Class::Zero | Class::One | Class::OctalDigit)
    }

    pub(crate) fn is_hex(self) -> bool
        ensures { result ≡ is_hex self }
    {
        matches!(
            self,
            Class::Zero
                | Class::One
                | Class::OctalDigit
                | Class::Digit
                | Class::LetterE
                | Class::LetterF
                | Class::HexLetter
        )
    }

    pub(crate) fn is_word_byte(self) -> bool
        ensures { result ≡ is_word_byte self }
    {
        self.is_letter() || self.is_digit()
    }

    /// Whether a byte of this class would belong to a word or a number right before it.
    pub(crate) fn joins(self) -> bool
        ensures { result ≡ joins self }
    {
        match self {
            Class::Dot => true,
            _ => self.is_word_byte(),
        }
    }
}

/// Returns what is awaited after the first byte of a character past ASCII, or none if no character begins with the byte.
pub fn lead(b: u8) -> Option<Tail>
    ensures { result ≡ lead b }
{
    if 194 <= b && b <= 223 {
        Some(Tail::OneMore)
    } else if b == 224 {
        Some(Tail::AfterE0)
    } else if b == 237 {
        Some(Tail::AfterED)
    } else if 225 <= b && b <= 239 {
        Some(Tail::TwoMore)
    } else if b == 240 {
        Some(Tail::AfterF0)
    } else if 241 <= b && b <= 243 {
        Some(Tail::ThreeMore)
    } else if b == 244 {
        Some(Tail::AfterF4)
    } else {
        None
    }
}

fn within(low: u8, high: u8, b: u8, next: Tail) -> Option<Tail>
    ensures { result ≡ (if is_within low high b then Some next else None) }
{
    if low <= b && b <= high {
        Some(next)
    } else {
        None
    }
}

/// Returns what is awaited of a character after one more byte, or none if the byte can't come next.
pub fn follow(t: Tail, b: u8) -> Option<Tail>
    ensures { result ≡ follow t b }
{
    match t {
        Tail::Whole => None,
        Tail::OneMore => within(128, 191, b, Tail::Whole),
        Tail::TwoMore => within(128, 191, b, Tail::OneMore),
        Tail::ThreeMore => within(128, 191, b, Tail::TwoMore),
        Tail::AfterE0 => within(160, 191, b, Tail::OneMore),
        Tail::AfterED => within(128, 159, b, Tail::OneMore),
        Tail::AfterF0 => within(144, 191, b, Tail::TwoMore),
        Tail::AfterF4 => within(128, 143, b, Tail::TwoMore),
    }
}
