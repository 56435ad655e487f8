//! What the grammar of specs/Grammar.antt tells apart: classes of bytes, parts of characters, marks, quotes, and where
//! a value stands. No function that the crate exports takes or returns one of these; they are public for readers of
//! that page.

/// The classes of bytes that the grammar tells apart.
#[derive(Clone, Copy, Debug)]
pub enum Class {
    Blank,
    LineFeed,
    Hash,
    DoubleQuote,
    SingleQuote,
    Backslash,
    Colon,
    Comma,
    Semicolon,
    BraceOpen,
    BraceClose,
    AngleOpen,
    AngleClose,
    BracketOpen,
    BracketClose,
    Minus,
    Plus,
    Dot,
    Slash,
    Zero,
    One,
    OctalDigit,
    Digit,
    LetterE,
    LetterF,
    HexLetter,
    LetterX,
    LetterN,
    LetterR,
    LetterT,
    Letter,
    Other,
    Beyond,
}

/// What is awaited of a character past ASCII. It is nothing, or so many bytes from 128 to 191. Some first bytes ask for
/// a byte of a narrower range, and then for as many bytes as are missing.
#[derive(Clone, Copy, Debug)]
pub enum Tail {
    Whole,
    OneMore,
    TwoMore,
    ThreeMore,
    AfterE0,
    AfterED,
    AfterF0,
    AfterF4,
}

/// The marks of a message: `{` and `}`, or `<` and `>`.
#[derive(Clone, Copy, Debug)]
pub enum Mark {
    Brace,
    Angle,
}

/// The quotes of a string's piece.
#[derive(Clone, Copy, Debug)]
pub enum Quote {
    Single,
    Double,
}

/// Where a value stands: as the one value of a field, or in a list of scalars or of messages.
#[derive(Clone, Copy, Debug)]
pub enum Slot {
    One,
    Scalars,
    Messages,
}
