//! The states that the reader of a text is in between two bytes.

use crate::parts::{Quote, Slot, Tail};

/// How far a name is read. A name without brackets is read in its word. In brackets, a word begins or goes on, before
/// the `/` or after it. Or the closing bracket has been read.
#[derive(Clone, Copy, Debug)]
pub enum NamePart {
    Word,
    Begins,
    Inner,
    SlashBegins,
    SlashInner,
    Closed,
}

/// How far a word or a number is read. The parts of a number are named by what was read last: `Zero` is a leading zero,
/// `Point` the point, and `Fraction` a digit after the point. `Exponent` is the `e`, `Sign` its sign, and `Power` a
/// digit of the exponent. `HexStart` is the `x`, and `Suffix` the `f`.
#[derive(Clone, Copy, Debug)]
pub enum ScalarPart {
    Word,
    Minus,
    Zero,
    Whole,
    Point,
    Fraction,
    Exponent,
    Sign,
    Power,
    HexStart,
    Hex,
    Suffix,
}

/// How far a piece of a string is read: between characters or in one, after a backslash, or in an octal escape. In an
/// octal escape the first digit has been read, or the first two, and the value of these digits is kept.
#[derive(Clone, Copy, Debug)]
pub enum Inside {
    Plain(Tail),
    Escape,
    Second(u8),
    Third(u8),
}

/// A place between tokens, like a `Place` of specs/Grammar.antt without the names and bytes, which the `Machine` has.
#[derive(Clone, Copy, Debug)]
pub enum Between {
    Start(bool),
    Named,
    Valued,
    Opened(bool),
    Element(bool),
    Behind(bool),
    Joined(Slot),
}

/// What is being read: nothing at a place between tokens, a comment there, a name, a word or number, or a piece of a string.
#[derive(Clone, Copy, Debug)]
pub enum Reading {
    At(Between),
    Comment(Between, Tail),
    Name(NamePart),
    Scalar(Slot, ScalarPart),
    Piece(Slot, Quote, Inside),
}

/// The kind of a scalar.
#[derive(Clone, Copy, Debug)]
pub enum Kind {
    Word,
    Number,
    Quoted,
}

/// What is being read if further bytes may only lengthen it: white space, a comment, a word, or a piece of a string.
#[derive(Clone, Copy, Debug)]
pub enum Run {
    Blank,
    Comment,
    Word,
    Piece(Quote),
}
