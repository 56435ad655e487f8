//! Tests for names, tags and indexes, byte by byte, and the cutting of texts at colons.
ghost use Rattle.std.specs.Prelude.{◌≡◌, ◌∷◌, [], MatchOption, IfOk, position};
ghost use Rattle.std.specs.List.{list_all};
ghost use Rattle.std.specs.Str.{IsAscii};
ghost use Rattle.mg_names.specs.Grammar as grammar;
ghost use Rattle.mg_names.specs.Spelling.{is_colon, parts_of};
ghost use Rattle.mg_names.specs.Spelling as spelled;

use mg_value::MgText;
use std::alloc::{AllocError, Global};

fn begins_name(byte: u8) -> bool
    ensures { result ≡ grammar.begins_name byte }
{
    byte.is_ascii_lowercase() || byte == b'_'
}

fn begins_tag(byte: u8) -> bool
    ensures { result ≡ grammar.begins_tag byte }
{
    byte.is_ascii_uppercase() || byte == b'_'
}

fn is_digit(byte: u8) -> bool
    ensures { result ≡ grammar.is_digit byte }
{
    byte.is_ascii_digit()
}

fn continues_name(byte: u8) -> bool
    ensures { result ≡ grammar.continues_name byte }
{
    begins_name(byte) || is_digit(byte)
}

fn continues_tag(byte: u8) -> bool
    ensures { result ≡ grammar.continues_tag byte }
{
    begins_tag(byte) || is_digit(byte)
}

fn all_continue_name(text: &[u8]) -> bool
    ensures { result ≡ list_all grammar.continues_name text.now }
{
    text.iter().all(|byte| continues_name(*byte))
}

fn all_continue_tag(text: &[u8]) -> bool
    ensures { result ≡ list_all grammar.continues_tag text.now }
{
    text.iter().all(|byte| continues_tag(*byte))
}

/// Whether a text is a name: `[a-z_][a-z0-9_]*`.
pub(crate) fn is_name(text: &[u8]) -> bool
    ensures { result ≡ grammar.is_name text.now }
{
    match text.split_first() {
        Some((first, rest)) => begins_name(*first) && all_continue_name(rest),
        None => false,
    }
}

/// Whether a text is a tag: `[A-Z_][A-Z0-9_]*`.
pub(crate) fn is_tag(text: &[u8]) -> bool
    ensures { result ≡ grammar.is_tag text.now }
{
    match text.split_first() {
        Some((first, rest)) => begins_tag(*first) && all_continue_tag(rest),
        None => false,
    }
}

/// Returns the index that a text spells, 0 to 63 in decimal without leading zeros, or none if it spells none.
pub(crate) fn index_of(text: &[u8]) -> Option<u8>
    ensures { result ≡ grammar.index_of text.now }
{
    match text {
        [ones @ b'0'..=b'9'] => Some(*ones - b'0'),
        [tens @ b'1'..=b'9', ones @ b'0'..=b'9'] => {
            let index = 10 * (*tens - b'0') + (*ones - b'0');
            if index < 64 { Some(index) } else { None }
        }
        _ => None,
    }
}

fn first_colon(text: &[u8]) -> Option<usize>
    ensures { result ≡ position is_colon text.now }
{
    text.iter().position(|byte| *byte == b':')
}

/// Returns what stands before and after the first colon of a text, or none if the text has no colon.
#[tactic(auto, using(crate::proofs::Parts::parts_without_colon))]
pub(crate) fn cut(text: &[u8]) -> Option<(&[u8], &[u8])>
    ensures { MatchOption result (parts_of text.now ≡ text.now ∷ []) (λ cut. parts_of text.now ≡ cut.0.now ∷ parts_of cut.1.now) }
{
    match first_colon(text) {
        None => None,
        Some(colon) => {
            let (tag, rest) = text.split_at(colon);
            Some((tag, &rest[1..]))
        }
    }
}

/// Whether a text has no colon.
#[tactic(auto, using(crate::proofs::Parts::parts_past_one))]
pub(crate) fn is_untagged(text: &[u8]) -> bool
    ensures { result ≡ spelled.is_untagged text.now }
{
    match cut(text) {
        None => true,
        Some(_) => false,
    }
}

/// Returns a new text with a copy of ASCII bytes.
#[tactic(auto, using(crate::proofs::Parts::ascii_is_utf8))]
pub(crate) fn owned(alloc: Global, bytes: &[u8]) -> Result<MgText, AllocError>
    requires { IsAscii bytes.now }
    ensures { IfOk result (λ text. text ≡ bytes.now) }
{
    // The bytes needn't be judged again: `requires` says that they are ASCII.
    let text = unsafe { str::from_utf8_unchecked(bytes) };
    MgText::new(alloc, text)
}
