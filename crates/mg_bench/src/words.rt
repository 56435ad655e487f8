//! The words of the command line.

use std::env;
use std::test::Fail;

/// Returns the word at a place of the command line. The program's name stands at place 0.
pub fn word(rt: &HostRuntime, place: usize) -> Option<String> {
    env::args(rt).ok()?.nth(place)
}

/// Returns whether the word at a place is the wanted one.
pub fn is(rt: &HostRuntime, place: usize, wanted: &str) -> bool {
    match word(rt, place) {
        Some(word) => word.as_str() == wanted,
        None => false,
    }
}

/// Returns the number at a place.
pub fn number(rt: &HostRuntime, place: usize) -> Result<u32, Fail> {
    match word(rt, place) {
        Some(word) => number_of(&word),
        None => Err(Fail::from("a number is missing")),
    }
}

// Returns the number that a word stands for.
fn number_of(word: &str) -> Result<u32, Fail> {
    match word.parse() {
        Ok(number) => Ok(number),
        Err(_) => Err(Fail::from("a word is no number")),
    }
}
