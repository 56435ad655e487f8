//! Marks in a row, as words of 64 bits.

ghost use Rattle.std.specs.Prelude.{◌≡◌, ℕ, ◌+◌, ◌*◌, ◌^◌, ◌<◌, ◌≤◌, false, true, length, replicate, slice_set, slice_index, bit_or, IfOk, MatchOption};
ghost use Rattle.mg_throttle.specs.Code.Rows.{Joins, Changes, bit_in, is_marked, is_uncounted, NoneFrom, IsFirstFrom};

use std::alloc::{AllocError, Global};
use std::marker::Model;

/// Which of some places are marked.
#[derive(Drop)]
pub(crate) struct Row {
    words: Vec<u64>,
    len: usize,
}

impl Model for Row {
    ghost use Rattle.std.specs.Prelude.{List, Bool};
    ghost use Rattle.mg_throttle.specs.Code.Rows.{marks_of, IsRow};

    ghost Value = { List Bool };

    ghost view = { λ r. marks_of r.len r.words.items };

    ghost invariant = { λ r. IsRow r.len r.words.items };
}

// Returns `words` words in which no bit is set.
fn no_bits(alloc: Global, words: usize) -> Result<Vec<u64>, AllocError>
    ensures { IfOk result (λ v. v.items ≡ replicate words 0) }
{
    vec![in alloc; 0; words]
}

// Sets in each word of `into` the bits that are set in the same word of `from`.
fn join_words(into: &mut [u64], from: &[u64])
    requires { length from.now ≡ length into.old }
    ensures { (k : ℕ) → slice_index into.new k ≡ bit_or (slice_index into.old k) (slice_index from.now k) }
{
    for k in 0..into.len() {
        into[k] |= from[k];
    }
}

// Adds `more` to the counts of the places whose bit is set in a word, and takes `less` from them. The word has the bits of the 64 places
// from `first` on.
fn change_word(counts: &mut [usize], word: u64, first: usize, more: usize, less: usize)
    requires first { first < 2 ^ 60 }
    requires small { (k : ℕ) → bit_in word first k ≡ true → slice_index counts.old k + more < 2 ^ 64 }
    requires enough { (k : ℕ) → k < length counts.old → bit_in word first k ≡ true → less ≤ slice_index counts.old k }
    ensures { Changes (bit_in word first) more less counts.old counts.new }
{
    for place in first..counts.len().min(first + 64) {
        if word >> (place - first) & 1 == 1 {
            counts[place] = counts[place] + more - less;
        }
    }
}

// Returns the first place from `from` on that has its bit set in a word and has the count 0. The word has the bits of the 64
// places from `first` on.
fn uncounted_in(counts: &[usize], word: u64, first: usize, from: usize) -> Option<usize>
    requires { first < 2 ^ 60 }
    ensures { MatchOption result (NoneFrom (is_uncounted (bit_in word first) counts.now) from (length counts.now))
        (IsFirstFrom (is_uncounted (bit_in word first) counts.now) from (length counts.now)) }
{
    for place in from.max(first)..counts.len().min(first + 64) {
        let is_set = word >> (place - first) & 1 == 1;
        let is_zero = counts[place] == 0;
        if is_set & is_zero {
            return Some(place);
        }
    }
    None
}

impl Row {
    /// Returns a row of `len` places. No place is marked.
    pub(crate) fn new(alloc: Global, len: usize) -> Result<Row, AllocError>
        requires { len < 2 ^ 60 }
        ensures { IfOk result (λ r. r ≡ replicate len false) }
    {
        let words = no_bits(alloc, len.div_ceil(64))?;
        Ok(Row { words, len })
    }

    /// Returns how many places the row has.
    pub(crate) fn len(&self) -> usize
        ensures len { result ≡ length self.now }
        ensures few { result < 2 ^ 60 }
    {
        self.len
    }

    /// Marks a place.
    pub(crate) fn mark(&mut self, place: usize)
        requires { place < length self.old }
        ensures { self.new ≡ slice_set self.old place true }
    {
        self.words[place / 64] |= 1u64 << (place % 64);
    }

    /// Marks the places that are marked in another row.
    pub(crate) fn join(&mut self, other: &Row)
        requires { length other.now ≡ length self.old }
        ensures { Joins self.old other.now self.new }
    {
        join_words(&mut self.words, &other.words);
    }

    /// Adds `more` to the counts at the marked places, and takes `less` from them. It looks at a word for each 64 places, and at the places
    /// of the words that have marks.
    #[inline(never)]
    pub(crate) fn change(&self, counts: &mut [usize], more: usize, less: usize)
        requires places { length counts.old ≡ length self.now }
        requires small { (k : ℕ) → slice_index counts.old k + more < 2 ^ 64 }
        requires enough { (k : ℕ) → is_marked self.now k ≡ true → less ≤ slice_index counts.old k }
        ensures { Changes (is_marked self.now) more less counts.old counts.new }
    {
        for k in 0..self.words.len() {
            let word = self.words[k];
            if word != 0 {
                change_word(counts, word, k * 64, more, less);
            }
        }
    }
    /// Returns the first marked place from `from` on whose count is 0. It looks at a word for each 64 places, and at the places of the
    /// words that have marks.
    pub(crate) fn uncounted(&self, counts: &[usize], from: usize) -> Option<usize>
        requires { length counts.now ≡ length self.now }
        ensures { MatchOption result (NoneFrom (is_uncounted (is_marked self.now) counts.now) from (length counts.now))
            (IsFirstFrom (is_uncounted (is_marked self.now) counts.now) from (length counts.now)) }
    {
        for k in from / 64..self.words.len() {
            let word = self.words[k];
            if word == 0 {
                continue;
            }
            if let Some(place) = uncounted_in(counts, word, k * 64, from) {
                return Some(place);
            }
        }
        None
    }
}
