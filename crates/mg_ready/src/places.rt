//! A set of places, and the greatest of them.

ghost use Rattle.std.specs.Prelude.{◌≡◌, ℕ, ◌<◌, false, true, length, replicate, slice_set, slice_index_or, IfOk, MatchOption};
ghost use Rattle.mg_ready.specs.Code.Places.{IsLast};

use crate::bits::{clear_bit, greatest, set_bit};
use crate::links::{BUCKET, Links};
use std::alloc::{AllocError, Global};
use std::marker::Model;

// How many buckets a word has bits for.
const BITS: usize = 64;

/// Which of some places are in, with a bit for each bucket. The bit says whether one of the bucket's places is in.
#[derive(Drop)]
pub(crate) struct Places {
    links: Links,
    words: Vec<u64>,
}

impl Model for Places {
    ghost use Rattle.std.specs.Prelude.{List, Bool};
    ghost use Rattle.mg_ready.specs.Code.Places.{IsMarked};

    ghost Value = { List Bool };

    ghost view = { λ p. p.links };

    ghost invariant = { λ p. IsMarked p.links p.words.items };
}

// Returns `words` words in which no bit is set.
fn no_bits(alloc: Global, words: usize) -> Result<Vec<u64>, AllocError>
    ensures { IfOk result (λ v. v.items ≡ replicate words 0) }
{
    vec![in alloc; 0; words]
}

impl Places {
    /// Returns a set over `places` places. No place is in it.
    pub(crate) fn new(alloc: Global, places: u32) -> Result<Places, AllocError>
        ensures { IfOk result (λ p. p ≡ replicate places false) }
    {
        let words = no_bits(alloc, (places as usize).div_ceil(BUCKET * BITS))?;
        let links = Links::new(alloc, places)?;
        Ok(Places { links, words })
    }

    /// Whether a place is in.
    pub(crate) fn contains(&self, place: u32) -> bool
        requires { place < length self.now }
        ensures { result ≡ slice_index_or self.now place false }
    {
        self.links.contains(place)
    }

    /// Puts a place in.
    pub(crate) fn insert(&mut self, place: u32)
        requires place { place < length self.old }
        requires out { slice_index_or self.old place false ≡ false }
        ensures { self.new ≡ slice_set self.old place true }
    {
        self.links.insert(place);
        set_bit(&mut self.words, place as usize / BUCKET);
    }

    /// Takes a place out.
    pub(crate) fn remove(&mut self, place: u32)
        requires place { place < length self.old }
        requires there { slice_index_or self.old place false ≡ true }
        ensures { self.new ≡ slice_set self.old place false }
    {
        let bucket = place as usize / BUCKET;
        self.links.remove(place);
        match self.links.greatest_of(bucket) {
            Some(_) => {}
            None => clear_bit(&mut self.words, bucket),
        }
    }

    /// Returns the last place that is in, if one is.
    pub(crate) fn last(&self) -> Option<u32>
        ensures { MatchOption result ((q : ℕ) → slice_index_or self.now q false ≡ false) (IsLast self.now) }
    {
        let bucket = greatest(&self.words)?;
        self.links.greatest_of(bucket)
    }
}
