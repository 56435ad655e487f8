ghost use Rattle.std.specs.Prelude.{◌≡◌, ◌<◌, ◌^◌, ◌==◌, ◌↔◌, All, length, slice_get, IsTrue, IsOk, IfOk, IfErr, option_copied};

use std::alloc::AllocFailed;
use std::marker::Model;

/// A list that is made once and then read: its entries lie in one block. It is made from a `Vec`, and gives the `Vec`
/// back without taking memory.
#[derive(Debug, Drop)]
pub struct BlockList<T> {
    entries: Vec<T>,
}

/// A list of numbers, as those of streams or ports.
pub type NumberList = BlockList<u32>;

/// A list of counts, as of the sets of each node in node order.
pub type CountList = BlockList<u64>;

impl<T> Model for BlockList<T> {
    ghost use Rattle.std.specs.Prelude.{List, ◌<◌, ◌^◌, vec_len};

    ghost Value = { List T };

    ghost view = { λ l. l.entries.items };

    ghost invariant = { λ l. vec_len l.entries < 2 ^ 32 };
}

impl<T> BlockList<T> {
    /// Makes a list of a vector's entries. 2^32 entries or more are refused as out of memory, and the vector comes back.
    pub fn from_vec(entries: Vec<T>) -> Result<BlockList<T>, AllocFailed<Vec<T>>>
        ensures ok { IsOk result ↔ (length entries.items < 2 ^ 32) }
        ensures entries { IfOk result (λ l. l ≡ entries.items) }
        ensures value_returned { IfErr result (λ e. e.value ≡ entries) }
    {
        if entries.len() < 1 << 32 {
            Ok(BlockList { entries })
        } else {
            Err(AllocFailed { value: entries })
        }
    }

    /// Returns the vector of the entries.
    pub fn into_vec(self) -> Vec<T>
        ensures { result.items ≡ self }
    {
        let BlockList { entries } = self;
        entries
    }

    /// Returns how many entries there are.
    pub fn len(&self) -> u32
        ensures { result ≡ length self.now }
    {
        self.entries.len() as u32
    }

    /// Returns whether there is no entry.
    pub fn is_empty(&self) -> bool
        ensures { result ≡ (length self.now == 0) }
    {
        self.entries.is_empty()
    }

    /// Returns the entry at a place, from 0 on, or None after the last.
    pub fn get(&self, i: u32) -> Option<&T>
        ensures { option_copied result ≡ slice_get self.now i }
    {
        self.entries.get(i as usize)
    }

    /// Returns all entries in order.
    pub fn as_slice(&self) -> &[T]
        ensures { result.now ≡ self.now }
    {
        self.entries.as_slice()
    }
}

impl BlockList<u32> {
    /// Returns whether each number is below `count`, as the numbers of so many streams are.
    pub fn all_below(&self, count: u32) -> bool
        ensures { IsTrue result ↔ All (λ i. i < count) self.now }
    {
        self.as_slice().iter().all(|number| *number < count)
    }
}
