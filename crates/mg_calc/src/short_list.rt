ghost use Rattle.std.specs.Prelude.{◌≡◌, ◌<◌, ◌^◌, ◌↔◌, ◌∷◌, [], length, slice_get, IsOk, IfOk, IfErr, option_copied};
ghost use Rattle.std.specs.Mem.{FitsInMemory};

use crate::try_clone::copies;
use crate::{Laid, TryClone};
use mg_value::Packet;
use std::alloc::{AllocError, AllocFailed, Global};
use std::marker::Model;
use std::slice;

/// A list that is made once and then read. A list that `one` makes keeps its only entry in itself, and allocates nothing.
#[derive(Debug)]
pub struct ShortList<T> {
    kept: Kept<T>,
}

/// Where the entries are: the only one in the list itself, or any number of them in a vector.
#[derive(Debug, Drop)]
enum Kept<T> {
    One(T),
    Many(Vec<T>),
}

impl<T> Model for ShortList<T> {
    ghost use Rattle.std.specs.Prelude.{List};

    ghost Value = { List T };

    ghost use Rattle.mg_calc.specs.Code.Entries.{entries_of, AreFew};

    ghost view = { λ l. entries_of l.kept };

    ghost invariant = { λ l. AreFew l.kept };
}

// Written out, so that proofs about code that drops a list needn't ask where its entries are.
impl<T: Drop> Drop for ShortList<T> {
    fn drop(self) {
        let ShortList { kept } = self;
        drop(kept);
    }
}

impl<T> ShortList<T> {
    /// Returns the list of a single entry.
    pub fn one(entry: T) -> ShortList<T>
        ensures { result ≡ entry ∷ [] }
    {
        ShortList {
            kept: Kept::One(entry),
        }
    }

    /// Returns the list of a vector's entries. For 2^32 entries or more it is an error, which gives the vector back.
    pub fn from_vec(entries: Vec<T>) -> Result<ShortList<T>, AllocFailed<Vec<T>>>
        ensures ok { IsOk result ↔ (length entries.items < 2 ^ 32) }
        ensures entries { IfOk result (λ l. l ≡ entries.items) }
        ensures value_returned { IfErr result (λ e. e.value ≡ entries) }
    {
        if entries.len() < 1 << 32 {
            Ok(ShortList {
                kept: Kept::Many(entries),
            })
        } else {
            Err(AllocFailed { value: entries })
        }
    }

    /// Returns the only entry if the list keeps it in itself, and otherwise the vector of all entries as the error.
    pub fn into_one(self) -> Result<T, Vec<T>>
        ensures one { IfOk result (λ entry. self ≡ entry ∷ []) }
        ensures many { IfErr result (λ entries. self ≡ entries.items) }
    {
        let ShortList { kept } = self;
        match kept {
            Kept::One(entry) => Ok(entry),
            Kept::Many(entries) => Err(entries),
        }
    }

    /// Returns how many entries there are.
    pub fn len(&self) -> u32
        ensures { result ≡ length self.now }
    {
        match &self.kept {
            Kept::One(_) => 1,
            Kept::Many(entries) => entries.len() as u32,
        }
    }

    // Returns all entries in order.
    fn entries(&self) -> &[T]
        requires { FitsInMemory T.row }
        ensures { result.now ≡ self.now }
    {
        match &self.kept {
            Kept::One(entry) => slice::from_ref(entry),
            Kept::Many(entries) => entries.as_slice(),
        }
    }
}

impl ShortList<Packet> {
    /// Returns all packets in order.
    pub fn as_slice(&self) -> &[Packet]
        ensures { result.now ≡ self.now }
    {
        self.entries()
    }
}

impl ShortList<Laid> {
    /// Returns what is laid at each output, in order.
    pub fn as_slice(&self) -> &[Laid]
        ensures { result.now ≡ self.now }
    {
        self.entries()
    }

    /// Returns what is laid at the output of a number, from 0 on, if there is an entry for it.
    pub fn get(&self, output: u32) -> Option<&Laid>
        ensures { option_copied result ≡ slice_get self.now output }
    {
        self.as_slice().get(output as usize)
    }
}

impl<T: TryClone> TryClone for ShortList<T> {
    fn try_clone(&self, alloc: Global) -> Result<ShortList<T>, AllocError> {
        match &self.kept {
            Kept::One(entry) => Ok(ShortList::one(entry.try_clone(alloc)?)),
            Kept::Many(entries) => Ok(ShortList::from_vec(copies(alloc, entries.as_slice())?)?),
        }
    }
}
