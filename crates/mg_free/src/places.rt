//! The places of numbers in a list.
ghost use Rattle.std.specs.Prelude.{◌≡◌, ◌<◌, All, IfOk, length, map, replicate, slice_set};
ghost use Rattle.std.specs.Prelude.{List, ℕ};
ghost use Rattle.mg_free.specs.Core.{place_in};
ghost use Rattle.mg_free.specs.Code.Places.{ArePlaces, place_at};

use mg_value::NumberList;
use std::alloc::{AllocError, Global};

/// A table with the place of each number of a list, and the length of the list for every other number.
#[derive(Drop)]
pub struct Places {
    /// The place of each number that the table has.
    pub table: Vec<u32>,
    /// The place of all numbers past the table, and of those in it that aren't in the list.
    pub past: u32,
}

// Returns a table of `count` numbers, all at the same place.
fn all_same(alloc: Global, place: u32, count: u32) -> Result<Vec<u32>, AllocError>
    ensures { IfOk result (λ table. table.items ≡ replicate count place) }
{
    vec![in alloc; place; count as usize]
}

// Sets the place of a number.
fn put(table: &mut [u32], number: u32, place: u32)
    requires { number < length table.old }
    ensures { table.new ≡ slice_set table.old number place }
{
    table[number as usize] = place;
}

impl Places {
    /// Returns the places of a list's numbers, which are below `count`. A number that the list has twice has the first of its places.
    pub fn of(alloc: Global, list: &NumberList, count: u32) -> Result<Places, AllocError>
        requires { All (λ n. n < count) list.now }
        ensures { IfOk result (λ places. ArePlaces places list.now) }
    {
        let past = list.len();
        let numbers = list.as_slice();
        let mut table = all_same(alloc, past, count)?;
        for place in (0..past).rev() {
            put(&mut table, numbers[place as usize], place);
        }
        Ok(Places { table, past })
    }

    /// Returns the place of a number, or the length of the list if the list doesn't have it.
    pub fn at(&self, number: u32) -> u32
        ensures { result ≡ place_at self.now number }
    {
        match self.table.get(number as usize) {
            Some(place) => *place,
            None => self.past,
        }
    }

    /// Returns the places of numbers, in the same order.
    pub fn of_all(&self, alloc: Global, numbers: &[u32]) -> Result<NumberList, AllocError>
        ensures { IfOk result (λ places. (list : List ℕ) → ArePlaces self.now list → places ≡ map (place_in list) numbers.now) }
    {
        let mut places = Vec::with_capacity(alloc, numbers.len())?;
        for number in numbers {
            places.push(self.at(*number))?;
        }
        Ok(NumberList::from_vec(places)?)
    }
}
