use crate::marks::Marks;
use std::alloc::{AllocError, Global};
use std::sync::Wait;
use std::sync::atomic::AtomicU64;
use std::sync::atomic::Ordering::SeqCst;

/// Who waits for a turn that another worker has: an edge, to have packets brought along it, or a node, to be served. An edge has its own
/// number, and a node a number past all edges. Each two words of the net share a list: it is that of the node whose words they are. Nobody
/// is in two lists. No contract rests on them.
#[derive(Drop)]
pub(crate) struct Waiting {
    // Who stands first in each list, and who stands next to each one: a number and one more, or 0.
    first: Vec<AtomicU64>,
    next: Vec<AtomicU64>,
    // Who is in a list.
    inside: Marks,
}

// Returns `count` empty lists, or ends of lists.
fn nobody(alloc: Global, count: usize) -> Result<Vec<AtomicU64>, AllocError> {
    let mut numbers = Vec::new(alloc);
    for _ in 0..count {
        numbers.push(AtomicU64::new(0))?;
    }
    Ok(numbers)
}

// Returns the number that is one less, if there is one.
fn number_of(more: u64) -> Option<u32> {
    u32::try_from(more.checked_sub(1)?).ok()
}

impl Waiting {
    /// Returns empty lists for `words` words, in which so many edges and nodes may wait.
    pub(crate) fn new(alloc: Global, words: usize, count: u32) -> Result<Waiting, AllocError> {
        Ok(Waiting {
            first: nobody(alloc, words / 2 + 1)?,
            next: nobody(alloc, count as usize)?,
            inside: Marks::new(alloc, count, false)?,
        })
    }

    /// Puts an edge or a node into the list of a word, unless it is in one.
    pub(crate) fn join<R: Wait>(&self, rt: &R, word: u32, number: u32) {
        let Some(first) = self.first.get(word as usize / 2) else {
            return;
        };
        let Some(next) = self.next.get(number as usize) else {
            return;
        };
        if !self.inside.set(number) {
            return;
        }
        for _ in rt.forever() {
            let head = first.load(SeqCst);
            next.store(head, SeqCst);
            let more = u64::from(number) + 1;
            if first.compare_exchange(head, more, SeqCst, SeqCst).is_ok() {
                return;
            }
        }
    }

    /// Empties a list, and returns who stood first in it.
    pub(crate) fn take(&self, list: usize) -> Option<u32> {
        let first = self.first.get(list)?;
        if first.load(SeqCst) == 0 {
            return None;
        }
        number_of(first.swap(0, SeqCst))
    }

    /// Lets somebody of a list that was emptied wait anew, and returns who stood next.
    pub(crate) fn next(&self, number: u32) -> Option<u32> {
        let next = number_of(self.next.get(number as usize)?.load(SeqCst));
        self.inside.clear(number);
        next
    }
}
