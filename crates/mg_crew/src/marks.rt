use std::alloc::{AllocError, Global};
use std::sync::atomic::AtomicBool;
use std::sync::atomic::Ordering::SeqCst;

/// A mark for each of some numbers, counted from 0, which any worker may set or take away. No contract rests on them.
#[derive(Drop)]
pub(crate) struct Marks {
    marks: Vec<AtomicBool>,
}

impl Marks {
    /// Returns `count` marks. Either all of them are set, or none.
    pub(crate) fn new(alloc: Global, count: u32, set: bool) -> Result<Marks, AllocError> {
        let mut marks = Vec::new(alloc);
        for _ in 0..count {
            marks.push(AtomicBool::new(set))?;
        }
        Ok(Marks { marks })
    }

    /// Sets the mark of a number, and returns whether it wasn't set before.
    pub(crate) fn set(&self, number: u32) -> bool {
        match self.marks.get(number as usize) {
            Some(mark) => !mark.swap(true, SeqCst),
            None => true,
        }
    }

    /// Takes the mark of a number away, and returns whether it was set before.
    pub(crate) fn clear(&self, number: u32) -> bool {
        match self.marks.get(number as usize) {
            Some(mark) => mark.swap(false, SeqCst),
            None => false,
        }
    }

    /// Sets the mark of a number, or takes it away, as `set` says.
    pub(crate) fn put(&self, number: u32, set: bool) {
        if let Some(mark) = self.marks.get(number as usize) {
            mark.store(set, SeqCst);
        }
    }

    /// Whether the mark of a number is set.
    pub(crate) fn is_set(&self, number: u32) -> bool {
        match self.marks.get(number as usize) {
            Some(mark) => mark.load(SeqCst),
            None => false,
        }
    }
}
