use mg_calc::NodeCalculator;
use mg_node::Outcome;

/// What a call gives that needs turns: its answer, or the number of the word whose turn another seat has.
#[derive(Drop)]
pub enum Tried<T> {
    /// The answer of the call.
    Done(T),
    /// Another seat has the turn of this word, and the net is as it was.
    Busy { word: u32 },
}

/// What a commit gives: how many sets or calls were laid, or the outcome again. The outcome comes back if another seat has the
/// turn, or if there is no memory.
#[derive(Drop)]
pub enum TriedCommit<C: NodeCalculator> {
    /// The work is committed, and this many sets or calls were laid with it.
    Laid(u32),
    /// Another seat has the turn of this word; the outcome comes back.
    Busy { word: u32, outcome: Outcome<C> },
    /// There was no memory; the outcome comes back.
    OutOfMemory(Outcome<C>),
}

/// What shelving gives: the work stands in its window. Or the outcome comes back, if another seat has the turn.
#[derive(Drop)]
pub enum TriedShelf<C: NodeCalculator> {
    /// The work stands in its window.
    Shelved,
    /// Another seat has the turn of this word; the outcome comes back.
    Busy { word: u32, outcome: Outcome<C> },
}
