use mg_calc::Plan;
use std::alloc::Global;

/// What the notes of a run tell beside what went wrong.
#[derive(Clone, Copy, Debug, PartialEq, Eq)]
pub struct Reporting {
    /// Whether the report stands after the notes: what each node counts, and how far each stream has come.
    pub counts: bool,
    /// Whether there is a line for each arrival at a free node.
    pub arrivals: bool,
}

/// A run of a graph that is asked for.
#[derive(Clone, Copy)]
pub struct Run<'a> {
    /// The allocator from which the run takes its memory.
    pub alloc: Global,
    /// The graph that is run.
    pub plan: &'a Plan,
    /// What the notes tell beside what went wrong.
    pub report: Reporting,
}
