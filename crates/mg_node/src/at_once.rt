use crate::Work;
use mg_calc::NodeCalculator;

/// How far the work of a node's next set came in a call that claims, performs and commits it.
#[derive(Drop)]
pub enum AtOnce<C: NodeCalculator> {
    /// No set is shown: works are under way, or a claim may answer with something else than a set. Nothing has changed.
    Other,
    /// Neither a set nor the end can be told yet. Nothing has changed.
    NotReady,
    /// The work is claimed; memory didn't suffice to perform it.
    Claimed(Work<C>),
    /// The work of this number is performed and stands in the node's window; memory didn't suffice to commit it.
    Performed(u64),
    /// The work of this number is committed.
    Committed(u64),
}
