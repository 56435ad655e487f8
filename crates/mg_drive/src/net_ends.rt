use crate::Moved;
use mg_settled::InputSet;

/// The two ends of a net that is driven: where its batches come from, and what tells the sets of its outputs. `set` is room for one of
/// these sets. `moved` notes which engines may have changed since the batches were last asked how the run goes on.
#[derive(Drop)]
pub struct NetEnds<B, T> {
    pub batches: B,
    pub telling: T,
    pub set: InputSet,
    pub moved: Moved,
}
