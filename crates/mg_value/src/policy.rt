/// Which packets a node waits for before it is shown an input set (MediaPipe, Synchronization, input policies).
#[derive(Clone, Copy, Debug, PartialEq, Eq)]
pub enum Policy {
    /// All inputs: packets of equal timestamps make one input set.
    Default,
    /// The last input, SELECT, and the input whose number its packet carries.
    Mux,
}
