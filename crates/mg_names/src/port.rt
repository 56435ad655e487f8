use mg_value::MgText;

/// A port of a graph or a node (MediaPipe, Graphs). It has a tag, empty if the port is untagged, and an index among the
/// ports of that tag, 0 to 63. It also has the name of the stream or side packet that is joined to it.
#[derive(Debug, Drop)]
pub struct Port {
    pub tag: MgText,
    pub index: u8,
    pub name: MgText,
}
