use mg_value::{BlockList, Kind, MgText};

/// A port of a calculator: its tag, its index, and what it takes or gives. The tag is empty if the port has none.
#[derive(Debug, Drop)]
pub struct PortKind {
    pub tag: MgText,
    pub index: u8,
    pub kind: Kind,
}

/// Ports by their tags, in byte order and the empty tag first, and then by index.
pub type PortKindList = BlockList<PortKind>;
