use crate::{Law, PortKindList};
use mg_value::MgText;

/// What a calculator looks like from outside (MediaPipe, Calculators: the contract of a calculator).
#[derive(Debug, Drop)]
pub struct Shape {
    /// The calculator's name.
    pub name: MgText,
    pub inputs: PortKindList,
    pub outputs: PortKindList,
    /// The side packets that the calculator takes.
    pub sides: PortKindList,
    /// By how much at least, in units of timestamps, the calculator's packets stand after its sets, if it promises that.
    pub offset: Option<i64>,
    /// Whether the calculator keeps no state, so that several sets may be worked on at once.
    pub stateless: bool,
}

/// What is known of a user-supplied calculator: its shape and its law.
#[derive(Debug, Drop)]
pub struct OuterShape {
    pub shape: Shape,
    pub law: Law,
}
