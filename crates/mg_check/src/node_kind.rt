use mg_kinds::CalculatorKind;

/// The calculator that works at a node.
#[derive(Clone, Copy, Debug, PartialEq, Eq)]
pub enum NodeKind {
    /// A calculator that is built in.
    BuiltIn(CalculatorKind),
    /// The user-supplied calculator of this number.
    Outer(u32),
}
