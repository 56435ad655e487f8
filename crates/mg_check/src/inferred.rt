use mg_value::Kind;

/// What is known of a stream by some of its ports: its kind so far, and whether two different kinds other than `Any` met there.
#[derive(Clone, Copy, Debug, PartialEq, Eq)]
pub(crate) struct Inferred {
    pub(crate) kind: Kind,
    pub(crate) clash: bool,
}
