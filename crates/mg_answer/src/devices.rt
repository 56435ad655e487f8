use mg_edge::{Sink, Source};

/// The devices of a run: the source of its input, and the sinks of its output and its notes.
///
/// `told_by` of `specs/Held.antt` is what all devices tell, before a call and after it. Each device has a lifetime of its own, so
/// that a caller may make this value of three references.
#[derive(Drop)]
pub struct Devices<'i, 'o, 'n, S: Source, K: Sink, E: Sink> {
    pub input: &'i mut S,
    pub output: &'o mut K,
    pub notes: &'n mut E,
}
