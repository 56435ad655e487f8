ghost use Rattle.std.specs.Prelude.{◌≡◌};
ghost use Rattle.mg_kinds.specs.Tags.{tag_text};

/// A tag of the ports of built-in calculators.
#[derive(Clone, Copy, Debug, PartialEq, Eq)]
pub enum Tag {
    Untagged,
    Allow,
    Disallow,
    Input,
    Select,
    Output,
    Tick,
    Loop,
    Main,
    Finished,
    PrevLoop,
    Iterable,
    Item,
    BatchEnd,
    Clone,
    Packet,
    AtPreStream,
    AtZero,
    AtPostStream,
}

impl Tag {
    /// Returns the tag as it is spelled in a graph; empty for `Untagged`.
    pub fn text(self) -> &'static str
        ensures { result.now ≡ tag_text self }
    {
        match self {
            Tag::Untagged => "",
            Tag::Allow => "ALLOW",
            Tag::Disallow => "DISALLOW",
            Tag::Input => "INPUT",
            Tag::Select => "SELECT",
            Tag::Output => "OUTPUT",
            Tag::Tick => "TICK",
            Tag::Loop => "LOOP",
            Tag::Main => "MAIN",
            Tag::Finished => "FINISHED",
            Tag::PrevLoop => "PREV_LOOP",
            Tag::Iterable => "ITERABLE",
            Tag::Item => "ITEM",
            Tag::BatchEnd => "BATCH_END",
            Tag::Clone => "CLONE",
            Tag::Packet => "PACKET",
            Tag::AtPreStream => "AT_PRESTREAM",
            Tag::AtZero => "AT_ZERO",
            Tag::AtPostStream => "AT_POSTSTREAM",
        }
    }
}
