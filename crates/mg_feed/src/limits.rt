/// The most bytes of a line, without its line feed.
pub const LONGEST_LINE: usize = 1_048_576;

/// The most lines of an input, blank ones too.
pub const MOST_LINES: u64 = 4_000_000;

/// The most bytes that are read at once.
pub const LONGEST_BLOCK: usize = 65_536;
