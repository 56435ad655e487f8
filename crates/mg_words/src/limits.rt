/// The most files that a command names: that of the main graph, and 64 further ones.
pub const MOST_FILES: usize = 65;

/// The most workers that may run a graph.
pub const MOST_WORKERS: u32 = 64;
