ghost use Rattle.std.specs.Prelude.{◌≡◌, ℕ, List};
ghost use Rattle.mg_edge.specs.Edge.{StoreTold, LoadsWithin, LoadGives, NotesLoad, LoadFaultCounts, KeepsFailedName};

use std::alloc::Global;

/// The most bytes that a load gives: one more than 4 MiB, so that a caller sees that a content is longer than that.
pub const MOST_LOADED: usize = 4_194_305;

/// What a load answers.
#[derive(Debug, Drop)]
pub enum Loaded {
    /// The whole content, or the first `MOST_LOADED` bytes of a longer one.
    Bytes(Vec<u8>),
    /// There is no such name, or it can't be read.
    Failed,
    /// Out of memory for the bytes, or for the copy of the name.
    OutOfMemory,
}

/// Contents by their names: files below a folder, or bytes in memory.
pub trait Store {
    /// What the store tells of itself.
    ghost told: { Self → StoreTold };

    /// Loads the content of a name.
    ///
    /// It changes no content. The name is appended to the names that were loaded. A load that fails leaves its name as the name of
    /// the load that failed last.
    fn load(&mut self, alloc: Global, name: &str) -> Loaded
        ensures kept { (other : List ℕ) → (told self.new).content other ≡ (told self.old).content other }
        ensures bound { LoadsWithin result }
        ensures bytes { LoadGives ((told self.old).content name.now) result }
        ensures loaded { NotesLoad (told self.old).loaded (told self.new).loaded result name.now }
        ensures failed_name { KeepsFailedName (told self.old).failed_name (told self.new).failed_name result name.now }
        ensures fault { LoadFaultCounts (told self.old).faults (told self.new).faults result };
}
