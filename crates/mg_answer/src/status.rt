ghost use Rattle.std.specs.Prelude.{◌≡◌};
ghost use Rattle.mg_answer.specs.Status.{number_of};

/// How a call of the program ended. `StoreFault`, `Usage` and `GraphRefused` are of calls that run no graph. A run ends with any
/// other status.
#[derive(Clone, Copy, Debug, PartialEq, Eq)]
pub enum Status {
    /// All went well.
    Good,
    /// A file couldn't be loaded.
    StoreFault,
    /// The words of the command line are no command.
    Usage,
    /// A graph file was refused.
    GraphRefused,
    /// A line of the input wasn't good. The lines before it count.
    LineRefused,
    /// A calculator failed.
    NodeFault,
    /// The input ended, and a stream never closed.
    Stalled,
    /// The input couldn't be read to its end. The lines that were whole before count.
    ReadFault,
    /// The output or the notes couldn't be written.
    WriteFault,
    /// Memory ran out.
    OutOfMemory,
}

impl Status {
    /// Returns the number that the program exits with.
    pub fn number(self) -> u8
        ensures { result ≡ number_of self }
    {
        match self {
            Status::Good => 0,
            Status::StoreFault => 1,
            Status::Usage => 2,
            Status::GraphRefused => 3,
            Status::LineRefused => 4,
            Status::NodeFault => 5,
            Status::Stalled => 6,
            Status::ReadFault => 7,
            Status::WriteFault => 8,
            Status::OutOfMemory => 9,
        }
    }
}
