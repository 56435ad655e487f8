//! The texts that the program writes of itself.
ghost use Rattle.std.specs.Prelude.{◌≡◌};
ghost use Rattle.mg_words.specs.Help as texts;

/// Returns the text that `--help` writes: what the program is, its commands, options and statuses, and an example.
#[tactic(auto, unfolding(crate::specs::Help::help_text))]
pub fn help_text() -> &'static [u8]
    ensures { result.now ≡ texts.help_text }
{
    HELP
}

/// Returns the text that `--version` writes: the program's name and version.
#[tactic(auto, unfolding(crate::specs::Help::version_text))]
pub fn version_text() -> &'static [u8]
    ensures { result.now ≡ texts.version_text }
{
    VERSION
}

/// Returns the note on words that are no command: how the program is used.
#[tactic(auto, unfolding(crate::specs::Help::usage_note))]
pub fn usage_text() -> &'static [u8]
    ensures { result.now ≡ texts.usage_note }
{
    USAGE
}

const VERSION: &[u8] = b"mg 0.1.0\n";

const USAGE: &[u8] =
    b"usage: mg run|solve|check|expand|generate|trace|replay [--workers N] [--max-queue-size N] [--no-queue-limit] [--number N] [--report] [--no-arrivals] [--unbuffered] GRAPH [SUBGRAPH...]\n";

const HELP: &[u8] = b"\
mg runs MediaPipe calculator graphs: packet lines in, output lines out.\n\
\n\
usage: mg COMMAND [OPTIONS] GRAPH [SUBGRAPH...]\n\
\n\
GRAPH is the file of a graph in the protobuf text form, and SUBGRAPH are up to\n\
64 files of subgraphs that it uses. A file name that begins with - goes after --.\n\
\n\
commands:\n\
\x20 run        read packet lines, run the graph, write its output lines\n\
\x20 solve      the same by the equations of the graph, without running it\n\
\x20 check      tell whether the graph is valid, and what it counts\n\
\x20 expand     write the graph with its subgraphs put in\n\
\x20 generate   run the graph on packets that are made up, write a summary\n\
\x20 trace      read all packet lines, run the graph, write what happened in it\n\
\x20 replay     read such a recorded run, make it again, write its output lines\n\
\n\
options:\n\
\x20 --workers N          threads, 0 to 64; without it num_threads of the graph\n\
\x20 --max-queue-size N   when a queue is full, 1 to 1000000 packets; without it\n\
\x20                      max_queue_size of the graph, or 100\n\
\x20 --no-queue-limit     no queue is ever full\n\
\x20 --number N           packets that generate makes, 0 to 1000000; it needs this\n\
\x20 --report             note what each node and each stream did\n\
\x20 --no-arrivals        note no packets that arrived at free nodes\n\
\x20 --unbuffered         run free nodes as soon as no more lines have come\n\
\x20 -h, --help           write this text\n\
\x20 -V, --version        write the version\n\
\n\
statuses:\n\
\x20 0  all went well\n\
\x20 1  a file could not be loaded\n\
\x20 2  the words are no command\n\
\x20 3  a graph or subgraph file was refused\n\
\x20 4  a line of the input was refused\n\
\x20 5  a calculator failed\n\
\x20 6  the input ended, and a stream never closed\n\
\x20 7  the input could not be read\n\
\x20 8  the output or the notes could not be written\n\
\x20 9  there was not enough memory\n\
\n\
example:\n\
\x20 mg run graph.pbtxt <packets.jsonl\n\
";
