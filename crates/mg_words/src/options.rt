//! The options of a command line.
ghost use Rattle.std.specs.Prelude.{◌≡◌};
ghost use Rattle.clap.specs.Words.{found_of, rows_of};
ghost use Rattle.mg_words.specs.Words as asking;

use clap::ArgMatches;

// The greatest limit of queues that a plan can have.
const MOST_LIMIT: u32 = 2_147_483_647;

/// The options of a command line. `None` and `false` stand for options that weren't used.
#[derive(Clone, Copy, Debug, PartialEq, Eq)]
pub struct Options {
    /// How many workers are to run the graph, 0 to 64.
    pub workers: Option<u32>,
    /// The limit of queues, 1 to 1,000,000 packets.
    pub max_queue_size: Option<u32>,
    /// How many packets are to be made, 0 to 1,000,000.
    pub number: Option<u32>,
    /// Whether queues have no limit.
    pub no_queue_limit: bool,
    /// Whether the notes end with a report.
    pub report: bool,
    /// Whether the notes tell no arrivals at free nodes.
    pub no_arrivals: bool,
    /// Whether a batch also ends where the input has nothing more for now, in a graph with free nodes.
    pub unbuffered: bool,
}

impl Options {
    /// Returns the options of words that `clap` took.
    pub fn of(matches: &ArgMatches<'_>) -> Options
        ensures { result ≡ asking.options_of (rows_of (found_of matches.now)) }
    {
        Options {
            workers: number_of(matches, "workers"),
            max_queue_size: number_of(matches, "max-queue-size"),
            number: number_of(matches, "number"),
            no_queue_limit: flag_of(matches, "no-queue-limit"),
            report: flag_of(matches, "report"),
            no_arrivals: flag_of(matches, "no-arrivals"),
            unbuffered: flag_of(matches, "unbuffered"),
        }
    }

    /// Returns the limit of queues that is asked for, if one is, as a plan has it: below 0 there is no limit. If both options are used, the
    /// flag counts.
    pub fn limit(self) -> Option<i32>
        ensures { result ≡ asking.limit_in self }
    {
        if self.no_queue_limit {
            return Some(-1);
        }
        match self.max_queue_size {
            Some(size) => Some(size.min(MOST_LIMIT) as i32),
            None => None,
        }
    }
}

fn number_of(matches: &ArgMatches<'_>, name: &str) -> Option<u32>
    ensures { result ≡ asking.number_of name.now (rows_of (found_of matches.now)) }
{
    matches.get_one::<u32>(name)
}

fn flag_of(matches: &ArgMatches<'_>, name: &str) -> bool
    ensures { result ≡ asking.flag_of name.now (rows_of (found_of matches.now)) }
{
    match matches.get_str(name) {
        Some(text) => text == "true",
        None => false,
    }
}

/// Whether all numbers are written plainly: as decimal digits without a sign or a leading zero.
pub fn are_plain(matches: &ArgMatches<'_>) -> bool
    ensures { result ≡ asking.are_plain (rows_of (found_of matches.now)) }
{
    is_plain_at(matches, "workers")
        && is_plain_at(matches, "max-queue-size")
        && is_plain_at(matches, "number")
}

fn is_plain_at(matches: &ArgMatches<'_>, name: &str) -> bool
    ensures { result ≡ asking.is_plain_at name.now (rows_of (found_of matches.now)) }
{
    match matches.get_str(name) {
        Some(text) => is_plain(text.as_bytes()),
        None => true,
    }
}

fn is_plain(text: &[u8]) -> bool
    ensures { result ≡ asking.is_plain text.now }
{
    match text {
        [] => false,
        [first, rest @ ..] => first.is_ascii_digit() && (*first != b'0' || rest.is_empty()),
    }
}
