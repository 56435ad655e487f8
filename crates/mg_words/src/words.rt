//! What the words of a command line ask for.
ghost use Rattle.std.specs.Prelude.{◌≡◌, ◌≢◌, ◌++◌, [], ℕ, List, IfOk, OnOk, option_map, length, map};
ghost use Rattle.clap.specs.Words.{found_of, rows_of};
ghost use Rattle.mg_words.specs.Command as commands;
ghost use Rattle.mg_words.specs.Words as asking;
ghost use Rattle.mg_words.specs.Request.{request_view};

use crate::command_line::command;
use crate::limits::MOST_FILES;
use crate::options::{Options, are_plain};
use clap::ArgMatches;
use clap::error::ErrorKind;
use mg_value::MgText;
use std::alloc::{AllocError, Global};

/// How the plan of a graph is used.
#[derive(Clone, Copy, Debug, PartialEq, Eq)]
pub enum Way {
    /// The graph is run over the input.
    Run,
    /// The graph's equations are solved for the input.
    Solve,
    /// The graph is run over packets that are made, and a summary of its outputs is written.
    Generate,
    /// The graph is run over the input, and the events of the run are written.
    Trace,
    /// A recorded run of the graph is made again.
    Replay,
}

/// What a command does with a graph.
#[derive(Clone, Copy, Debug, PartialEq, Eq)]
pub enum Verb {
    /// The graph is checked.
    Check,
    /// The text of the graph's configuration is written.
    Expand,
    /// The graph's plan is used, in one of the ways.
    Use(Way),
}

/// What a command does with a graph, and how.
#[derive(Clone, Copy, Debug, PartialEq, Eq)]
pub struct Instruction {
    pub verb: Verb,
    /// The limit of queues in packets, if the words give one; below 0 there is no limit. Solving a graph doesn't use it.
    pub limit: Option<i32>,
    /// How many workers run the graph, 0 to 64, if the words say so. Only `run` and `generate` use it.
    pub workers: Option<u32>,
    /// How many packets `generate` makes, 0 to 1,000,000; 0 if the words don't say.
    pub number: u32,
    /// Whether the notes of a run or a solution end with a report.
    pub report: bool,
    /// Whether the notes of a run tell the arrivals at free nodes.
    pub arrivals: bool,
    /// Whether a batch of lines also ends where the input has nothing more for now, in a graph with free nodes. Only `run` uses it.
    pub unbuffered: bool,
}

/// What the words of a command line ask for.
#[derive(Debug, Drop)]
pub enum Request {
    /// The words are no command.
    Usage,
    /// The text that says what the program is and how it is used.
    Help,
    /// The program's version.
    Version,
    /// A command: what it does, and the names of its files, that of the main graph first.
    Command(Instruction, Vec<MgText>),
}

/// Returns what the words after the program's name ask for.
pub fn request_of(alloc: Global, words: &[MgText]) -> Result<Request, AllocError>
    ensures { IfOk result (λ request. request_view request ≡ asking.request_of words.now) }
{
    let mut texts = Vec::new(alloc);
    for word in words {
        texts.push(word.as_str())?;
    }
    request_by(alloc, texts.as_slice())
}

fn request_by<'a>(alloc: Global, words: &'a [&'a str]) -> Result<Request, AllocError>
    ensures { IfOk result (λ request. request_view request ≡ asking.request_of (map (λ word. word.now) words.now)) }
{
    let command = command(alloc)?;
    match command.try_get_matches_from(words) {
        Ok(matches) => request_from(alloc, &matches),
        Err(error) => request_at(error.kind()),
    }
}

// Returns what words ask for that `clap` refuses, by its reason.
fn request_at(kind: ErrorKind) -> Result<Request, AllocError>
    ensures some { OnOk result (kind ≢ ErrorKind.OutOfMemory) }
    ensures request { IfOk result (λ request. request_view request ≡ asking.request_at kind) }
{
    match kind {
        ErrorKind::OutOfMemory => Err(AllocError),
        ErrorKind::DisplayHelp => Ok(Request::Help),
        ErrorKind::DisplayVersion => Ok(Request::Version),
        _ => Ok(Request::Usage),
    }
}

// Returns what words ask for that `clap` takes.
fn request_from(alloc: Global, matches: &ArgMatches<'_>) -> Result<Request, AllocError>
    ensures { IfOk result (λ request. request_view request ≡ asking.request_from [] (rows_of (found_of matches.now))) }
{
    if are_plain(matches) {
        plain_request(alloc, matches)
    } else {
        Ok(Request::Usage)
    }
}

// Returns what words ask for that `clap` takes and whose numbers are written plainly.
fn plain_request(alloc: Global, matches: &ArgMatches<'_>) -> Result<Request, AllocError>
    ensures { IfOk result (λ request. request_view request ≡ asking.request_by (asking.command_in (asking.line_of (rows_of (found_of matches.now))))) }
{
    let files = files_of(alloc, matches)?;
    let instruction = instruction_in(word_of(matches), files.len(), Options::of(matches));
    Ok(request_with(instruction, files))
}

fn request_with(instruction: Option<Instruction>, files: Vec<MgText>) -> Request
    ensures { request_view result ≡ asking.request_by (option_map (λ o. commands.command o files.items) instruction) }
{
    match instruction {
        Some(instruction) => Request::Command(instruction, files),
        None => Request::Usage,
    }
}

// Returns what a command does, if COMMAND, the number of files and the options are those of a command.
fn instruction_in(word: &str, files: usize, options: Options) -> Option<Instruction>
    ensures { (all : List (List ℕ)) → length all ≡ files → option_map (λ o. commands.command o all) result ≡ asking.command_in (record { word = word.now; files = all; options = options }) }
{
    if keeps_rules(word, files, options) {
        ordered(verb_of(word), options)
    } else {
        None
    }
}

fn ordered(verb: Option<Verb>, options: Options) -> Option<Instruction>
    ensures { result ≡ option_map (asking.instruction_in options) verb }
{
    match verb {
        Some(verb) => Some(Instruction {
            verb,
            limit: options.limit(),
            workers: options.workers,
            number: options.number.unwrap_or(0),
            report: options.report,
            arrivals: !options.no_arrivals,
            unbuffered: options.unbuffered,
        }),
        None => None,
    }
}

// Whether words keep the rules that `clap` doesn't judge: there aren't too many files, and `generate` has a number.
fn keeps_rules(word: &str, files: usize, options: Options) -> bool
    ensures { (all : List (List ℕ)) → length all ≡ files → result ≡ asking.keeps_rules (record { word = word.now; files = all; options = options }) }
{
    files <= MOST_FILES && (options.number.is_some() || word != "generate")
}

// Returns what COMMAND says that is done.
fn verb_of(word: &str) -> Option<Verb>
    ensures { result ≡ commands.verb_of word.now }
{
    match word {
        "run" => Some(Verb::Use(Way::Run)),
        "solve" => Some(Verb::Use(Way::Solve)),
        "check" => Some(Verb::Check),
        "expand" => Some(Verb::Expand),
        "generate" => Some(Verb::Use(Way::Generate)),
        "trace" => Some(Verb::Use(Way::Trace)),
        "replay" => Some(Verb::Use(Way::Replay)),
        _ => None,
    }
}

// Returns the word that stands for COMMAND.
fn word_of<'a>(matches: &ArgMatches<'a>) -> &'a str
    ensures { result.now ≡ (asking.line_of (rows_of (found_of matches.now))).word }
{
    match matches.get_str("COMMAND") {
        Some(word) => word,
        None => "",
    }
}

// Returns the names of the files, that of the main graph first.
fn files_of(alloc: Global, matches: &ArgMatches<'_>) -> Result<Vec<MgText>, AllocError>
    ensures { IfOk result (λ files. files.items ≡ (asking.line_of (rows_of (found_of matches.now))).files) }
{
    let mut files = Vec::new(alloc);
    put_words(alloc, matches, "GRAPH", &mut files)?;
    put_words(alloc, matches, "SUBGRAPH", &mut files)?;
    Ok(files)
}

// Puts the words that `clap` took for the argument of a name at the end of a list.
fn put_words(
    alloc: Global,
    matches: &ArgMatches<'_>,
    name: &str,
    list: &mut Vec<MgText>,
) -> Result<(), AllocError>
    ensures { OnOk result (list.new.items ≡ list.old.items ++ asking.words_at name.now (rows_of (found_of matches.now))) }
{
    match matches.get_strs(name) {
        Some(words) => put_texts(alloc, words, list),
        None => Ok(()),
    }
}

fn put_texts(alloc: Global, texts: &[&str], list: &mut Vec<MgText>) -> Result<(), AllocError>
    ensures { OnOk result (list.new.items ≡ list.old.items ++ map (λ text. text.now) texts.now) }
{
    for text in texts {
        list.push(MgText::new(alloc, text)?)?;
    }
    Ok(())
}
