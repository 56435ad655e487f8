//! The command line of the program, as a command of `clap`.
ghost use Rattle.std.specs.Prelude.{◌≡◌, ℕ, List, IfOk, false, map};
ghost use Rattle.std.specs.Borrow.{Bor};
ghost use Rattle.clap.specs.Words.{app_of, rule_of};
ghost use Rattle.mg_words.specs.CommandLine as lines;

use clap::builder::ValueParser;
use clap::{Arg, ArgAction, Command};
use std::alloc::{AllocError, Global};

/// The words that COMMAND may be.
static VERBS: [&str; 7] = [
    "run", "solve", "check", "expand", "generate", "trace", "replay",
];

/// Returns the command line as a command of `clap`: COMMAND GRAPH SUBGRAPH..., with options and flags anywhere between them.
pub fn command<'a>(alloc: Global) -> Result<Command<'a>, AllocError>
    ensures { IfOk result (λ command. (names : Bor (List (Bor (List ℕ)))) × (map (λ name. name.now) names.now ≡ lines.verbs) × (app_of command ≡ lines.command_with names)) }
{
    let command = Command::new(alloc, "mg")
        .no_binary_name(true)
        .version("0.1.0");
    let command = with_words(alloc, command)?;
    let command = with_numbers(alloc, command)?;
    with_flags(alloc, command)
}

fn with_words<'a>(alloc: Global, command: Command<'a>) -> Result<Command<'a>, AllocError>
    ensures { IfOk result (λ c. (names : Bor (List (Bor (List ℕ)))) × (map (λ name. name.now) names.now ≡ lines.verbs) × (app_of c ≡ lines.with_words names (app_of command.entry))) }
{
    let verb = required_word(alloc, "COMMAND").value_parser(VERBS.as_slice());
    command
        .arg(verb)?
        .arg(required_word(alloc, "GRAPH"))?
        .arg(further_words(alloc, "SUBGRAPH"))
}

fn with_numbers<'a>(alloc: Global, command: Command<'a>) -> Result<Command<'a>, AllocError>
    ensures { IfOk result (λ c. app_of c ≡ lines.with_numbers (app_of command.entry)) }
{
    command
        .arg(number_option(alloc, "workers", 0, 64))?
        .arg(number_option(alloc, "max-queue-size", 1, 1_000_000))?
        .arg(number_option(alloc, "number", 0, 1_000_000))
}

fn with_flags<'a>(alloc: Global, command: Command<'a>) -> Result<Command<'a>, AllocError>
    ensures { IfOk result (λ c. app_of c ≡ lines.with_flags (app_of command.entry)) }
{
    command
        .arg(flag(alloc, "no-queue-limit"))?
        .arg(flag(alloc, "report"))?
        .arg(flag(alloc, "no-arrivals"))?
        .arg(flag(alloc, "unbuffered"))
}

// Returns an argument that is a word which has to be there.
fn required_word<'a>(alloc: Global, id: &'a str) -> Arg<'a>
    ensures rule { rule_of result ≡ lines.required_word id.entry.now }
    ensures local { result.global ≡ false }
{
    Arg::new(alloc, id).required(true)
}

// Returns an argument that takes any number of further words.
fn further_words<'a>(alloc: Global, id: &'a str) -> Arg<'a>
    ensures rule { rule_of result ≡ lines.further_words id.entry.now }
    ensures local { result.global ≡ false }
{
    Arg::new(alloc, id).action(ArgAction::Append)
}

// Returns an option with one value, a whole number from `least` to `most`.
fn number_option<'a>(alloc: Global, name: &'a str, least: i64, most: i64) -> Arg<'a>
    ensures rule { rule_of result ≡ lines.number_option name.entry.now least most }
    ensures local { result.global ≡ false }
{
    Arg::new(alloc, name)
        .long(name)
        .value_parser(ValueParser::Signed(least, most))
}

fn flag<'a>(alloc: Global, name: &'a str) -> Arg<'a>
    ensures rule { rule_of result ≡ lines.flag name.entry.now }
    ensures local { result.global ≡ false }
{
    Arg::new(alloc, name).long(name).action(ArgAction::SetTrue)
}
