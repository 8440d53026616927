// How `clap` reads the words behind the first one.
ghost use Rattle.std.specs.Prelude.{◌≡◌, ℕ, [], Err, IfOk, OnOk, true, false, drop, map};
ghost use Rattle.clap.specs.Walk.{rule_of};
ghost use Rattle.clap.specs.Faults.{fault_of, is_simple_and_free};
ghost use Rattle.clap.specs.Simple.{HasMatchesOf, app_of};
ghost use Rattle.command_words.specs.Parsers.{make_app, submissions_rule, turn_app, workers_rule};
ghost use Rattle.command_words.specs.Words.{IsEnd, IsMake, IsTurn};

use crate::command::{Command, WordsFault};
use clap::builder::ValueParser;
use clap::error::ErrorKind;
use clap::{Arg, ArgAction, ArgMatches};
use std::alloc::{AllocError, Global};

// How many workers there are where the words don't say it.
const USUAL_WORKERS: u32 = 1;

// The option for the number of workers.
fn workers_arg<'a>(alloc: Global) -> Arg<'a>
    ensures rule { rule_of result ≡ workers_rule }
    ensures local { result.global ≡ false }
{
    Arg::new(alloc, "workers")
        .long("workers")
        .action(ArgAction::Set)
        .value_parser(ValueParser::unsigned(1, 16))
}

fn turn_parser<'a>(alloc: Global) -> Result<clap::Command<'a>, AllocError>
    ensures { IfOk result (λ parser. app_of parser ≡ turn_app) }
{
    clap::Command::new(alloc, "turn").arg(workers_arg(alloc))
}

fn submissions_arg<'a>(alloc: Global) -> Arg<'a>
    ensures rule { rule_of result ≡ submissions_rule }
    ensures local { result.global ≡ false }
{
    Arg::new(alloc, "submissions")
        .action(ArgAction::Set)
        .value_parser(ValueParser::unsigned(1, 10_000))
        .required(true)
}

fn make_parser<'a>(alloc: Global) -> Result<clap::Command<'a>, AllocError>
    ensures { IfOk result (λ parser. app_of parser ≡ make_app) }
{
    clap::Command::new(alloc, "make")
        .arg(submissions_arg(alloc))?
        .arg(workers_arg(alloc))
}

// The matches of these words.
fn parsed<'a>(
    command: clap::Command<'a>,
    words: &'a [&'a str],
) -> Result<ArgMatches<'a>, WordsFault>
    ensures ok { IfOk result (λ _. is_simple_and_free (app_of command.entry) ≡ true →
        fault_of (app_of command.entry) (map (λ word. word.now) words.entry.now) ≡ []) }
    ensures matches { IfOk result (HasMatchesOf (app_of command.entry) (map (λ word. word.now) words.entry.now)) }
    ensures usage { result ≡ Err WordsFault.Usage → is_simple_and_free (app_of command.entry) ≡ true →
        fault_of (app_of command.entry) (map (λ word. word.now) words.entry.now) ≡ [] → ⊥ }
{
    match command.try_get_matches_from(words) {
        Ok(matches) => Ok(matches),
        Err(error) => match error.kind() {
            ErrorKind::OutOfMemory => Err(WordsFault::NoMemory),
            _ => Err(WordsFault::Usage),
        },
    }
}

/// Reads the words of a command that takes nothing. The first word is its name.
pub fn read_bare(alloc: Global, name: &'static str, words: &[&str]) -> Result<(), WordsFault>
    ensures ok { OnOk result (IsEnd (drop 1 (map (λ word. word.now) words.now))) }
    ensures usage { result ≡ Err WordsFault.Usage → IsEnd (drop 1 (map (λ word. word.now) words.now)) → ⊥ }
{
    parsed(clap::Command::new(alloc, name), words)?;
    Ok(())
}

/// Reads the words of `turn`, of which the first is its name.
pub fn read_turn(alloc: Global, words: &[&str]) -> Result<Command, WordsFault>
    ensures ok { IfOk result (λ command. (workers : ℕ) × (command ≡ Command.Turn workers) × IsTurn (drop 1 (map (λ word. word.now) words.now)) workers) }
    ensures only { IfOk result (λ command. (workers : ℕ) → IsTurn (drop 1 (map (λ word. word.now) words.now)) workers → command ≡ Command.Turn workers) }
    ensures usage { result ≡ Err WordsFault.Usage → (workers : ℕ) → IsTurn (drop 1 (map (λ word. word.now) words.now)) workers → ⊥ }
{
    let matches = parsed(turn_parser(alloc)?, words)?;
    let workers = matches.get_one::<u32>("workers");
    Ok(Command::Turn {
        workers: workers.unwrap_or(USUAL_WORKERS),
    })
}

/// Reads the words of `make`, of which the first is its name.
pub fn read_make(alloc: Global, words: &[&str]) -> Result<Command, WordsFault>
    ensures ok { IfOk result (λ command. (submissions workers : ℕ) × (command ≡ Command.Make submissions workers) × IsMake (drop 1 (map (λ word. word.now) words.now)) submissions workers) }
    ensures only { IfOk result (λ command. (submissions workers : ℕ) → IsMake (drop 1 (map (λ word. word.now) words.now)) submissions workers → command ≡ Command.Make submissions workers) }
    ensures usage { result ≡ Err WordsFault.Usage → (submissions workers : ℕ) → IsMake (drop 1 (map (λ word. word.now) words.now)) submissions workers → ⊥ }
{
    let matches = parsed(make_parser(alloc)?, words)?;
    let workers = matches.get_one::<u32>("workers");
    // The number is required, so it is there.
    let submissions = matches.get_one::<u32>("submissions").unwrap();
    Ok(Command::Make {
        submissions,
        workers: workers.unwrap_or(USUAL_WORKERS),
    })
}
