//! From words to what they ask for.

ghost use Rattle.std.specs.Prelude.{◌≡◌, ◌⊎◌, ℕ, Option, Some, IfOk, MatchOption, MatchResult, codes, map, option_map, string_bytes};
ghost use Rattle.clap.specs.Words.{first_of, found_of, rows_of, kind_of, subcommand_rows_of};
ghost use Rattle.cli_words.specs.Words.{Commands, Asked, AskedIn, IsBudget, IsCount, IsNumberUpTo, is_true};
ghost use Rattle.cli_lines.specs.Jobs.{IsInRange};
ghost use Rattle.cli_lines.specs.declared.job.Command.{Command as CommandOf};

use crate::command_line::opaq_command;
use crate::order_text::order_joined;
use crate::usage::Usage;
use clap::error::ErrorKind;
use clap::{ArgMatches, Error};
use cli_lines::{AuditJob, Command, Job};
use std::alloc::{AllocError, Global};

fn text_at<'a>(matches: &ArgMatches<'a>, id: &str) -> Option<&'a str>
    ensures { option_map (λ s. s.now) result ≡ first_of id.now (rows_of (found_of matches.now)) }
{
    matches.get_str(id)
}

/// The subcommand that was met, with its options.
fn met<'m, 'a>(matches: &'m ArgMatches<'a>) -> Option<(&'a str, &'m ArgMatches<'a>)>
    ensures { option_map (λ p. (p.0.now, rows_of (found_of p.1.now))) result
        ≡ subcommand_rows_of matches.entry.now }
{
    matches.subcommand()
}

fn check_job(alloc: Global, matches: &ArgMatches<'_>) -> Result<Option<Command>, AllocError>
    ensures { IfOk result (λ o. MatchOption o
        ((command : CommandOf) → Commands (codes "check") (rows_of (found_of matches.now)) command → ⊥)
        (Commands (codes "check") (rows_of (found_of matches.now)))) }
{
    match text_at(matches, "order") {
        Some(text) => {
            let order = String::from_str(alloc, text)?;
            Ok(Some(Command::Lines(Job::Check(order))))
        }
        None => Ok(None),
    }
}

/// A number that is at most so great.
fn number_up_to(most: u64, text: &str) -> Option<u64>
    ensures { MatchOption result ((n : ℕ) → IsNumberUpTo most text.now n → ⊥) (IsNumberUpTo most text.now) }
{
    match text.parse::<u64>() {
        Ok(number) => { if number <= most { Some(number) } else { None } }
        Err(_) => None,
    }
}

/// The greatest budget.
const BUDGET_MAX: u64 = 1_000_000_000_000;

/// The budget, or none where no text stands; nothing where the text says no budget.
fn budget_of(matches: &ArgMatches<'_>) -> Option<Option<u64>>
    ensures { MatchOption result
        ((b : Option ℕ) → IsBudget (first_of (codes "budget") (rows_of (found_of matches.now))) b → ⊥)
        (IsBudget (first_of (codes "budget") (rows_of (found_of matches.now)))) }
{
    match text_at(matches, "budget") {
        Some(text) => match number_up_to(BUDGET_MAX, text) {
            Some(number) => Some(Some(number)),
            None => None,
        },
        None => Some(None),
    }
}

/// Whether the flag stands.
fn has_flag(matches: &ArgMatches<'_>, id: &str) -> bool
    ensures { result ≡ is_true (first_of id.now (rows_of (found_of matches.now))) }
{
    match text_at(matches, id) {
        Some(text) => text == "true",
        None => false,
    }
}

fn decide_job(matches: &ArgMatches<'_>) -> Option<Command>
    ensures { MatchOption result
        ((command : CommandOf) → Commands (codes "decide") (rows_of (found_of matches.now)) command → ⊥)
        (Commands (codes "decide") (rows_of (found_of matches.now))) }
{
    let budget = budget_of(matches)?;
    let is_certifying = has_flag(matches, "cert");
    Some(Command::Lines(Job::Decide(budget, is_certifying)))
}

/// The greatest number of nodes.
const NODES_MAX: u32 = 8;

/// The greatest number of workers of a node.
const WORKERS_MAX: u32 = 16;

/// How many the option says, if it says a number that is at least 1 and at most so great.
fn count_of(matches: &ArgMatches<'_>, id: &str, most: u32) -> Option<u32>
    ensures { MatchOption result
        ((n : ℕ) → IsCount most (first_of id.now (rows_of (found_of matches.now))) n → ⊥)
        (IsCount most (first_of id.now (rows_of (found_of matches.now)))) }
{
    let text = text_at(matches, id)?;
    match number_up_to(u64::from(most), text) {
        Some(0) | None => None,
        Some(number) => Some(number as u32),
    }
}

fn audit_job(matches: &ArgMatches<'_>) -> Option<Command>
    ensures { MatchOption result
        ((command : CommandOf) → Commands (codes "audit") (rows_of (found_of matches.now)) command → ⊥)
        (Commands (codes "audit") (rows_of (found_of matches.now))) }
{
    let nodes = count_of(matches, "nodes", NODES_MAX)?;
    let workers = count_of(matches, "workers", WORKERS_MAX)?;
    let budget = budget_of(matches)?;
    Some(Command::Audit(AuditJob {
        nodes,
        workers,
        budget,
    }))
}

/// What a subcommand with its options asks for.
fn command_of(
    alloc: Global,
    name: &str,
    matches: &ArgMatches<'_>,
) -> Result<Option<Command>, AllocError>
    ensures { IfOk result (λ o. MatchOption o
        ((command : CommandOf) → Commands name.now (rows_of (found_of matches.now)) command → ⊥)
        (Commands name.now (rows_of (found_of matches.now)))) }
{
    if name == "check" {
        check_job(alloc, matches)
    } else if name == "decide" {
        Ok(decide_job(matches))
    } else if name == "audit" {
        Ok(audit_job(matches))
    } else if name == "verify" {
        Ok(Some(Command::Lines(Job::Verify)))
    } else if name == "refute" {
        Ok(Some(Command::Lines(Job::Refute)))
    } else if name == "confirm" {
        Ok(Some(Command::Lines(Job::Confirm)))
    } else {
        Ok(None)
    }
}

fn printed(alloc: Global, text: &str) -> Usage {
    match String::from_str(alloc, text) {
        Ok(text) => Usage::Printed(text),
        Err(_) => Usage::OutOfMemory,
    }
}

/// The usage text of an error of the parser.
fn usage_of(alloc: Global, error: &Error) -> Usage
    ensures { (kind_of error.now ≡ ErrorKind.OutOfMemory) → result ≡ Usage.OutOfMemory }
{
    if error.kind() == ErrorKind::OutOfMemory {
        return Usage::OutOfMemory;
    }
    match error.to_string(alloc) {
        Ok(text) => Usage::Printed(text),
        Err(_) => Usage::OutOfMemory,
    }
}

/// The text for the user where a number of a subcommand's options is none that it takes.
fn wrong_number(name: &str, matches: &ArgMatches<'_>) -> &'static str {
    if name == "audit" && count_of(matches, "nodes", NODES_MAX).is_none() {
        "error: the number of nodes is no number from 1 to 8\n"
    } else if name == "audit" && count_of(matches, "workers", WORKERS_MAX).is_none() {
        "error: the number of workers is no number from 1 to 16\n"
    } else {
        "error: the budget is no number up to 1000000000000\n"
    }
}

/// What the words, the program's name first, ask for. A text of an order in them that begins with a hyphen is in one word with its option.
fn job_in(alloc: Global, words: &[String]) -> Result<Command, Usage>
    ensures asked { MatchResult result (AskedIn (map string_bytes words.now))
        (λ usage. (usage ≡ Usage.OutOfMemory) ⊎ ((command : CommandOf) → AskedIn (map string_bytes words.now) command → ⊥)) }
    ensures range { IfOk result IsInRange }
{
    let Ok(command_line) = opaq_command(alloc) else {
        return Err(Usage::OutOfMemory);
    };
    let matches = match command_line.try_get_matches_from(words) {
        Ok(matches) => matches,
        Err(error) => return Err(usage_of(alloc, &error)),
    };
    let Some((name, inner)) = met(&matches) else {
        return Err(printed(alloc, "error: a subcommand is needed\n"));
    };
    match command_of(alloc, name, inner) {
        Ok(Some(command)) => Ok(command),
        Ok(None) => Err(printed(alloc, wrong_number(name, inner))),
        Err(_) => Err(Usage::OutOfMemory),
    }
}

/// What the words, the program's name first, ask for.
///
/// Where they ask for nothing that the program does, or for its help, the answer is the text for the user.
pub fn job_of(alloc: Global, words: &[String]) -> Result<Command, Usage>
    ensures asked { MatchResult result (Asked (map string_bytes words.now))
        (λ usage. (usage ≡ Usage.OutOfMemory) ⊎ ((command : CommandOf) → Asked (map string_bytes words.now) command → ⊥)) }
    ensures range { IfOk result IsInRange }
{
    match order_joined(alloc, words) {
        Ok(words) => job_in(alloc, &words),
        Err(_) => Err(Usage::OutOfMemory),
    }
}
