// The commands as `clap` has them.
ghost use Rattle.std.specs.Prelude.{◌≡◌, ℕ, true, false, List, length, map, codes, string_bytes};
ghost use Rattle.std.specs.Prelude.{is_some, Some, IfOk, MatchOption};
ghost use Rattle.clap.specs.Words.{app_of, first_value, found_of, kind_of, matches_of, rows_of, rule_of, takes};
ghost use Rattle.hoist_words.specs.Table.{row_of};
ghost use Rattle.hoist_words.specs.Commands.{app_by, positional_rule, option_rule, with_rule_if};
ghost use Rattle.hoist_words.specs.Commands.{AreFiles, AreNumbers, IsReadOf};

use crate::Request;
use crate::numbers::{Numbers, number_of, seed_of};
use crate::table::{CommandName, CommandRow};
use clap::error::ErrorKind;
use clap::{Arg, ArgAction, ArgMatches, Command, Error};
use std::alloc::{AllocError, Global};

/// A positional word that has to be there.
fn positional<'a>(alloc: Global, id: &'a str) -> Arg<'a>
    ensures rule { rule_of result ≡ positional_rule id.entry.now }
    ensures local { result.global ≡ false }
{
    Arg::new(alloc, id).required(true).action(ArgAction::Set)
}

/// An option that takes a value.
fn option<'a>(alloc: Global, name: &'a str) -> Arg<'a>
    ensures rule { rule_of result ≡ option_rule name.entry.now }
    ensures local { result.global ≡ false }
{
    Arg::new(alloc, name).long(name).action(ArgAction::Set)
}

/// The command with one argument more, where it takes it.
fn with_argument<'a>(
    command: Command<'a>,
    argument: Arg<'a>,
    is_taken: bool,
) -> Result<Command<'a>, AllocError>
    requires { argument.global ≡ false }
    ensures { IfOk result (λ c. app_of c ≡ with_rule_if is_taken (rule_of argument.entry) (app_of command.entry)) }
{
    if is_taken {
        command.arg(argument)
    } else {
        Ok(command)
    }
}

/// The command of a row.
fn definition<'a>(alloc: Global, name: &'a str, row: &CommandRow) -> Result<Command<'a>, AllocError>
    ensures { IfOk result (λ c. app_of c ≡ app_by name.entry.now row.now) }
{
    let command = Command::new(alloc, name).arg(positional(alloc, "first"))?;
    let command = with_argument(command, positional(alloc, "second"), row.files > 1)?;
    let command = with_argument(command, option(alloc, "budget"), row.budget.is_some())?;
    let command = with_argument(command, option(alloc, "workers"), row.workers.is_some())?;
    let command = with_argument(command, option(alloc, "carriers"), row.carriers.is_some())?;
    with_argument(command, option(alloc, "upto"), row.upto.is_some())
}

/// The want of memory of which `clap` tells.
fn want_of_memory(_error: Error) -> AllocError
    requires { kind_of _error ≡ ErrorKind.OutOfMemory }
{
    AllocError
}

/// What the command of a row reads of words that it takes, of which the first is its name. An error is want of memory.
pub(crate) fn matches_for<'a>(
    alloc: Global,
    name: &'a str,
    row: &CommandRow,
    words: &'a [String],
) -> Result<ArgMatches<'a>, AllocError>
    requires { takes (app_by name.now row.now) (map string_bytes words.now) ≡ true }
    ensures { IfOk result (λ m. rows_of (found_of m)
        ≡ matches_of (app_by name.entry.now row.now) (map string_bytes words.entry.now)) }
{
    let command = definition(alloc, name, row)?;
    match command.try_get_matches_from(words) {
        Ok(matches) => Ok(matches),
        Err(error) => Err(want_of_memory(error)),
    }
}

/// The numbers of what a command of this row reads; None where one isn't within its limits.
fn numbers_of(row: &CommandRow, matches: &ArgMatches) -> Option<Numbers>
    requires { is_some (first_value (found_of matches.now) (codes "first")) ≡ true }
    ensures { MatchOption result ((n : Numbers) → AreNumbers row.now (found_of matches.now) n → ⊥)
        (λ n. AreNumbers row.now (found_of matches.now) n) }
{
    Some(Numbers {
        budget: number_of(row.budget, matches.get_str("budget"))?,
        workers: number_of(row.workers, matches.get_str("workers"))?,
        carriers: number_of(row.carriers, matches.get_str("carriers"))?,
        upto: number_of(row.upto, matches.get_str("upto"))?,
        seed: seed_of(row.seed, matches.get_str("first").unwrap())?,
    })
}

/// The word that was read in this place. An error is want of memory.
fn word_at(alloc: Global, matches: &ArgMatches, place: &str) -> Result<String, AllocError>
    requires { is_some (first_value (found_of matches.now) place.now) ≡ true }
    ensures { IfOk result (λ s. first_value (found_of matches.now) place.now ≡ Some (string_bytes s)) }
{
    String::from_str(alloc, matches.get_str(place).unwrap())
}

/// The request of what a command reads, with numbers that are within its limits. An error is want of memory.
fn request_with(
    alloc: Global,
    command: CommandName,
    matches: &ArgMatches,
    numbers: Numbers,
) -> Result<Request, AllocError>
    requires files { (files : List (List ℕ)) × (length files ≡ (row_of command).files)
        × AreFiles (found_of matches.now) files }
    requires numbers { AreNumbers (row_of command) (found_of matches.now) numbers }
    ensures { IfOk result (λ r. IsReadOf command (found_of matches.now) (Some r)) }
{
    match command {
        CommandName::Solve => Ok(Request::Solve {
            file: word_at(alloc, matches, "first")?,
            budget: numbers.budget,
            workers: numbers.workers,
        }),
        CommandName::Check => Ok(Request::Check {
            file: word_at(alloc, matches, "first")?,
            answer: word_at(alloc, matches, "second")?,
        }),
        CommandName::Run => Ok(Request::Run {
            file: word_at(alloc, matches, "first")?,
            answer: word_at(alloc, matches, "second")?,
            carriers: numbers.carriers,
        }),
        CommandName::Chart => Ok(Request::Chart {
            file: word_at(alloc, matches, "first")?,
            answer: word_at(alloc, matches, "second")?,
        }),
        CommandName::Drill => Ok(Request::Drill { seed: numbers.seed }),
        CommandName::Sweep => Ok(Request::Sweep {
            file: word_at(alloc, matches, "first")?,
            upto: numbers.upto,
            budget: numbers.budget,
            workers: numbers.workers,
        }),
        CommandName::Margin => Ok(Request::Margin {
            file: word_at(alloc, matches, "first")?,
            answer: word_at(alloc, matches, "second")?,
        }),
        CommandName::Follow => Ok(Request::Follow {
            file: word_at(alloc, matches, "first")?,
            log: word_at(alloc, matches, "second")?,
        }),
        CommandName::Batch => Ok(Request::Batch {
            list: word_at(alloc, matches, "first")?,
            budget: numbers.budget,
            workers: numbers.workers,
        }),
    }
}

/// The request of what a command reads; None where a value isn't a number within its limits. An error is no memory.
pub(crate) fn request_of(
    alloc: Global,
    command: CommandName,
    matches: &ArgMatches,
) -> Result<Option<Request>, AllocError>
    requires { (files : List (List ℕ)) × (length files ≡ (row_of command).files)
        × AreFiles (found_of matches.now) files }
    ensures { IfOk result (λ r. IsReadOf command (found_of matches.now) r) }
{
    let Some(numbers) = numbers_of(&command.row(), matches) else {
        return Ok(None);
    };
    let request = request_with(alloc, command, matches, numbers)?;
    Ok(Some(request))
}
