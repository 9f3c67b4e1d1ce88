//! Parses the arguments of the program into a call.
ghost use Rattle.std.specs.Prelude.{◌≡◌, List, Some, map};
ghost use Rattle.std.specs.String.{string_bytes};
ghost use Rattle.clap.specs.Words.{HasKind, Text, fault_of, found_of, kind_of, rows_of, subcommand_rows_of};
ghost use Rattle.clap.specs.declared.error.ErrorKind.TheVariants.{OutOfMemory as LackOfMemory};
ghost use Rattle.board_report.specs.Calls.{AnswersLine, Explains, HasJournal, HasReaders, IsCall, IsFound};
ghost use Rattle.board_report.specs.Commands.{board_app};
ghost use Rattle.board_report.specs.declared.calls.NoCall.TheVariants.{OutOfMemory};

use crate::commands::board_command;
use clap::error::ErrorKind;
use clap::{ArgMatches, Error};
use std::alloc::{AllocError, Global};
use thiserror::Error;

/// A call that the arguments of a command line ask for.
#[derive(Clone, Copy, Debug, PartialEq, Eq)]
pub enum Invocation {
    /// `replay`, with the number of readers, from 1 to `READERS`, and the most commands that the
    /// journal accepts, from 1 to `MAX_COMMANDS`.
    Replay { readers: u8, journal: u32 },
    /// `trace`, with the same limits as `replay`.
    Trace { readers: u8, journal: u32 },
    /// `serve`, with the most commands that the journal accepts, from 1 to `MAX_COMMANDS`.
    Serve { journal: u32 },
}

/// Why a command line gave no call.
#[derive(Debug, Drop, Error)]
pub enum NoCall {
    /// The arguments ask for the help or the version: its text.
    #[error("{0}")]
    Shown(String),
    /// The arguments were refused: the reason, as clap writes it.
    #[error("{0}")]
    Refused(String),
    /// Out of memory.
    #[error("out of memory")]
    OutOfMemory,
}

impl From<AllocError> for NoCall {
    ghost from_gives = { λ _ e. e ≡ OutOfMemory };

    fn from(_error: AllocError) -> NoCall {
        NoCall::OutOfMemory
    }
}

// The journal limit that clap found, in commands, if it found one.
fn journal_of(matches: &ArgMatches<'_>) -> Option<u32>
    ensures found { IsFound result (HasJournal (rows_of (found_of matches.now))) }
{
    matches.get_one::<u32>("journal")
}

// The number of readers that clap found, if it found one.
fn readers_of(matches: &ArgMatches<'_>) -> Option<u8>
    ensures found { IsFound result (HasReaders (rows_of (found_of matches.now))) }
{
    matches.get_one::<u8>("readers")
}

// The text of clap's error for arguments that gave no call.
fn explanation(alloc: Global, error: &Error) -> NoCall
    ensures memory { kind_of error.now ≡ LackOfMemory → result ≡ OutOfMemory }
    ensures explained { (words : List Text) → HasKind (fault_of board_app words) error.now → Explains words result }
{
    if error.kind() == ErrorKind::OutOfMemory {
        return NoCall::OutOfMemory;
    }
    match error.to_string(alloc) {
        Ok(text) if error.use_stderr() => NoCall::Refused(text),
        Ok(text) => NoCall::Shown(text),
        Err(_) => NoCall::OutOfMemory,
    }
}

impl Invocation {
    // The call of the command of this name, if it is one of the three and has its numbers, as clap
    // sees to.
    fn of_command(name: &str, found: &ArgMatches<'_>) -> Option<Invocation>
        ensures found { IsFound result (IsCall (Some (name.now, rows_of (found_of found.now)))) }
    {
        let journal = journal_of(found)?;
        if name == "serve" {
            return Some(Invocation::Serve { journal });
        }
        let readers = readers_of(found)?;
        if name == "replay" {
            return Some(Invocation::Replay { readers, journal });
        }
        if name == "trace" {
            return Some(Invocation::Trace { readers, journal });
        }
        None
    }

    // The call of the command that clap found.
    fn of_matches(matches: &ArgMatches<'_>) -> Option<Invocation>
        ensures found { IsFound result (IsCall (subcommand_rows_of matches.now)) }
    {
        match matches.subcommand() {
            Some((name, found)) => Invocation::of_command(name, found),
            None => None,
        }
    }

    /// The call that these arguments ask for. The first argument is the program's name.
    ///
    /// # Errors
    ///
    /// - `NoCall::Shown`: the arguments ask for the help or the version.
    /// - `NoCall::Refused`: clap finds a fault in the arguments, or they ask for no call.
    /// - `NoCall::OutOfMemory`: possible for any arguments.
    pub fn from_words(alloc: Global, words: &[String]) -> Result<Invocation, NoCall>
        ensures answers { AnswersLine (map string_bytes words.now) result }
    {
        let command = board_command(alloc)?;
        let matches = match command.try_get_matches_from(words) {
            Ok(matches) => matches,
            Err(error) => return Err(explanation(alloc, &error)),
        };
        match Invocation::of_matches(&matches) {
            Some(call) => return Ok(call),
            None => return Err(NoCall::Refused("".to_string(alloc)?)),
        }
    }
}
