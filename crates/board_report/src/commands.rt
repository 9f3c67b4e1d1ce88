//! The arguments that the program accepts, as clap's commands.
ghost use Rattle.std.specs.Prelude.{◌≡◌, false, codes, IfOk};
ghost use Rattle.clap.specs.Words.{app_of, rule_of};
ghost use Rattle.board_report.specs.Commands.{bare_app, board_app, journal_rule, limited_app, readers_rule, serve_app};

use board_text::READERS;
use clap::{Arg, ArgAction, Command};
use council_core::MAX_COMMANDS;
use std::alloc::{AllocError, Global};

// The version of the program, and the toolchain and logic in which it is proved.
const VERSION: &str = "1.0.0 (rattle-kit-13 logic dac8208d650f15bf)";

const ABOUT: &str =
    "A register of the voting power of an executive board: members, their chairs, and how often each chair decides";

const AFTER_HELP: &str =
    "The input comes on standard input: the record member,votes, a record for each member, the record script, and \
     then the\n\
     records of the command. It is read to its end before the first answer is printed: a program that wants each \
     answer at\n\
     once calls the library (docs/EMBEDDING.md). For example:\n\
     \n  \
     printf 'member,votes\\nAAA,3\\nBBB,2\\nscript\\nopen,1\\nmove,AAA,1\\npublish\\nread,1,half\\n' | board \
     replay\n\n\
     docs/FORMATS.md has all records, lines, faults and their order. Status: 0 if the run ended without a fault, even \
     if\n\
     commands were refused; 1 if it ended in a fault (its name goes to standard error); 2 if the command line is \
     rejected.";

const REPLAY_ABOUT: &str =
    "Carries out the records on standard input one by one, and prints each answer";

const REPLAY_HELP: &str = "For example:\n\
     \n  \
     printf 'member,votes\\nAAA,3\\nBBB,2\\nscript\\nopen,1\\nmove,AAA,1\\npublish\\nread,1,half\\n' | board \
     replay\n\n\
     Records: open,CHAIR close,CHAIR move,CODE,CHAIR move,CODE,none votes,CODE,VOTES suspend,CODE restore,CODE\n\
     admit,CODE,VOTES withdraw,CODE publish read,R,MAJ. docs/FORMATS.md has them, and the lines.";

const TRACE_ABOUT: &str =
    "Runs the two-copy machine through the schedule on standard input, one step at a time, and prints its output";

const TRACE_HELP: &str = "For example:\n\
     \n  \
     printf 'member,votes\\nAAA,3\\nscript\\nsubmit,open,1\\npublish\\nwriter,35\\nreader,1,37\\n' | board trace\n\n\
     Records: submit and the fields of a command of replay, publish, writer,COUNT and reader,R,COUNT. \
     docs/FORMATS.md has\n\
     them, and the lines.";

const SERVE_ABOUT: &str =
    "Carries out the records on standard input by one writer and two readers, each on a thread, and audits what was \
     read";

const SERVE_HELP: &str = "For example:\n\
     \n  \
     printf 'member,votes\\nAAA,3\\nscript\\nopen,1\\npublish\\nread,1,half\\nread,2,70\\n' | board serve\n\n\
     Records: those of replay, with readers 1 and 2. docs/FORMATS.md has them, and the lines.";

// The option for the number of readers.
fn readers_option<'a>(alloc: Global) -> Arg<'a>
    ensures rule { rule_of result ≡ readers_rule }
    ensures local { result.global ≡ false }
{
    Arg::new(alloc, "readers")
        .long("readers")
        .value_name("N")
        .help("The number of readers, from 1 to 4")
        .action(ArgAction::Set)
        .value_parser(clap::value_parser!(u8).range(1..=READERS as i64))
        .default_value("1")
}

// The option for the most commands that the journal accepts.
fn journal_option<'a>(alloc: Global) -> Arg<'a>
    ensures rule { rule_of result ≡ journal_rule }
    ensures local { result.global ≡ false }
{
    Arg::new(alloc, "journal")
        .long("journal")
        .value_name("N")
        .help("The most commands that are accepted, from 1 to 1000000")
        .action(ArgAction::Set)
        .value_parser(clap::value_parser!(u32).range(1..=i64::from(MAX_COMMANDS)))
        .default_value("1000000")
}

// The command `replay`, with both options.
fn replay_command<'a>(alloc: Global) -> Result<Command<'a>, AllocError>
    ensures app { IfOk result (λ command. app_of command ≡ limited_app (codes "replay")) }
{
    Command::new(alloc, "replay")
        .about(REPLAY_ABOUT)
        .after_help(REPLAY_HELP)
        .arg(readers_option(alloc))?
        .arg(journal_option(alloc))
}

// The command `trace`, with both options.
fn trace_command<'a>(alloc: Global) -> Result<Command<'a>, AllocError>
    ensures app { IfOk result (λ command. app_of command ≡ limited_app (codes "trace")) }
{
    Command::new(alloc, "trace")
        .about(TRACE_ABOUT)
        .after_help(TRACE_HELP)
        .arg(readers_option(alloc))?
        .arg(journal_option(alloc))
}

// The command `serve`, with the option for the journal.
fn serve_command<'a>(alloc: Global) -> Result<Command<'a>, AllocError>
    ensures app { IfOk result (λ command. app_of command ≡ serve_app) }
{
    Command::new(alloc, "serve")
        .about(SERVE_ABOUT)
        .after_help(SERVE_HELP)
        .arg(journal_option(alloc))
}

// The program without its commands.
fn bare_command<'a>(alloc: Global) -> Command<'a>
    ensures app { app_of result ≡ bare_app }
{
    Command::new(alloc, "board")
        .about(ABOUT)
        .after_help(AFTER_HELP)
        .version(VERSION)
        .subcommand_required(true)
}

// The program's command line.
pub(crate) fn board_command<'a>(alloc: Global) -> Result<Command<'a>, AllocError>
    ensures app { IfOk result (λ command. app_of command ≡ board_app) }
{
    let replay = replay_command(alloc)?;
    let with_replay = bare_command(alloc).subcommand(replay)?;
    let trace = trace_command(alloc)?;
    let with_trace = with_replay.subcommand(trace)?;
    let serve = serve_command(alloc)?;
    with_trace.subcommand(serve)
}
