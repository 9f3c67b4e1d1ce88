//! A caller of `board_report`.
ghost use Rattle.std.specs.Process.{exit_status};
ghost use Rattle.board_report.specs.Calls.{Asks};
ghost use Rattle.board_report.specs.declared.calls.Invocation.{Invocation};
ghost use Rattle.board_report.specs.Programs.{CallExits, streams_of, words_of};

use board_report::{Recorder, RecordingReader, process};
use std::alloc::Global;
use std::env::Args;
use std::process::ExitCode;
use std::sync::Wait;
use std::thread::Threads;

/// Runs the program `board` on these arguments with `input` as its standard input, `out` as its standard output and
/// `err` as its standard error.
pub fn run_words<T: Threads + Wait + Sync, W: Recorder, E: Recorder>(
    rt: &T,
    alloc: Global,
    args: Args,
    input: &[u8],
    out: &mut W,
    err: &mut E,
) -> ExitCode
    ensures calls { (call : Invocation) → Asks (words_of args) call → CallExits call input.now (exit_status result)
        (streams_of (W.recorded out.old) (W.recorded out.new) (E.recorded err.old) (E.recorded err.new)) }
{
    let mut reader = RecordingReader::new(input);
    process(rt, alloc, Ok(args), &mut reader, out, err)
}
