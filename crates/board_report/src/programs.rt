//! Runs the program and returns its exit status.
ghost use Rattle.std.specs.Prelude.{◌≡◌, ◌≤◌, ℕ, List, map, IfOk, IfErr};
ghost use Rattle.std.specs.Process.{exit_status};
ghost use Rattle.recording_io.specs.Tapes.{CallsWithin, IsSameWriter, OfInput, WriterRecord};
ghost use Rattle.std.specs.String.{string_bytes};
ghost use Rattle.council_core.specs.Refusals.{code_of};
ghost use Rattle.council_core.specs.declared.refusals.Refusal.TheVariants.{OutOfMemory};
ghost use Rattle.board_report.specs.Calls.{AskForNone, Asks, Explains};
ghost use Rattle.board_report.specs.declared.calls.Invocation.{Invocation};
ghost use Rattle.board_report.specs.declared.calls.Invocation.TheVariants.{Serve};
ghost use Rattle.board_report.specs.declared.calls.NoCall.TheVariants as none;
ghost use Rattle.board_report.specs.Programs.{AnswersWords, CallEnds, CallExits, IsHandled, LacksMemory, LacksWords};
ghost use Rattle.board_report.specs.Programs.{WritesFront, failure_text, no_text, streams_of, words_of};
ghost use Rattle.board_text.specs.Streams.{IsOfDevice, RunsWithin, WritesWithin, most_reads, one_more};

use crate::calls::{Invocation, NoCall};
use board_runs::{replay, trace};
use board_serve::{FreeGate, serve};
use board_text::{Fault, Limits, Line, say};
use council_core::Refusal;
use recording_io::{Recorder, RecordingReader};
use std::alloc::Global;
use std::env::Args;
use std::io;
use std::io::{ErrorKind, Read};
use std::process::ExitCode;
use std::sync::Wait;
use std::thread::Threads;

// Writes the name of a fault and returns the status.
fn fail<E: Recorder>(err: &mut E, fault: Fault) -> u8
    ensures status { result ≡ 1 }
    ensures said { WritesFront (E.recorded err.old) (E.recorded err.new) (failure_text fault.code) }
    ensures same { IsSameWriter (E.recorded err.old) (E.recorded err.new) }
    ensures writes { WritesWithin (E.recorded err.old) (E.recorded err.new) }
{
    let mut line = Line::new("board: ");
    line.text(fault.name());
    line.end();
    say(err, line.as_bytes());
    1
}

// Writes that memory ran out and returns the status.
fn fail_for_memory<E: Recorder>(err: &mut E) -> u8
    ensures status { result ≡ 1 }
    ensures said { WritesFront (E.recorded err.old) (E.recorded err.new) (failure_text (code_of OutOfMemory)) }
    ensures same { IsSameWriter (E.recorded err.old) (E.recorded err.new) }
    ensures writes { WritesWithin (E.recorded err.old) (E.recorded err.new) }
{
    fail(err, Fault::new(Refusal::OutOfMemory, 0))
}

// Writes why the arguments gave no call, or the help, and returns the status.
fn explain<W: Recorder, E: Recorder>(why: &NoCall, out: &mut W, err: &mut E) -> u8
    ensures status { result ≤ 2 }
    ensures memory { why.now ≡ none.OutOfMemory
        → LacksMemory result
        (streams_of (W.recorded out.old) (W.recorded out.new) (E.recorded err.old) (E.recorded err.new)) }
    ensures answered { (words : List (List ℕ)) → Explains words why.now
        → AnswersWords words result
        (streams_of (W.recorded out.old) (W.recorded out.new) (E.recorded err.old) (E.recorded err.new)) }
    ensures same { IsSameWriter (W.recorded out.old) (W.recorded out.new)
        × IsSameWriter (E.recorded err.old) (E.recorded err.new) }
    ensures out_writes { WritesWithin (W.recorded out.old) (W.recorded out.new) }
    ensures err_writes { WritesWithin (E.recorded err.old) (E.recorded err.new) }
{
    match why {
        NoCall::Shown(text) => {
            say(out, text.as_str().as_bytes());
            0
        }
        NoCall::Refused(text) => {
            say(err, text.as_str().as_bytes());
            2
        }
        NoCall::OutOfMemory => fail_for_memory(err),
    }
}

// Runs `serve` with a journal of at most `journal` commands and returns how it ended.
fn run_serve<T: Threads + Wait + Sync, R: Read + Drop, W: Recorder>(
    rt: &T,
    alloc: Global,
    journal: u32,
    input: &mut RecordingReader<R>,
    out: &mut W,
) -> Result<(), Fault>
    ensures ends { OfInput input.old input.new
        (λ bytes. CallEnds (Serve journal) bytes (W.recorded out.old) (W.recorded out.new) result) }
    ensures reads { RunsWithin IsOfDevice most_reads input.old.calls input.new.calls result }
    ensures same { IsSameWriter (W.recorded out.old) (W.recorded out.new) }
    ensures writes { WritesWithin (W.recorded out.old) (W.recorded out.new) }
{
    match serve(rt, alloc, &FreeGate, input, out, journal) {
        Ok(_served) => Ok(()),
        Err(fault) => Err(fault),
    }
}

// Runs the call and returns how it ended.
fn run<T: Threads + Wait + Sync, R: Read + Drop, W: Recorder>(
    rt: &T,
    alloc: Global,
    call: Invocation,
    input: &mut RecordingReader<R>,
    out: &mut W,
) -> Result<(), Fault>
    ensures ends { OfInput input.old input.new
        (λ bytes. CallEnds call bytes (W.recorded out.old) (W.recorded out.new) result) }
    ensures reads { RunsWithin IsOfDevice most_reads input.old.calls input.new.calls result }
    ensures same { IsSameWriter (W.recorded out.old) (W.recorded out.new) }
    ensures writes { WritesWithin (W.recorded out.old) (W.recorded out.new) }
{
    match call {
        Invocation::Replay { readers, journal } => {
            replay(alloc, input, out, Limits { readers, journal })
        }
        Invocation::Trace { readers, journal } => {
            trace(alloc, input, out, Limits { readers, journal })
        }
        Invocation::Serve { journal } => run_serve(rt, alloc, journal, input, out),
    }
}

// Runs the program on its arguments and returns the exit status.
fn program<T: Threads + Wait + Sync, R: Read + Drop, W: Recorder, E: Recorder>(
    rt: &T,
    alloc: Global,
    words: &[String],
    input: &mut RecordingReader<R>,
    out: &mut W,
    err: &mut E,
) -> u8
    ensures status { result ≤ 2 }
    ensures calls { (call : Invocation) → Asks (map string_bytes words.now) call
        → OfInput input.old input.new (λ bytes. CallExits call bytes result
        (streams_of (W.recorded out.old) (W.recorded out.new) (E.recorded err.old) (E.recorded err.new))) }
    ensures answers { IsHandled input.old input.new (map string_bytes words.now) result
        (streams_of (W.recorded out.old) (W.recorded out.new) (E.recorded err.old) (E.recorded err.new)) }
    ensures unread { AskForNone (map string_bytes words.now) → input.new ≡ input.old }
    ensures reads { CallsWithin (one_more most_reads) input.old.calls input.new.calls }
    ensures retried { result ≡ 0 → CallsWithin most_reads input.old.calls input.new.calls }
    ensures same { IsSameWriter (W.recorded out.old) (W.recorded out.new)
        × IsSameWriter (E.recorded err.old) (E.recorded err.new) }
    ensures out_writes { WritesWithin (W.recorded out.old) (W.recorded out.new) }
    ensures err_writes { WritesWithin (E.recorded err.old) (E.recorded err.new) }
{
    let call = match Invocation::from_words(alloc, words) {
        Ok(call) => call,
        Err(why) => return explain(&why, out, err),
    };
    match run(rt, alloc, call, input, out) {
        Ok(()) => 0,
        Err(fault) => fail(err, fault),
    }
}

// Writes why the arguments could not be read and returns the status.
fn fail_for_words<E: Recorder>(err: &mut E, error: &io::Error) -> u8
    ensures status { result ≤ 2 }
    ensures lacks { (out : WriterRecord) → LacksWords error.now result
        (streams_of out out (E.recorded err.old) (E.recorded err.new)) }
    ensures same { IsSameWriter (E.recorded err.old) (E.recorded err.new) }
    ensures writes { WritesWithin (E.recorded err.old) (E.recorded err.new) }
{
    if error.kind() == ErrorKind::OutOfMemory {
        return fail_for_memory(err);
    }
    say(err, b"error: the arguments are not text\n");
    2
}

/// The program `board`: runs the call that its arguments ask for, the first of which is the
/// program's name, on its standard streams. The exit status is:
///
/// - 0 if the call returns Ok, and for `--help` and `--version`;
/// - 1 if the call returns a fault, or memory runs out before it; standard error, `err`, then gets
///   the line `board: NAME`, or a prefix of it if writing fails;
/// - 2 if the arguments are refused, ask for no call, or aren't text; `err` then gets the reason.
///
/// If the arguments ask for a call, the text written and the status are those of `replay`, `trace`
/// or `serve` with the limits of the arguments. If clap finds a fault in them or is asked for the
/// help or the version, one of the two output streams gets its text, the other is unchanged, and
/// the input is not read. The contract does not say what clap's texts are, and of the line on
/// standard error it promises a prefix, which may be empty.
///
/// At most `READS` reads of the input are made, and none after the read that reported its end or
/// failed. At most `INTERRUPTIONS` interrupted reads are retried. Each write to `out` or `err`
/// accepts a byte, or is interrupted and retried, at most `INTERRUPTIONS` times for each of the two;
/// none follows a write that failed, accepted nothing, or was interrupted once more.
///
/// ```rust
/// let mut input = RecordingReader::new(rt.stdin());
/// let (mut stdout, mut stderr) = (rt.stdout(), rt.stderr());
/// let (mut out, mut err) = (RecordingWriter::new(&mut stdout), RecordingWriter::new(&mut stderr));
/// let code = process(&rt, rt.alloc(), env::args(&rt), &mut input, &mut out, &mut err);
/// ```
pub fn process<T: Threads + Wait + Sync, R: Read + Drop, W: Recorder, E: Recorder>(
    rt: &T,
    alloc: Global,
    args: io::Result<Args>,
    input: &mut RecordingReader<R>,
    out: &mut W,
    err: &mut E,
) -> ExitCode
    ensures status { exit_status result ≤ 2 }
    ensures calls { IfOk args (λ words. (call : Invocation) → Asks (words_of words) call
        → OfInput input.old input.new (λ bytes. CallExits call bytes (exit_status result)
        (streams_of (W.recorded out.old) (W.recorded out.new) (E.recorded err.old) (E.recorded err.new)))) }
    ensures answers { IfOk args (λ words. IsHandled input.old input.new (words_of words) (exit_status result)
        (streams_of (W.recorded out.old) (W.recorded out.new) (E.recorded err.old) (E.recorded err.new))) }
    ensures lacks { IfErr args (λ e. LacksWords e (exit_status result)
        (streams_of (W.recorded out.old) (W.recorded out.new) (E.recorded err.old) (E.recorded err.new))) }
    ensures unread { IfOk args (λ words. AskForNone (words_of words) → input.new ≡ input.old) }
    ensures kept { IfErr args (λ e. input.new ≡ input.old) }
    ensures reads { CallsWithin (one_more most_reads) input.old.calls input.new.calls }
    ensures retried { exit_status result ≡ 0 → CallsWithin most_reads input.old.calls input.new.calls }
    ensures same { IsSameWriter (W.recorded out.old) (W.recorded out.new)
        × IsSameWriter (E.recorded err.old) (E.recorded err.new) }
    ensures out_writes { WritesWithin (W.recorded out.old) (W.recorded out.new) }
    ensures err_writes { WritesWithin (E.recorded err.old) (E.recorded err.new) }
{
    let args = match args {
        Ok(args) => args,
        Err(error) => return ExitCode::from(fail_for_words(err, &error)),
    };
    let words: Vec<String> = match args.collect(alloc) {
        Ok(words) => words,
        Err(_) => return ExitCode::from(fail_for_memory(err)),
    };
    ExitCode::from(program(rt, alloc, words.as_slice(), input, out, err))
}
