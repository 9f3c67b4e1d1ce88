//! The two kinds of run.
ghost use Rattle.std.specs.Prelude.{⊤};
ghost use Rattle.recording_io.specs.Tapes.{IsSameWriter, OfInput};
ghost use Rattle.board_runs.specs.Ended.{WritesOutput, RecordsOutput};
ghost use Rattle.board_runs.specs.Replays.{run_of};
ghost use Rattle.board_runs.specs.Traces.{trace_of};
ghost use Rattle.board_c.specs.Kinds.{run_as};
ghost use Rattle.board_c.specs.declared.runs.kinds.Kind.{Kind};

use board_runs::{replay, trace};
use board_text::{Fault, Limits};
use recording_io::{Recorder, RecordingReader, RecordingWriter};
use std::alloc::Global;
use std::io::{Read, Write};

// A run of a script on the register, or of a schedule on the two-copy machine.
#[derive(Clone, Copy)]
pub(crate) enum Kind {
    Replay,
    Trace,
}

// A replay. It isn't inlined, so that a call needs the stack of one kind of run and not of both.
#[inline(never)]
fn run_replay<R: Read + Drop, W: Recorder>(
    alloc: Global,
    input: &mut RecordingReader<R>,
    out: &mut W,
    limits: Limits,
) -> Result<(), Fault>
    ensures wrote { OfInput input.old input.new
        (λ bytes. RecordsOutput (W.recorded out.old) (W.recorded out.new) result (run_of limits bytes)) }
    ensures same { IsSameWriter (W.recorded out.old) (W.recorded out.new) }
{
    replay(alloc, input, out, limits)
}

// A trace, which isn't inlined either.
#[inline(never)]
fn run_trace<R: Read + Drop, W: Recorder>(
    alloc: Global,
    input: &mut RecordingReader<R>,
    out: &mut W,
    limits: Limits,
) -> Result<(), Fault>
    ensures wrote { OfInput input.old input.new
        (λ bytes. RecordsOutput (W.recorded out.old) (W.recorded out.new) result (trace_of limits bytes)) }
    ensures same { IsSameWriter (W.recorded out.old) (W.recorded out.new) }
{
    trace(alloc, input, out, limits)
}

// Runs an input, and records the lines of the run.
fn record<R: Read + Drop, W: Recorder>(
    alloc: Global,
    kind: Kind,
    input: &mut RecordingReader<R>,
    out: &mut W,
    limits: Limits,
) -> Result<(), Fault>
    ensures wrote { OfInput input.old input.new
        (λ bytes. RecordsOutput (W.recorded out.old) (W.recorded out.new) result (run_as kind limits bytes)) }
    ensures same { IsSameWriter (W.recorded out.old) (W.recorded out.new) }
{
    match kind {
        Kind::Replay => run_replay(alloc, input, out, limits),
        Kind::Trace => run_trace(alloc, input, out, limits),
    }
}

// Runs an input, and writes the lines of the run. The contents of `out` are known, but not its
// writes, so no fact says that one failed: `⊤`.
pub(crate) fn carry_out<R: Read + Drop, W: Write>(
    alloc: Global,
    kind: Kind,
    input: &mut RecordingReader<R>,
    out: &mut W,
    limits: Limits,
) -> Result<(), Fault>
    ensures wrote { OfInput input.old input.new
        (λ bytes. WritesOutput ⊤ (W.contents out.old) (W.contents out.new) result (run_as kind limits bytes)) }
{
    let mut recorder = RecordingWriter::new(out);
    let result = record(alloc, kind, input, &mut recorder, limits);
    let _out = recorder.into_inner();
    result
}
