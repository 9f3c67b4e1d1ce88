//! A whole run: its lines, and the line of its fault.
ghost use Rattle.std.specs.Prelude.{◌≡◌, false};
ghost use Rattle.recording_io.specs.Tapes.{IsSameWriter, OfInput};
ghost use Rattle.board_text.specs.Streams.{IsOfDevice, RunsWithin, WritesWithin, most_reads};
ghost use Rattle.board_text.specs.Output.{IsBadLimit};
ghost use Rattle.board_text.specs.Scripts.{interpreted_course, run_in};
ghost use Rattle.board_text.specs.Text.{in_range};
ghost use Rattle.board_runs.specs.Ended.{RecordsOutput};

use board_text::{Fault, Interpreter, Limits, Output, end_run, interpret};
use recording_io::{Recorder, RecordingReader};
use std::alloc::Global;
use std::io::Read;

// Interprets the input and writes all lines to a writer.
pub(crate) fn run<I: Interpreter, R: Read + Drop, W: Recorder>(
    alloc: Global,
    input: &mut RecordingReader<R>,
    out: &mut W,
    limits: Limits,
) -> Result<(), Fault>
    ensures wrote { OfInput input.old input.new
        (λ bytes. RecordsOutput (W.recorded out.old) (W.recorded out.new) result
        (run_in (interpreted_course I.opened I.parsed I.effect limits bytes))) }
    ensures limits_first { in_range limits ≡ false → IsBadLimit result × (input.new ≡ input.old) }
    ensures reads { RunsWithin IsOfDevice most_reads input.old.calls input.new.calls result }
    ensures same { IsSameWriter (W.recorded out.old) (W.recorded out.new) }
    ensures writes { WritesWithin (W.recorded out.old) (W.recorded out.new) }
{
    let mut output = Output::new(out);
    let carried = interpret::<I, R, W>(alloc, input, &mut output, limits);
    let result = end_run(&mut output, carried);
    let _out = output.into_inner();
    result?;
    Ok(())
}
