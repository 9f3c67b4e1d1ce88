//! Runs the two-copy machine on a schedule.
ghost use Rattle.std.specs.Prelude.{◌≡◌, false, replicate, IfErr, OnOk};
ghost use Rattle.two_copy_steps.specs.Transitions.{state_after_events, transition};
ghost use Rattle.board_runs.specs.Notes.{note_lines};
ghost use Rattle.board_text.specs.Streams.{IsOfDevice, RunsWithin, WritesWithin, most_reads};
ghost use Rattle.board_text.specs.Output.{IsBadLimit, IsMemoryOrWrite, WritesRun};
ghost use Rattle.board_runs.specs.Ended.{RecordsOutput};
ghost use Rattle.board_text.specs.OutputStates.{IsSameOutput};
ghost use Rattle.board_text.specs.Text.{in_range, printed_run};
ghost use Rattle.recording_io.specs.Tapes.{IsSameWriter, OfInput};
ghost use Rattle.board_runs.specs.Schedules.{events_within};
ghost use Rattle.board_runs.specs.Traces.{output_lines, trace_effect, trace_of, trace_start};

use crate::notes::line_of_note;
use crate::runs::run;
use crate::schedules::events_in;
use board_text::{Fault, Interpreter, Limits, Output, ScriptStart, Stop};
use council_core::Refusal;
use csv::ByteRecord;
use recording_io::{Recorder, RecordingReader};
use std::alloc::Global;
use std::io::Read;
use std::marker::Model;
use two_copy_steps::{Event, Machine, Note};

// Writes the line of an output of the machine, if it has one.
fn write_note<W: Recorder>(note: Note, out: &mut Output<'_, W>) -> Result<(), Stop>
    ensures wrote { WritesRun out.old.contents out.new.contents result (printed_run (note_lines note)) }
    ensures causes { IfErr result (IsMemoryOrWrite out.new) }
    ensures same_output { IsSameOutput out.old out.new }
{
    match line_of_note(note) {
        Some(line) => out.write_line(line),
        None => Ok(()),
    }
}

// Takes the machine through one event.
fn carry_out_event<W: Recorder>(
    machine: &mut Machine,
    event: Event,
    out: &mut Output<'_, W>,
) -> Result<(), Stop>
    ensures wrote { WritesRun out.old.contents out.new.contents result
        (printed_run (note_lines (transition machine.old event).1)) }
    ensures state { OnOk result (machine.new ≡ (transition machine.old event).0) }
    ensures causes { IfErr result (IsMemoryOrWrite out.new) }
    ensures same_output { IsSameOutput out.old out.new }
{
    write_note(machine.step(event)?, out)
}

// Takes the machine through an event `count` times.
fn carry_out_events<W: Recorder>(
    machine: &mut Machine,
    event: &Event,
    count: u32,
    out: &mut Output<'_, W>,
) -> Result<(), Stop>
    ensures wrote { WritesRun out.old.contents out.new.contents result
        (printed_run (output_lines machine.old (replicate count event.now))) }
    ensures state { OnOk result (machine.new ≡ state_after_events machine.old (replicate count event.now)) }
    ensures causes { IfErr result (IsMemoryOrWrite out.new) }
    ensures same_output { IsSameOutput out.old out.new }
{
    for _turn in 0..count {
        carry_out_event(machine, *event, out)?;
    }
    Ok(())
}

// The machine of a schedule, as a type of this crate, since a crate can't implement another crate's
// trait for another crate's `Machine`.
#[derive(Drop)]
struct Scheduled {
    machine: Machine,
}

impl Model for Scheduled {
    ghost use Rattle.two_copy_steps.specs.Transitions.{MachineState};

    ghost Value = { MachineState };

    ghost view = { λ s. s.machine };
}

impl Interpreter for Scheduled {
    type Asked = (Event, u32);

    ghost opened = { trace_start };

    ghost parsed = { events_within };

    ghost effect = { trace_effect };

    fn open(_alloc: Global, start: ScriptStart, limits: Limits) -> Result<Scheduled, Stop> {
        match Machine::start(start.register, limits.readers) {
            Ok(machine) => Ok(Scheduled { machine }),
            Err(_) => unreachable!(),
        }
    }

    fn parse(limits: Limits, row: &ByteRecord) -> Result<(Event, u32), Refusal> {
        events_in(limits, row)
    }

    fn carry_out<W: Recorder>(
        &mut self,
        events: (Event, u32),
        out: &mut Output<'_, W>,
    ) -> Result<(), Stop> {
        carry_out_events(&mut self.machine, &events.0, events.1, out)
    }
}

/// Runs the two-copy machine on the schedule of an input. The machine has one writer and
/// `limits.readers` readers, and takes a step only where a record of the schedule asks for it. Each
/// event prints the machine's output; an event that only moves an actor prints nothing.
///
/// The contract relates the text written and the result to `trace_of` of the input's bytes, as in
/// `replay`, and the bounds on reads and writes are those of `replay`.
///
/// ```rust
/// let mut input = RecordingReader::new(schedule); // `schedule` is a `&[u8]`
/// let mut lines = Vec::new(alloc);
/// let mut out = RecordingWriter::new(&mut lines);
/// let limits = Limits { readers: 2, journal: 1000 };
/// let result = trace(alloc, &mut input, &mut out, limits);
/// ```
///
/// # Errors
///
/// The faults of `replay`, in the same order and with the same lines. Running out of memory while a
/// command is submitted ends the run with `OutOfMemory`; the machine prints no line for it.
pub fn trace<R: Read + Drop, W: Recorder>(
    alloc: Global,
    input: &mut RecordingReader<R>,
    out: &mut W,
    limits: Limits,
) -> Result<(), Fault>
    ensures wrote { OfInput input.old input.new
        (λ bytes. RecordsOutput (W.recorded out.old) (W.recorded out.new) result (trace_of limits bytes)) }
    ensures limits_first { in_range limits ≡ false → IsBadLimit result × (input.new ≡ input.old) }
    ensures reads { RunsWithin IsOfDevice most_reads input.old.calls input.new.calls result }
    ensures same { IsSameWriter (W.recorded out.old) (W.recorded out.new) }
    ensures writes { WritesWithin (W.recorded out.old) (W.recorded out.new) }
{
    run::<Scheduled, R, W>(alloc, input, out, limits)
}
