//! Replays an input on the register.
ghost use Rattle.std.specs.Prelude.{◌≡◌, map, false, IfErr, OnOk};
ghost use Rattle.council_core.specs.Sequential.{response_to, published_sheet};
ghost use Rattle.board_text.specs.Lines.{chair_line, reading_lines, reply_lines};
ghost use Rattle.board_text.specs.Streams.{IsOfDevice, RunsWithin, WritesWithin, most_reads};
ghost use Rattle.board_text.specs.Output.{IsBadLimit, IsMemoryOrWrite, WritesRun};
ghost use Rattle.board_runs.specs.Ended.{RecordsOutput};
ghost use Rattle.board_text.specs.OutputStates.{IsSameOutput};
ghost use Rattle.board_text.specs.Requests.{call_of};
ghost use Rattle.board_text.specs.Text.{in_range, printed_run, request_within};
ghost use Rattle.recording_io.specs.Tapes.{IsSameWriter, OfInput};
ghost use Rattle.board_runs.specs.Replays.{replay_effect, replay_start, run_of};

use crate::desks::Desk;
use crate::runs::run;
use board_text::{
    Fault, Interpreter, Limits, Output, Request, ScriptStart, Stop, line_of_answer, line_of_chair,
    line_of_reading, request_in,
};
use council_core::Refusal;
use csv::ByteRecord;
use majority_rule::Majority;
use power_index::ChairPower;
use recording_io::{Recorder, RecordingReader};
use std::alloc::Global;
use std::io::Read;

// Writes the lines of these chairs.
fn write_chairs<W: Recorder>(rows: &[ChairPower], out: &mut Output<'_, W>) -> Result<(), Stop>
    ensures wrote { WritesRun out.old.contents out.new.contents result (printed_run (map chair_line rows.now)) }
    ensures causes { IfErr result (IsMemoryOrWrite out.new) }
    ensures same_output { IsSameOutput out.old out.new }
{
    for row in rows {
        out.write_line(line_of_chair(row))?;
    }
    Ok(())
}

// Writes the lines of a reading: the indices of the published sheet.
fn write_reading<W: Recorder>(
    desk: &mut Desk,
    reader: u8,
    majority: Majority,
    out: &mut Output<'_, W>,
) -> Result<(), Stop>
    ensures wrote { WritesRun out.old.contents out.new.contents result
        (printed_run (reading_lines reader majority (published_sheet desk.old))) }
    ensures state { desk.new ≡ desk.old }
    ensures causes { IfErr result (IsMemoryOrWrite out.new) }
    ensures same_output { IsSameOutput out.old out.new }
{
    let indices = desk.indices(majority);
    out.write_line(line_of_reading(reader, &indices))?;
    let written = write_chairs(indices.rows.as_slice(), out);
    desk.keep(indices);
    written
}

// Carries out a request.
fn replay_request<W: Recorder>(
    desk: &mut Desk,
    request: Request,
    out: &mut Output<'_, W>,
) -> Result<(), Stop>
    ensures wrote { WritesRun out.old.contents out.new.contents result
        (printed_run (reply_lines request (response_to desk.old (call_of request)).1)) }
    ensures state { OnOk result (desk.new ≡ (response_to desk.old (call_of request)).0) }
    ensures causes { IfErr result (IsMemoryOrWrite out.new) }
    ensures same_output { IsSameOutput out.old out.new }
{
    match request {
        Request::Order(order) => {
            let answer = desk.answer(order)?;
            return out.write_line(line_of_answer(answer));
        }
        Request::Read(reader, majority) => {
            return write_reading(desk, reader, majority, out);
        }
    }
}

impl Interpreter for Desk {
    type Asked = Request;

    ghost opened = { replay_start };

    ghost parsed = { request_within };

    ghost effect = { replay_effect };

    fn open(alloc: Global, start: ScriptStart, _limits: Limits) -> Result<Desk, Stop> {
        Desk::open(alloc, start.register)
    }

    fn parse(limits: Limits, row: &ByteRecord) -> Result<Request, Refusal> {
        request_in(limits, row)
    }

    fn carry_out<W: Recorder>(
        &mut self,
        request: Request,
        out: &mut Output<'_, W>,
    ) -> Result<(), Stop> {
        replay_request(self, request, out)
    }
}

/// Replays an input: reads it whole, then carries out the records of its script one by one, and
/// writes the lines of each to `out` before it looks at the next.
///
/// The contract relates the text written and the result to `run_of` of the input's bytes, for every
/// way in which a run ends. If the input was not read to its end, this holds for every continuation
/// of the bytes that were read.
///
/// At most `READS` reads of the input are made, and none after the read that reported its end or
/// failed. At most `INTERRUPTIONS` interrupted reads are retried: the next interruption is a failed
/// read. Each write accepts a byte, or is interrupted and retried, at most `INTERRUPTIONS` times in
/// all; none follows a write that failed, accepted nothing, or was interrupted once more.
///
/// ```rust
/// let mut input = RecordingReader::new(text); // `text` is a `&[u8]`
/// let mut lines = Vec::new(alloc);
/// let mut out = RecordingWriter::new(&mut lines);
/// let limits = Limits { readers: 1, journal: MAX_COMMANDS };
/// let result = replay(alloc, &mut input, &mut out, limits);
/// ```
///
/// # Errors
///
/// The fault that ended the run. The lines written before it stay, and its own line is the last,
/// except after `WriteFault`, which has no line and leaves a prefix of the text. Faults are looked
/// for in this order:
///
/// - `BadLimit`, before anything is read.
/// - `ReadFault`, and `TooLong` for more than `INPUT_LIMIT` bytes.
/// - `BadHeader`.
/// - In the members' records `TooManyMembers`, `BadRecord` and `NoScript`, then `DuplicateMember`.
/// - In the script's records `BadRecord` and `BadReader`. `place` is the number of the record for
///   these two and for `BadRecord` above, and 0 for all other faults.
///
/// `OutOfMemory` is possible at any time, and `WriteFault` at any write.
pub fn replay<R: Read + Drop, W: Recorder>(
    alloc: Global,
    input: &mut RecordingReader<R>,
    out: &mut W,
    limits: Limits,
) -> Result<(), Fault>
    ensures wrote { OfInput input.old input.new
        (λ bytes. RecordsOutput (W.recorded out.old) (W.recorded out.new) result (run_of limits bytes)) }
    ensures limits_first { in_range limits ≡ false → IsBadLimit result × (input.new ≡ input.old) }
    ensures reads { RunsWithin IsOfDevice most_reads input.old.calls input.new.calls result }
    ensures same { IsSameWriter (W.recorded out.old) (W.recorded out.new) }
    ensures writes { WritesWithin (W.recorded out.old) (W.recorded out.new) }
{
    run::<Desk, R, W>(alloc, input, out, limits)
}
