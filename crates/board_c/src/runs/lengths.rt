//! The length of a run's text.
ghost use Rattle.board_c.specs.Kinds.{run_as};
ghost use Rattle.board_c.specs.Shown.{Measures};
ghost use Rattle.board_c.specs.Ends.{answer_of, record_of};
ghost use Rattle.board_text.specs.Text.{Run, run_limits};

use crate::limits::limits_of;
use crate::runs::kinds::{Kind, carry_out};
use crate::runs::showing::{Shown, is_of_device};
use board_text::{Fault, Limits, line_of_fault};
use council_core::Refusal;
use recording_io::RecordingReader;
use std::alloc::Global;

// The length of the line of the fault OutOfMemory.
fn measure_lack_of_memory() -> Shown
    ensures measures { (run : Run) → Measures run result.count (answer_of result.end) (record_of result.end) }
{
    let fault = Fault::new(Refusal::OutOfMemory, 0);
    let mut line = line_of_fault(fault);
    line.end();
    Shown {
        count: line.as_bytes().len(),
        end: Some(fault),
    }
}

// The length of the text of a run with these limits, or of the line of OutOfMemory.
fn measure_text(alloc: Global, kind: Kind, input: &[u8], limits: Limits) -> Shown
    ensures measures { Measures (run_as kind limits input.now) result.count (answer_of result.end)
        (record_of result.end) }
{
    let mut text = Vec::new(alloc);
    let mut from = RecordingReader::new(input);
    let end = match carry_out(alloc, kind, &mut from, &mut text, limits) {
        Ok(()) => None,
        Err(fault) if is_of_device(fault) => return measure_lack_of_memory(),
        Err(fault) => Some(fault),
    };
    Shown {
        count: text.len(),
        end,
    }
}

// The length of the text of a run with these limits: what `board_replay_length` and
// `board_trace_length` find.
pub(crate) fn measure(alloc: Global, kind: Kind, input: &[u8], readers: u32, journal: u32) -> Shown
    ensures measures { Measures (run_as kind (run_limits readers journal) input.now) result.count
        (answer_of result.end) (record_of result.end) }
{
    measure_text(alloc, kind, input, limits_of(readers, journal))
}
