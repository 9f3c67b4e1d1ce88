//! The bytes and the numbers that a call leaves.
ghost use Rattle.std.specs.Prelude.{◌≡◌, ◌≢◌, ◌≤◌, true, length, take, drop, min};
ghost use Rattle.board_c.specs.Kinds.{run_as};
ghost use Rattle.board_c.specs.declared.TheConstants.{DONE};
ghost use Rattle.board_c.specs.Shown.{IsLonger, IsWhole, ShowsRun, end_in};
ghost use Rattle.board_c.specs.Ends.{answer_of, record_of};
ghost use Rattle.board_text.specs.Text.{Run, run_limits};
ghost use Rattle.council_core.specs.Refusals.{code_of};
ghost use Rattle.council_core.specs.declared.refusals.Refusal.TheVariants.{ReadFault, WriteFault};

use crate::ends::{answer_of, record_of};
use crate::limits::limits_of;
use crate::runs::kinds::{Kind, carry_out};
use board_text::{Fault, Limits, line_of_fault};
use council_core::Refusal;
use recording_io::RecordingReader;
use std::alloc::Global;

// The number of bytes of a run's text that were written, and the fault that ended the run, if any.
#[derive(Clone, Copy)]
pub(crate) struct Shown {
    pub(crate) count: usize,
    pub(crate) end: Option<Fault>,
}

impl Shown {
    // Writes the count and the number of the fault's record, and returns the result of the call.
    pub(crate) fn tell(&self, count: &mut u64, place: &mut u32) -> u8
        ensures count { count.new ≡ self.now.count }
        ensures place { place.new ≡ record_of self.now.end }
        ensures answer { result ≡ answer_of self.now.end }
    {
        *count = self.count as u64;
        *place = record_of(self.end);
        answer_of(self.end)
    }
}

// Copies as long a prefix of the text as fits into `out`, and returns its length in bytes.
fn copy_front(text: &[u8], out: &mut [u8]) -> usize
    ensures count { result ≡ min (length out.old) (length text.now) }
    ensures front { take result out.new ≡ take (length out.old) text.now }
    ensures rest { drop result out.new ≡ drop result out.old }
{
    let count = out.len().min(text.len());
    out[..count].copy_from_slice(&text[..count]);
    count
}

// Copies a text to `out`: all of it, or as long a prefix as fits, and then the end is WriteFault.
fn show(text: &[u8], end: Option<Fault>, out: &mut [u8]) -> Shown
    ensures end { result.end ≡ end_in (length out.old) text.now end }
    ensures within { result.count ≤ length out.old }
    ensures front { take result.count out.new ≡ take (length out.old) text.now }
    ensures rest { drop result.count out.new ≡ drop result.count out.old }
{
    let fits = text.len() <= out.len();
    let count = copy_front(text, out);
    if fits {
        Shown { count, end }
    } else {
        let end = Some(Fault::new(Refusal::WriteFault, 0));
        Shown { count, end }
    }
}

// Whether a fault is that of a device. Here the reader and the writer are memory: the reader never
// fails, and the writer fails only if memory runs out.
pub(crate) fn is_of_device(fault: Fault) -> bool
    ensures read { fault.code ≡ code_of ReadFault → result ≡ true }
    ensures write { fault.code ≡ code_of WriteFault → result ≡ true }
{
    fault.code == Refusal::ReadFault.code() || fault.code == Refusal::WriteFault.code()
}

// Copies the line of the fault OutOfMemory to `out`.
fn show_lack_of_memory(out: &mut [u8]) -> Shown
    ensures shows { (run : Run) → ShowsRun run (length out.old) (take result.count out.new)
        (answer_of result.end) (record_of result.end) }
    ensures within { result.count ≤ length out.old }
    ensures rest { drop result.count out.new ≡ drop result.count out.old }
{
    let fault = Fault::new(Refusal::OutOfMemory, 0);
    let mut line = line_of_fault(fault);
    line.end();
    show(line.as_bytes(), Some(fault), out)
}

// Runs an input into memory, and copies its text to `out`.
fn run_into(alloc: Global, kind: Kind, input: &[u8], limits: Limits, out: &mut [u8]) -> Shown
    ensures shows { ShowsRun (run_as kind limits input.now) (length out.old) (take result.count out.new)
        (answer_of result.end) (record_of result.end) }
    ensures within { result.count ≤ length out.old }
    ensures rest { drop result.count out.new ≡ drop result.count out.old }
{
    let mut text = Vec::new(alloc);
    let mut from = RecordingReader::new(input);
    match carry_out(alloc, kind, &mut from, &mut text, limits) {
        Ok(()) => show(text.as_slice(), None, out),
        Err(fault) if is_of_device(fault) => show_lack_of_memory(out),
        Err(fault) => show(text.as_slice(), Some(fault), out),
    }
}

// Runs an input with these limits into `out`: what `board_replay` and `board_trace` do.
pub(crate) fn show_run(
    alloc: Global,
    kind: Kind,
    input: &[u8],
    readers: u32,
    journal: u32,
    out: &mut [u8],
) -> Shown
    ensures shows { ShowsRun (run_as kind (run_limits readers journal) input.now) (length out.old)
        (take result.count out.new) (answer_of result.end) (record_of result.end) }
    ensures within { result.count ≤ length out.old }
    ensures rest { drop result.count out.new ≡ drop result.count out.old }
    ensures done { answer_of result.end ≡ DONE → IsWhole
        (run_as kind (run_limits readers journal) input.now) (take result.count out.new) }
    ensures reads { answer_of result.end ≢ code_of ReadFault }
    ensures writes { answer_of result.end ≡ code_of WriteFault → IsLonger
        (run_as kind (run_limits readers journal) input.now) (length out.old) }
{
    run_into(alloc, kind, input, limits_of(readers, journal), out)
}
