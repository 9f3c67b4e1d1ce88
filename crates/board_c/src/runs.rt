//! A whole replay or trace in one call.
ghost use Rattle.std.specs.Prelude.{◌≡◌, ◌≢◌, ◌≤◌, length, take, drop};
ghost use Rattle.board_c.specs.Shown.{IsLonger, IsWhole, Measures, ShowsRun};
ghost use Rattle.board_runs.specs.Replays.{run_of};
ghost use Rattle.board_runs.specs.Traces.{trace_of};
ghost use Rattle.board_text.specs.Text.{run_limits};
ghost use Rattle.council_core.specs.Refusals.{code_of};
ghost use Rattle.council_core.specs.declared.refusals.Refusal.TheVariants.{ReadFault, WriteFault};

mod kinds;
mod lengths;
mod showing;

use crate::DONE;
use kinds::Kind;
use lengths::measure;
use showing::show_run;
use std::alloc::Global;

/// Replays an input: carries out its script and writes the lines of the run to the start of `out`,
/// as many bytes as fit. `written` is set to the number of bytes written; the bytes of `out` after
/// them are unchanged.
///
/// `readers` is the number of readers, from 1 to `READERS`, and `journal` the most commands that
/// the register accepts, from 1 to `MAX_COMMANDS`. Returns `DONE`, or the number of the fault that
/// ended the run, whose line is then the last of the text. `place` is set to the number of the
/// fault's record, counted from 1, or to 0 if the fault has none.
///
/// All memory that a call allocates is freed before it returns, and nothing is kept for the next
/// call.
///
/// ```rust
/// let (mut written, mut place) = (0, 0);
/// let mut out = [0u8; 4096];
/// let end = board_replay(alloc, input, 1, 1000, &mut out, &mut written, &mut place);
/// let text = &out[..written as usize];
/// ```
///
/// # Errors
///
/// The number returned is that of a fault:
///
/// - A fault of the limits or of the input: those of `board_runs::replay`, in the same order.
/// - `WriteFault` (20): the text is longer than `out`, and `out` is full. With more room the same
///   call goes further. Or `malloc` returned no memory, and `out` has no room for the line of that
///   fault.
/// - `OutOfMemory` (10): `malloc` returned no memory. The text is a prefix of the run's lines,
///   perhaps none, and the line of this fault.
///
/// `ReadFault` is never returned.
#[unsafe(no_mangle)]
pub extern "C" fn board_replay(
    alloc: Global,
    input: &[u8],
    readers: u32,
    journal: u32,
    out: &mut [u8],
    written: &mut u64,
    place: &mut u32,
) -> u8
    ensures shows { ShowsRun (run_of (run_limits readers journal) input.now) (length out.old)
        (take written.new out.new) result place.new }
    ensures within { written.new ≤ length out.old }
    ensures rest { drop written.new out.new ≡ drop written.new out.old }
    ensures done { result ≡ DONE → IsWhole
        (run_of (run_limits readers journal) input.now) (take written.new out.new) }
    ensures reads { result ≢ code_of ReadFault }
    ensures writes { result ≡ code_of WriteFault → IsLonger
        (run_of (run_limits readers journal) input.now) (length out.old) }
{
    let shown = show_run(alloc, Kind::Replay, input, readers, journal, out);
    shown.tell(written, place)
}

/// The room that `board_replay` needs for an input: sets `length` to the number of bytes of the
/// run's text. The other parameters are those of `board_replay`, and so are the result and `place`,
/// as with room for the whole text. The call carries the script out, and so takes as long.
///
/// # Errors
///
/// The number returned is that of a fault of the limits or of the input, or `OutOfMemory` (10): the
/// text is then a prefix of the run's lines, perhaps none, and the line of this fault.
#[unsafe(no_mangle)]
pub extern "C" fn board_replay_length(
    alloc: Global,
    input: &[u8],
    readers: u32,
    journal: u32,
    length: &mut u64,
    place: &mut u32,
) -> u8
    ensures measures { Measures (run_of (run_limits readers journal) input.now) length.new result place.new }
{
    measure(alloc, Kind::Replay, input, readers, journal).tell(length, place)
}

/// Traces an input: like `board_replay`, with the same parameters, results and memory, but takes the
/// two-copy machine, with one writer and `readers` readers, through its schedule. The machine takes
/// a step only where a record of the schedule asks for it, and only an event with an output prints a
/// line, as `board_runs::trace` says.
///
/// ```rust
/// let (mut written, mut place) = (0, 0);
/// let mut out = [0u8; 4096];
/// let end = board_trace(alloc, schedule, 2, 1000, &mut out, &mut written, &mut place);
/// let text = &out[..written as usize];
/// ```
///
/// # Errors
///
/// Those of `board_replay`, with the faults of `board_runs::trace` as the faults of the input.
#[unsafe(no_mangle)]
pub extern "C" fn board_trace(
    alloc: Global,
    input: &[u8],
    readers: u32,
    journal: u32,
    out: &mut [u8],
    written: &mut u64,
    place: &mut u32,
) -> u8
    ensures shows { ShowsRun (trace_of (run_limits readers journal) input.now) (length out.old)
        (take written.new out.new) result place.new }
    ensures within { written.new ≤ length out.old }
    ensures rest { drop written.new out.new ≡ drop written.new out.old }
    ensures done { result ≡ DONE → IsWhole
        (trace_of (run_limits readers journal) input.now) (take written.new out.new) }
    ensures reads { result ≢ code_of ReadFault }
    ensures writes { result ≡ code_of WriteFault → IsLonger
        (trace_of (run_limits readers journal) input.now) (length out.old) }
{
    let shown = show_run(alloc, Kind::Trace, input, readers, journal, out);
    shown.tell(written, place)
}

/// The room that `board_trace` needs for an input: sets `length` to the number of bytes of the
/// run's text. The other parameters are those of `board_trace`, and so are the result and `place`,
/// as with room for the whole text. The call carries the schedule out, and so takes as long.
///
/// # Errors
///
/// The number returned is that of a fault of the limits or of the input, or `OutOfMemory` (10): the
/// text is then a prefix of the run's lines, perhaps none, and the line of this fault.
#[unsafe(no_mangle)]
pub extern "C" fn board_trace_length(
    alloc: Global,
    input: &[u8],
    readers: u32,
    journal: u32,
    length: &mut u64,
    place: &mut u32,
) -> u8
    ensures measures { Measures (trace_of (run_limits readers journal) input.now) length.new result place.new }
{
    measure(alloc, Kind::Trace, input, readers, journal).tell(length, place)
}
