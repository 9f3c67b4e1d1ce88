//! Reads the whole input before any record is interpreted.
ghost use Rattle.std.specs.Prelude.{◌≡◌, ◌≤◌, ◌<◌, ◌+◌, length, IfOk, IfErr, ◌⊎◌, IsErrOf, IsOkUnless};
ghost use Rattle.recording_io.specs.Tapes.{CallsWithin, OfInput};
ghost use Rattle.council_core.specs.declared.refusals.Refusal.TheVariants as refusal;
ghost use Rattle.board_text.specs.Inputs.{Reads};
ghost use Rattle.board_text.specs.Streams.{most_reads_by};
ghost use Rattle.board_text.specs.Text.{fault_at};
ghost use Rattle.board_text.specs.declared.stops.Stop.TheVariants as stop;

use crate::stops::Stop;
use council_core::Refusal;
use recording_io::RecordingReader;
use std::alloc::Global;
use std::io::{ErrorKind, Read};

// The number of bytes that one read asks for.
const PIECE: usize = 4096;

/// The most bytes that an input may have.
pub const INPUT_LIMIT: usize = 4_194_304;

/// The most interrupted reads, and the most interrupted writes, that are retried in one run.
pub const INTERRUPTIONS: u32 = 1000;

/// The most reads of a run. Each read except the last returns at least one byte or is interrupted,
/// and no read follows a failed one.
pub const READS: u32 = INPUT_LIMIT as u32 + INTERRUPTIONS + 1;

// One read: the number of bytes returned, or `None` if the read was interrupted and may be retried.
// After an error nothing is promised of the reader.
fn read_some<R: Read + Drop>(
    input: &mut RecordingReader<R>,
    piece: &mut [u8],
    interrupted: &mut u32,
) -> Result<Option<usize>, Stop>
    requires bound { interrupted.old ≤ INTERRUPTIONS }
    ensures once { CallsWithin (record { made = 1; empty = 1; interrupted = 1 }) input.old.calls input.new.calls }
    ensures read { IfOk result (Reads input.old input.new interrupted.old interrupted.new piece.new) }
    ensures bound { interrupted.new ≤ INTERRUPTIONS }
    ensures only { IsOkUnless result stop.ReadFault }
{
    match input.read(piece) {
        Ok(count) => Ok(Some(count)),
        Err(e) if e.kind() == ErrorKind::Interrupted && *interrupted < INTERRUPTIONS => {
            *interrupted += 1;
            Ok(None)
        }
        Err(_) => Err(Stop::ReadFault),
    }
}

// Returns all bytes of the input, if there are at most `INPUT_LIMIT`.
pub(crate) fn read_input<R: Read + Drop>(
    alloc: Global,
    input: &mut RecordingReader<R>,
) -> Result<Vec<u8>, Stop>
    ensures whole { IfOk result (λ text. OfInput input.old input.new (λ bytes. text.items ≡ bytes)) }
    ensures causes { IfErr result
        (λ e. (e ≡ stop.OutOfMemory) ⊎ (e ≡ stop.ReadFault) ⊎ (e ≡ stop.Fault (fault_at refusal.TooLong 0))) }
    ensures reads { CallsWithin (most_reads_by result) input.old.calls input.new.calls }
    ensures fits { IfOk result (λ text. length text.items ≤ INPUT_LIMIT) }
    ensures too_long { IsErrOf result (stop.Fault (fault_at refusal.TooLong 0))
        → OfInput input.old input.new (λ bytes. INPUT_LIMIT < length bytes) }
{
    let mut text = Vec::new(alloc);
    let mut piece = [0u8; PIECE];
    let mut interrupted: u32 = 0;
    for _turn in 0..READS {
        match read_some(input, &mut piece, &mut interrupted)? {
            None => {}
            Some(0) => return Ok(text),
            Some(n) => {
                if n > INPUT_LIMIT - text.len() {
                    return Err(Stop::at(Refusal::TooLong, 0));
                }
                text.extend_from_slice(&piece[..n])?;
            }
        }
    }
    unreachable!()
}
