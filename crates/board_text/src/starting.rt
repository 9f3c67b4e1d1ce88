//! The start of a run: reads the whole input, then the records before the script.
ghost use Rattle.std.specs.Prelude.{◌≡◌, ◌≤◌, ◌<◌, ◌+◌, ◌^◌, [], Ok, true, false, length};
ghost use Rattle.std.specs.Prelude.{IfOk, IfErr, IsErrOf, OnOk};
ghost use Rattle.recording_io.specs.Tapes.{CallsWithin, OfInput};
ghost use Rattle.council_core.specs.declared.refusals.Refusal.TheVariants as refusal;
ghost use Rattle.board_text.specs.Streams.{most_reads_by};
ghost use Rattle.board_text.specs.Output.{StopsReading, Starts};
ghost use Rattle.board_text.specs.Text.{started_of, started_after, fault_at, in_range, preamble_of};
ghost use Rattle.board_text.specs.declared.stops.Stop.TheVariants as stop;

use crate::bounds::Limits;
use crate::input::{INPUT_LIMIT, read_input};
use crate::opening::read_preamble;
use crate::script::Script;
use crate::stops::Stop;
use council_core::{MemberCode, Refusal, Register, Votes};
use csv::ByteRecord;
use recording_io::RecordingReader;
use std::alloc::Global;
use std::io::Read;

/// The start of a script: a register with the members of the input's opening.
#[derive(Debug, Drop)]
pub struct ScriptStart {
    /// The register, with an empty journal.
    pub register: Register,
    /// The number of the script's first record, counted from 1 over all records of the input.
    pub first: u32,
}

/// Reads the whole input, if the limits are in range.
///
/// # Errors
///
/// - `Stop::Fault` with `BadLimit` at 0: a limit is out of range. Nothing was read.
/// - `Stop::ReadFault`: a read failed, or was interrupted after `INTERRUPTIONS` retries.
/// - `Stop::Fault` with `TooLong` at 0: the input has more than `INPUT_LIMIT` bytes.
/// - `Stop::OutOfMemory`.
///
/// After the last three some of the input may have been read, and none of it is returned.
pub fn read_within<R: Read + Drop>(
    alloc: Global,
    input: &mut RecordingReader<R>,
    limits: Limits,
) -> Result<Vec<u8>, Stop>
    ensures whole { IfOk result (λ text. OfInput input.old input.new (λ bytes. text.items ≡ bytes)) }
    ensures fits { IfOk result (λ text. length text.items ≤ INPUT_LIMIT) }
    ensures in_range { OnOk result (in_range limits ≡ true) }
    ensures reads { CallsWithin (most_reads_by result) input.old.calls input.new.calls }
    ensures fault { IfErr result
        (λ e. OfInput input.old input.new (λ bytes. StopsReading e (started_of limits bytes))) }
    ensures limits_first { in_range limits ≡ false
        → IsErrOf result (stop.Fault (fault_at refusal.BadLimit 0)) × (input.new ≡ input.old) }
{
    if !limits.is_in_range() {
        return Err(Stop::at(Refusal::BadLimit, 0));
    }
    read_input(alloc, input)
}

// A register with these members.
fn start_register(
    alloc: Global,
    members: &[(MemberCode, Votes)],
    limits: Limits,
) -> Result<Register, Stop>
    ensures started { Starts limits members.now result }
{
    Ok(Register::start(alloc, members, limits.journal)?)
}

/// Reads the header and the members' records, and starts the register. The next record of `script`
/// is then the script's first.
///
/// # Errors
///
/// All are `Stop::Fault` except the last two. They are checked in this order; those of the members'
/// records one record after another.
///
/// - `BadHeader` at 0: there is no first record, or it isn't `member,votes`.
/// - `TooManyMembers` at 0: there are more than `MAX_MEMBERS` members.
/// - `BadRecord` at the number of the record: a member's record isn't well formed.
/// - `NoScript` at 0: the input ends before the record `script`.
/// - `BadLimit` at 0: the journal limit is out of range; `DuplicateMember` at 0: two members have
///   the same code.
/// - `Stop::OutOfMemory` and `Stop::ReadFault`: possible at any record.
pub fn start_script(
    alloc: Global,
    script: &mut Script<'_>,
    row: &mut ByteRecord,
    limits: Limits,
) -> Result<ScriptStart, Stop>
    requires { length script.old < 2 ^ 31 }

    // The contents of the records, or the first fault in them.
    ensures start { IfOk result
        (λ b. started_after limits (preamble_of script.old) ≡ Ok (b.register, b.first, script.new)) }
    ensures fault { IfErr result (λ e. StopsReading e (started_after limits (preamble_of script.old))) }

    // The register is at its start, and the remaining records can be numbered.
    ensures empty { IfOk result (λ b. b.register.journal ≡ []) }
    ensures numbers { IfOk result (λ b. b.first + length script.new < 2 ^ 32) }
{
    let mut members = Vec::new(alloc);
    let first = read_preamble(script, row, &mut members)?;
    let register = start_register(alloc, members.as_slice(), limits)?;
    Ok(ScriptStart { register, first })
}
