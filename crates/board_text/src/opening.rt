//! Reads the preamble: the records before the script.
ghost use Rattle.std.specs.Prelude.{◌≡◌, ◌≤◌, ◌<◌, ◌+◌, ◌^◌, [], Ok, length, IfOk, IfErr};
ghost use Rattle.board_text.specs.Output.{StopsReading, ReadTo};
ghost use Rattle.board_text.specs.Text.{members_before, members_in, preamble_of, preamble_after_header};

use crate::requests::{is_header_row, is_mark_row, member_in};
use crate::script::Script;
use crate::stops::Stop;
use council_core::{MAX_MEMBERS, MemberCode, Refusal, Votes};
use csv::ByteRecord;

// Reads the members' records, starting with the second record, up to the mark and including it,
// and returns the number of the next record. What was read before an error stays in `members`.
fn read_members(
    script: &mut Script<'_>,
    row: &mut ByteRecord,
    members: &mut Vec<(MemberCode, Votes)>,
) -> Result<u32, Stop>
    requires none { members.old.items ≡ [] }
    requires short { length script.old < 2 ^ 31 }
    ensures preamble { IfOk result (λ n. preamble_after_header script.old ≡ Ok (members.new.items, n, script.new)) }
    ensures fault { IfErr result (λ e. StopsReading e (preamble_after_header script.old)) }
    ensures members { ReadTo result members.new.items (members_before script.old) }
    ensures numbers { IfOk result (λ n. n + length script.new ≤ 2 + length script.old) }
{
    let mut number: u32 = 2;
    'records: loop {
        if !script.next(row)? {
            return Err(Stop::at(Refusal::NoScript, 0));
        }
        if is_mark_row(row) {
            return Ok(number + 1);
        }
        if members.len() == MAX_MEMBERS {
            return Err(Stop::at(Refusal::TooManyMembers, 0));
        }
        let Some(member) = member_in(row) else {
            return Err(Stop::at(Refusal::BadRecord, number));
        };
        members.push(member)?;
        number += 1;
    }
}

/// Reads the preamble: the header, and the members' records up to the mark and including it.
/// Returns the number of the next record. What was read before an error stays in `members`, which
/// was empty.
///
/// # Errors
///
/// Those of `start_script` down to `NoScript`, `Stop::OutOfMemory` and `Stop::ReadFault`.
pub fn read_preamble(
    script: &mut Script<'_>,
    row: &mut ByteRecord,
    members: &mut Vec<(MemberCode, Votes)>,
) -> Result<u32, Stop>
    requires none { members.old.items ≡ [] }
    requires short { length script.old < 2 ^ 31 }
    ensures preamble { IfOk result (λ n. preamble_of script.old ≡ Ok (members.new.items, n, script.new)) }
    ensures fault { IfErr result (λ e. StopsReading e (preamble_of script.old)) }
    ensures members { ReadTo result members.new.items (members_in script.old) }
    ensures numbers { IfOk result (λ n. n + length script.new < 2 ^ 32) }
{
    if !script.next(row)? {
        return Err(Stop::at(Refusal::BadHeader, 0));
    }
    if !is_header_row(row) {
        return Err(Stop::at(Refusal::BadHeader, 0));
    }
    read_members(script, row, members)
}
