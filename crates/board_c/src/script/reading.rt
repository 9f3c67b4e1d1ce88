//! Reads an input whole.
ghost use Rattle.std.specs.Prelude.{◌≡◌, ◌≤◌, [], true, length};
ghost use Rattle.board_text.specs.Output.{ReadTo};
ghost use Rattle.board_text.specs.Text.{in_range, run_limits};
ghost use Rattle.board_runs.specs.Replays.{run_of};
ghost use Rattle.board_c.specs.Contents.{items_of, members_of};
ghost use Rattle.board_c.specs.Written.{EndsReading, ReadItems};

use crate::limits::limits_of;
use crate::script::items::BoardItem;
use crate::script::members::check_opening;
use crate::script::records::read_records;
use board_text::{INPUT_LIMIT, Limits, Script, Stop, read_preamble};
use council_core::{MAX_COMMANDS, MemberCode, Refusal, Votes};
use csv::ByteRecord;
use std::alloc::Global;

// Reads an input whose limits and length are in range.
fn read_text(
    alloc: Global,
    text: &[u8],
    limits: Limits,
    members: &mut Vec<(MemberCode, Votes)>,
    items: &mut [BoardItem],
    count: &mut usize,
) -> Result<(), Stop>
    requires none { members.old.items ≡ [] }
    requires zero { count.old ≡ 0 }
    requires short { length text.now ≤ INPUT_LIMIT }
    requires in_range { in_range limits ≡ true }
    ensures members { ReadTo result members.new.items (members_of limits text.now) }
    ensures items { ReadItems result text.now (items_of limits text.now) count.new items.old items.new }
    ensures end { EndsReading result (run_of limits text.now).end }
{
    let mut script = Script::new(alloc, text);
    let mut row = ByteRecord::new(alloc);
    let first = read_preamble(&mut script, &mut row, members)?;
    check_opening(alloc, members.as_slice(), limits)?;
    read_records(text, &mut script, &mut row, limits, first, items, count)
}

// Reads an input, if its limits and its length are in range.
pub(crate) fn read_input(
    alloc: Global,
    input: &[u8],
    readers: u32,
    members: &mut Vec<(MemberCode, Votes)>,
    items: &mut [BoardItem],
    count: &mut usize,
) -> Result<(), Stop>
    requires none { members.old.items ≡ [] }
    requires zero { count.old ≡ 0 }
    ensures members { ReadTo result members.new.items (members_of (run_limits readers MAX_COMMANDS) input.now) }
    ensures items { ReadItems result input.now
        (items_of (run_limits readers MAX_COMMANDS) input.now) count.new items.old items.new }
    ensures end { EndsReading result (run_of (run_limits readers MAX_COMMANDS) input.now).end }
{
    let limits = limits_of(readers, MAX_COMMANDS);
    if !limits.is_in_range() {
        return Err(Stop::at(Refusal::BadLimit, 0));
    }
    if INPUT_LIMIT < input.len() {
        return Err(Stop::at(Refusal::TooLong, 0));
    }
    read_text(alloc, input, limits, members, items, count)
}
