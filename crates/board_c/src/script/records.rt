//! Reads the records of a script.
ghost use Rattle.std.specs.Prelude.{◌≡◌, ◌≤◌, ◌<◌, ◌+◌, ◌^◌, length};
ghost use Rattle.council_core.specs.Sequential.{Sequential};
ghost use Rattle.board_c.specs.Contents.{end_from, items_from};
ghost use Rattle.board_c.specs.TextLines.{IsLeft};
ghost use Rattle.board_c.specs.Written.{EndsReading, ReadItems};

use crate::lists::put;
use crate::script::items::{BoardItem, item_for};
use crate::script::lines::{end_of_lines, line_after};
use board_text::{INPUT_LIMIT, Limits, Script, Stop, request_in};
use csv::ByteRecord;

// Reads the script's records, the last ones of `text`, and writes their items to the start of
// `items`, as many as fit. `first` is the number of the first record. `count` counts the items, also
// before an error.
pub(crate) fn read_records(
    text: &[u8],
    script: &mut Script<'_>,
    row: &mut ByteRecord,
    limits: Limits,
    first: u32,
    items: &mut [BoardItem],
    count: &mut usize,
) -> Result<(), Stop>
    requires zero { count.old ≡ 0 }
    requires short { length text.now ≤ INPUT_LIMIT }
    requires left { IsLeft text.now first script.old }
    requires numbers { first + length script.old < 2 ^ 32 }
    ensures items { ReadItems result text.now
        (items_from limits first script.old) count.new items.old items.new }
    ensures end { (s : Sequential) → EndsReading result (end_from limits first s script.old) }
{
    let mut number = first;
    let mut at = end_of_lines(text, first - 1);
    'records: loop {
        if !script.next(row)? {
            return Ok(());
        }
        let request = match request_in(limits, row) {
            Ok(request) => request,
            Err(why) => return Err(Stop::at(why, number)),
        };
        let span = line_after(text, at);
        put(items, *count, item_for(number, span, request));
        at = span.to as usize;
        *count += 1;
        number += 1;
    }
}
