//! The members and the script of an input as typed records, in one call.
ghost use Rattle.std.specs.Prelude.{◌≡◌};
ghost use Rattle.board_text.specs.Text.{run_limits};
ghost use Rattle.board_text.specs.Output.{fault_of};
ghost use Rattle.board_c.specs.Written.{ShowsInput, end_of};
ghost use Rattle.board_c.specs.Ends.{answer_of, record_of};

mod items;
mod lines;
mod members;
mod reading;
mod records;

use crate::ends::{answer_of, record_of};
use board_text::{Fault, Stop};
use c_values::BoardEntry;
use council_core::{MAX_COMMANDS, Refusal};
pub use items::BoardItem;
use members::write_members;
use reading::read_input;
use std::alloc::Global;

// The fault of a reading, if any. Here the reader and the writer are memory, which fails only if it
// runs out.
fn end_of(found: Result<(), Stop>) -> Option<Fault>
    ensures { result ≡ end_of found }
{
    match found {
        Ok(()) => None,
        Err(Stop::Fault(fault)) => Some(fault),
        Err(_) => Some(Fault::new(Refusal::OutOfMemory, 0)),
    }
}

/// Reads an input of `board replay` whole: writes its members in order to the start of `members`,
/// and an item for each record of its script to the start of `items`, in both as many as fit. The
/// counts are set to how many there are; places behind are unchanged.
///
/// `readers` is the number of readers, from 1 to `READERS`. Returns `DONE`, or the number of the
/// fault that ends a replay of the input: a refused command is none. `place` is set to the number
/// of the fault's record, counted from 1, or to 0 if the fault has none. What stands before a fault
/// is written and counted.
///
/// All memory that a call allocates is freed before it returns.
///
/// # Errors
///
/// The number returned is that of a fault of the limits or of the input, as of `board_runs::replay`,
/// or `OutOfMemory` (10): then a part was read, perhaps nothing.
#[unsafe(no_mangle)]
pub extern "C" fn board_script(
    alloc: Global,
    input: &[u8],
    readers: u32,
    members: &mut [BoardEntry],
    members_count: &mut usize,
    items: &mut [BoardItem],
    items_count: &mut usize,
    place: &mut u32,
) -> u8
    ensures shows { ShowsInput (run_limits readers MAX_COMMANDS) input.now result place.new
        members.old members.new members_count.new items.old items.new items_count.new }
{
    let mut read = Vec::new(alloc);
    *items_count = 0;
    let found = read_input(alloc, input, readers, &mut read, items, items_count);
    write_members(read.as_slice(), members);
    *members_count = read.len();
    let end = end_of(found);
    *place = record_of(end);
    answer_of(end)
}
