//! What the calls ask of a register.
ghost use Rattle.std.specs.Prelude.{◌≡◌, ◌⊎◌, Some, Ok, Err, IfOk, IfErr, IsOkUnless, OnErr};
ghost use Rattle.council_core.specs.Published.{sequential_as_of};
ghost use Rattle.council_core.specs.Verdicts.{Follows};
ghost use Rattle.council_core.specs.declared.refusals.Refusal.TheVariants.{OutOfMemory};
ghost use Rattle.council_core.specs.Ledgers.{sheet_of};
ghost use Rattle.council_core.specs.Sequential.{published_sheet};
ghost use Rattle.c_values.specs.Counts.{IsSheetInRange, ShowsAllCounts, ShowsCounts};
ghost use Rattle.c_values.specs.Given.{given_command, given_opening};
ghost use Rattle.board_c.specs.Calls.{AcceptsAs, Begins, IsStructOf, Sets, at_index, by_majority, command_at};
ghost use Rattle.board_c.specs.Calls.{command_reply, opening_entry, reply_number, row_at, start_reply};

use crate::DONE;
use crate::answers::answer;
use c_values::{
    BoardAllCounts, BoardCommand, BoardCounts, BoardEntry, BoardMemberRow, all_counts_for,
    command_for, command_of, counts_by_number, entry_for, opening_of, row_for,
};
use council_core::{ChairId, PublishedRegister, Refusal, Register, SHEET_WORDS, Sheet};
use power_index::ListRoom;
use std::alloc::Global;

// A boxed register of these members.
pub(crate) fn start_boxed(
    alloc: Global,
    entries: &[BoardEntry],
    journal: u32,
) -> Result<Box<PublishedRegister>, Refusal>
    ensures started { IfOk result (λ b. Begins entries.now journal b.value) }
    ensures refused { IfErr result
        (λ why. (why ≡ OutOfMemory) ⊎ (start_reply (given_opening entries.now) journal ≡ Err why)) }
{
    let opening = opening_of(alloc, entries)?;
    let register = Register::start(alloc, &opening, journal)?;
    Ok(Box::new(alloc, PublishedRegister::over(register))?)
}

// A boxed copy of a register after its first commands.
pub(crate) fn copy_boxed(
    alloc: Global,
    register: &PublishedRegister,
    accepted: u32,
) -> Result<Box<PublishedRegister>, Refusal>
    ensures copied { IfOk result (λ b. b.value ≡ sequential_as_of register.now accepted) }
    ensures memory { IsOkUnless result OutOfMemory }
{
    let copy = register.as_of(alloc, accepted)?;
    Ok(Box::new(alloc, copy)?)
}

// Carries out the command that a struct gives.
pub(crate) fn apply_to(
    register: &mut PublishedRegister,
    command: &BoardCommand,
) -> Result<u32, Refusal>
    ensures verdict { Follows (command_reply (Some register.old) (given_command command.now)) result OutOfMemory }
    ensures accepted { IfOk result (λ n. AcceptsAs register.old register.new command.now n) }
    ensures unchanged { OnErr result (register.new ≡ register.old) }
{
    // The prover needs this line, since a command has a chair.
    let _nowhere: Option<ChairId> = None;
    let command = command_of(command)?;
    register.apply(command)
}

// Checks the command that a struct gives.
pub(crate) fn check_on(register: &PublishedRegister, command: &BoardCommand) -> Result<(), Refusal>
    ensures { result ≡ command_reply (Some register.now) (given_command command.now) }
{
    // The prover needs this line, since a command has a chair.
    let _nowhere: Option<ChairId> = None;
    let command = command_of(command)?;
    register.register().check(command)
}

// The number of a reply.
pub(crate) fn number_in(found: Result<(), Refusal>) -> u8
    ensures { result ≡ reply_number found }
{
    match found {
        Ok(()) => DONE,
        Err(why) => why.code(),
    }
}

// Writes the row of the member at this index.
pub(crate) fn write_row(register: &PublishedRegister, index: usize, row: &mut BoardMemberRow) -> u8
    ensures { Sets (at_index row_at index (Ok register.now)) result row.old row.new (λ r. row.new ≡ r) }
{
    // The prover needs this line, since a row has a chair.
    let _nowhere: Option<ChairId> = None;
    match register.register().member_at(index) {
        Some(member) => {
            *row = row_for(&member);
            DONE
        }
        None => Refusal::BadIndex.code(),
    }
}

// Writes the entry of the member at this index of the opening.
pub(crate) fn write_entry(register: &PublishedRegister, index: usize, entry: &mut BoardEntry) -> u8
    ensures { Sets (at_index opening_entry index (Ok register.now)) result entry.old entry.new (λ e. entry.new ≡ e) }
{
    match register.register().opening().get(index) {
        Some(member) => {
            *entry = entry_for(member);
            DONE
        }
        None => Refusal::BadIndex.code(),
    }
}

// Writes the command at this index of the journal.
pub(crate) fn write_command(
    register: &PublishedRegister,
    index: usize,
    command: &mut BoardCommand,
) -> u8
    ensures { Sets (at_index command_at index (Ok register.now)) result command.old command.new
        (λ c. IsStructOf c command.new) }
{
    // The prover needs this line, since a command has a chair.
    let _nowhere: Option<ChairId> = None;
    match register.register().journal().get(index) {
        Some(accepted) => {
            *command = command_for(accepted);
            DONE
        }
        None => Refusal::BadIndex.code(),
    }
}

// The sheet of the register as it stands.
fn own_sheet(register: &PublishedRegister) -> Sheet
    ensures same { result ≡ sheet_of register.now.ledger }
    ensures whole { IsSheetInRange result }
{
    register.register().sheet()
}

// The sheet published last.
fn shown_sheet(register: &PublishedRegister) -> Sheet
    ensures same { result ≡ published_sheet register.now }
    ensures whole { IsSheetInRange result }
{
    *register.shown()
}

// The words of the register's sheet.
pub(crate) fn words_of(register: &PublishedRegister) -> [u64; SHEET_WORDS]
    ensures { result ≡ sheet_of register.now.ledger }
{
    own_sheet(register).words()
}

// Writes the counts of a sheet by the majority with this number.
fn write_counts(sheet: &Sheet, majority: u32, room: &mut ListRoom, counts: &mut BoardCounts) -> u8
    requires whole { IsSheetInRange sheet.now }
    ensures { Sets (by_majority majority (Ok sheet.now)) result counts.old counts.new
        (λ words. ShowsCounts majority words counts.new) }
{
    answer(counts_by_number(sheet, majority, room), counts)
}

// Writes the counts of the register's sheet.
pub(crate) fn write_own_counts(
    register: &PublishedRegister,
    majority: u32,
    room: &mut ListRoom,
    counts: &mut BoardCounts,
) -> u8
    ensures { Sets (by_majority majority (Ok register.now)) result counts.old counts.new
        (λ s. ShowsCounts majority (sheet_of s.ledger) counts.new) }
{
    write_counts(&own_sheet(register), majority, room, counts)
}

// Writes the counts of the sheet published last.
pub(crate) fn write_shown_counts(
    register: &PublishedRegister,
    majority: u32,
    room: &mut ListRoom,
    counts: &mut BoardCounts,
) -> u8
    ensures { Sets (by_majority majority (Ok register.now)) result counts.old counts.new
        (λ s. ShowsCounts majority (published_sheet s) counts.new) }
{
    write_counts(&shown_sheet(register), majority, room, counts)
}

// The counts of the register's sheet by each majority.
pub(crate) fn all_counts_of(register: &PublishedRegister, room: &mut ListRoom) -> BoardAllCounts
    ensures { ShowsAllCounts (sheet_of register.now.ledger) result }
{
    all_counts_for(&own_sheet(register), room)
}
