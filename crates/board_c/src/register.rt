//! The register itself. A program holds a handle, two words that are 0 at first.
//! `board_register_start` puts a register into it, and `board_register_free` takes the register
//! out. Every other call is one of `council_core::PublishedRegister`, or counts the coalitions of
//! one of its sheets, and restates those clauses.
ghost use Rattle.std.specs.Prelude.{◌≡◌, ◌⊎◌, None, MatchOption, length};
ghost use Rattle.council_core.specs.Ledgers.{roll_of, sheet_of};
ghost use Rattle.council_core.specs.Published.{sequential_taken_back};
ghost use Rattle.council_core.specs.Sequential.{published_sheet};
ghost use Rattle.c_values.specs.Counts.{ShowsAllCounts, ShowsCounts};
ghost use Rattle.board_c.specs.Calls.{Answers, AnswersCopy, HasAccepted, IsCopied, IsRefusedStart, IsStarted};
ghost use Rattle.board_c.specs.Calls.{IsStructOf, Sets, all_published, at_index, by_majority, command_at};
ghost use Rattle.board_c.specs.Calls.{live_register, opening_entry, register_in, reply, reply_number, row_at};
ghost use Rattle.board_c.specs.Lending.{with_register};

mod handles;
mod held;
mod lends;
mod loose;
mod replies;

use crate::DONE;
use crate::answers::answer;
use c_values::{BoardAllCounts, BoardCommand, BoardCounts, BoardEntry, BoardMemberRow};
use council_core::{Refusal, SHEET_WORDS};
pub use handles::BoardRegister;
use handles::LIVE;
use lends::register_of;
use power_index::ListRoom;
use replies::{
    all_counts_of, apply_to, check_on, copy_boxed, number_in, start_boxed, words_of, write_command,
    write_entry, write_own_counts, write_row, write_shown_counts,
};
use std::alloc::Global;

// The register of a handle. If the handle has none, the call returns `$none`: the number of
// `NoRegister`, where the macro gets no other.
macro_rules! live {
    ($handle:ident) => {
        live!($handle, Refusal::NoRegister.code())
    };
    ($handle:ident, $none:expr) => {{
        if $handle.state() != LIVE {
            return $none;
        }
        register_of($handle)
    }};
}

/// Starts a register of these members in the handle, with an empty journal that accepts at most
/// `journal` commands. A register that was there before is freed. The opening is published.
///
/// # Errors
///
/// Returns the number of a refusal, and leaves the handle unchanged: 15, `BadMember`, or 16,
/// `VotesTooLarge`, for the first entry whose code or votes are not a member's; otherwise 13,
/// `BadLimit`, 12, `TooManyMembers`, or 11, `DuplicateMember`, as `Register::start`; or 10,
/// `OutOfMemory`.
#[unsafe(no_mangle)]
pub extern "C" fn board_register_start(
    alloc: Global,
    entries: &[BoardEntry],
    journal: u32,
    register: &mut BoardRegister,
) -> u8
    ensures started { (result ≡ DONE) → IsStarted entries.now journal register.new }
    ensures refused { (result ≡ DONE) ⊎ IsRefusedStart entries.now journal result }
    ensures unchanged { (result ≡ DONE) ⊎ (register.new ≡ register.old) }
{
    match start_boxed(alloc, entries, journal) {
        Ok(new) => {
            register.replace(alloc, new);
            DONE
        }
        Err(why) => why.code(),
    }
}

/// Carries out a command, and sets `accepted` to the number of accepted commands, including this
/// one.
///
/// # Errors
///
/// Returns the number of a refusal, and leaves the handle, its register and `accepted` unchanged:
/// 34, `NoRegister`, if the handle has no register; 17, `BadRecord`, for a number that is no kind of
/// command; 15, `BadMember`, 14, `BadChair`, or 16, `VotesTooLarge`, for a code, a chair or votes
/// that are none; otherwise the refusal of `Register::apply`.
#[unsafe(no_mangle)]
pub extern "C" fn board_register_apply(
    register: &mut BoardRegister,
    command: &BoardCommand,
    accepted: &mut u32,
) -> u8
    ensures verdict { Answers (reply register.old command.now) result }
    ensures accepted { (result ≡ DONE) → HasAccepted register.old register.new command.now accepted.new }
    ensures unchanged { (result ≡ DONE) ⊎ ((register.new ≡ register.old) × (accepted.new ≡ accepted.old)) }
{
    answer(apply_to(live!(register), command), accepted)
}

/// Checks a command without carrying it out: the number that `board_register_apply` would return,
/// except 10.
#[unsafe(no_mangle)]
pub extern "C" fn board_register_check(register: &mut BoardRegister, command: &BoardCommand) -> u8
    ensures verdict { result ≡ reply_number (reply register.old command.now) }
    ensures unchanged { register.new ≡ register.old }
{
    number_in(check_on(live!(register), command))
}

/// Publishes all accepted commands, and sets `published` to their number.
///
/// # Errors
///
/// Returns 34, `NoRegister`, and leaves `published` unchanged, if the handle has no register.
#[unsafe(no_mangle)]
pub extern "C" fn board_register_publish(register: &mut BoardRegister, published: &mut u32) -> u8
    ensures published { Sets (live_register register.old) result published.old published.new
        (λ s. published.new ≡ length s.ledger.journal) }
    ensures register { MatchOption (register_in register.old) (register.new ≡ register.old)
        (λ s. register.new ≡ with_register register.old (all_published s)) }
{
    *published = live!(register).publish();
    DONE
}

/// The number of accepted commands, or 0 for a handle without a register.
#[unsafe(no_mangle)]
pub extern "C" fn board_register_accepted(register: &mut BoardRegister) -> u32
    ensures number { MatchOption (register_in register.old) (result ≡ 0) (λ s. result ≡ length s.ledger.journal) }
    ensures unchanged { register.new ≡ register.old }
{
    live!(register, 0).register().accepted()
}

/// The number of published commands, or 0 for a handle without a register.
#[unsafe(no_mangle)]
pub extern "C" fn board_register_published(register: &mut BoardRegister) -> u32
    ensures number { MatchOption (register_in register.old) (result ≡ 0) (λ s. result ≡ s.published) }
    ensures unchanged { register.new ≡ register.old }
{
    live!(register, 0).published()
}

/// The number of members, or 0 for a handle without a register.
#[unsafe(no_mangle)]
pub extern "C" fn board_register_members(register: &mut BoardRegister) -> usize
    ensures number { MatchOption (register_in register.old) (result ≡ 0)
        (λ s. result ≡ length (roll_of s.ledger).members) }
    ensures unchanged { register.new ≡ register.old }
{
    live!(register, 0).register().members()
}

/// The number of members with which the register started, or 0 for a handle without a register.
#[unsafe(no_mangle)]
pub extern "C" fn board_register_entries(register: &mut BoardRegister) -> usize
    ensures number { MatchOption (register_in register.old) (result ≡ 0)
        (λ s. result ≡ length s.ledger.opening) }
    ensures unchanged { register.new ≡ register.old }
{
    live!(register, 0).register().opening().len()
}

/// Writes the row of the member at this index in the order of entry, counted from 0.
///
/// # Errors
///
/// Returns the number of a refusal, and leaves the row unchanged: 34, `NoRegister`, if the handle
/// has no register; 35, `BadIndex`, if it has no member at this index.
#[unsafe(no_mangle)]
pub extern "C" fn board_register_member_at(
    register: &mut BoardRegister,
    index: usize,
    row: &mut BoardMemberRow,
) -> u8
    ensures row { Sets (at_index row_at index (live_register register.old)) result row.old row.new (λ r. row.new ≡ r) }
    ensures unchanged { register.new ≡ register.old }
{
    write_row(live!(register), index, row)
}

/// Writes the entry of the member at this index, counted from 0, of those with which the register
/// started.
///
/// # Errors
///
/// Returns the number of a refusal, and leaves the entry unchanged: 34, `NoRegister`, if the handle
/// has no register; 35, `BadIndex`, if it started with no member at this index.
#[unsafe(no_mangle)]
pub extern "C" fn board_register_entry_at(
    register: &mut BoardRegister,
    index: usize,
    entry: &mut BoardEntry,
) -> u8
    ensures entry { Sets (at_index opening_entry index (live_register register.old)) result entry.old entry.new
        (λ e. entry.new ≡ e) }
    ensures unchanged { register.new ≡ register.old }
{
    write_entry(live!(register), index, entry)
}

/// Writes the command at this index of the journal, counted from 0, as a struct with which
/// `board_register_apply` carries out the same command.
///
/// # Errors
///
/// Returns the number of a refusal, and leaves the struct unchanged: 34, `NoRegister`, if the
/// handle has no register; 35, `BadIndex`, if fewer commands were accepted.
#[unsafe(no_mangle)]
pub extern "C" fn board_register_command_at(
    register: &mut BoardRegister,
    index: usize,
    command: &mut BoardCommand,
) -> u8
    ensures command { Sets (at_index command_at index (live_register register.old)) result command.old command.new
        (λ c. IsStructOf c command.new) }
    ensures unchanged { register.new ≡ register.old }
{
    write_command(live!(register), index, command)
}

/// Writes the 34 words of the register's sheet, which `board_counts_of_sheet` takes.
///
/// # Errors
///
/// Returns 34, `NoRegister`, and leaves the words unchanged, if the handle has no register.
#[unsafe(no_mangle)]
pub extern "C" fn board_register_sheet(
    register: &mut BoardRegister,
    words: &mut [u64; SHEET_WORDS],
) -> u8
    ensures sheet { Sets (live_register register.old) result words.old words.new (λ s. words.new ≡ sheet_of s.ledger) }
    ensures unchanged { register.new ≡ register.old }
{
    *words = words_of(live!(register));
    DONE
}

/// Counts the coalitions of the register's sheet, as `board_counts_of_sheet`.
///
/// # Errors
///
/// Returns the number of a refusal, and leaves `counts` unchanged: 34, `NoRegister`, if the handle
/// has no register; 17, `BadRecord`, if no majority has this number.
#[unsafe(no_mangle)]
pub extern "C" fn board_register_counts(
    register: &mut BoardRegister,
    majority: u32,
    room: &mut ListRoom,
    counts: &mut BoardCounts,
) -> u8
    ensures counts { Sets (by_majority majority (live_register register.old)) result counts.old counts.new
        (λ s. ShowsCounts majority (sheet_of s.ledger) counts.new) }
    ensures unchanged { register.new ≡ register.old }
{
    write_own_counts(live!(register), majority, room, counts)
}

/// Counts the coalitions of the register's sheet by each majority, as `board_all_counts_of_sheet`.
///
/// # Errors
///
/// Returns 34, `NoRegister`, and leaves `counts` unchanged, if the handle has no register.
#[unsafe(no_mangle)]
pub extern "C" fn board_register_all_counts(
    register: &mut BoardRegister,
    room: &mut ListRoom,
    counts: &mut BoardAllCounts,
) -> u8
    ensures counts { Sets (live_register register.old) result counts.old counts.new
        (λ s. ShowsAllCounts (sheet_of s.ledger) counts.new) }
    ensures unchanged { register.new ≡ register.old }
{
    *counts = all_counts_of(live!(register), room);
    DONE
}

/// Counts the coalitions of the sheet published last, as `board_counts_of_sheet`: what a reader
/// sees.
///
/// # Errors
///
/// Those of `board_register_counts`.
#[unsafe(no_mangle)]
pub extern "C" fn board_register_read(
    register: &mut BoardRegister,
    majority: u32,
    room: &mut ListRoom,
    counts: &mut BoardCounts,
) -> u8
    ensures counts { Sets (by_majority majority (live_register register.old)) result counts.old counts.new
        (λ s. ShowsCounts majority (published_sheet s) counts.new) }
    ensures unchanged { register.new ≡ register.old }
{
    write_shown_counts(live!(register), majority, room, counts)
}

/// Puts a copy of the register as it was after its first `accepted` commands into another handle,
/// whose register, if any, is freed. The whole register is copied if it has accepted no more. The
/// copy shares nothing with the register.
///
/// # Errors
///
/// Returns the number of a refusal, and leaves `copy` unchanged: 34, `NoRegister`, if the handle
/// has no register; 10, `OutOfMemory`.
#[unsafe(no_mangle)]
pub extern "C" fn board_register_copy(
    alloc: Global,
    register: &mut BoardRegister,
    accepted: u32,
    copy: &mut BoardRegister,
) -> u8
    ensures answer { AnswersCopy (register_in register.old) result }
    ensures copied { (result ≡ DONE) → IsCopied (register_in register.old) accepted copy.new }
    ensures untouched { (result ≡ DONE) ⊎ (copy.new ≡ copy.old) }
    ensures unchanged { register.new ≡ register.old }
{
    match copy_boxed(alloc, live!(register), accepted) {
        Ok(new) => {
            copy.replace(alloc, new);
            DONE
        }
        Err(why) => why.code(),
    }
}

/// Takes the register back, in place, to what it was after its first `accepted` commands; if it has
/// accepted no more, nothing is taken back. Those of its commands that are published stay published,
/// but no more than the first `published`. Needs no memory.
///
/// # Errors
///
/// Returns 34, `NoRegister`, if the handle has no register.
#[unsafe(no_mangle)]
pub extern "C" fn board_register_undo(
    register: &mut BoardRegister,
    accepted: u32,
    published: u32,
) -> u8
    ensures register { Sets (live_register register.old) result register.old register.new
        (λ s. register.new ≡ with_register register.old (sequential_taken_back s accepted published)) }
{
    live!(register).undo_to(accepted, published);
    DONE
}

/// Frees the register of the handle, if it has one. A second call does nothing.
#[unsafe(no_mangle)]
pub extern "C" fn board_register_free(alloc: Global, register: &mut BoardRegister)
    ensures freed { register_in register.new ≡ None }
{
    let _old = register.remove(alloc);
}
