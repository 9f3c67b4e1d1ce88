//! Members as a caller in C gives and gets them.
ghost use Rattle.std.specs.Prelude.{◌≡◌, ◌⊎◌, IfOk, IfErr, Ok, Err};
ghost use Rattle.council_core.specs.declared.refusals.Refusal.TheVariants.{OutOfMemory};
ghost use Rattle.c_values.specs.Given.{entry_as, given_entry, given_opening, row_as};

use crate::codes::{code_for, code_of, seat_for, votes_for, votes_of};
use council_core::{MemberCode, MemberRow, Refusal, Votes};
use std::alloc::Global;

/// A member with which a register starts, as `struct board_entry` in `board.h`.
#[repr(C)]
#[derive(Clone, Copy, Debug, PartialEq, Eq)]
pub struct BoardEntry {
    /// The member's code: three capitals and a 0.
    pub code: [u8; 4],
    /// The member's votes.
    pub votes: u64,
}

/// A member of a register, as `struct board_member_row` in `board.h`.
#[repr(C)]
#[derive(Clone, Copy, Debug, PartialEq, Eq)]
pub struct BoardMemberRow {
    /// The member's code: three capitals and a 0.
    pub code: [u8; 4],
    /// 1 for a suspended member, and 0 for any other.
    pub suspended: u32,
    /// The number of the member's chair, or 0 for a member in none.
    pub chair: u64,
    /// The member's votes, also while it is suspended.
    pub votes: u64,
}

fn entry_of(entry: &BoardEntry) -> Result<(MemberCode, Votes), Refusal>
    ensures { result ≡ given_entry entry.now }
{
    let code = code_of(&entry.code)?;
    let votes = votes_of(entry.votes)?;
    Ok((code, votes))
}

/// The entry that gives a member and its votes.
pub fn entry_for(member: &(MemberCode, Votes)) -> BoardEntry
    ensures written { result ≡ entry_as member.now }
    ensures read_back { given_entry result ≡ Ok member.now }
{
    BoardEntry {
        code: code_for(&member.0),
        votes: votes_for(member.1),
    }
}

/// The members that entries give.
///
/// # Errors
///
/// The refusal of the first entry that gives none: `Refusal::BadMember`, then
/// `Refusal::VotesTooLarge`. `Refusal::OutOfMemory` if memory could not be allocated.
pub fn opening_of(
    alloc: Global,
    entries: &[BoardEntry],
) -> Result<Vec<(MemberCode, Votes)>, Refusal>
    ensures given { IfOk result (λ ms. given_opening entries.now ≡ Ok ms.items) }
    ensures refused { IfErr result (λ why. (why ≡ OutOfMemory) ⊎ (given_opening entries.now ≡ Err why)) }
{
    let mut members = Vec::new(alloc);
    for index in 0..entries.len() {
        let member = entry_of(&entries[index])?;
        members.push(member)?;
    }
    Ok(members)
}

/// The row of a member.
pub fn row_for(row: &MemberRow) -> BoardMemberRow
    ensures written { result ≡ row_as row.now }
{
    BoardMemberRow {
        code: code_for(&row.code),
        suspended: u32::from(row.suspended),
        chair: seat_for(row.chair),
        votes: votes_for(row.votes),
    }
}
