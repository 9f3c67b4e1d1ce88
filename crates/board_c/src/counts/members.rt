//! A board that is given by its members and a mask of open chairs, and the words of its sheet.
ghost use Rattle.std.specs.Prelude.{◌≡◌, ℕ, ◌≤◌, ◌<◌, IfOk, IfErr};
ghost use Rattle.council_core.specs.declared.refusals.Refusal.TheVariants.{BadSheet};
ghost use Rattle.council_core.specs.declared.limits.TheConstants.{CHAIRS, MAX_TOTAL};
ghost use Rattle.council_core.specs.Rolls.{sits_in, effective_votes, votes_in};
ghost use Rattle.c_values.specs.Counts.{IsSheetInRange};
ghost use Rattle.board_c.specs.Members.{standing_of, is_named, member_word, member_total, member_words, IsBoard};

use crate::counts::inputs::sheet_of;
use council_core::{CHAIRS, MAX_TOTAL, Refusal, SHEET_WORDS, Sheet, TOTAL};

/// A member, as `struct board_member` in `board.h`.
#[repr(C)]
#[derive(Clone, Copy, Debug, PartialEq, Eq)]
pub struct BoardMember {
    /// The member's votes.
    pub votes: u64,
    /// The number of the member's chair, from 1 to 32, or 0 for a member in no chair.
    pub chair: u64,
    /// 0 for a member that votes, any other number for a suspended member.
    pub suspended: u64,
}

// The votes of a member that count: 0 if it is suspended.
fn counted_votes(member: &BoardMember) -> u64
    ensures { result ≡ effective_votes (standing_of member.now) }
{
    if member.suspended != 0 {
        0
    } else {
        member.votes
    }
}

// Whether a member sits in this chair, suspended or not.
fn sits(member: &BoardMember, chair: u64) -> bool
    requires positive { 0 < chair }
    ensures sits { result ≡ sits_in chair (standing_of member.now) }
{
    member.chair == chair
}

// The votes that a member adds to the weight of this chair.
fn votes_in(member: &BoardMember, chair: u64) -> u64
    requires positive { 0 < chair }
    ensures votes { result ≡ votes_in chair (standing_of member.now) }
{
    if sits(member, chair) {
        counted_votes(member)
    } else {
        0
    }
}

// Whether the mask names this chair.
fn names(mask: u32, chair: u64) -> bool
    requires positive { 0 < chair }
    requires bound { chair ≤ CHAIRS }
    ensures named { result ≡ is_named mask chair }
{
    (mask >> (chair - 1)) & 1 == 1
}

// The votes of all members that are not suspended.
fn total_of(members: &[BoardMember]) -> Result<u64, Refusal>
    ensures total { IfOk result (λ total. total ≡ member_total members.now) }
    ensures board { IfOk result (λ _. IsBoard members.now) }
    ensures refused { IfErr result (λ why. (why ≡ BadSheet) × (IsBoard members.now → ⊥)) }
{
    let mut total = 0;
    for index in 0..members.len() {
        let votes = counted_votes(&members[index]);
        if members[index].chair > CHAIRS as u64 || votes > MAX_TOTAL - total {
            return Err(Refusal::BadSheet);
        }
        total += votes;
    }
    Ok(total)
}

// The word of this chair.
fn word_of(members: &[BoardMember], mask: u32, chair: u64) -> u64
    requires positive { 0 < chair }
    requires bound { chair ≤ CHAIRS }
    requires small { member_total members.now ≤ MAX_TOTAL }
    ensures word { result ≡ member_word members.now mask chair }
{
    let mut is_taken = false;
    let mut votes = 0;
    for index in 0..members.len() {
        is_taken = is_taken || sits(&members[index], chair);
        votes += votes_in(&members[index], chair);
    }
    if names(mask, chair) || is_taken {
        votes + 1
    } else {
        0
    }
}

// The words of a board's sheet, before any command.
fn words_of_members(members: &[BoardMember], mask: u32) -> Result<[u64; SHEET_WORDS], Refusal>
    ensures same { IfOk result (λ words. words ≡ member_words members.now mask) }
    ensures board { IfOk result (λ _. IsBoard members.now) }
    ensures refused { IfErr result (λ why. (why ≡ BadSheet) × (IsBoard members.now → ⊥)) }
{
    let total = total_of(members)?;
    let mut words = [0; SHEET_WORDS];
    words[TOTAL] = total;
    for index in 0..CHAIRS {
        words[index] = word_of(members, mask, index as u64 + 1);
    }
    Ok(words)
}

// The sheet of a board, before any command.
pub(crate) fn sheet_of_members(members: &[BoardMember], mask: u32) -> Result<Sheet, Refusal>
    ensures same { IfOk result (λ sheet. sheet ≡ member_words members.now mask) }
    ensures whole { IfOk result (λ sheet. IsSheetInRange sheet) }
    ensures board { IfOk result (λ _. IsBoard members.now) }
    ensures refused { IfErr result (λ why. (why ≡ BadSheet) × (IsBoard members.now → ⊥)) }
{
    let words = words_of_members(members, mask)?;
    sheet_of(&words)
}
