//! The counts of a board that is given by the words of its sheet, by weights, or by its members.
ghost use Rattle.std.specs.Prelude.{◌≡◌, ◌⊎◌, None, IfOk, IfErr};
ghost use Rattle.council_core.specs.declared.refusals.Refusal.TheVariants.{BadRecord, BadSheet};
ghost use Rattle.c_values.specs.Counts.{IsSheetInRange, ShowsCounts, ShowsAllCounts};
ghost use Rattle.board_c.specs.Counts.{IsRefusedAs, IsRefusal, IsRefusalOfWords, words_of_weights};
ghost use Rattle.board_c.specs.Members.{member_words, IsBoard, AreRefusedAs, IsRefusalOfMembers};

mod inputs;
mod laws;
mod members;

use crate::DONE;
use crate::answers::answer;
use c_values::{BoardAllCounts, BoardCounts, all_counts_for, counts_by_number};
use council_core::Refusal;
use inputs::{sheet_of, words_at};
pub use laws::members_law;
pub use members::BoardMember;
use members::sheet_of_members;
use power_index::ListRoom;

// The counts of a sheet that is given by its words. Words that are not a sheet's are refused first,
// and then a number that is no majority's.
fn counts_of_words(words: &[u64], number: u32, room: &mut ListRoom) -> Result<BoardCounts, Refusal>
    ensures counts { IfOk result (λ c. ShowsCounts number words.now c) }
    ensures refused { IfErr result (λ why. IsRefusedAs number words.now why) }
{
    let sheet = sheet_of(words)?;
    counts_by_number(&sheet, number, room)
}

// The counts of a board whose first chairs are open with these weights.
fn counts_of_weights(
    weights: &[u64],
    total: u64,
    number: u32,
    room: &mut ListRoom,
) -> Result<BoardCounts, Refusal>
    ensures counts { IfOk result (λ c. ShowsCounts number (words_of_weights weights.now total) c) }
    ensures refused { IfErr result (λ why. IsRefusedAs number (words_of_weights weights.now total) why) }
{
    let words = words_at(weights, total)?;
    counts_of_words(&words, number, room)
}

// The counts of a board that is given by its members and a mask of open chairs.
fn counts_of_members(
    members: &[BoardMember],
    mask: u32,
    number: u32,
    room: &mut ListRoom,
) -> Result<BoardCounts, Refusal>
    ensures counts { IfOk result (λ c. ShowsCounts number (member_words members.now mask) c) }
    ensures board { IfOk result (λ _. IsBoard members.now) }
    ensures refused { IfErr result (λ why. AreRefusedAs number members.now why) }
{
    let sheet = sheet_of_members(members, mask)?;
    counts_by_number(&sheet, number, room)
}

// The counts of a sheet that is given by its words, by each majority.
fn all_counts_of_words(words: &[u64], room: &mut ListRoom) -> Result<BoardAllCounts, Refusal>
    ensures counts { IfOk result (λ c. ShowsAllCounts words.now c) }
    ensures refused { IfErr result (λ why. (why ≡ BadSheet) × (IsSheetInRange words.now → ⊥)) }
{
    let sheet = sheet_of(words)?;
    Ok(all_counts_for(&sheet, room))
}

/// Counts the coalitions of a sheet that win by a majority, and the swings of its open chairs.
///
/// `words` are the 34 words of a sheet. `majority` is 0 for more than half of the votes cast, 1 for
/// at least 70 and 2 for at least 85 per cent of the total, each with at least one vote, and 3 for
/// more than half of the open chairs with at least half of the total. `room` is memory for the
/// lists of the call: its contents before the call have no effect, and are lost. Returns `DONE`
/// after writing `counts`.
///
/// # Errors
///
/// Returns the number of a refusal, and leaves `counts` unchanged:
///
/// - 32, `BadSheet`, if the words are not 34 or not those of a sheet;
/// - otherwise 17, `BadRecord`, if no majority has this number.
#[unsafe(no_mangle)]
pub extern "C" fn board_counts_of_sheet(
    words: &[u64],
    majority: u32,
    room: &mut ListRoom,
    counts: &mut BoardCounts,
) -> u8
    ensures counted { (result ≡ DONE) → ShowsCounts majority words.now counts.new }
    ensures refused { (result ≡ DONE) ⊎ IsRefusal majority words.now result }
    ensures untouched { (result ≡ DONE) ⊎ (counts.new ≡ counts.old) }
{
    answer(counts_of_words(words, majority, room), counts)
}

/// Like `board_counts_of_sheet`, by each of the four majorities, from lists that are built once.
///
/// # Errors
///
/// Returns 32, `BadSheet`, and leaves `counts` unchanged, if the words are not 34 or not those of a
/// sheet.
#[unsafe(no_mangle)]
pub extern "C" fn board_all_counts_of_sheet(
    words: &[u64],
    room: &mut ListRoom,
    counts: &mut BoardAllCounts,
) -> u8
    ensures counted { (result ≡ DONE) → ShowsAllCounts words.now counts.new }
    ensures refused { (result ≡ DONE) ⊎ IsRefusalOfWords words.now result }
    ensures untouched { (result ≡ DONE) ⊎ (counts.new ≡ counts.old) }
{
    answer(all_counts_of_words(words, room), counts)
}

/// Like `board_counts_of_sheet`, for a board without a register: chairs 1, 2 and so on are open,
/// with these weights in votes. `total`, also in votes, is at least their sum and at most 2^48.
///
/// # Errors
///
/// Returns the number of a refusal, and leaves `counts` unchanged:
///
/// - 32, `BadSheet`, if there are more than 32 weights, their sum is above the total, or the total
///   is above 2^48;
/// - otherwise 17, `BadRecord`, if no majority has this number.
///
/// ```text
/// uint64_t weights[3] = {50, 49, 1};
/// board_counts_of_weights(weights, 3, 100, BOARD_HALF, &room, &counts);
/// /* returns 0: counts.quota is 51, counts.omega 3, counts.rows[0].swings 3 */
/// ```
#[unsafe(no_mangle)]
pub extern "C" fn board_counts_of_weights(
    weights: &[u64],
    total: u64,
    majority: u32,
    room: &mut ListRoom,
    counts: &mut BoardCounts,
) -> u8
    ensures counted { (result ≡ DONE) → ShowsCounts majority (words_of_weights weights.now total) counts.new }
    ensures refused { (result ≡ DONE) ⊎ IsRefusal majority (words_of_weights weights.now total) result }
    ensures untouched { (result ≡ DONE) ⊎ (counts.new ≡ counts.old) }
{
    answer(counts_of_weights(weights, total, majority, room), counts)
}

/// Like `board_counts_of_sheet`, for a board that is given by its members, in any order. Chair k is
/// open if bit k - 1 of `open_chairs` is set or a member sits in it, suspended or not. Its weight is
/// the votes of its members that are not suspended. The total is the votes of all members that are
/// not suspended, in a chair or in none.
///
/// # Errors
///
/// Returns the number of a refusal, and leaves `counts` unchanged:
///
/// - 32, `BadSheet`, if a member's chair is above 32, or the total is above 2^48;
/// - otherwise 17, `BadRecord`, if no majority has this number.
#[unsafe(no_mangle)]
pub extern "C" fn board_counts_of_members(
    members: &[BoardMember],
    open_chairs: u32,
    majority: u32,
    room: &mut ListRoom,
    counts: &mut BoardCounts,
) -> u8
    ensures counted { (result ≡ DONE) → ShowsCounts majority (member_words members.now open_chairs) counts.new }
    ensures board { (result ≡ DONE) → IsBoard members.now }
    ensures refused { (result ≡ DONE) ⊎ IsRefusalOfMembers majority members.now result }
    ensures untouched { (result ≡ DONE) ⊎ (counts.new ≡ counts.old) }
{
    answer(
        counts_of_members(members, open_chairs, majority, room),
        counts,
    )
}
